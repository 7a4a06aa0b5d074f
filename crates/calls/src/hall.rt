//! [`Hall`]: a store that threads share, with the readers and seats that calls use in turn.
ghost use Rattle.std.specs.Prelude.{◌≡◌, false};

use crate::hall_changes::{abandon, drop_claim, feed, install, keep, release, turn};
use crate::hall_pins::{busy, claim, compact_claim, pick, pin};
use crate::input::Input;
use crate::out::{Halt, Out};
use crate::places::{Commas, Place};
use std::alloc::{AllocError, Global};
use std::marker::{Send, Sync};
use std::sync::Wait;
use std::thread::Threads;
use uc_compact::Compacted;
use uc_share::{Name, Pin, Reader, Store};

/// A store, its readers and its places, and pins and compactions, each under a number.
pub(crate) struct Hall<'a, N: Name, W: Wait + Drop, R> {
    pub(crate) rt: &'a R,
    pub(crate) alloc: Global,
    pub(crate) store: &'a Store<Commas, N, W>,
    pub(crate) readers: Vec<Reader<Commas, N>>,
    pub(crate) places: Vec<Place<N>>,
    pub(crate) pins: Vec<(u64, Pin<Commas, N>)>,
    pub(crate) made: Vec<(u64, Compacted<Commas>)>,
    ghost table: { store.now.table ≡ N.table },
    ghost keeps: { N.keeps_stay ≡ false },
}

// A destructor of its own: where a value is dropped, the proof of a caller has one call, and not one for each field.
impl<N: Name, W: Wait + Drop, R> Drop for Hall<'_, N, W, R> {
    fn drop(self) {
        let Hall {
            rt: _,
            alloc: _,
            store: _,
            readers: _,
            places: _,
            pins: _,
            made: _,
        } = self;
    }
}

/// Returns the index of the last value with a number.
fn place_of<T>(list: &[(u64, T)], number: u64) -> Option<usize> {
    for (place, (known, _)) in list.iter().enumerate().rev() {
        if *known == number {
            return Some(place);
        }
    }
    None
}

/// Returns the last value with a number.
pub(crate) fn numbered<T>(list: &[(u64, T)], number: u64) -> Option<&T> {
    match place_of(list, number) {
        Some(place) if place < list.len() => Some(&list[place].1),
        _ => None,
    }
}

/// Removes and returns the last value with a number.
pub(crate) fn take_numbered<T>(list: &mut Vec<(u64, T)>, number: u64) -> Result<T, Halt> {
    match place_of(list, number) {
        Some(place) if place < list.len() => Ok(list.remove(place).1),
        _ => Err(Halt::Refused),
    }
}

/// Appends a value under a number. Doesn't allocate if the list has capacity.
pub(crate) fn put_numbered<T: Drop>(
    list: &mut Vec<(u64, T)>,
    number: u64,
    value: T,
) -> Result<(), AllocError> {
    list.push((number, value))?;
    Ok(())
}

impl<'a, N, W, R> Hall<'a, N, W, R>
where
    N: Name + Send,
    W: Wait + Drop,
    R: Threads + Wait + Sync,
{
    /// Returns the hall of a store, with no pins and no compactions.
    pub(crate) fn new(
        rt: &'a R,
        alloc: Global,
        store: &'a Store<Commas, N, W>,
        readers: Vec<Reader<Commas, N>>,
        places: Vec<Place<N>>,
    ) -> Hall<'a, N, W, R>
        requires table { store.now.table ≡ N.table }
        requires keeps { N.keeps_stay ≡ false }
    {
        Hall {
            rt,
            alloc,
            store,
            readers,
            places,
            pins: Vec::new(alloc),
            made: Vec::new(alloc),
        }
    }

    /// Reads the number of a reader, and makes a call of it.
    pub(crate) fn play_reader(&mut self, kind: u64, call: &mut Input<'_>, out: &mut Out) {
        let (rt, alloc, store) = (self.rt, self.alloc, self.store);
        match self.readers.get_mut(call.place()) {
            Some(reader) => match kind {
                1 => pin(reader, &mut self.pins, call, out),
                12 => feed(rt, alloc, store, reader, call, out),
                13 => keep(rt, alloc, store, reader, out),
                _ => release(rt, alloc, store, reader, call, out),
            },
            None => out.refuse(),
        }
    }

    /// Reads the number of a place, and makes a call of it.
    pub(crate) fn play_place(&mut self, kind: u64, call: &mut Input<'_>, out: &mut Out) {
        let (rt, alloc, store) = (self.rt, self.alloc, self.store);
        let Some(place) = self.places.get_mut(call.place()) else {
            return out.refuse();
        };
        let ended = match kind {
            3 => return pick(store, place, &self.pins, call, out),
            4 => busy(store, place, out),
            6 => return compact_claim(rt, alloc, place, &mut self.made, call, out),
            9 => abandon(store, place, &mut self.pins, call),
            _ => drop_claim(place),
        };
        out.end(ended);
    }

    /// Reads a number, and makes a call of the reader and the place with that number.
    pub(crate) fn play_both(&mut self, kind: u64, call: &mut Input<'_>, out: &mut Out) {
        let (rt, alloc, store, who) = (self.rt, self.alloc, self.store, call.place());
        let (Some(reader), Some(place)) = (self.readers.get_mut(who), self.places.get_mut(who))
        else {
            return out.refuse();
        };
        let ended = match kind {
            5 => claim(alloc, store, reader, place, &mut self.pins, call, out),
            8 => install(rt, alloc, store, reader, place, &mut self.made, call, out),
            _ => turn(rt, alloc, store, reader, place, out),
        };
        out.end(ended);
    }
}
