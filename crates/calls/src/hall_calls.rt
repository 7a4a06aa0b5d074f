//! Calls of a store that threads share.
ghost use Rattle.std.specs.Prelude.{◌≡◌, false};
ghost use Rattle.uc_share.specs.Stores.{IsNamed};

use crate::hall::Hall;
use crate::hall_changes::{ask, ask_pin};
use crate::hall_pins::{self, make, write_shown};
use crate::input::Input;
use crate::out::Out;
use crate::places::{Commas, places_of};
use crate::said;
use crate::talk::Talk;
use crate::versions::{options, write_version};
use std::alloc::Global;
use std::io;
use std::marker::{Brand, Send, Sync};
use std::sync::Wait;
use std::thread::Threads;
use std::time::Clock;
use uc_share::{Name, OpenError, Opening};

/// Reads the numbers of readers and seats, options, snapshots and writes. Returns a store without a name, or the reason for an error.
fn opened(
    alloc: Global,
    call: &mut Input<'_>,
    out: &mut Out,
) -> Result<Opening<Commas>, OpenError> {
    let (readers, seats, options) = (call.place(), call.place(), options(call));
    let keeps = call.numbers(alloc)?;
    match said::rising(alloc, call, out) {
        Some(writes) => Opening::open(alloc, &writes, &keeps, options, readers, seats),
        None => Err(OpenError::Memory),
    }
}

/// Reads the arguments of `opened`, and returns a store without a name. Writes its version, or the reason why it isn't opened.
fn open(alloc: Global, call: &mut Input<'_>, out: &mut Out) -> Option<Opening<Commas>> {
    match opened(alloc, call, out) {
        Ok(opening) => {
            out.flag(true);
            write_version(out, opening.version());
            Some(opening)
        }
        Err(OpenError::Memory) => {
            out.want();
            None
        }
        Err(error) => {
            out.flag(false);
            out.name(alloc, &error);
            out.text(alloc, &error);
            None
        }
    }
}

/// Writes the state of a store: the shown version, the numbers of readers, pins and compactions, and the free seats.
fn look<N, W, R>(hall: &mut Hall<'_, N, W, R>, out: &mut Out)
where
    N: Name,
    W: Wait + Drop,
{
    match hall.readers.get_mut(0) {
        Some(reader) => write_shown(out, reader),
        None => out.refuse(),
    }
    out.place(hall.readers.len());
    out.place(hall.pins.len());
    out.place(hall.made.len());
    for place in &hall.places {
        let (is_free, is_claimed) = place.has();
        out.flag(is_free);
        out.flag(is_claimed);
    }
}

/// Makes a call.
fn play<N, W, R>(hall: &mut Hall<'_, N, W, R>, call: &mut Input<'_>, out: &mut Out)
where
    N: Name + Send,
    W: Wait + Drop,
    R: Threads + Wait + Sync,
{
    let kind = call.number();
    match kind {
        0 => look(hall, out),
        1 | 12 | 13 | 14 => hall.play_reader(kind, call, out),
        2 => hall_pins::look(&hall.pins, call, out),
        3 | 4 | 6 | 9 | 10 => hall.play_place(kind, call, out),
        5 | 8 | 11 => hall.play_both(kind, call, out),
        7 => make(hall.rt, hall.alloc, &hall.pins, &mut hall.made, call, out),
        15 => ask_pin(hall.alloc, &hall.pins, call, out),
        16 => ask(hall.rt, hall.alloc, &mut hall.readers, call, out),
        _ => out.refuse(),
    }
}

/// Makes all calls in a store.
fn play_at<N, W, R>(hall: &mut Hall<'_, N, W, R>, talk: &mut Talk<'_>) -> io::Result<()>
where
    N: Name + Send,
    W: Wait + Drop,
    R: Threads + Wait + Clock + Sync + Print,
{
    let (rt, alloc) = (hall.rt, hall.alloc);
    for _ in 0..u64::MAX {
        let Some(mut call) = talk.next(rt, alloc) else {
            break;
        };
        play(hall, &mut call, talk.answer());
        talk.end(rt, alloc, call)?;
    }
    Ok(())
}

/// Names a store, and makes all calls in it. Returns the store without a name if allocation of the name fails.
fn play_named<N, R>(
    rt: &R,
    alloc: Global,
    opening: Opening<Commas>,
    talk: &mut Talk<'_>,
) -> Result<io::Result<()>, Opening<Commas>>
where
    N: Name + Send,
    R: Threads + Wait + Clock + Sync + Print,
    requires name { IsNamed opening N.book N.table N.base }
    requires keeps { N.keeps_stay ≡ false }
{
    let Some(call) = talk.next(rt, alloc) else {
        return Ok(Ok(()));
    };
    let (store, readers, seats) = match opening.named::<N, &R>(alloc, rt) {
        Ok(named) => named,
        Err((opening, _)) => {
            talk.answer().want();
            let _ended = talk.end(rt, alloc, call);
            return Err(opening);
        }
    };
    let _ended = talk.end(rt, alloc, call);
    let places = match places_of(alloc, seats) {
        Ok(places) => places,
        Err(error) => return Ok(Err(io::Error::from(error))),
    };
    let mut hall = Hall::new(rt, alloc, &store, readers, places);
    Ok(play_at(&mut hall, talk))
}

/// Makes all calls in an opened store. The first gives it a name.
fn play_opened<R>(
    rt: &R,
    alloc: Global,
    opening: Opening<Commas>,
    talk: &mut Talk<'_>,
) -> io::Result<()>
where
    R: Threads + Wait + Clock + Sync + Print,
{
    let mut opening = opening;
    for _ in 0..u64::MAX {
        match play_named::<Brand, R>(rt, alloc, opening, talk) {
            Ok(played) => return played,
            Err(back) => opening = back,
        }
    }
    Ok(())
}

/// Makes all calls. The first opens a store.
pub(crate) fn play_all<R>(rt: &R, alloc: Global, talk: &mut Talk<'_>) -> io::Result<()>
where
    R: Threads + Wait + Clock + Sync + Print,
{
    for _ in 0..u64::MAX {
        let Some(mut call) = talk.next(rt, alloc) else {
            break;
        };
        let opening = open(alloc, &mut call, talk.answer());
        talk.end(rt, alloc, call)?;
        if let Some(opening) = opening {
            return play_opened(rt, alloc, opening, talk);
        }
    }
    Ok(())
}
