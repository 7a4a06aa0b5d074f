//! Calls of a table of slots, which two seats claim and return.
ghost use Rattle.std.specs.Prelude.{◌≡◌, IfOk};

use crate::input::Input;
use crate::out::{Halt, Out};
use crate::said;
use crate::slot_lists::{are_below, are_distinct, holds_all};
use crate::talk::Talk;
use std::alloc::Global;
use std::io;
use std::time::Clock;
use uc_claims::{ClaimTable, HeldSlots, MOST_SLOTS};

/// Takes slots. Writes true, or the number of a slot that is taken and the library's error message.
fn take(
    alloc: Global,
    table: &ClaimTable,
    held: &mut HeldSlots,
    slots: &[usize],
    count: usize,
    out: &mut Out,
)
    requires table { held.old.table ≡ table.now.table }
    requires count { table.now.count ≡ count }
    ensures { held.new.table ≡ table.now.table }
{
    if !are_distinct(slots) || !are_below(slots, count) {
        return out.refuse();
    }
    match table.take_more_in_place(held, slots) {
        Ok(()) => out.flag(true),
        Err(busy) => {
            out.flag(false);
            out.place(busy.0);
            out.text(alloc, &busy);
        }
    }
}

/// Returns held slots to the table.
fn give(table: &ClaimTable, held: &mut HeldSlots, slots: &[usize], out: &mut Out)
    requires table { held.old.table ≡ table.now.table }
    ensures { held.new.table ≡ table.now.table }
{
    if !are_distinct(slots) || !holds_all(held, slots) {
        return out.refuse();
    }
    table.give_some_in_place(held, slots);
}

/// Writes a flag for each slot that is set if the seat holds it, and one for the number after the last slot.
fn look(held: &HeldSlots, count: usize, out: &mut Out) {
    for slot in 0..=count {
        out.flag(held.has(slot));
    }
}

/// Makes a call of one seat: kind 0 takes slots, 1 returns them, and 2 writes which are held.
fn play(
    alloc: Global,
    table: &ClaimTable,
    held: &mut HeldSlots,
    kind: u64,
    slots: &[usize],
    count: usize,
    out: &mut Out,
)
    requires table { held.old.table ≡ table.now.table }
    requires count { table.now.count ≡ count }
    ensures { held.new.table ≡ table.now.table }
{
    match kind {
        0 => take(alloc, table, held, slots, count, out),
        1 => give(table, held, slots, out),
        _ => look(held, count, out),
    }
}

/// Reads a kind, a flag that is set for the second seat, and slots. Makes that seat's call.
fn play_one(
    alloc: Global,
    table: &ClaimTable,
    one: &mut HeldSlots,
    other: &mut HeldSlots,
    count: usize,
    call: &mut Input<'_>,
    out: &mut Out,
)
    requires one { one.old.table ≡ table.now.table }
    requires other { other.old.table ≡ table.now.table }
    requires count { table.now.count ≡ count }
    ensures one { one.new.table ≡ table.now.table }
    ensures other { other.new.table ≡ table.now.table }
{
    let (kind, is_second) = (call.number(), call.flag());
    match said::list::<usize>(alloc, call) {
        Ok(slots) => {
            if is_second {
                play(alloc, table, other, kind, &slots, count, out);
            } else {
                play(alloc, table, one, kind, &slots, count, out);
            }
        }
        Err(_) => out.want(),
    }
}

/// Makes all calls.
fn play_at(
    rt: &(impl Clock + Print),
    alloc: Global,
    table: &ClaimTable,
    one: &mut HeldSlots,
    other: &mut HeldSlots,
    count: usize,
    talk: &mut Talk<'_>,
) -> io::Result<()>
    requires one { one.old.table ≡ table.now.table }
    requires other { other.old.table ≡ table.now.table }
    requires count { table.now.count ≡ count }
    ensures one { one.new.table ≡ table.now.table }
    ensures other { other.new.table ≡ table.now.table }
{
    for _ in 0..u64::MAX {
        let Some(mut call) = talk.next(rt, alloc) else {
            break;
        };
        play_one(alloc, table, one, other, count, &mut call, talk.answer());
        talk.end(rt, alloc, call)?;
    }
    Ok(())
}

/// Drops the first seat with its slots, and returns the second seat's slots. Writes which slots are taken: as this seat sees them, and
/// as the table has them in the end.
fn close(table: ClaimTable, one: HeldSlots, other: HeldSlots, count: usize, out: &mut Out)
    requires one { one.table ≡ table.table }
    requires other { other.table ≡ table.table }
    requires count { table.count ≡ count }
{
    drop(one);
    let mut seat = table.give(other);
    for slot in 0..count {
        out.flag(table.busy(&mut seat, slot));
    }
    for taken in &table.close(seat) {
        out.flag(*taken);
    }
}

/// Makes all calls by two seats of a table, and closes the table.
fn play_table(
    rt: &(impl Clock + Print),
    alloc: Global,
    table: ClaimTable,
    one: HeldSlots,
    other: HeldSlots,
    count: usize,
    talk: &mut Talk<'_>,
) -> io::Result<()>
    requires one { one.table ≡ table.table }
    requires other { other.table ≡ table.table }
    requires count { table.count ≡ count }
{
    let (mut one, mut other) = (one, other);
    let played = play_at(rt, alloc, &table, &mut one, &mut other, count, talk);
    talk.answer().clear();
    close(table, one, other, count, talk.answer());
    talk.end(rt, alloc, Input::new(&[]))?;
    played
}

/// Returns a table, and two seats that hold no slots.
fn open(alloc: Global, count: usize) -> Result<(ClaimTable, HeldSlots, HeldSlots), Halt>
    ensures one { IfOk result (λ r. r.1.table ≡ r.0.table) }
    ensures other { IfOk result (λ r. r.2.table ≡ r.0.table) }
    ensures count { IfOk result (λ r. r.0.count ≡ count) }
{
    if count == 0 || MOST_SLOTS < count {
        return Err(Halt::Refused);
    }
    let (table, seat) = ClaimTable::new(alloc, count)?;
    let (one, other) = table.split(seat);
    match (table.take(one, &[]), table.take(other, &[])) {
        (Ok(one), Ok(other)) => Ok((table, one, other)),
        _ => Err(Halt::Refused),
    }
}

/// Makes all calls. The first reads the number of slots, and opens the table.
pub(crate) fn play_all(
    rt: &(impl Clock + Print),
    alloc: Global,
    talk: &mut Talk<'_>,
) -> io::Result<()> {
    for _ in 0..u64::MAX {
        let Some(mut call) = talk.next(rt, alloc) else {
            break;
        };
        let count = call.place();
        match open(alloc, count) {
            Ok((table, one, other)) => {
                talk.end(rt, alloc, call)?;
                return play_table(rt, alloc, table, one, other, count, talk);
            }
            Err(halt) => {
                talk.answer().stop(halt);
                talk.end(rt, alloc, call)?;
            }
        }
    }
    Ok(())
}
