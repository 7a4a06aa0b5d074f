//! Four threads that take and return slots of one table.
ghost use Rattle.std.specs.Prelude.{◌≡◌};

use crate::dice::Dice;
use crate::slots::{are_below, are_distinct};
use std::array;
use std::sync::atomic::{AtomicU64, Ordering};
use std::test::Fail;
use std::thread::{Threads, join};
use uc_claims::{ClaimTable, MOST_SLOTS, Seat};

const COUNT: usize = MOST_SLOTS;

const ROUNDS: u32 = 10_000;

// Returns the first and the last slot of each group of 64, in random order.
fn shuffled(draws: &mut Dice) -> [usize; 8] {
    let mut slots = [0, 63, 64, 127, 128, 191, 192, 255];
    for place in 0..8 {
        slots.swap(place, draws.roll(8) as usize);
    }
    slots
}

// Increments the counters of slots. Returns true if each was 0.
fn enter(counters: &[AtomicU64; COUNT], slots: &[usize]) -> bool {
    slots.iter().all(|slot| counters[*slot % COUNT].fetch_add(1, Ordering::SeqCst) == 0)
}

// Decrements the counters of slots. Returns true if each was 1.
fn leave(counters: &[AtomicU64; COUNT], slots: &[usize]) -> bool {
    slots.iter().all(|slot| counters[*slot % COUNT].fetch_sub(1, Ordering::SeqCst) == 1)
}

// Takes and returns random slots. Returns true if no other thread had a slot at the same time.
fn work(
    table: &ClaimTable,
    mut seat: Seat,
    counters: &[AtomicU64; COUNT],
    seed: u64,
) -> (Seat, bool)
    requires table { seat.table ≡ table.now.table }
    requires count { table.now.count ≡ COUNT }
    ensures { result.0.table ≡ table.now.table }
{
    let mut draws = Dice::new(seed);
    let mut alone = true;
    for _ in 0..ROUNDS {
        let order = shuffled(&mut draws);
        let slots = &order[..draws.roll(5) as usize];
        if !are_distinct(slots) || !are_below(slots, COUNT) {
            return (seat, false);
        }
        seat = match table.take(seat, slots) {
            Ok(held) => {
                alone = enter(counters, slots) && alone;
                alone = leave(counters, slots) && alone;
                table.give(held)
            }
            Err((seat, _)) => seat,
        };
    }
    (seat, alone)
}

// Runs two threads, and joins their seats.
fn work_twice<R: Threads + Sync>(
    rt: &R,
    table: &ClaimTable,
    seat: Seat,
    counters: &[AtomicU64; COUNT],
    seeds: (u64, u64),
) -> (Seat, bool)
    requires table { seat.table ≡ table.now.table }
    requires count { table.now.count ≡ COUNT }
    ensures { result.0.table ≡ table.now.table }
{
    let (a, b) = table.split(seat);
    let ((a, first), (b, second)) = join(
        rt,
        move || -> (Seat, bool)
            requires { (a.table ≡ table.now.table) × (table.now.count ≡ COUNT) }
            ensures { result.0.table ≡ table.entry.now.table }
        { work(table, a, counters, seeds.0) },
        move || -> (Seat, bool)
            requires { (b.table ≡ table.now.table) × (table.now.count ≡ COUNT) }
            ensures { result.0.table ≡ table.entry.now.table }
        { work(table, b, counters, seeds.1) },
    );
    (table.join(a, b), first && second)
}

// Runs four threads, and joins their seats.
fn work_four_times<R: Threads + Sync>(
    rt: &R,
    table: &ClaimTable,
    seat: Seat,
    counters: &[AtomicU64; COUNT],
) -> (Seat, bool)
    requires table { seat.table ≡ table.now.table }
    requires count { table.now.count ≡ COUNT }
    ensures { result.0.table ≡ table.now.table }
{
    let (a, b) = table.split(seat);
    let ((a, first), (b, second)) = join(
        rt,
        move || -> (Seat, bool)
            requires { (a.table ≡ table.now.table) × (table.now.count ≡ COUNT) }
            ensures { result.0.table ≡ table.entry.now.table }
        { work_twice(rt, table, a, counters, (1, 2)) },
        move || -> (Seat, bool)
            requires { (b.table ≡ table.now.table) × (table.now.count ≡ COUNT) }
            ensures { result.0.table ≡ table.entry.now.table }
        { work_twice(rt, table, b, counters, (3, 4)) },
    );
    (table.join(a, b), first && second)
}

#[test]
fn no_slot_is_in_two_threads(rt: HostRuntime) -> Result<(), Fail> {
    let (table, seat) = ClaimTable::new(rt.alloc(), COUNT)?;
    let counters = array::from_fn(|_| AtomicU64::new(0));
    let (seat, alone) = work_four_times(&rt, &table, seat, &counters);
    assert!(rt; alone);
    assert!(rt; table.close(seat) == [false; MOST_SLOTS]);
    Ok(())
}
