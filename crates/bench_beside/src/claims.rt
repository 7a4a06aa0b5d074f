//! Takes and returns of slots by 1, 2 or 4 threads, for `bench/claims`.
ghost use Rattle.std.specs.Prelude.{◌≡◌, ◌<◌, All};
ghost use Rattle.uc_claims.specs.Holding.{AreDistinct};

use std::alloc::Global;
use std::marker::Sync;
use std::thread::{Threads, join};
use std::time::{Clock, Instant};
use uc_claims::{ClaimTable, MOST_SLOTS, Seat};

const COUNT: usize = MOST_SLOTS;

/// The work of each thread: the layout of its slots, and the number of rounds.
#[derive(Clone, Copy)]
pub(crate) struct Claims {
    /// With 0 each thread has two adjacent slots of its own, and with 1 no two threads share a cache line. Otherwise all take the same two.
    pub(crate) layout: u64,
    pub(crate) rounds: u64,
}

/// Returns the slots of a thread.
fn asked(thread: u64, layout: u64) -> &'static [usize]
    ensures distinct { AreDistinct result.now }
    ensures below { All (λ slot. slot < COUNT) result.now }
{
    match (layout, thread) {
        (0, 1) => &[2, 3],
        (0, 2) => &[4, 5],
        (0, 3) => &[6, 7],
        (1, 1) => &[16, 17],
        (1, 2) => &[32, 33],
        (1, 3) => &[48, 49],
        _ => &[0, 1],
    }
}

/// Makes the rounds of one thread. Returns the number of successful takes.
fn work(table: &ClaimTable, mut seat: Seat, thread: u64, claims: Claims) -> (Seat, u64)
    requires table { seat.table ≡ table.now.table }
    requires count { table.now.count ≡ COUNT }
    ensures { result.0.table ≡ table.now.table }
{
    let slots = asked(thread, claims.layout);
    let mut won = 0_u64;
    for _ in 0..claims.rounds {
        seat = match table.take(seat, slots) {
            Ok(held) => {
                won = won.wrapping_add(1);
                table.give(held)
            }
            Err((seat, _)) => seat,
        };
    }
    (seat, won)
}

/// Makes the rounds of two threads.
fn work_two<R: Threads + Sync>(
    rt: &R,
    table: &ClaimTable,
    seat: Seat,
    first: u64,
    claims: Claims,
) -> (Seat, u64)
    requires table { seat.table ≡ table.now.table }
    requires count { table.now.count ≡ COUNT }
    ensures { result.0.table ≡ table.now.table }
{
    let (a, b) = table.split(seat);
    let second = first.wrapping_add(1);
    let ((a, x), (b, y)) = join(
        rt,
        move || -> (Seat, u64)
            requires { (a.table ≡ table.now.table) × (table.now.count ≡ COUNT) }
            ensures { result.0.table ≡ table.entry.now.table }
        { work(table, a, first, claims) },
        move || -> (Seat, u64)
            requires { (b.table ≡ table.now.table) × (table.now.count ≡ COUNT) }
            ensures { result.0.table ≡ table.entry.now.table }
        { work(table, b, second, claims) },
    );
    (table.join(a, b), x.wrapping_add(y))
}

/// Makes the rounds of four threads.
fn work_four<R: Threads + Sync>(
    rt: &R,
    table: &ClaimTable,
    seat: Seat,
    claims: Claims,
) -> (Seat, u64)
    requires table { seat.table ≡ table.now.table }
    requires count { table.now.count ≡ COUNT }
    ensures { result.0.table ≡ table.now.table }
{
    let (a, b) = table.split(seat);
    let ((a, x), (b, y)) = join(
        rt,
        move || -> (Seat, u64)
            requires { (a.table ≡ table.now.table) × (table.now.count ≡ COUNT) }
            ensures { result.0.table ≡ table.entry.now.table }
        { work_two(rt, table, a, 0, claims) },
        move || -> (Seat, u64)
            requires { (b.table ≡ table.now.table) × (table.now.count ≡ COUNT) }
            ensures { result.0.table ≡ table.entry.now.table }
        { work_two(rt, table, b, 2, claims) },
    );
    (table.join(a, b), x.wrapping_add(y))
}

/// Makes the rounds of all threads on a new table. Returns the nanoseconds and the number of successful takes, or `None` if a slot
/// stays taken.
pub(crate) fn claimed<R: Threads + Clock + Sync>(
    rt: &R,
    alloc: Global,
    threads: u64,
    claims: Claims,
) -> Option<(u64, u64)> {
    let (table, seat) = ClaimTable::new(alloc, COUNT).ok()?;
    let start = Instant::now(rt).ok()?;
    let (seat, won) = match threads {
        1 => work(&table, seat, 0, claims),
        2 => work_two(rt, &table, seat, 0, claims),
        _ => work_four(rt, &table, seat, claims),
    };
    let time = start.elapsed(rt).ok()?;
    let is_free = table.close(seat) == [false; MOST_SLOTS];
    is_free.then_some((u64::try_from(time.as_nanos()).unwrap_or(u64::MAX), won))
}
