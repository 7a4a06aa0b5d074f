//! Pieces drawn by one seat, and by two threads with a seat each.
ghost use Rattle.std.specs.Prelude.{◌≡◌, ◌<◌, [], true};
ghost use Rattle.uc_query_workers.specs.Draws.{past};

use std::array;
use std::sync::atomic::{AtomicU64, Ordering};
use std::test::Fail;
use std::thread::{Threads, join};
use uc_query_workers::{PieceCounter, PieceSeat, draw_laws};

const PIECES: usize = 1_000;

#[test]
fn a_lone_seat_draws_all(rt: HostRuntime) -> Result<(), Fail> {
    let (counter, mut seat) = PieceCounter::new(rt.alloc(), 2, 1)?;
    let Some(first) = counter.draw(&mut seat) else {
        panic!(rt; "two pieces are left")
    };
    let Some(second) = counter.draw(&mut seat) else {
        panic!(rt; "one piece is left")
    };
    assert!(rt; first == 0 && second == 1);
    if counter.draw(&mut seat).is_some() {
        panic!(rt; "no piece is left")
    }
    counter.recall_all_drawn(&mut seat);
    Ok(())
}

#[test]
fn no_pieces(rt: HostRuntime) -> Result<(), Fail> {
    let (counter, mut seat) = PieceCounter::new(rt.alloc(), 0, 1)?;
    assert!(rt; counter.draw(&mut seat).is_none());
    draw_laws::numbers_are_drawn_once();
    Ok(())
}

/// Draws until no piece is left, and increments the counter of each piece. Returns true if no piece was left.
fn work(
    counter: &PieceCounter,
    mut seat: PieceSeat,
    drawn: &[AtomicU64; PIECES],
) -> (PieceSeat, bool)
    requires table { seat.table ≡ counter.now.table }
    requires may { past counter.now.pieces seat.numbers < seat.parts }
    ensures table { result.0.table ≡ counter.now.table }
    ensures parts { (result.0.parts ≡ seat.parts) × (result.0.all ≡ seat.all) }
    ensures end { result.1 ≡ true → 0 < past counter.now.pieces result.0.numbers }
{
    for _ in 0..=PIECES {
        match counter.draw(&mut seat) {
            Some(piece) => {
                drawn[piece as usize % PIECES].fetch_add(1, Ordering::SeqCst);
            }
            None => return (seat, true),
        }
    }
    (seat, false)
}

/// Draws in two threads, each with its own seat. Returns true if no piece was left for either.
fn work_twice<R: Threads + Sync>(
    rt: &R,
    counter: &PieceCounter,
    mut seat: PieceSeat,
    drawn: &[AtomicU64; PIECES],
) -> bool
    requires table { seat.table ≡ counter.now.table }
    requires parts { seat.parts ≡ 2 }
    requires none_drawn { seat.numbers ≡ [] }
{
    let other = counter.split(&mut seat);
    let ((_, one_met), (_, other_met)) = join(
        rt,
        move || -> (PieceSeat, bool)
            requires { (seat.table ≡ counter.now.table) × (past counter.now.pieces seat.numbers < seat.parts) }
        { work(counter, seat, drawn) },
        move || -> (PieceSeat, bool)
            requires { (other.table ≡ counter.now.table) × (past counter.now.pieces other.numbers < other.parts) }
        { work(counter, other, drawn) },
    );
    one_met && other_met
}

#[test]
fn two_threads_draw_each_piece_once(rt: HostRuntime) -> Result<(), Fail> {
    let (counter, seat) = PieceCounter::new(rt.alloc(), PIECES as u64, 2)?;
    let drawn = array::from_fn(|_| AtomicU64::new(0));
    assert!(rt; work_twice(&rt, &counter, seat, &drawn));
    for times in &drawn {
        assert_eq!(rt; times.load(Ordering::SeqCst), 1);
    }
    Ok(())
}
