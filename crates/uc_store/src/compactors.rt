//! [`next_compactor`]: a compactor for a store that threads share.
ghost use Rattle.std.specs.Prelude.{◌≡◌, ◌⊎◌, ◌++◌, ◌∷◌, [], All, IfNone, IfSome};

use std::sync::Wait;
use uc_oper::Operator;
use uc_share::{Compactor, Name, Reader, Seat, Store};

/// A compactor with the last of the readers and the last of the seats of a store, if one of each is left. Else both stay as they
/// are.
pub fn next_compactor<O: Operator, N: Name, W: Wait + Drop>(
    store: &Store<O, N, W>,
    readers: &mut Vec<Reader<O, N>>,
    seats: &mut Vec<Seat>,
) -> Option<Compactor<O, N>>
    requires { All (λ seat. seat.table ≡ store.now.table) seats.old.items }
    ensures reader { IfSome result (λ compactor. readers.old.items ≡ readers.new.items ++ compactor.seen ∷ []) }
    ensures seat { IfSome result (λ compactor.
        IfSome compactor.seat (λ seat. seats.old.items ≡ seats.new.items ++ seat ∷ [])) }
    ensures none { IfNone result ((readers.old.items ≡ []) ⊎ (seats.old.items ≡ [])) }
    ensures stay { IfNone result ((readers.new ≡ readers.old) × (seats.new ≡ seats.old)) }
    ensures rest { All (λ seat. seat.table ≡ store.now.table) seats.new.items }
{
    if readers.is_empty() || seats.is_empty() {
        return None;
    }
    let (Some(reader), Some(seat)) = (readers.pop(), seats.pop()) else {
        unreachable!();
    };
    Some(store.compactor(reader, seat))
}
