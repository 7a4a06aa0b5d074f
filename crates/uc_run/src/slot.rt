//! [`Slot`]: where a write's bytes lie in the arena, in 16 bytes.
ghost use Rattle.std.specs.Prelude.{◌≡◌, ◌*◌, ◌+◌, ◌<◌, ◌^◌};
ghost use Rattle.uc_run.specs.Slots as of_slot;
ghost use Rattle.uc_run.specs.Slots.{write_of};

use crate::slot_ref::SlotRef;
use crate::texts::split_front;
use uc_bytes::OpKind;
use uc_run_points::read_number;

/// The number of kinds of changes.
const KINDS: u64 = 4;

/// A write whose bytes are in an arena, up to where those of the next slot start. They are the length of the first byte string as a
/// varint, the first byte string, and the second.
#[derive(Drop)]
pub(crate) struct Slot {
    /// The sequence above two bits of the kind.
    trailer: u64,
    /// Where the bytes start.
    start: usize,
}

/// The number of a kind: its place in [`OpKind`], so that nothing is looked up.
#[inline]
fn kind_number(kind: OpKind) -> u64
    ensures number { result ≡ of_slot.kind_number kind }
    ensures bound { result < 4 }
{
    match kind {
        OpKind::Put => 0,
        OpKind::Delete => 1,
        OpKind::Merge => 2,
        OpKind::DeleteRange => 3,
    }
}

/// The kind of a number.
#[inline]
fn kind_of(number: u64) -> OpKind
    ensures { result ≡ of_slot.kind_of number }
{
    match number {
        0 => OpKind::Put,
        1 => OpKind::Delete,
        2 => OpKind::Merge,
        _ => OpKind::DeleteRange,
    }
}

impl Slot {
    /// The slot of a write of a kind whose bytes start there.
    #[inline]
    pub(crate) fn new(seq: u64, kind: OpKind, start: usize) -> Slot
        requires { seq < 2 ^ 62 }
        ensures { result ≡ record { trailer = of_slot.trailer_of seq kind; start = start } }
    {
        Slot {
            trailer: KINDS * seq + kind_number(kind),
            start,
        }
    }

    /// Where the bytes start.
    #[inline]
    pub(crate) fn start(&self) -> usize
        ensures { result ≡ self.now.start }
    {
        self.start
    }

    /// The write that the slot encodes with its bytes.
    #[inline]
    pub(crate) fn read<'t>(&self, bytes: &'t [u8]) -> SlotRef<'t>
        ensures { result ≡ write_of self.now.trailer bytes.now }
    {
        let (first_len, texts) = read_number(bytes);
        let (first, second) = split_front(texts, first_len as usize);
        SlotRef::new(
            self.trailer / KINDS,
            kind_of(self.trailer % KINDS),
            first,
            second,
        )
    }
}
