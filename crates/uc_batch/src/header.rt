//! [`Header`]: the sequence and the count at the front of a batch.
ghost use Rattle.std.specs.Prelude.{◌≡◌, ◌<◌, ◌≤◌, ◌+◌, ◌^◌, length, take, drop, MatchOption, OnOk};
ghost use Rattle.std.specs.Int.{w32, w64, from_le_bytes};
ghost use Rattle.uc_batch.specs.Reads.{Exactly};
ghost use Rattle.uc_batch.specs.Batch.{judged, last_numbered};

use crate::error::BatchError;
use uc_bytes::MAX_SEQUENCE;

/// The bytes of a batch's sequence and count.
pub(crate) const HEADER_SIZE: usize = 12;

/// The header before a batch's records.
#[derive(Clone, Copy)]
pub struct Header {
    /// The sequence of the first operation.
    pub sequence: u64,
    /// The number of operations.
    pub count: u32,
}

impl Header {
    /// The header of a batch without operations.
    pub const EMPTY: Header = Header {
        sequence: 0,
        count: 0,
    };

    /// The header at the front, and the bytes after it; `None` if there are fewer than its 12 bytes.
    pub(crate) fn split(bytes: &[u8]) -> Option<(Header, &[u8])>
        ensures long { MatchOption result (length bytes.now < 12) (λ found. 12 ≤ length bytes.now) }
        ensures sequence { MatchOption result (length bytes.now < 12) (λ found.
            found.0.sequence ≡ from_le_bytes w64 (take 8 bytes.now)) }
        ensures count { MatchOption result (length bytes.now < 12) (λ found.
            found.0.count ≡ from_le_bytes w32 (take 4 (drop 8 bytes.now))) }
        ensures body { MatchOption result (length bytes.now < 12) (λ found. found.1.now ≡ drop 12 bytes.now) }
    {
        let (sequence, rest) = bytes.split_first_chunk::<8>()?;
        let (count, body) = rest.split_first_chunk::<4>()?;
        let sequence = u64::from_le_bytes(*sequence);
        let count = u32::from_le_bytes(*count);
        Some((Header { sequence, count }, body))
    }

    /// Rejects a sequence number that isn't above the last one used, or that leaves too few numbers for the operations. The
    /// sequence number of a batch without operations is ignored.
    #[tactic(auto, unfolding(crate::specs::Batch::judged))]
    pub(crate) fn judge(self, last: u64) -> Result<(), BatchError>
        ensures value { Exactly (λ _. self.sequence) result (judged last self.sequence self.count) }
        ensures above { OnOk result (0 < self.count → last < self.sequence) }
        ensures room { OnOk result (0 < self.count → self.sequence + self.count ≤ 2 ^ 56) }
    {
        if self.count == 0 {
            return Ok(());
        }
        if self.sequence <= last {
            return Err(BatchError::SequenceBack(last));
        }
        if self.sequence > MAX_SEQUENCE
            || u64::from(self.count) - 1 > MAX_SEQUENCE - self.sequence
        {
            return Err(BatchError::SequenceTooLarge);
        }
        Ok(())
    }

    /// The last sequence used after the batch, if `last` was the last one before it.
    pub fn last_used(self, last: u64) -> u64
        requires { 0 < self.count → self.sequence + self.count ≤ 2 ^ 56 }
        ensures { result ≡ last_numbered last self.sequence self.count }
    {
        if self.count == 0 {
            return last;
        }
        self.sequence + (u64::from(self.count) - 1)
    }
}
