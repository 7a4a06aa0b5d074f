//! [`Status`]: the answer of a function of this library.
ghost use Rattle.std.specs.Prelude.{◌≡◌, List, [], ◌∷◌, ℤ, pos};
ghost use Rattle.uc_c.specs.declared.status.TheConstants as statuses;
ghost use Rattle.uc_c.specs.Statuses.{BatchSays, GatheredSays, OpenSays, PushSays, RoomSays, WriteSays};

use uc_batch::PushError;
use uc_engine::{BatchError, LiveOpenError, RoomError, WriteError};

/// It did what it was asked.
pub const OK: i32 = 0;

/// Allocation failed.
pub const OUT_OF_MEMORY: i32 = 1;

/// The handle has no store.
pub const NO_STORE: i32 = 2;

/// The handle has a store already.
pub const HAS_STORE: i32 = 3;

/// There is no value under the key.
pub const NOT_FOUND: i32 = 4;

/// No snapshot is at the sequence.
pub const NOT_PROTECTED: i32 = 5;

/// No operator has the number.
pub const UNKNOWN_OPERATOR: i32 = 6;

/// An option isn't in its range.
pub const BAD_OPTION: i32 = 7;

/// A struct hasn't the size that this library knows.
pub const BAD_SIZE: i32 = 8;

/// No id is left for a run.
pub const IDS_SPENT: i32 = 9;

/// Too few sequences are left.
pub const SEQUENCES_SPENT: i32 = 10;

/// A key or value has 2^32 bytes or more.
pub const TOO_LONG: i32 = 11;

/// The bytes aren't a write batch.
pub const NOT_A_BATCH: i32 = 12;

/// No walk over a log leads to the place.
pub const BAD_PLACE: i32 = 13;

/// The buffer is too small.
pub const ROOM: i32 = 14;

/// No batch comes next in the log.
pub const LOG_ENDS: i32 = 15;

/// The sequence of the batch is neither 0 nor above the last one.
pub const SEQUENCE_BACK: i32 = 16;

/// The keys' lengths don't add up to their bytes, or there aren't as many places for answers as keys.
pub const BAD_KEYS: i32 = 17;

/// The batch has 2^32 - 1 operations.
pub const BATCH_FULL: i32 = 18;

/// The handle has no view.
pub const NO_VIEW: i32 = 19;

/// The handle has a view already.
pub const HAS_VIEW: i32 = 20;

/// The handle has no job.
pub const NO_JOB: i32 = 21;

/// The handle has a job already.
pub const HAS_JOB: i32 = 22;

/// The store doesn't hold the claim of the job.
pub const NOT_OF_STORE: i32 = 23;

/// There are as many runs as there may be, and jobs have those that would be compacted.
pub const RUNS_CLAIMED: i32 = 24;

/// The job has ended.
pub const JOB_ENDED: i32 = 25;

/// The handle has no checkpoint.
pub const NO_CHECKPOINT: i32 = 26;

/// The handle has a checkpoint already.
pub const HAS_CHECKPOINT: i32 = 27;

/// A batch of a log begins later than right after the last sequence.
pub const SEQUENCE_GAP: i32 = 28;

/// A log is missing between the newest base and the last log.
pub const LOG_MISSING: i32 = 29;

/// The numbers are no machine's.
pub const NO_FOLDER: i32 = 30;

/// The payload or the operand isn't one of its operator.
pub const BAD_OPERAND: i32 = 31;
/// A read of the transaction is changed.
pub const READ_CHANGED: i32 = 32;

/// The bytes aren't those of a run's file.
pub const RUN_DAMAGED: i32 = 33;

/// There is no such run, or the store doesn't take it.
pub const BAD_RUN: i32 = 34;

/// The statuses have the numbers that `enum ucstore_status` gives them, in its order.
pub fn statuses_are_numbered()
    ensures first { statuses.OK ∷ statuses.OUT_OF_MEMORY ∷ statuses.NO_STORE ∷ statuses.HAS_STORE ∷ statuses.NOT_FOUND
        ∷ statuses.NOT_PROTECTED ∷ statuses.UNKNOWN_OPERATOR ∷ statuses.BAD_OPTION ∷ statuses.BAD_SIZE ∷ []
        ≡ pos 0 ∷ pos 1 ∷ pos 2 ∷ pos 3 ∷ pos 4 ∷ pos 5 ∷ pos 6 ∷ pos 7 ∷ pos 8 ∷ [] }
    ensures rest { statuses.IDS_SPENT ∷ statuses.SEQUENCES_SPENT ∷ statuses.TOO_LONG ∷ statuses.NOT_A_BATCH
        ∷ statuses.BAD_PLACE ∷ statuses.ROOM ∷ statuses.LOG_ENDS ∷ statuses.SEQUENCE_BACK ∷ statuses.BAD_KEYS
        ∷ statuses.BATCH_FULL ∷ []
        ≡ pos 9 ∷ pos 10 ∷ pos 11 ∷ pos 12 ∷ pos 13 ∷ pos 14 ∷ pos 15 ∷ pos 16 ∷ pos 17 ∷ pos 18 ∷ [] }
    ensures views { statuses.NO_VIEW ∷ statuses.HAS_VIEW ∷ [] ≡ pos 19 ∷ pos 20 ∷ [] }
    ensures jobs { statuses.NO_JOB ∷ statuses.HAS_JOB ∷ statuses.NOT_OF_STORE ∷ statuses.RUNS_CLAIMED
        ∷ statuses.JOB_ENDED ∷ []
        ≡ pos 21 ∷ pos 22 ∷ pos 23 ∷ pos 24 ∷ pos 25 ∷ [] }
    ensures checkpoints { statuses.NO_CHECKPOINT ∷ statuses.HAS_CHECKPOINT ∷ [] ≡ pos 26 ∷ pos 27 ∷ [] }
    ensures logs { statuses.SEQUENCE_GAP ∷ statuses.LOG_MISSING ∷ statuses.NO_FOLDER ∷ [] ≡ pos 28 ∷ pos 29 ∷ pos 30 ∷ [] }
    ensures operands { statuses.BAD_OPERAND ≡ pos 31 }
    ensures transactions { statuses.READ_CHANGED ≡ pos 32 }
    ensures runs { statuses.RUN_DAMAGED ∷ statuses.BAD_RUN ∷ [] ≡ pos 33 ∷ pos 34 ∷ [] }
{}

/// The status if a run can't be added.
pub fn room_status(error: RoomError) -> i32
    ensures { RoomSays error result }
{
    match error {
        RoomError::IdsSpent => IDS_SPENT,
        RoomError::RunsClaimed => RUNS_CLAIMED,
        RoomError::Memory => OUT_OF_MEMORY,
    }
}

/// The status for an opening that fails.
pub fn open_status(error: LiveOpenError) -> i32
    ensures { OpenSays error result }
{
    match error {
        LiveOpenError::BadOption => BAD_OPTION,
        LiveOpenError::NoRoom(error) => room_status(error),
    }
}

/// The status for bytes that aren't a batch which may come next.
fn batch_status(fault: BatchError) -> i32
    ensures { BatchSays fault result }
{
    match fault {
        BatchError::SequenceBack(_) => SEQUENCE_BACK,
        _ => NOT_A_BATCH,
    }
}

/// The status for a write that fails.
pub fn write_status(error: WriteError) -> i32
    ensures { WriteSays error result }
{
    match error {
        WriteError::Faulty(fault) => batch_status(fault),
        WriteError::SequencesSpent => SEQUENCES_SPENT,
        WriteError::TooLong => TOO_LONG,
        WriteError::NoRoom(error) => room_status(error),
    }
}

/// The status for a batch of collected operations that fails. Its bytes are a batch, so `Unread` can only mean that too few
/// sequence numbers are left.
pub fn gathered_status(error: WriteError) -> i32
    ensures { GatheredSays error result }
{
    match error {
        WriteError::NoRoom(error) => room_status(error),
        _ => SEQUENCES_SPENT,
    }
}

/// The status for an operation that a batch doesn't take.
pub fn push_status(error: PushError) -> i32
    ensures { PushSays error result }
{
    match error {
        PushError::TooLong => TOO_LONG,
        PushError::Full => BATCH_FULL,
        PushError::Memory => OUT_OF_MEMORY,
    }
}
