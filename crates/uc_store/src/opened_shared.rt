//! [`open_shared`]: a store that threads share, opened from a write-ahead log.
ghost use Rattle.std.specs.Prelude.{◌≡◌, ◌≢◌, None, Some, IfOk, IfErr};
ghost use Rattle.uc_batch.specs.Log.{log_writes};
ghost use Rattle.uc_version_state.specs.Openings.{Opening as OpeningOf};
ghost use Rattle.uc_version_state.specs.Histories.{IsLegal, version_after};
ghost use Rattle.uc_version_open.specs.declared.open_error.OpenError.TheVariants.{Memory};
ghost use Rattle.uc_share.specs.Stores.{IsOpenedSo, beginning, shared_refusal};

use std::alloc::Global;
use uc_batch::Ended;
use uc_oper::Operator;
use uc_share::{Opening, are_counts};
use uc_version::Options;
use uc_version_open::{OpenError, Recovered, Workers, no_refusal_is_leave_to_open, recover};

/// A store for threads that was opened from a log and has no name yet, and how far the log could be read.
#[derive(Drop)]
pub struct OpenedShared<O: Operator> {
    /// The store, which has the writes before the log's first fault. [`Opening::named`] gives it out, with its readers and seats.
    pub opening: Opening<O>,
    /// The end of the log: clean, torn as after a crash, or at a fault, which is named with its place.
    pub ended: Ended,
}

/// Opens a store that threads share from the bytes of a write-ahead log, as [`open_log`](crate::open_log) opens one for one owner:
/// for 1 to 128 `readers`, and up to 64 `seats`, one for each compactor. Fails, in this order, if a number of readers or seats is
/// out of range, if an option is out of range, if a number of `keeps` is above the last sequence number, or if there are more runs
/// than slots; and if allocation fails. It reads the log once, and these workers flush full memtables.
pub fn open_shared<O: Operator, W: Workers>(
    workers: &W,
    alloc: Global,
    log: &[u8],
    keeps: &[u64],
    options: Options,
    readers: usize,
    seats: usize,
) -> Result<OpenedShared<O>, OpenError>
    requires { W.can_work }
    ensures opening { let o : OpeningOf =
        record { writes = (log_writes log.now).list; keeps = keeps.now; options = options } in
        IfOk result (λ opened. (shared_refusal o readers seats ≡ None) × IsOpenedSo opened.opening o readers seats) }
    ensures legal { let o : OpeningOf =
        record { writes = (log_writes log.now).list; keeps = keeps.now; options = options } in
        IfOk result (λ opened.
        IsLegal O.meaning (beginning o) × (version_after (beginning o) ≡ opened.opening.version)) }
    ensures ended { IfOk result (λ opened. opened.ended ≡ (log_writes log.now).ended) }
    ensures err { let o : OpeningOf =
        record { writes = (log_writes log.now).list; keeps = keeps.now; options = options } in
        IfErr result (λ error. error ≢ Memory → shared_refusal o readers seats ≡ Some error) }
{
    no_refusal_is_leave_to_open();
    if !are_counts(readers, seats) {
        return Err(OpenError::BadCount);
    }
    let Recovered { opener, ended } = recover(workers, alloc, log, options)?;
    let version = opener.finish(workers, alloc, keeps)?;
    match Opening::of(alloc, version, options, readers, seats) {
        Err((_version, error)) => Err(error),
        Ok(opening) => Ok(OpenedShared { opening, ended }),
    }
}
