//! [`open_log`] and [`open_pieces`]: a store opened from a write-ahead log.
ghost use Rattle.std.specs.Prelude.{◌≡◌, ◌≢◌, None, Some, true, IfOk, IfErr};
ghost use Rattle.uc_batch.specs.Log.{log_writes};
ghost use Rattle.uc_version_state.specs.Options.{are_good};
ghost use Rattle.uc_version_state.specs.Openings.{Opening, opened};
ghost use Rattle.uc_version_open.specs.Refusal.{opening_refusal};
ghost use Rattle.uc_version_open.specs.declared.open_error.OpenError.TheVariants.{Memory};
ghost use Rattle.uc_version.specs.Owners.{unclaimed};

use std::alloc::{AllocError, Global};
use uc_batch::{Ended, Pieces};
use uc_oper::Operator;
use uc_version::{Options, Owned, Version};
use uc_version_open::{OpenError, Recovered, Workers, recover, recover_pieces};

/// A store that was opened from a log, and how far the log could be read.
#[derive(Drop)]
pub struct OpenedLog<O: Operator> {
    /// The store, which has the writes before the log's first fault.
    pub store: Owned<O>,
    /// The end of the log: clean, torn as after a crash, or at a fault, which is named with its place.
    pub ended: Ended,
}

/// The store of a version, and how the log ended from which the version was made.
fn store_of<O: Operator>(
    alloc: Global,
    version: Version,
    ended: Ended,
    options: Options,
) -> Result<OpenedLog<O>, AllocError>
    requires { are_good options ≡ true }
    ensures store { IfOk result (λ opened_log. opened_log.store ≡ unclaimed version options) }
    ensures ended { IfOk result (λ opened_log. opened_log.ended ≡ ended) }
{
    let store = Owned::new(alloc, version, options)?;
    Ok(OpenedLog { store, ended })
}

/// Opens a store from the bytes of a write-ahead log, as point-in-time recovery does (RocksDB wiki, "WAL Recovery Modes"): it has
/// the writes before the log's first fault, and `ended` says whether there was one. Reads are possible at the sequence numbers
/// `keeps`, in any order, and at the last one. Fails, in this order, if an option is out of range, if a number of `keeps` is above
/// the last sequence number, or if there are more runs than slots; and if allocation fails. It reads the log once.
///
/// The workers flush full memtables. The result and the errors are the same for all workers. If threads flush, up to six more
/// memtables are in memory while it runs.
pub fn open_log<O: Operator, W: Workers>(
    workers: &W,
    alloc: Global,
    log: &[u8],
    keeps: &[u64],
    options: Options,
) -> Result<OpenedLog<O>, OpenError>
    requires { W.can_work }
    ensures store { let opening : Opening =
        record { writes = (log_writes log.now).list; keeps = keeps.now; options = options } in
        IfOk result (λ opened_log. opened_log.store ≡ unclaimed (opened opening) options) }
    ensures ended { IfOk result (λ opened_log. opened_log.ended ≡ (log_writes log.now).ended) }
    ensures may { let opening : Opening =
        record { writes = (log_writes log.now).list; keeps = keeps.now; options = options } in
        IfOk result (λ _. opening_refusal opening ≡ None) }
    ensures err { let opening : Opening =
        record { writes = (log_writes log.now).list; keeps = keeps.now; options = options } in
        IfErr result (λ error. error ≢ Memory → opening_refusal opening ≡ Some error) }
{
    let Recovered { opener, ended } = recover(workers, alloc, log, options)?;
    let version = opener.finish(workers, alloc, keeps)?;
    Ok(store_of(alloc, version, ended, options)?)
}

/// As [`open_log`], of a log in pieces, as a program reads them from a file or a pipe. Each piece is freed once its writes are in
/// the store, so the whole log and the whole store are never in memory together.
pub fn open_pieces<O: Operator, W: Workers>(
    workers: &W,
    alloc: Global,
    log: Pieces,
    keeps: &[u64],
    options: Options,
) -> Result<OpenedLog<O>, OpenError>
    requires { W.can_work }
    ensures store { let opening : Opening =
        record { writes = (log_writes log).list; keeps = keeps.now; options = options } in
        IfOk result (λ opened_log. opened_log.store ≡ unclaimed (opened opening) options) }
    ensures ended { IfOk result (λ opened_log. opened_log.ended ≡ (log_writes log).ended) }
    ensures may { let opening : Opening =
        record { writes = (log_writes log).list; keeps = keeps.now; options = options } in
        IfOk result (λ _. opening_refusal opening ≡ None) }
    ensures err { let opening : Opening =
        record { writes = (log_writes log).list; keeps = keeps.now; options = options } in
        IfErr result (λ error. error ≢ Memory → opening_refusal opening ≡ Some error) }
{
    let Recovered { opener, ended } = recover_pieces(workers, alloc, log, options)?;
    let version = opener.finish(workers, alloc, keeps)?;
    Ok(store_of(alloc, version, ended, options)?)
}
