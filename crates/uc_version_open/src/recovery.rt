//! [`recover`] and [`recover_first`]: a log's writes in a store that is being opened.
ghost use Rattle.std.specs.Prelude.{◌≡◌, ◌<◌, ◌+◌, ◌^◌, ◌++◌, ◌∷◌, [], ℕ, List, IfOk, OnOk, drop, length, take};
ghost use Rattle.uc_bytes.specs.declared.write.Write.{Write as WriteOf};
ghost use Rattle.uc_batch.specs.Log.{log_writes};
ghost use Rattle.uc_batch.specs.Rising.{IsRising};
ghost use Rattle.uc_version_state.specs.declared.options.Options.{Options as OptionsOf};
ghost use Rattle.uc_version_open.specs.Parting.{ComeNext, IsParted};
ghost use Rattle.uc_version_open.specs.Progress.{progress_of};

use crate::log_batches::LogBatches;
use crate::opener::Opener;
use crate::reading::{begin_reading, flush_and_read_on};
use crate::workers::Workers;
use std::alloc::{AllocError, Global};
use uc_batch::{Advance, BatchReader, BatchWrites, Ended, Pieces};
use uc_bytes::{Write, WriteRef};
use uc_version_state::Options;

/// A store that is being opened, with the writes of a log up to the log's first fault, and how far that was read.
#[derive(Drop)]
pub struct Recovered {
    /// The store, which has the writes.
    pub opener: Opener,
    /// The end of the log.
    pub ended: Ended,
}

/// Takes the writes of a log into a store as [`recover`] does. The reader stands at the log's start.
fn recover_batches<W: Workers>(
    workers: &W,
    alloc: Global,
    batches: LogBatches<'_>,
    options: Options,
) -> Result<Recovered, AllocError>
    requires can { W.can_work }
    requires start { batches.last ≡ 0 }
    ensures opener { IfOk result (λ recovered. recovered.opener ≡ progress_of options batches.entry.ahead.list) }
    ensures ended { IfOk result (λ recovered. recovered.ended ≡ batches.entry.ahead.ended) }
    ensures rising { IfOk result (λ _. IsRising 0 batches.entry.ahead.list) }
{
    let mut reading = begin_reading(workers, alloc, batches, options)?;
    loop {
        if let Some(ended) = reading.ended {
            let opener = reading.opener;
            return Ok(Recovered { opener, ended });
        }
        reading = flush_and_read_on(workers, alloc, reading)?;
    }
}

/// Takes the writes of a log, up to its first fault, into a store that is being opened under these options. It reads the log once.
///
/// It holds what the opener holds, and one buffer for a batch of several records. Threads flush full memtables concurrently while
/// the calling one reads. So there are four more memtables with the runs that are made of them, and up to six if a batch fills
/// several.
pub fn recover<W: Workers>(
    workers: &W,
    alloc: Global,
    log: &[u8],
    options: Options,
) -> Result<Recovered, AllocError>
    requires { W.can_work }
    ensures opener { IfOk result (λ recovered. recovered.opener ≡ progress_of options (log_writes log.now).list) }
    ensures ended { IfOk result (λ recovered. recovered.ended ≡ (log_writes log.now).ended) }
    ensures rising { IfOk result (λ recovered. IsRising 0 (log_writes log.now).list) }
{
    let batches = LogBatches::borrowed(alloc, log);
    recover_batches(workers, alloc, batches, options)
}

/// As [`recover`], of a log in pieces. Each is freed once its batches are read, so the rest of the log shrinks while the store
/// grows.
pub fn recover_pieces<W: Workers>(
    workers: &W,
    alloc: Global,
    log: Pieces,
    options: Options,
) -> Result<Recovered, AllocError>
    requires { W.can_work }
    ensures opener { IfOk result (λ recovered. recovered.opener ≡ progress_of options (log_writes log).list) }
    ensures ended { IfOk result (λ recovered. recovered.ended ≡ (log_writes log).ended) }
    ensures rising { IfOk result (λ recovered. IsRising 0 (log_writes log).list) }
{
    let batches = LogBatches::in_pieces(alloc, log);
    recover_batches(workers, alloc, batches, options)
}

/// The number of a log's writes up to its first fault, and its end.
#[derive(Clone, Copy)]
pub struct Counted {
    /// The number of its writes.
    pub count: u64,
    /// The end of the log.
    pub ended: Ended,
}

/// The number of a batch's writes, and `count`.
fn count_batch(mut count: u64, writes: BatchWrites<'_>) -> u64
    requires { count + length writes < 2 ^ 64 }
    ensures { result ≡ count + length writes.entry }
{
    for _ in writes {
        count += 1;
    }
    count
}

/// The number of a log's writes, up to its first fault. It goes once over the log, and keeps no write of it.
pub fn count_writes(alloc: Global, log: &[u8]) -> Result<Counted, AllocError>
    ensures count { IfOk result (λ counted. counted.count ≡ length (log_writes log.now).list) }
    ensures ended { IfOk result (λ counted. counted.ended ≡ (log_writes log.now).ended) }
{
    let mut count = 0_u64;
    let mut batches = BatchReader::new(alloc, log);
    loop {
        match batches.advance()? {
            Advance::Batch => count = count_batch(count, batches.writes()),
            Advance::Ended(ended) => return Ok(Counted { count, ended }),
        }
    }
}

/// The writes of a log so far: the first ones in a store that is being opened, and those after them.
#[derive(Drop)]
struct Parted {
    opener: Opener,
    /// The number of writes that the store still takes.
    left: u64,
    behind: Vec<Write>,
}

/// Takes the next write of a log.
fn part_write<W: Workers>(
    workers: &W,
    alloc: Global,
    parted: &mut Parted,
    write: &WriteRef<'_>,
) -> Result<(), AllocError>
    requires can { W.can_work }
    requires above { 0 < parted.old.left → parted.old.opener.last < write.now.seq }
    requires below { write.now.seq < 2 ^ 56 }
    ensures parted { (options : OptionsOf) (most : ℕ) (before : List WriteOf) →
        IsParted options most before parted.old.opener parted.old.left parted.old.behind.items → OnOk result
        (IsParted options most (before ++ write.now ∷ []) parted.new.opener parted.new.left parted.new.behind.items) }
    ensures last { OnOk result (0 < parted.new.left → parted.new.opener.last ≡ write.now.seq) }
{
    if parted.left > 0 {
        parted.opener.insert(workers, alloc, write)?;
        parted.left -= 1;
    } else {
        parted.behind.push(write.to_write(alloc)?)?;
    }
    Ok(())
}

/// Takes the writes of a batch.
fn part_batch<W: Workers>(
    workers: &W,
    alloc: Global,
    parted: &mut Parted,
    writes: BatchWrites<'_>,
) -> Result<(), AllocError>
    requires can { W.can_work }
    requires next { ComeNext parted.old.opener parted.old.left writes }
    ensures { (options : OptionsOf) (most : ℕ) (before : List WriteOf) →
        IsParted options most before parted.old.opener parted.old.left parted.old.behind.items → OnOk result
        (IsParted options most (before ++ writes.entry) parted.new.opener parted.new.left parted.new.behind.items) }
{
    for write in writes {
        part_write(workers, alloc, parted, &write)?;
    }
    Ok(())
}

/// As [`recover`], for the first `most` writes alone. Those after them are returned as they are, the oldest first. It holds them
/// besides what the opener holds, and up to four full memtables, which threads flush concurrently.
pub fn recover_first<W: Workers>(
    workers: &W,
    alloc: Global,
    log: &[u8],
    options: Options,
    most: u64,
) -> Result<(Recovered, Vec<Write>), AllocError>
    requires { W.can_work }
    ensures opener { IfOk result (λ found.
        found.0.opener ≡ progress_of options (take most (log_writes log.now).list)) }
    ensures behind { IfOk result (λ found. found.1.items ≡ drop most (log_writes log.now).list) }
    ensures ended { IfOk result (λ found. found.0.ended ≡ (log_writes log.now).ended) }
    ensures rising { IfOk result (λ _. IsRising 0 (log_writes log.now).list) }
{
    let mut parted = Parted {
        opener: Opener::new(alloc, options),
        left: most,
        behind: Vec::new(alloc),
    };
    let mut batches = BatchReader::new(alloc, log);
    loop {
        match batches.advance()? {
            Advance::Batch => part_batch(workers, alloc, &mut parted, batches.writes())?,
            Advance::Ended(ended) => {
                let Parted { opener, behind, .. } = parted;
                return Ok((Recovered { opener, ended }, behind));
            }
        }
    }
}
