//! [`Opener`]: a store that is being opened.
ghost use Rattle.std.specs.Prelude.{◌≡◌, ◌≢◌, ◌<◌, ◌^◌, ◌∷◌, ◌++◌, [], List, Some, None, ℕ, IfOk, IfErr, OnOk, OnErr, map};
ghost use Rattle.uc_bytes.specs.declared.write.Write.{Write as WriteOf};
ghost use Rattle.uc_batch.specs.Rising.{IsRising};
ghost use Rattle.uc_version_state.specs.declared.options.Options.{Options as OptionsOf};
ghost use Rattle.uc_version_state.specs.Versions.{IsVersion};
ghost use Rattle.uc_version_state.specs.Openings.{Opening as OpeningOf, opened};
ghost use Rattle.uc_run.specs.Flush.{flushed};
ghost use Rattle.uc_run_entry.specs.Run.{Contents};
ghost use Rattle.uc_version_open.specs.Lending.{StandsIn};
ghost use Rattle.uc_version_open.specs.Progress.{progress_of};
ghost use Rattle.uc_version_open.specs.Refusal.{opening_refusal};
ghost use Rattle.uc_version_open.specs.Steps as steps;
ghost use Rattle.uc_version_open.specs.declared.open_error.OpenError.TheVariants.{Memory};

use crate::keeps::{first_ahead, kept};
use crate::laws::no_refusal_is_leave_to_open;
use crate::lent_memtables::{LentMemtables, Loan};
use crate::memtables::{Memtables, hold_write};
use crate::open_error::OpenError;
use crate::workers::Workers;
use std::alloc::{AllocError, Global};
use std::marker::Model;
use uc_bytes::WriteRef;
use uc_run::Run;
use uc_version_state::{Options, Version, opening_gives_a_version, placed_onto};

/// A store that is being opened, by the writes of a log one after the other.
///
/// It reports no error before [`finish`](Opener::finish), since a fault of the log comes before an error of the opening. It holds
/// the runs made up to now, one memtable and, if threads flush, a few more that wait or are being flushed; or nothing once the
/// store can't open any more.
#[derive(Drop)]
pub struct Opener {
    options: Options,
    last: u64,
    memtables: Option<Memtables>,
}

impl Model for Opener {
    ghost use Rattle.uc_version_open.specs.Progress.{Progress};
    ghost use Rattle.uc_version_open.specs.HeldProgress.{progress, HasProgressed};

    ghost Value = { Progress };

    ghost view = { progress };

    ghost invariant = { HasProgressed };
}

/// The version of memtables.
fn version_of<W: Workers>(
    workers: &W,
    alloc: Global,
    options: &Options,
    last: u64,
    memtables: Memtables,
    keeps: &[u64],
) -> Result<Version, AllocError>
    requires can { W.can_work }
    requires version { IsVersion (steps.version_of options.now last memtables keeps.now) }
    ensures { IfOk result (λ version. version ≡ steps.version_of options.now last memtables keeps.now) }
{
    let first_id = options.first_id;
    let runs = memtables.into_runs(workers, alloc)?;
    let next_id = first_id + runs.len() as u64;
    let runs = placed_onto(alloc, first_id, Vec::new(alloc), runs)?;
    let keeps = kept(alloc, keeps, last)?;
    Ok(Version::new(runs, keeps, last, next_id, options.memtable))
}

/// Lends the memtables that wait, if there are memtables.
fn lend_some(
    alloc: Global,
    held: Option<Memtables>,
) -> Result<(Option<Memtables>, Loan), AllocError>
    ensures kept { IfOk result (λ lent. lent.0 ≡ held) }
    ensures loan { IfOk result (λ lent. StandsIn lent.1.older (map flushed lent.1.memtables) held) }
{
    let Some(memtables) = held else {
        let nothing = Loan {
            older: 0,
            memtables: LentMemtables::none(),
        };
        return Ok((None, nothing));
    };
    let (memtables, loan) = memtables.lend(alloc)?;
    Ok((Some(memtables), loan))
}

impl Opener {
    /// A store without writes. Invalid options are reported only at the end. It doesn't allocate.
    pub fn new(alloc: Global, options: Options) -> Opener
        ensures { result ≡ progress_of options [] }
    {
        Opener {
            options,
            last: 0,
            memtables: if options.are_good() {
                Some(Memtables::new(alloc))
            } else {
                None
            },
        }
    }

    /// The last sequence, or 0 if no write has come.
    pub fn last(&self) -> u64
        ensures { result ≡ self.now.last }
    {
        self.last
    }

    /// Takes the next write of the log. Its sequence number is above all before it and at most
    /// [`MAX_SEQUENCE`](uc_bytes::MAX_SEQUENCE). It costs a copy of the key and value, amortized, and the flush of a memtable if
    /// that is full, or of several if these workers flush several at once. An `Err` takes nothing. Runs that were made stay, unless
    /// the store can't open any more.
    pub fn insert<W: Workers>(
        &mut self,
        workers: &W,
        alloc: Global,
        write: &WriteRef<'_>,
    ) -> Result<(), AllocError>
        requires can { W.can_work }
        requires above { self.old.last < write.now.seq }
        requires below { write.now.seq < 2 ^ 56 }
        ensures ok { (options : OptionsOf) (writes : List WriteOf) → self.old ≡ progress_of options writes →
            OnOk result (self.new ≡ progress_of options (writes ++ write.now ∷ [])) }
        ensures last { OnOk result (self.new.last ≡ write.now.seq) }
        ensures stay { (place : ℕ) (part : List Contents) → StandsIn place part self.old.held →
            OnOk result (StandsIn place part self.new.held) }
        ensures err { OnErr result (self.new ≡ self.old) }
    {
        hold_write(
            workers,
            alloc,
            self.options.memtable,
            &mut self.memtables,
            write,
        )?;
        self.last = write.seq();
        Ok(())
    }

    /// The number of full memtables that wait, besides those that are lent. A contract doesn't see it.
    pub(crate) fn waiting(&self) -> usize {
        match &self.memtables {
            Some(memtables) => memtables.waiting(),
            None => 0,
        }
    }

    /// Lends the memtables that wait, so that others can flush them while writes are inserted. [`settle`](Opener::settle) takes
    /// the runs.
    pub(crate) fn lend(self, alloc: Global) -> Result<(Opener, Loan), AllocError>
        ensures kept { IfOk result (λ lent. lent.0 ≡ self) }
        ensures loan { IfOk result (λ lent. StandsIn lent.1.older (map flushed lent.1.memtables) self.held) }
    {
        let Opener {
            options,
            last,
            memtables,
        } = self;
        let (memtables, loan) = lend_some(alloc, memtables)?;
        let kept = Opener {
            options,
            last,
            memtables,
        };
        Ok((kept, loan))
    }

    /// Takes the runs of what was lent when there were `older` runs. It changes nothing that a contract sees.
    pub(crate) fn settle(&mut self, older: usize, made: Vec<Run>) -> Result<(), AllocError>
        requires { StandsIn older made.items self.old.held }
        ensures { self.new ≡ self.old }
    {
        match &mut self.memtables {
            Some(memtables) => memtables.settle(older, made),
            None => Ok(()),
        }
    }

    /// The version of the writes that came, which keeps these sequences and the last one. An `Err` names the first of
    /// these: an option out of its range, a sequence above the last one, more memtables than slots. For k sequences it
    /// takes k log k steps. These workers flush the memtables that are left.
    pub fn finish<W: Workers>(
        self,
        workers: &W,
        alloc: Global,
        keeps: &[u64],
    ) -> Result<Version, OpenError>
        requires { W.can_work }
        ensures ok { (options : OptionsOf) (writes : List WriteOf) → IsRising 0 writes → self ≡ progress_of options writes →
            let opening : OpeningOf = record { writes = writes; keeps = keeps.now; options = options } in
            IfOk result (λ version. (version ≡ opened opening) × (opening_refusal opening ≡ None)) }
        ensures err { (options : OptionsOf) (writes : List WriteOf) → IsRising 0 writes → self ≡ progress_of options writes →
            let opening : OpeningOf = record { writes = writes; keeps = keeps.now; options = options } in
            IfErr result (λ error. error ≢ Memory → opening_refusal opening ≡ Some error) }
        ensures memory { (options : OptionsOf) (writes : List WriteOf) → IsRising 0 writes →
            self ≡ progress_of options writes →
            let opening : OpeningOf = record { writes = writes; keeps = keeps.now; options = options } in
            IfErr result (λ error. error ≡ Memory → opening_refusal opening ≡ None) }
    {
        no_refusal_is_leave_to_open();
        opening_gives_a_version();
        let Opener {
            options,
            last,
            memtables,
        } = self;
        if !options.are_good() {
            return Err(OpenError::BadOption);
        }
        if let Some(ahead) = first_ahead(keeps, last) {
            return Err(OpenError::SnapshotAhead(ahead));
        }
        let Some(memtables) = memtables else {
            return Err(OpenError::TooManyRuns);
        };
        Ok(version_of(workers, alloc, &options, last, memtables, keeps)?)
    }
}
