//! [`Store`]: a store that threads share.
ghost use Rattle.std.specs.Prelude.{◌≡◌, ◌<◌, [], None, false, true, fold, length};
ghost use Rattle.std.specs.Prelude.{IfOk, IfErr, IfSome, OnOk, OnErr};
ghost use mathlib.Core.List.{IsPrefix};
ghost use Rattle.uc_claims.specs.Holding.{free_seat};
ghost use Rattle.uc_claims.specs.declared.table.TheConstants.{MOST_SLOTS};
ghost use Rattle.uc_version_state.specs.Options.{are_good};
ghost use Rattle.uc_version_state.specs.Versions.{contents_of, ids_of};
ghost use Rattle.uc_version_state.specs.Refusals.{AreInPlace};
ghost use Rattle.uc_version_state.specs.Histories.{MayFollow, after};
ghost use Rattle.uc_version_compact.specs.Compacting.{compaction_at};
ghost use Rattle.uc_version_compact.specs.Ranges.{range_refusal};
ghost use Rattle.uc_version_compact.specs.declared.claim_error.ClaimError.TheVariants.{Memory};
ghost use Rattle.uc_share.specs.Fronts.{moment};
ghost use Rattle.uc_share.specs.Picking.{AreFlags, IsPick};
ghost use Rattle.uc_share.specs.Claims as claims;
ghost use Rattle.uc_share.specs.Claims.{claim_of, claimed_runs, IsClaimRefused};
ghost use Rattle.uc_share.specs.Installing.{event_of, EndsWith, IsOwnRefusal, ShowsRefusal};

use crate::desk::Desk;
use crate::held::{Held, LookError};
use crate::name::Name;
use crate::pin::Pin;
use crate::publisher::Publisher;
use crate::reader::Reader;
use crate::taken::Taken;
use crate::words::Words;
use std::alloc::{AllocError, Global};
use std::marker::Model;
use std::sync::{Mutex, Wait};
use uc_claims::{MOST_SLOTS, Seat};
use uc_compact::Compacted;
use uc_oper::Operator;
use uc_version_compact::{ClaimError, InstallError, are_inputs, install_of, pick};
use uc_version_state::{Options, Stretch, picks_are_unclaimed_runs};

/// A store that threads share by reference: claim words for the slots of its runs, and under a lock what shows readers the
/// next version. Contracts see its table of claim words, which its seats carry too, and how it is compacted.
pub struct Store<O: Operator, N: Name, W: Wait + Drop> {
    words: Words,
    options: Options,
    pub(crate) desk: Mutex<Desk<O, N, W>>,
}

impl<O: Operator, N: Name, W: Wait + Drop> Model for Store<O, N, W> {
    ghost use Rattle.std.specs.Prelude.{◌≡◌, true};
    ghost use Rattle.uc_version_state.specs.Options.{are_good};
    ghost use Rattle.uc_share.specs.Stores.{Shared};

    ghost Value = { Shared };

    ghost view = { λ s. record { table = s.words; options = s.options } };

    ghost invariant = { λ s. (s.words ≡ N.table) × (are_good s.options ≡ true) };
}

// A destructor of its own: where a value is dropped, the proof of a caller has one call, and not one for each field.
impl<O: Operator, N: Name, W: Wait + Drop> Drop for Store<O, N, W> {
    fn drop(self) {
        let Store {
            words: _,
            options: _,
            desk: _,
        } = self;
    }
}

impl<O: Operator, N: Name, W: Wait + Drop> Store<O, N, W> {
    /// A store with these claim words, which is compacted so, and shows what this shows.
    pub(crate) fn new(
        words: Words,
        options: Options,
        publisher: Publisher<O, N, W>,
    ) -> Store<O, N, W>
        requires words { words ≡ N.table }
        requires options { are_good options ≡ true }
        ensures { result ≡ record { table = words; options = options } }
    {
        Store {
            words,
            options,
            desk: Mutex::new(Desk::new(publisher)),
        }
    }

    /// Its claim words are those of its name. Proof step: does nothing when it runs.
    pub(crate) fn recall_table(&self)
        ensures { self.now.table ≡ N.table }
    {
        let _ = &self.options;
    }

    /// Whether the slot is taken, at some point during the call. The seat is unchanged. It never waits.
    pub fn busy(&self, seat: &mut Seat, slot: usize) -> bool
        requires table { seat.old.table ≡ self.now.table }
        requires below { slot < MOST_SLOTS }
        ensures seat { seat.new ≡ seat.old }
        ensures whole { seat.old.whole ≡ true → result ≡ false }
    {
        self.words.busy(seat, slot)
    }

    /// A flag for each slot: whether it is taken, each at some point during the call.
    fn busy_slots(&self, seat: &mut Seat) -> [bool; MOST_SLOTS]
        requires { seat.old.table ≡ self.now.table }
        ensures seat { seat.new ≡ seat.old }
        ensures whole { AreFlags seat.old.whole result }
    {
        let mut busy = [false; MOST_SLOTS];
        for slot in 0..MOST_SLOTS {
            busy[slot] = self.busy(seat, slot);
        }
        busy
    }

    /// The stretch of a pinned version that is compacted next, if the runs whose slots it finds taken are claimed already. A whole
    /// seat finds none taken. It waits for nobody.
    pub fn pick(&self, pin: &Pin<O, N>, seat: &mut Seat) -> Option<Stretch>
        requires { seat.old.table ≡ self.now.table }
        ensures seat { seat.new ≡ seat.old }
        ensures picked { IsPick self.now.options seat.old.whole pin.now.version result }
        ensures claimable { IfSome result (λ stretch. range_refusal (length pin.now.version.runs) stretch ≡ None) }
    {
        picks_are_unclaimed_runs();
        let busy = self.busy_slots(seat);
        pick(pin.version(), &self.options, &busy)
    }

    /// Gives a claim back. It waits for nobody.
    pub fn abandon(&self, held: Held<O, N>) -> (Seat, Pin<O, N>)
        requires { held.seat.table ≡ self.now.table }
        ensures seat { result.0 ≡ free_seat held.seat.table held.seat.whole }
        ensures pin { result.1 ≡ held.pin }
    {
        held.into_taken().give(&self.words)
    }

    /// Claims a stretch of a pinned version: it takes the slots of its runs, and then looks whether these stand in the version
    /// that is shown now. It waits for nobody.
    pub fn claim(
        &self,
        seat: Seat,
        pin: Pin<O, N>,
        reader: &mut Reader<O, N>,
        stretch: Stretch,
    ) -> Result<Held<O, N>, (Seat, Pin<O, N>, ClaimError)>
        requires { seat.table ≡ self.now.table }
        ensures seen { IsPrefix reader.old reader.new }
        ensures legal { MayFollow O.meaning N.base reader.new }
        ensures ok { IfOk result (λ held. held ≡ claim_of seat pin stretch) }
        ensures there { IfOk result (λ held.
            AreInPlace (fold after N.base reader.new) (ids_of (claimed_runs held))) }
        ensures err { IfErr result (λ refused. (refused.0 ≡ seat) × (refused.1 ≡ pin)) }
        ensures refused { IfErr result (λ refused.
            IsClaimRefused seat pin stretch (fold after N.base reader.new) refused.2) }
        ensures was_empty { OnOk result (seat.slots ≡ []) }
        ensures unseen { IfErr result (λ refused. refused.2 ≡ Memory → reader.new ≡ reader.old) }
    {
        reader.recall();
        let taken = match Taken::take(&self.words, seat, pin, stretch) {
            Err(refused) => return Err(refused),
            Ok(taken) => taken,
        };
        taken.recall();
        match Held::look(taken, reader) {
            Ok(held) => Ok(held),
            Err((taken, error)) => {
                let (seat, pin) = taken.give(&self.words);
                Err((seat, pin, claim_error(error)))
            }
        }
    }

    /// Pins the current version: the one after a history that begins with all that this reader had seen. It never waits. Fails if
    /// the version has too many owners, and the reader has seen no more then.
    pub fn pin(&self, reader: &mut Reader<O, N>) -> Result<Pin<O, N>, AllocError>
        ensures seen { IsPrefix reader.old reader.new }
        ensures legal { MayFollow O.meaning N.base reader.new }
        ensures pinned { IfOk result (λ pin. pin ≡ moment N.book (fold after N.base reader.new) reader.new) }
        ensures refused { OnErr result (reader.new ≡ reader.old) }
    {
        let _ = &self.options;
        reader.pin()
    }

    /// Puts the compaction of the claimed runs in their place, for all readers atomically, and shows it to this one. Of several
    /// errors the first of these is returned: `WrongInputs`, `WrongKeeps`, `Stale`, `IdsSpent`; and `Memory` only if none of these
    /// holds. The result of [`Held::compact`] never fails with the first two, whatever was fed, kept, released and installed since.
    /// The inputs' points are compared before the lock is taken, and none under it. It waits for other installs, and for readers of
    /// the previous version.
    pub fn install(
        &self,
        rt: &impl Wait,
        alloc: Global,
        held: Held<O, N>,
        made: Compacted<O>,
        reader: &mut Reader<O, N>,
    ) -> Result<Seat, (Held<O, N>, Compacted<O>, InstallError)>
        requires { held.seat.table ≡ self.now.table }
        ensures seen { IsPrefix reader.old reader.new }
        ensures legal { MayFollow O.meaning N.base reader.new }
        ensures ok { IfOk result (λ seat. seat ≡ free_seat held.seat.table held.seat.whole) }
        ensures installed { OnOk result (EndsWith reader.old (event_of O.meaning (claimed_runs held) made) reader.new) }
        ensures err { IfErr result (λ refused. (refused.0 ≡ held) × (refused.1 ≡ made)) }
        ensures refused { IfErr result (λ refused.
            ShowsRefusal (fold after N.base reader.new) (claimed_runs held) made refused.2) }
        ensures own { IfErr result (λ refused.
            made ≡ compaction_at held.pin.version held.stretch → IsOwnRefusal refused.2) }
    {
        match self.replace(rt, alloc, &held, &made, reader) {
            Ok(()) => Ok(self.abandon(held).0),
            Err(error) => Err((held, made, error)),
        }
    }

    /// Puts what was compacted in place of the claimed runs if these were its inputs, and leaves the claim as it is.
    fn replace(
        &self,
        rt: &impl Wait,
        alloc: Global,
        held: &Held<O, N>,
        made: &Compacted<O>,
        reader: &mut Reader<O, N>,
    ) -> Result<(), InstallError>
        requires { held.now.seat.table ≡ self.now.table }
        ensures seen { IsPrefix reader.old reader.new }
        ensures legal { MayFollow O.meaning N.base reader.new }
        ensures installed { OnOk result
            (EndsWith reader.old (event_of O.meaning (claimed_runs held.now) made.now) reader.new) }
        ensures refused { IfErr result (λ error.
            ShowsRefusal (fold after N.base reader.new) (claimed_runs held.now) made.now error) }
        ensures own { IfErr result (λ error.
            made.now ≡ compaction_at held.now.pin.version held.now.stretch → IsOwnRefusal error) }
    {
        reader.recall();
        if !are_inputs(made, held.runs()) {
            return Err(InstallError::WrongInputs);
        }
        self.replace_inputs(rt, alloc, held, made, reader)
    }

    /// Puts what was compacted of the claimed runs in their place, and leaves the claim as it is. It compares no points.
    pub(crate) fn replace_inputs(
        &self,
        rt: &impl Wait,
        alloc: Global,
        held: &Held<O, N>,
        made: &Compacted<O>,
        reader: &mut Reader<O, N>,
    ) -> Result<(), InstallError>
        requires table { held.now.seat.table ≡ self.now.table }
        requires inputs { made.now.inputs ≡ contents_of (claimed_runs held.now) }
        ensures seen { IsPrefix reader.old reader.new }
        ensures legal { MayFollow O.meaning N.base reader.new }
        ensures installed { OnOk result
            (EndsWith reader.old (event_of O.meaning (claimed_runs held.now) made.now) reader.new) }
        ensures refused { IfErr result (λ error.
            ShowsRefusal (fold after N.base reader.new) (claimed_runs held.now) made.now error) }
        ensures own { IfErr result (λ error.
            made.now ≡ compaction_at held.now.pin.version held.now.stretch → IsOwnRefusal error) }
    {
        let install = install_of(alloc, held.runs(), made);
        let mut desk = self.desk.lock(rt);
        desk.install(rt, alloc, held, made, install, reader)
    }
}

/// The error that says why no claim was made of slots that were taken.
fn claim_error(error: LookError) -> ClaimError
    ensures { result ≡ claims.claim_error error }
{
    match error {
        LookError::Moved => ClaimError::Moved,
        LookError::Memory => ClaimError::Memory,
    }
}
