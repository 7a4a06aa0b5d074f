//! [`Desk`]: what stands under a store's lock, and what is done there.
ghost use Rattle.std.specs.Prelude.{◌≡◌, ◌≢◌, List, None, IfErr, IfOk, IfSome, IfNone, OnOk, fold, option_map};
ghost use mathlib.Core.List.{IsPrefix};
ghost use Rattle.uc_version_state.specs.Versions.{contents_of, ids_of};
ghost use Rattle.uc_version_state.specs.Installs.{terms_of};
ghost use Rattle.uc_version_state.specs.Refusals.{IsRefused};
ghost use Rattle.uc_version_state.specs.Histories.{MayFollow, after};
ghost use Rattle.uc_share.specs.Fronts.{after_event};
ghost use Rattle.uc_share.specs.Claims.{claimed_runs};
ghost use Rattle.uc_version_state.specs.declared.event.Event.{Event};
ghost use Rattle.uc_version_compact.specs.Compacting.{IsNotInstallable, compaction_at, install_for};
ghost use Rattle.uc_version_compact.specs.declared.install_error.InstallError.{InstallError};
ghost use Rattle.uc_share.specs.Installing.{event_of, EndsWith, IsOwnRefusal, MayInstallHere, ShowsRefusal};

use crate::front::Front;
use crate::front_laws::claimed_runs_stay_the_same;
use crate::held::Held;
use crate::laws::own_compactions_are_refused_for_two_reasons;
use crate::name::Name;
use crate::pin::Pin;
use crate::publisher::Publisher;
use crate::reader::Reader;
use std::alloc::{AllocError, Global};
use std::sync::Wait;
use uc_compact::Compacted;
use uc_oper::Operator;
use uc_version_compact::{InstallError, error_of, present_refusal, what_fits_may_be_installed};
use uc_version_state::{Install, Refusal};

/// The pinned history is a beginning of the shown one, since it was shown before. It does nothing: a pin of what isn't shown yet can't
/// be made, which no clause of a reader's says, so it would wait.
fn recall_shown<O: Operator, N: Name>(rt: &impl Wait, pin: &Pin<O, N>, shown: &Front<N>)
    ensures { IsPrefix pin.now.events shown.now }
{
    for _ in rt.forever() {
        if pin.front().len() <= shown.len() {
            pin.recall_prefix(shown);
            return;
        }
    }
}

/// The value under a store's lock: the publisher, which shows readers the next version.
#[derive(Drop)]
pub(crate) struct Desk<O: Operator, N: Name, W: Wait + Drop> {
    pub(crate) publisher: Option<Publisher<O, N, W>>,
    ghost there: { publisher ≢ None },
}

impl<O: Operator, N: Name, W: Wait + Drop> Desk<O, N, W> {
    /// The value under the lock of a store with this publisher.
    pub(crate) fn new(publisher: Publisher<O, N, W>) -> Desk<O, N, W> {
        Desk {
            publisher: Some(publisher),
        }
    }

    /// Installs the compaction of claimed runs and updates the reader. It publishes exactly one event, or fails, changes nothing
    /// that is shown, and lets the reader see the version that shows why. It compares no points. A failed allocation is reported
    /// only if nothing else is wrong.
    pub(crate) fn install<R: Wait>(
        &mut self,
        rt: &R,
        alloc: Global,
        held: &Held<O, N>,
        made: &Compacted<O>,
        install: Result<Install, AllocError>,
        reader: &mut Reader<O, N>,
    ) -> Result<(), InstallError>
        requires table { held.now.seat.table ≡ N.table }
        requires inputs { made.now.inputs ≡ contents_of (claimed_runs held.now) }
        requires install { IfOk install (λ install. install ≡ install_for O.meaning (claimed_runs held.now) made.now) }
        ensures published { OnOk result (self.new.publisher ≡
            option_map (after_event (event_of O.meaning (claimed_runs held.now) made.now)) self.old.publisher) }
        ensures unchanged { IfErr result (λ _. self.new.publisher ≡ self.old.publisher) }
        ensures seen { IsPrefix reader.old reader.new }
        ensures legal { MayFollow O.meaning N.base reader.new }
        ensures installed { OnOk result
            (EndsWith reader.old (event_of O.meaning (claimed_runs held.now) made.now) reader.new) }
        ensures refused { IfErr result (λ error.
            ShowsRefusal (fold after N.base reader.new) (claimed_runs held.now) made.now error) }
        ensures own { IfErr result (λ error.
            made.now ≡ compaction_at held.now.pin.version held.now.stretch → IsOwnRefusal error) }
    {
        let Some(publisher) = self.publisher.take() else {
            unreachable!()
        };
        let (publisher, done) = installed(rt, alloc, publisher, held, made, install, reader);
        self.publisher = Some(publisher);
        done
    }
}

/// Shows readers the next version, after an install.
fn installed<O: Operator, N: Name, W: Wait + Drop, R: Wait>(
    rt: &R,
    alloc: Global,
    publisher: Publisher<O, N, W>,
    held: &Held<O, N>,
    made: &Compacted<O>,
    install: Result<Install, AllocError>,
    reader: &mut Reader<O, N>,
) -> (Publisher<O, N, W>, Result<(), InstallError>)
    requires table { held.now.seat.table ≡ N.table }
    requires inputs { made.now.inputs ≡ contents_of (claimed_runs held.now) }
    requires install { IfOk install (λ install. install ≡ install_for O.meaning (claimed_runs held.now) made.now) }
    ensures published { OnOk result.1
        (result.0 ≡ after_event (event_of O.meaning (claimed_runs held.now) made.now) publisher) }
    ensures unchanged { IfErr result.1 (λ _. result.0 ≡ publisher) }
    ensures seen { IsPrefix reader.old reader.new }
    ensures legal { MayFollow O.meaning N.base reader.new }
    ensures installed { OnOk result.1
        (EndsWith reader.old (event_of O.meaning (claimed_runs held.now) made.now) reader.new) }
    ensures refused { IfErr result.1 (λ error.
        ShowsRefusal (fold after N.base reader.new) (claimed_runs held.now) made.now error) }
    ensures own { IfErr result.1 (λ error.
        made.now ≡ compaction_at held.now.pin.version held.now.stretch → IsOwnRefusal error) }
{
    if let Some(refusal) = refusal(rt, &publisher, held, made, reader) {
        own_is_refused_for_two_reasons(held);
        return (publisher, Err(error_of(refusal)));
    }
    let Ok(install) = install else {
        return (publisher, Err(InstallError::Memory));
    };
    held.recall();
    let (publisher, done) = publisher.publish_install(alloc, &install, held.slots());
    if done.is_err() {
        return (publisher, Err(InstallError::Memory));
    }
    reader.sees(rt, &publisher.shown().front::<N>());
    (publisher, Ok(()))
}

/// Why the current version, all of whose history the reader has seen after the call, can't install the compaction of claimed runs.
/// If it can, the claimed runs are there as they were claimed, and the event may happen.
fn refusal<O: Operator, N: Name, W: Wait + Drop, R: Wait>(
    rt: &R,
    publisher: &Publisher<O, N, W>,
    held: &Held<O, N>,
    made: &Compacted<O>,
    reader: &mut Reader<O, N>,
) -> Option<Refusal>
    requires { made.now.inputs ≡ contents_of (claimed_runs held.now) }
    ensures seen { IsPrefix reader.old reader.new }
    ensures legal { MayFollow O.meaning N.base reader.new }
    ensures all { reader.new ≡ publisher.now.events }
    ensures behind { IsPrefix held.now.pin.events reader.new }
    ensures may { IfNone result (MayInstallHere O.meaning publisher.now.version (claimed_runs held.now) made.now) }
    ensures refused { IfSome result (λ refusal.
        IsRefused publisher.now.version (ids_of (claimed_runs held.now)) (terms_of made.now) refusal) }
{
    publisher.recall();
    let shown = publisher.shown().front::<N>();
    reader.sees(rt, &shown);
    recall_shown(rt, held.pin(), &shown);
    version_refusal(publisher, held, made)
}

/// Why the current version can't install the compaction of runs that were claimed in an earlier one.
fn version_refusal<O: Operator, N: Name, W: Wait + Drop>(
    publisher: &Publisher<O, N, W>,
    held: &Held<O, N>,
    made: &Compacted<O>,
) -> Option<Refusal>
    requires inputs { made.now.inputs ≡ contents_of (claimed_runs held.now) }
    requires before { IsPrefix held.now.pin.events publisher.now.events }
    ensures may { IfNone result (MayInstallHere O.meaning publisher.now.version (claimed_runs held.now) made.now) }
    ensures refused { IfSome result (λ refusal.
        IsRefused publisher.now.version (ids_of (claimed_runs held.now)) (terms_of made.now) refusal) }
{
    publisher.recall();
    held.recall();
    held.pin().recall();
    held.pin().version().recall();
    made.recall_standing();
    claimed_runs_stay_the_same::<O>();
    what_fits_may_be_installed::<O>();
    present_refusal(held.runs(), publisher.shown().version(), made)
}

/// The run that the claimed runs themselves were compacted to fails for two reasons at all versions after the pinned one. Proof
/// step: does nothing when it runs.
fn own_is_refused_for_two_reasons<O: Operator, N: Name>(held: &Held<O, N>)
    ensures { (now : List Event) (error : InstallError) → IsPrefix held.now.pin.events now → MayFollow O.meaning N.base now →
        IsNotInstallable (fold after N.base now) (claimed_runs held.now)
        (compaction_at held.now.pin.version held.now.stretch) error →
        IsOwnRefusal error }
{
    held.recall();
    held.pin().recall();
    held.pin().version().recall();
    own_compactions_are_refused_for_two_reasons::<O>();
}
