//! [`Publisher`]: what shows readers the next version.
ghost use Rattle.std.specs.Prelude.{◌≡◌, ◌≤◌, ◌++◌, ◌∷◌, [], None, Contains, drop, length, map, true, false, IfOk, OnOk, IfErr};
ghost use Rattle.std.specs.Arc.{arc_value};
ghost use Rattle.uc_run.specs.Flush.{flushed};
ghost use Rattle.uc_version_state.specs.Installs.{MayInstall};
ghost use Rattle.uc_version_state.specs.Feeds.{MayFeed, memtables_in};
ghost use Rattle.uc_version_state.specs.Histories.{KeepsStay, MayHappen, after};
ghost use Rattle.uc_version_state.specs.declared.event.Event.TheVariants.{Flushed, Installed, Kept, Released};
ghost use Rattle.uc_share.specs.Fronts.{moment, after_event, IsCount, IsMoment, HoldsReplaced};

use crate::book::Book;
use crate::front::Front;
use crate::name::Name;
use crate::reader::Reader;
use crate::rule::{Add, Keep, Release, Rises, Sees};
use crate::share::Shares;
use crate::shown::Shown;
use left_right::writer::Writer;
use logbook::Plain;
use std::alloc::{AllocError, Global};
use std::marker::Model;
use std::sync::{Arc, Wait};
use uc_batch::Writes;
use uc_claims::HeldSlots;
use uc_oper::Operator;
use uc_run::Run;
use uc_version_open::version_with_flushed;
use uc_version_state::{Event, Install, Version};

/// The publisher shows readers the next version. Protected by the store's lock. It has the store's history, all of which is shown.
/// It keeps a `Wait` handle, since it waits for readers of an older version, even when it is dropped. Contracts see what it shows.
pub struct Publisher<O: Operator, N: Name, W: Wait + Drop> {
    writer: Writer<Shown, Shown, u64, Rises<O, N>>,
    book: Book<N>,
    rt: W,
}

impl<O: Operator, N: Name, W: Wait + Drop> Model for Publisher<O, N, W> {
    ghost use Rattle.std.specs.Prelude.{◌≡◌};
    ghost use Rattle.uc_share.specs.Fronts.{Moment, IsMoment};

    ghost Value = { Moment };

    ghost view = { λ p. p.writer.desk.shown.value };

    ghost invariant = { λ p. IsMoment O.meaning N.keeps_stay N.book N.base p.writer.desk.shown.value
        × (p.book ≡ p.writer.desk.shown.value.events) };
}

impl<O: Operator, N: Name, W: Wait + Drop> Drop for Publisher<O, N, W> {
    fn drop(self) {
        let Self {
            writer,
            book: _book,
            rt,
        } = self;
        drop(writer.take(&rt));
    }
}

/// A version, with a share for each reader.
fn shared_out(alloc: Global, version: Version, readers: usize) -> Result<Arc<Shares>, AllocError>
    ensures { IfOk result (λ shares. arc_value shares ≡ version) }
{
    let version = Arc::new(alloc, version)?;
    Ok(Arc::new(alloc, Shares::new(alloc, version, readers)?)?)
}

impl<O: Operator, N: Name, W: Wait + Drop> Publisher<O, N, W> {
    /// Shows the version with which a store is opened to `readers` readers. It queues an entry that is shown again, so that the
    /// queue has capacity for each later publication.
    pub(crate) fn new(
        alloc: Global,
        rt: W,
        version: Arc<Version>,
        book: Book<N>,
        readers: usize,
    ) -> Result<Publisher<O, N, W>, AllocError>
        requires count { IsCount readers }
        requires base { arc_value version ≡ N.base }
        requires book { book ≡ [] }
        ensures { IfOk result (λ publisher. publisher ≡ moment N.book N.base []) }
    {
        let shares = Shares::new(alloc, version, readers)?;
        let first = Shown::new(Arc::new(alloc, shares)?, book.front().again());
        let second = first.again()?;
        let third = first.again()?;
        let mut writer = Writer::new(alloc, first, second, readers)?;
        if writer.append(third).is_err() {
            drop(writer.take(&rt));
            return Err(AllocError);
        }
        Ok(Publisher { writer, book, rt })
    }

    /// A reader that has seen the opening, with this number. Fails if the limit of readers is reached.
    pub(crate) fn reader(&self, front: Front<N>, number: usize) -> Result<Reader<O, N>, AllocError>
        requires { front ≡ [] }
        ensures { IfOk result (λ reader. reader ≡ []) }
    {
        Ok(Reader::new(self.writer.factory().reader()?, front, number))
    }

    /// The version that it shows is of the store's own history, which leads from the opening to it. It does nothing.
    pub fn recall(&self)
        ensures { IsMoment O.meaning N.keeps_stay N.book N.base self.now }
    {
        let _ = &self.rt;
    }

    /// The version that readers are shown now.
    pub fn shown(&self) -> &Shown
        ensures { result.now ≡ self.now }
    {
        self.writer.published()
    }

    /// The store's history. All of it is shown, even after a failed publication.
    pub fn history(&self) -> &Front<N>
        ensures { result.now ≡ self.now.events }
    {
        self.book.front()
    }

    /// Shows readers the version after an install. The publishing thread lends the slots of the replaced runs, so that nobody else
    /// has claimed them. On failure nothing that is shown changes, and the history stays.
    pub fn publish_install(
        self,
        alloc: Global,
        install: &Install,
        slots: &HeldSlots,
    ) -> (Publisher<O, N, W>, Result<(), AllocError>)
        requires may { MayInstall O.meaning self.version install.now }
        requires held { HoldsReplaced N.table self.version (Installed install.now) slots.now }
        ensures ok { OnOk result.1 (result.0 ≡ after_event (Installed install.now) self) }
        ensures err { IfErr result.1 (λ _. result.0 ≡ self) }
    {
        let _ = slots;
        match self.shown().version().installed::<O>(alloc, install) {
            Err(error) => (self, Err(error)),
            Ok(next) => self.show_event::<Install, Add>(alloc, next, install),
        }
    }

    /// Shows readers the version after writes were fed, whose memtables these are, flushed, the oldest first. On failure nothing
    /// that is shown changes, and the history stays.
    pub fn publish_feed(
        self,
        alloc: Global,
        writes: &Writes,
        runs: Vec<Run>,
    ) -> (Publisher<O, N, W>, Result<(), AllocError>)
        requires may { MayFeed self.version writes.now.list }
        requires runs { runs.items ≡ map flushed (memtables_in self.version writes.now.list) }
        ensures ok { OnOk result.1 (result.0 ≡ after_event (Flushed writes.now.list) self) }
        ensures err { IfErr result.1 (λ _. result.0 ≡ self) }
    {
        match version_with_flushed(alloc, self.shown().version(), writes.list(), runs) {
            Err(error) => (self, Err(error)),
            Ok(next) => self.show_event::<Writes, Add>(alloc, next, writes),
        }
    }

    /// Shows readers the version after its last sequence number was kept. On failure nothing that is shown changes, and the history
    /// stays.
    pub fn publish_keep(self, alloc: Global) -> (Publisher<O, N, W>, Result<(), AllocError>)
        requires { N.keeps_stay ≡ false }
        ensures ok { OnOk result.1 (result.0 ≡ after_event Kept self) }
        ensures err { IfErr result.1 (λ _. result.0 ≡ self) }
    {
        match self.shown().version().kept(alloc) {
            Err(error) => (self, Err(error)),
            Ok(next) => self.show_event::<Keep, Add>(alloc, next, &Keep),
        }
    }

    /// Shows readers the version after a keep was released. On failure nothing that is shown changes, and the history stays.
    pub fn publish_release(
        self,
        alloc: Global,
        seq: u64,
    ) -> (Publisher<O, N, W>, Result<(), AllocError>)
        requires keep { Contains self.version.keeps seq }
        requires may { N.keeps_stay ≡ false }
        ensures ok { OnOk result.1 (result.0 ≡ after_event (Released seq) self) }
        ensures err { IfErr result.1 (λ _. result.0 ≡ self) }
    {
        match self.shown().version().released(alloc, seq) {
            Err(error) => (self, Err(error)),
            Ok(next) => self.show_event::<Release, Add>(alloc, next, &Release(seq)),
        }
    }

    /// Shows readers the version after the event that `about` says, whole. All memory is asked for before the event goes after
    /// the history, and then it is shown.
    fn show_event<X, M: Plain<X, Event, u64>>(
        self,
        alloc: Global,
        next: Version,
        about: &X,
    ) -> (Publisher<O, N, W>, Result<(), AllocError>)
        requires plain { M.state about.now ≡ None }
        requires may { MayHappen O.meaning self.version (M.ask about.now) }
        requires stays { N.keeps_stay ≡ true → KeepsStay (M.ask about.now ∷ []) }
        requires next { next ≡ after self.version (M.ask about.now) }
        ensures ok { OnOk result.1 (result.0 ≡ after_event (M.ask about.now) self) }
        ensures err { IfErr result.1 (λ _. result.0 ≡ self) }
    {
        let Self {
            writer,
            mut book,
            rt,
        } = self;
        let shares = match shared_out(alloc, next, writer.published().readers()) {
            Err(error) => return (Publisher { writer, book, rt }, Err(error)),
            Ok(shares) => shares,
        };
        if !book.add::<X, M>(about) {
            return (Publisher { writer, book, rt }, Err(AllocError));
        }
        let next = Shown::new(shares, book.front().again());
        let writer = show(&rt, writer, next);
        (Publisher { writer, book, rt }, Ok(()))
    }
}

/// Appends an entry to the queue. The queue has had the capacity since the opening, so the first turn is the last.
fn queued<O: Operator, N: Name, W: Wait>(
    rt: &W,
    mut writer: Writer<Shown, Shown, u64, Rises<O, N>>,
    next: Shown,
) -> Writer<Shown, Shown, u64, Rises<O, N>>
    ensures desk { result.desk ≡ writer.desk }
    ensures last { drop result.behind result.log.items ≡ drop writer.behind writer.log.items ++ next ∷ [] }
{
    let mut entry = next;
    for _ in rt.forever() {
        match writer.append(entry) {
            Ok(()) => return writer,
            Err(back) => entry = back,
        }
    }
    unreachable!()
}

/// Shows readers the next version in place of the previous one. It clones the next one, which fails only if it has too many owners:
/// then it tries again, since the history has the event.
fn show<O: Operator, N: Name, W: Wait>(
    rt: &W,
    writer: Writer<Shown, Shown, u64, Rises<O, N>>,
    next: Shown,
) -> Writer<Shown, Shown, u64, Rises<O, N>>
    requires moment { IsMoment O.meaning N.keeps_stay N.book N.base next }
    requires longer { length writer.desk.shown.value.events ≤ length next.events }
    ensures { result.desk.shown.value ≡ next }
{
    let mut writer = queued(rt, writer, next);
    for _ in rt.forever() {
        let (back, done) = writer.publish_as::<Sees<O, N>, W>(rt);
        writer = back;
        if let Ok(()) = done {
            return writer;
        }
    }
    unreachable!()
}
