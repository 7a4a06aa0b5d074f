//! [`Opening`]: a store that was opened and has no name yet.
ghost use Rattle.std.specs.Prelude.{◌≡◌, ◌≢◌, [], Some, None, IfOk, IfErr, All, length, replicate, true, false};
ghost use Rattle.std.specs.Arc.{arc_value};
ghost use Rattle.uc_version_state.specs.Options.{are_good};
ghost use Rattle.uc_version_state.specs.Openings.{Opening as OpeningOf};
ghost use Rattle.uc_version_state.specs.Histories.{IsLegal, version_after};
ghost use Rattle.uc_version_open.specs.declared.open_error.OpenError.TheVariants.{BadCount, Memory};
ghost use Rattle.uc_share.specs.Stores as stores;
ghost use Rattle.uc_share.specs.Stores.{IsNamed, IsOpenedSo, beginning, shared_refusal};

use crate::book::EmptyHistory;
use crate::desk::Desk;
use crate::first_readers::MOST_READERS;
use crate::name::Name;
use crate::publisher::Publisher;
use crate::reader::Reader;
use crate::store::Store;
use crate::words::Words;
use std::alloc::{AllocError, Global};
use std::marker::{Model, PhantomData};
use std::sync::{Arc, Mutex, Wait};
use uc_batch::Writes;
use uc_claims::Seat;
use uc_oper::Operator;
use uc_version_open::{OpenError, no_refusal_is_leave_to_open, open_version};
use uc_version_state::{Options, Version};

/// The most seats of a store.
pub const MOST_SEATS: usize = 64;

/// Whether a store opens for `readers` readers, from 1 to [`MOST_READERS`], and `seats` seats, up to [`MOST_SEATS`].
pub fn are_counts(readers: usize, seats: usize) -> bool
    ensures { result ≡ stores.are_counts readers seats }
{
    0 < readers && readers <= MOST_READERS && seats <= MOST_SEATS
}

/// A store that was opened for some readers and seats, and has no name yet. Contracts see the version that it begins with, how it
/// is compacted, for how many it is, and what its name has: the book of its history and its table of claim words.
#[derive(Drop)]
pub struct Opening<O: Operator> {
    history: EmptyHistory,
    words: Words,
    seats: Vec<Seat>,
    version: Arc<Version>,
    options: Options,
    readers: usize,
    operator: PhantomData<O>,
}

impl<O: Operator> Model for Opening<O> {
    ghost use Rattle.std.specs.Prelude.{◌≡◌, All, length, true};
    ghost use Rattle.std.specs.Arc.{arc_value};
    ghost use Rattle.uc_version_state.specs.Options.{are_good};
    ghost use Rattle.uc_share.specs.Stores.{Opened, are_counts};

    ghost Value = { Opened };

    ghost view = { λ o. record {
      book = o.history.seen.book;
      table = o.words;
      version = arc_value o.version;
      options = o.options;
      readers = o.readers;
      seats = length o.seats.items;
    } };

    ghost invariant = { λ o. All (λ seat. seat.table ≡ o.words) o.seats.items
        × (are_counts o.readers (length o.seats.items) ≡ true) × (are_good o.options ≡ true)
        × (length o.seats.items ≡ 1 → All (λ seat. seat.whole ≡ true) o.seats.items) };
}

impl<O: Operator> Opening<O> {
    /// A store that begins with a version, for 1 to [`MOST_READERS`] readers and up to [`MOST_SEATS`] seats. On failure the version
    /// is returned. [`open`](Opening::open) opens one from writes; this is for a version that was recovered from a log.
    pub fn of(
        alloc: Global,
        version: Version,
        options: Options,
        readers: usize,
        seats: usize,
    ) -> Result<Opening<O>, (Version, OpenError)>
        requires { are_good options ≡ true }
        ensures counts { IfOk result (λ _. stores.are_counts readers seats ≡ true) }
        ensures version { IfOk result (λ opening. opening.version ≡ version) }
        ensures options { IfOk result (λ opening. opening.options ≡ options) }
        ensures readers { IfOk result (λ opening. opening.readers ≡ readers) }
        ensures seats { IfOk result (λ opening. opening.seats ≡ seats) }
        ensures back { IfErr result (λ refused. refused.0 ≡ version) }
        ensures refused { IfErr result (λ refused. refused.1 ≢ Memory →
            (refused.1 ≡ BadCount) × (stores.are_counts readers seats ≡ false)) }
        ensures memory { IfErr result (λ refused. refused.1 ≡ Memory → stores.are_counts readers seats ≡ true) }
    {
        if !are_counts(readers, seats) {
            return Err((version, OpenError::BadCount));
        }
        let Ok((words, seats)) = Words::new(alloc, seats) else {
            return Err((version, OpenError::Memory));
        };
        match Arc::new(alloc, version) {
            Err(failed) => Err((failed.value, OpenError::Memory)),
            Ok(version) => Ok(Opening {
                history: EmptyHistory::new(),
                words,
                seats,
                version,
                options,
                readers,
                operator: PhantomData,
            }),
        }
    }

    /// A store of these writes, which keeps these sequence numbers and the last one, for 1 to [`MOST_READERS`] readers and up to
    /// [`MOST_SEATS`] seats. It begins with the version that one owner's store would (`uc_version::open_plain`), and its history
    /// with that opening. Fails, in this order, if a number of readers or seats is out of range, if an option is out of range, if a
    /// kept number is above the last one, if there are more runs than slots, or if allocation fails.
    pub fn open(
        alloc: Global,
        writes: &Writes,
        keeps: &[u64],
        options: Options,
        readers: usize,
        seats: usize,
    ) -> Result<Opening<O>, OpenError>
        ensures ok { let o : OpeningOf = record { writes = writes.now.list; keeps = keeps.now; options = options } in
            IfOk result (λ opening. (shared_refusal o readers seats ≡ None) × IsOpenedSo opening o readers seats) }
        ensures legal { let o : OpeningOf = record { writes = writes.now.list; keeps = keeps.now; options = options } in
            IfOk result (λ opening.
            IsLegal O.meaning (beginning o) × (version_after (beginning o) ≡ opening.version)) }
        ensures err { let o : OpeningOf = record { writes = writes.now.list; keeps = keeps.now; options = options } in
            IfErr result (λ error. error ≢ Memory → shared_refusal o readers seats ≡ Some error) }
    {
        no_refusal_is_leave_to_open();
        let _ = writes.list();
        if !are_counts(readers, seats) {
            return Err(OpenError::BadCount);
        }
        let version = match open_version(alloc, writes, keeps, &options) {
            Err(error) => return Err(error),
            Ok(version) => version,
        };
        match Opening::of(alloc, version, options, readers, seats) {
            Err((_version, error)) => Err(error),
            Ok(opening) => Ok(opening),
        }
    }

    /// The version that it begins with.
    pub fn version(&self) -> &Version
        ensures { result.now ≡ self.now.version }
    {
        &self.version
    }

    /// The store under its name, with its readers, which have seen the opening, and its seats. Only a single seat is whole: its
    /// view of the slots is exact, since nobody else takes any. If allocation fails, the opening is returned, and needs another
    /// name then. The store keeps the handle, since its publisher waits for readers even when it is dropped.
    pub fn named<N: Name, W: Wait + Drop>(
        self,
        alloc: Global,
        rt: W,
    ) -> Result<(Store<O, N, W>, Vec<Reader<O, N>>, Vec<Seat>), (Opening<O>, AllocError)>
        requires { IsNamed self N.book N.table N.base }
        ensures store { IfOk result (λ named. named.0 ≡ record { table = N.table; options = self.options }) }
        ensures readers { IfOk result (λ named. named.1.items ≡ replicate self.readers []) }
        ensures seats { IfOk result (λ named.
            (length named.2.items ≡ self.seats) × All (λ seat. seat.table ≡ named.0.table) named.2.items) }
        ensures alone { self.seats ≡ 1 → IfOk result (λ named. All (λ seat. seat.whole ≡ true) named.2.items) }
        ensures back { IfErr result (λ refused. refused.0 ≡ record self { book = refused.0.book }) }
    {
        let Opening {
            history,
            words,
            seats,
            version,
            options,
            readers,
            operator,
        } = self;
        let Ok(shown) = version.clone() else {
            let opening = Opening {
                history,
                words,
                seats,
                version,
                options,
                readers,
                operator,
            };
            return Err((opening, AllocError));
        };
        match Publisher::open(alloc, rt, shown, history.named::<N>(), readers) {
            Err(error) => {
                let opening = Opening {
                    history: EmptyHistory::new(),
                    words,
                    seats,
                    version,
                    options,
                    readers,
                    operator,
                };
                Err((opening, error))
            }
            Ok((publisher, readers)) => {
                let store = Store::new(words, options, publisher);
                Ok((store, readers, seats))
            }
        }
    }
}
