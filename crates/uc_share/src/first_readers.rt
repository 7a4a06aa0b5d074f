//! [`Publisher::open`]: a store opened with its readers.
ghost use Rattle.std.specs.Prelude.{◌≡◌, ◌↔◌, [], replicate, IsTrue, IfOk};
ghost use Rattle.std.specs.Arc.{arc_value};
ghost use Rattle.uc_share.specs.Fronts.{moment, IsCount};

use crate::book::Book;
use crate::front::Front;
use crate::name::Name;
use crate::publisher::Publisher;
use crate::reader::Reader;
use std::alloc::{AllocError, Global};
use std::sync::{Arc, Wait};
use uc_oper::Operator;
use uc_version_state::Version;

/// The most readers of a store.
pub const MOST_READERS: usize = 128;

/// Whether a store opens for `readers` readers: 1 to [`MOST_READERS`].
pub fn is_reader_count(readers: usize) -> bool
    ensures { IsTrue result ↔ IsCount readers }
{
    0 < readers && readers <= MOST_READERS
}

impl<O: Operator, N: Name, W: Wait + Drop> Publisher<O, N, W> {
    /// `count` readers that have seen the opening.
    fn readers(
        &self,
        alloc: Global,
        front: &Front<N>,
        count: usize,
    ) -> Result<Vec<Reader<O, N>>, AllocError>
        requires { front.now ≡ [] }
        ensures { IfOk result (λ readers. readers.items ≡ replicate count []) }
    {
        let mut readers = Vec::with_capacity(alloc, count)?;
        for number in 0..count {
            readers.push(self.reader(front.again(), number)?)?;
        }
        Ok(readers)
    }

    /// A store opened with a version, for 1 to [`MOST_READERS`] readers: what shows them the next versions, and all of them.
    pub fn open(
        alloc: Global,
        rt: W,
        version: Arc<Version>,
        book: Book<N>,
        readers: usize,
    ) -> Result<(Publisher<O, N, W>, Vec<Reader<O, N>>), AllocError>
        requires count { IsCount readers }
        requires base { arc_value version ≡ N.base }
        requires book { book ≡ [] }
        ensures shown { IfOk result (λ opened. opened.0 ≡ moment N.book N.base []) }
        ensures readers { IfOk result (λ opened. opened.1.items ≡ replicate readers []) }
    {
        let first = book.front().again();
        let publisher = Publisher::new(alloc, rt, version, book, readers)?;
        let readers = publisher.readers(alloc, &first, readers)?;
        Ok((publisher, readers))
    }
}
