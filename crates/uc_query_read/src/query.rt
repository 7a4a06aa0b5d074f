//! [`Query`]: what is asked of a store.
ghost use Rattle.std.specs.Prelude.{◌≡◌};

use uc_bytes::Bytes;

/// A query of a store, at a sequence.
#[derive(Debug, PartialEq, Eq, Drop)]
pub enum Query {
    /// The value of a key.
    Get {
        /// The key.
        key: Bytes,
        /// The sequence at which it is read.
        at: u64,
    },
    /// The first rows of a range of keys.
    Scan {
        /// The first key that may be a row's.
        low: Bytes,
        /// The rows' keys are below this one, if there is one.
        high: Option<Bytes>,
        /// The sequence at which the rows are read.
        at: u64,
        /// The most rows.
        limit: u64,
    },
}

impl Query {
    ghost use Rattle.uc_query_read.specs.Query.{at_of};

    /// The sequence at which it reads.
    pub fn at(&self) -> u64
        ensures { result ≡ at_of self.now }
    {
        match self {
            Query::Get { at, .. } | Query::Scan { at, .. } => *at,
        }
    }
}
