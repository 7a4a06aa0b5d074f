//! [`Call`]: what is asked of a store.
ghost use Rattle.uc_query.specs.Turns.{Rises};

use uc_batch::Writes;
use uc_bytes::Items;
use uc_query_read::Query;
use uc_version::Stretch;

/// A call of a store in one owner's hands. Claims are held under names, which are numbers below
/// [`MOST_CLAIMS`](uc_version::MOST_CLAIMS).
#[derive(Drop)]
pub enum Call {
    /// Claim a stretch of runs under a name.
    Claim(u8, Stretch),
    /// Compact what is claimed under a name, and put it in place.
    Install(u8),
    /// Give back what is claimed under a name.
    Abandon(u8),
    /// Claim a stretch, compact it and put it in place.
    Compact(Stretch),
    /// The stretch that would be compacted next.
    Pick,
    /// The figures of the store.
    Report,
    /// Answer these queries, by a number of workers, in pieces of a number of queries. One worker is the calling thread, which
    /// answers each query in turn.
    Ask(Items<Query>, usize, usize),
    /// Feed these writes, which become the newest runs.
    Feed(Writes),
    /// Take a snapshot: keep the last sequence.
    Keep,
    /// Release a snapshot: keep this sequence no more.
    Release(u64),
}

impl Call {
    /// The writes that it feeds rise, as all [`Writes`] do. It does nothing.
    pub fn recall(&self)
        ensures { Rises self.now }
    {
        if let Call::Feed(writes) = self {
            let _rising = writes.list();
        }
    }
}
