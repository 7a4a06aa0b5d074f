//! [`Reply`]: what comes of a call.
use crate::summary::Report;
use uc_bytes::Items;
use uc_query_read::Answer;
use uc_version::{ClaimError, InstallError, Stretch};
use uc_version_state::FeedError;

/// The reply to a [`Call`](crate::Call).
#[derive(Drop)]
pub enum Reply {
    /// A stretch is claimed under this name.
    Claimed(u8),
    /// The stretch can't be claimed.
    Refused(ClaimError),
    /// The claimed runs are compacted to the run with this id.
    Installed(u64),
    /// The compaction isn't put in place, since no id is left; what was claimed under a name still is.
    NotInstalled(InstallError),
    /// The claim of this name is given back.
    Abandoned(u8),
    /// Nothing is claimed under this name.
    NoClaim(u8),
    /// Something is claimed under this name already. The stretch wasn't looked at.
    NameHeld(u8),
    /// The stretch is compacted, and is the run with this id now.
    Compacted(u64),
    /// The stretch that would be compacted next, if there is one.
    Picked(Option<Stretch>),
    /// The figures of the store.
    Reported(Report),
    /// The answers, in the order of the queries.
    Answers(Items<Answer>),
    /// The writes are fed, and became this many runs.
    Fed(u64),
    /// The writes aren't fed, and the store is as it was. It never says that memory ran out: that ends the list of calls.
    NotFed(FeedError),
    /// This sequence, the last one, is a keep.
    Kept(u64),
    /// This sequence was a keep, and is none now.
    Released(u64),
    /// This sequence is no keep.
    NotReleased(u64),
}
