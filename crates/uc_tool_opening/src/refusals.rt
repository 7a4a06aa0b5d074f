//! The lines of refusals.

ghost use Rattle.std.specs.Prelude.{◌≡◌, IfOk};
ghost use Rattle.uc_tool_opening.specs.RefusalLines as lines;

use std::alloc::{AllocError, Global};
use uc_tool_io::numbered_line;
use uc_version::{ClaimError, InstallError};
use uc_version_state::FeedError;

/// The line that says why a stretch isn't claimed.
pub fn claim_refusal_line(alloc: Global, error: ClaimError) -> Result<Vec<u8>, AllocError>
    ensures { IfOk result (λ line. line.items ≡ lines.claim_refusal_line error) }
{
    match error {
        ClaimError::OutOfRange => Vec::from_slice(alloc, b"refused out of range\n"),
        ClaimError::TooNarrow => Vec::from_slice(alloc, b"refused too narrow\n"),
        ClaimError::Busy(slot) => numbered_line(alloc, b"refused busy ", slot as u64),
        ClaimError::Moved => Vec::from_slice(alloc, b"refused moved\n"),
        ClaimError::Memory => Vec::from_slice(alloc, b"out of memory\n"),
    }
}

/// The line that says why a compaction isn't installed.
pub fn install_refusal_line(alloc: Global, error: InstallError) -> Result<Vec<u8>, AllocError>
    ensures { IfOk result (λ line. line.items ≡ lines.install_refusal_line error) }
{
    match error {
        InstallError::IdsSpent => Vec::from_slice(alloc, b"refused ids spent\n"),
        InstallError::WrongInputs => Vec::from_slice(alloc, b"refused wrong inputs\n"),
        InstallError::WrongKeeps(keep) => numbered_line(alloc, b"refused wrong keeps ", keep),
        InstallError::Stale => Vec::from_slice(alloc, b"refused stale\n"),
        InstallError::Memory => Vec::from_slice(alloc, b"out of memory\n"),
    }
}

/// The line that says why writes aren't fed.
pub fn feed_refusal_line(alloc: Global, error: FeedError) -> Result<Vec<u8>, AllocError>
    ensures { IfOk result (λ line. line.items ≡ lines.feed_refusal_line error) }
{
    match error {
        FeedError::Back(last) => numbered_line(alloc, b"refused back ", last),
        FeedError::TooManyRuns => Vec::from_slice(alloc, b"refused too many runs\n"),
        FeedError::IdsSpent => Vec::from_slice(alloc, b"refused ids spent\n"),
        FeedError::Memory => Vec::from_slice(alloc, b"out of memory\n"),
    }
}
