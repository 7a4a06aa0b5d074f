//! [`Reason`]: why a run failed, for people.

ghost use Rattle.std.specs.Prelude.{◌≡◌, Some};
ghost use Rattle.uc_tool_opening.specs.Reasons as reasons;
ghost use Rattle.uc_tool_opening.specs.Reasons.{AtLine, IsReason};

use crate::opening_fault::{OpeningFault, fault_of_opening};
use std::alloc::Global;
use thiserror::Error;
use uc_script::{Explanation, Source, explain};
use uc_version_open::OpenError;
use uc_version_state::Options;

/// Why a run failed, for people. It prints as one line, in addition to the fixed line of the run.
#[derive(Debug, Drop, PartialEq, Eq, Error)]
pub enum Reason {
    /// The fault of the first line at fault.
    #[error("{0}")]
    Line(Explanation),
    /// The fault of the opening.
    #[error("{0}")]
    Opening(OpeningFault),
}

/// The reason why input of this kind is rejected, whose first faulty line has this number. It is `None` if allocation fails.
pub fn reason_of_line(alloc: Global, source: Source, text: &[u8], number: u64) -> Option<Reason>
    ensures { IsReason (Some (AtLine source text.now number)) result }
{
    explain(alloc, source, text, number)
        .unwrap_or(None)
        .map(Reason::Line)
}

/// Why an opening under these options fails with this error. It is `None` if [`fault_of_opening`] is.
pub fn reason_of_opening(error: OpenError, options: &Options) -> Option<Reason>
    ensures { result ≡ reasons.reason_of_opening error options.now }
{
    fault_of_opening(error, options).map(Reason::Opening)
}
