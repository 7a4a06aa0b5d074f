//! [`Outcome`]: how a run ended, and the reason that is printed.

ghost use Rattle.std.specs.Prelude.{◌≡◌, None};

use crate::reason::Reason;
use uc_tool_io::Done;

/// The end of a run, and, if it failed, the reason that is printed.
#[derive(Debug, Drop, PartialEq, Eq)]
pub struct Outcome {
    /// The end of the run.
    pub done: Done,
    /// Why the run failed, if more can be said of that than the line that it printed. It is the reason of the faulty line, or of
    /// the opening that failed. An opening's reason needs no allocation. A line's is `None` too if an allocation fails: the run
    /// prints and ends all the same.
    pub reason: Option<Reason>,
}

impl Outcome {
    /// An outcome without a reason.
    pub fn without_reason(done: Done) -> Outcome
        ensures { result ≡ record { done = done; reason = None } }
    {
        Outcome { done, reason: None }
    }
}
