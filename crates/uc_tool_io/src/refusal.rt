//! [`Refusal`]: why the program runs nothing.

ghost use Rattle.std.specs.Prelude.{◌≡◌};
ghost use Rattle.uc_tool_io.specs.Refusal.{done_of};
ghost use Rattle.uc_tool_io.specs.declared.refusal.Refusal.TheVariants.{Memory};

use crate::done::Done;
use std::alloc::AllocError;
use thiserror::Error;

/// Why the program runs nothing.
#[derive(Clone, Copy, Debug, PartialEq, Eq, Error)]
pub enum Refusal {
    /// A word of the command line isn't UTF-8.
    #[error("error: a word of the command line is not UTF-8")]
    NotText,
    /// Memory ran out.
    #[error("out of memory")]
    Memory,
}

impl From<AllocError> for Refusal {
    ghost from_gives = { λ _ e. e ≡ Memory };

    fn from(_e: AllocError) -> Refusal {
        Refusal::Memory
    }
}

impl Refusal {
    /// The end of the program for it.
    pub fn done(self) -> Done
        ensures { result ≡ done_of self }
    {
        match self {
            Refusal::NotText => Done::Refused,
            Refusal::Memory => Done::NoMemory,
        }
    }
}
