//! [`RunError`]: why a run stops before all is printed.

ghost use Rattle.std.specs.Prelude.{◌≡◌};
ghost use Rattle.uc_tool_io.specs.declared.run_error.RunError.TheVariants.{Memory};

use std::alloc::AllocError;

/// Why a run stops before all is printed.
#[derive(Clone, Copy, Debug, PartialEq, Eq)]
pub enum RunError {
    /// Memory ran out.
    Memory,
    /// The writer failed: nothing more is to be written to it.
    Device,
}

impl From<AllocError> for RunError {
    ghost from_gives = { λ _ e. e ≡ Memory };

    fn from(_e: AllocError) -> RunError {
        RunError::Memory
    }
}
