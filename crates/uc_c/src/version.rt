//! The version of the functions that C calls.
ghost use Rattle.std.specs.Prelude.{◌≡◌};

/// The version: it grows when a function or a status changes its meaning.
pub const VERSION: u32 = 2;

/// The version of the functions that C calls.
#[unsafe(no_mangle)]
pub extern "C" fn ucstore_version() -> u32
    ensures { result ≡ 2 }
{
    VERSION
}
