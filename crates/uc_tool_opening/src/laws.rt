//! Printed replies are read again.
ghost use Rattle.std.specs.Prelude.{◌≡◌, ◌<◌, List, ℕ, Some, All};
ghost use Rattle.uc_script.specs.Texts.{text_of};
ghost use Rattle.uc_tool_io.specs.Digits.{hex_text};

use uc_script::digits_are_read;

/// A script that names what is printed for bytes says these bytes.
pub fn printed_bytes_are_read()
    ensures { (bytes : List ℕ) → All (λ byte. byte < 256) bytes → text_of (hex_text bytes) ≡ Some bytes }
{
    digits_are_read();
}
