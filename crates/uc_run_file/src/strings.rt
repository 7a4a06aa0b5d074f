//! Byte strings after their lengths.
ghost use Rattle.std.specs.Prelude.{◌≡◌, ℕ, ◌^◌, ◌<◌, ◌++◌, List, length, OnOk, IfSome, IfNone};
ghost use Rattle.uc_run_file.specs.Spelling.{string_text};

use std::alloc::AllocError;
use uc_run_points::{push_number, spelled_number};

/// Pushes a byte string. An `Err` may leave some of its bytes pushed.
#[tactic(auto, unfolding(crate::specs::Spelling::string_text))]
pub(crate) fn push_string(bytes: &mut Vec<u8>, string: &[u8]) -> Result<(), AllocError>
    ensures { OnOk result (bytes.new.items ≡ bytes.old.items ++ string_text string.now) }
{
    push_number(bytes, string.len() as u64)?;
    bytes.extend_from_slice(string)?;
    Ok(())
}

/// The byte string at the front, and the bytes after it, if one is spelled there.
pub(crate) fn read_string(bytes: &[u8]) -> Option<(&[u8], &[u8])>
    ensures some { IfSome result (λ read. bytes.now ≡ string_text read.0.now ++ read.1.now) }
    ensures bound { IfSome result (λ read. length read.0.now < 2 ^ 64) }
    ensures none { IfNone result ((string rest : List ℕ) → length string < 2 ^ 64 →
        bytes.now ≡ string_text string ++ rest → ⊥) }
{
    let (len, rest) = spelled_number(bytes)?;
    if (rest.len() as u64) < len {
        return None;
    }
    Some(rest.split_at(len as usize))
}
