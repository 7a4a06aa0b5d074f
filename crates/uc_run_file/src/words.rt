//! Numbers of a fixed size, lowest byte first.
ghost use Rattle.std.specs.Prelude.{◌≡◌, ◌≤◌, ◌+◌, ◌++◌, length, drop, OnOk};
ghost use Rattle.uc_run_file.specs.Words.{word_text, half_text};
ghost use Rattle.uc_run_file.specs.Words as words;

use std::alloc::AllocError;

/// Pushes the eight bytes of a number. An `Err` pushes nothing.
#[tactic(auto, unfolding(crate::specs::Words::word_text))]
pub(crate) fn push_word(bytes: &mut Vec<u8>, number: u64) -> Result<(), AllocError>
    ensures { OnOk result (bytes.new.items ≡ bytes.old.items ++ word_text number) }
{
    bytes.extend_from_slice(&number.to_le_bytes())?;
    Ok(())
}

/// Pushes the four bytes of a number. An `Err` pushes nothing.
#[tactic(auto, unfolding(crate::specs::Words::half_text))]
pub(crate) fn push_half(bytes: &mut Vec<u8>, number: u32) -> Result<(), AllocError>
    ensures { OnOk result (bytes.new.items ≡ bytes.old.items ++ half_text number) }
{
    bytes.extend_from_slice(&number.to_le_bytes())?;
    Ok(())
}

/// The number in the first eight bytes.
#[tactic(auto, unfolding(crate::specs::Words::word_of))]
fn word_of(bytes: &[u8]) -> u64
    requires { 8 ≤ length bytes.now }
    ensures { result ≡ words.word_of bytes.now }
{
    let Some(first) = bytes.first_chunk() else {
        unreachable!();
    };
    u64::from_le_bytes(*first)
}

/// The number in the first eight bytes, and the bytes after them.
pub(crate) fn next_word(bytes: &[u8]) -> (u64, &[u8])
    requires { 8 ≤ length bytes.now }
    ensures word { result.0 ≡ words.word_of bytes.now }
    ensures rest { result.1.now ≡ drop 8 bytes.now }
    ensures len { length result.1.now + 8 ≡ length bytes.now }
{
    let (_, rest) = bytes.split_at(8);
    (word_of(bytes), rest)
}
