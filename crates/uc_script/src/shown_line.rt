//! [`shortened`]: a line as it is shown.

ghost use Rattle.std.specs.Prelude.{◌≡◌, ◌++◌, ◌<◌, ◌≤◌, take, length, OnOk, IfOk, string_bytes};
ghost use Rattle.std.specs.List.{flat_map};
ghost use Rattle.uc_script.specs.Shortened as lines;
ghost use Rattle.uc_script.specs.Shortened.{shown};

use std::alloc::{AllocError, Global};

/// The most bytes of a line that are shown.
pub const MOST_SHOWN: usize = 60;

/// The hexadecimal digit of a number below 16.
fn hex_digit(number: u8) -> char
    requires { number < 16 }
    ensures { result ≡ lines.hex_digit number }
{
    if number < 10 {
        char::from(b'0' + number)
    } else {
        char::from(b'a' + (number - 10))
    }
}

/// Appends a byte: itself if it is a printable character of ASCII, else `\x` and two hexadecimal digits.
fn push_byte(text: &mut String, byte: u8) -> Result<(), AllocError>
    ensures { OnOk result (string_bytes text.new ≡ string_bytes text.old ++ shown byte) }
{
    if matches!(byte, b' '..=b'~') {
        return text.push(char::from(byte));
    }
    text.push_str("\\x")?;
    text.push(hex_digit(byte / 16 % 16))?;
    text.push(hex_digit(byte % 16))
}

/// Appends bytes one by one.
fn push_bytes(text: &mut String, bytes: &[u8]) -> Result<(), AllocError>
    ensures { OnOk result (string_bytes text.new ≡ string_bytes text.old ++ flat_map shown bytes.now) }
{
    for byte in bytes {
        push_byte(text, *byte)?;
    }
    Ok(())
}

/// Appends the first `count` bytes of a line.
fn push_front(text: &mut String, line: &[u8], count: usize) -> Result<(), AllocError>
    requires { count ≤ length line.now }
    ensures { OnOk result
        (string_bytes text.new ≡ string_bytes text.old ++ flat_map shown (take count line.now)) }
{
    push_bytes(text, &line[..count])
}

/// A line as it is shown: at most [`MOST_SHOWN`] of its bytes, each a printable character of ASCII or `\x` with its two
/// hexadecimal digits, then `...` if the line is longer.
#[tactic(auto, unfolding(crate::specs::Shortened::shortened))]
pub fn shortened(alloc: Global, line: &[u8]) -> Result<String, AllocError>
    ensures { IfOk result (λ text. string_bytes text ≡ lines.shortened line.now) }
{
    let mut text = String::new(alloc);
    if line.len() <= MOST_SHOWN {
        push_bytes(&mut text, line)?;
    } else {
        push_front(&mut text, line, MOST_SHOWN)?;
        text.push_str("...")?;
    }
    Ok(text)
}
