//! Lines of a script, and fields of a line.

ghost use Rattle.std.specs.Prelude.{◌≡◌, ◌+◌, ◌-◌, ◌<◌, [], ◌∷◌, ◌==◌, length, drop, position, MatchOption};
ghost use Rattle.uc_script.specs.Lines as lines;
ghost use Rattle.uc_script.specs.Lines.{lines_of, fields_of};
ghost use Rattle.uc_script.specs.Fields.{Holds};

/// The first place of a byte, if there is one.
fn find(bytes: &[u8], wanted: u8) -> Option<usize>
    ensures { result ≡ position (λ byte. byte == wanted) bytes.now }
{
    bytes.iter().position(|byte| *byte == wanted)
}

/// The first line without its LF, and what follows that LF.
pub fn next_line(text: &[u8]) -> (&[u8], &[u8])
    requires { 0 < length text.now }
    ensures cut { lines_of text.now ≡ result.0.now ∷ lines_of result.1.now }
    ensures left { length result.1.now ≡ length text.now - (length result.0.now + 1) }
    ensures behind { result.1.now ≡ drop (length result.0.now + 1) text.now }
{
    match find(text, b'\n') {
        Some(end) => (&text[..end], &text[end + 1..]),
        None => (text, &text[text.len()..]),
    }
}

/// Whether a line is empty or a comment.
pub fn is_skipped(line: &[u8]) -> bool
    ensures { result ≡ lines.is_skipped line.now }
{
    matches!(line, [] | [b'#', ..])
}

/// The first field, and what follows its space if there is one.
pub fn next_field(line: &[u8]) -> (&[u8], Option<&[u8]>)
    ensures { MatchOption result.1
        (fields_of line.now ≡ result.0.now ∷ [])
        (λ rest. fields_of line.now ≡ result.0.now ∷ fields_of rest.now) }
{
    match find(line, b' ') {
        Some(end) => (&line[..end], Some(&line[end + 1..])),
        None => (line, None),
    }
}

/// The fields of a line. No line that says something has more than five.
#[derive(Clone, Copy)]
pub(crate) enum Fields<'a> {
    /// One field: the line has no space.
    One(&'a [u8]),
    /// Two fields.
    Two(&'a [u8], &'a [u8]),
    /// Three fields.
    Three(&'a [u8], &'a [u8], &'a [u8]),
    /// Four fields.
    Four(&'a [u8], &'a [u8], &'a [u8], &'a [u8]),
    /// Five fields.
    Five(&'a [u8], &'a [u8], &'a [u8], &'a [u8], &'a [u8]),
    /// Six fields or more, which are not held.
    More,
}

/// Splits a line at its spaces, and stops at the sixth field.
#[tactic(auto, using(crate::proofs::Cuts::some_field))]
pub(crate) fn split_line(line: &[u8]) -> Fields<'_>
    ensures { Holds result (fields_of line.now) }
{
    let (first, rest) = next_field(line);
    let Some(rest) = rest else {
        return Fields::One(first);
    };
    let (second, rest) = next_field(rest);
    let Some(rest) = rest else {
        return Fields::Two(first, second);
    };
    let (third, rest) = next_field(rest);
    let Some(rest) = rest else {
        return Fields::Three(first, second, third);
    };
    let (fourth, rest) = next_field(rest);
    let Some(rest) = rest else {
        return Fields::Four(first, second, third, fourth);
    };
    let (fifth, rest) = next_field(rest);
    match rest {
        None => Fields::Five(first, second, third, fourth, fifth),
        Some(_) => Fields::More,
    }
}
