//! Validation of bytes: each number in its shortest encoding, and each point whole.
ghost use Rattle.std.specs.Prelude.{◌≡◌, ◌↔◌, ℕ, ◌<◌, ◌^◌, ◌++◌, List, [], length, IsTrue, IfSome, IfNone, IfOk, IfErr};
ghost use Rattle.uc_run_points.specs.Faults.{Begins, IsWhole, IsErrorOf};
ghost use Rattle.uc_run_points.specs.Numbers.{number_text};
ghost use Rattle.uc_run_points.specs.Spelling.{AreSpelled, entries_from};
ghost use Rattle.uc_run_points.specs.Starts.{AreStarts};

use crate::number::spelled_number;
use crate::points::push_start;
use crate::points_error::PointsError;

/// The numbers before a point's byte strings, and the bytes that follow them.
#[derive(Drop)]
struct Head<'a> {
    /// Length of the key in bytes.
    key_len: u64,
    /// Length of the value or operand in bytes.
    text_len: u64,
    /// The sequence number times four, plus the tag.
    trailer: u64,
    rest: &'a [u8],
}

/// Returns the numbers at the front, or `None` unless each is in its shortest encoding.
fn spelled_head(bytes: &[u8]) -> Option<Head<'_>>
    ensures some { IfSome result (λ head. bytes.now ≡
        number_text head.key_len ++ (number_text head.text_len ++ (number_text head.trailer ++ head.rest.now))) }
    ensures none { IfNone result ((key_len text_len trailer : ℕ) (rest : List ℕ) →
        key_len < 2 ^ 64 → text_len < 2 ^ 64 → trailer < 2 ^ 64 →
        bytes.now ≡ number_text key_len ++ (number_text text_len ++ (number_text trailer ++ rest)) → ⊥) }
    ensures bound { IfSome result (λ head. (head.key_len < 2 ^ 64) × (head.text_len < 2 ^ 64) × (head.trailer < 2 ^ 64)) }
{
    let (key_len, rest) = spelled_number(bytes)?;
    let (text_len, rest) = spelled_number(rest)?;
    let (trailer, rest) = spelled_number(rest)?;
    Some(Head {
        key_len,
        text_len,
        trailer,
        rest,
    })
}

impl<'a> Head<'a> {
    /// Returns true if the tag is valid and the bytes that follow contain the key and the value or operand.
    fn is_whole(&self) -> bool
        ensures { IsTrue result ↔ IsWhole self.now.key_len self.now.text_len self.now.trailer (length self.now.rest.now) }
    {
        let len = self.rest.len() as u64;
        let is_tag = match self.trailer % 4 {
            0 => self.text_len == 0,
            1 | 2 => true,
            _ => false,
        };
        is_tag && self.key_len <= len && self.text_len <= len - self.key_len
    }
}

/// Returns the bytes after the first point, or `None` if no valid point is at the front.
fn after_spelled(bytes: &[u8]) -> Option<&[u8]>
    ensures some { IfSome result (λ rest. Begins bytes.now rest.now) }
    ensures none { IfNone result ((rest : List ℕ) → Begins bytes.now rest → ⊥) }
{
    let head = spelled_head(bytes)?;
    if !head.is_whole() {
        return None;
    }
    Some(&head.rest[(head.key_len + head.text_len) as usize..])
}

/// Returns the number of points that bytes encode. Pushes the offset of the first point of each quarter.
pub(crate) fn count_spelled(bytes: &[u8], starts: &mut Vec<usize>) -> Result<usize, PointsError>
    requires { starts.old.items ≡ [] }
    ensures spelled { IfOk result (λ count. AreSpelled count bytes.now) }
    ensures starts { IfOk result (λ count. AreStarts (entries_from count bytes.now) starts.new.items) }
    ensures fault { IfErr result (IsErrorOf bytes.now) }
{
    let mut rest = bytes;
    let mut count = 0;
    while !rest.is_empty() {
        let offset = bytes.len() - rest.len();
        push_start(starts, count, offset)?;
        match after_spelled(rest) {
            None => return Err(PointsError::Fault(offset)),
            Some(after) => rest = after,
        }
        count += 1;
    }
    Ok(count)
}
