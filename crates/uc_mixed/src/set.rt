//! Sets of byte strings, each member two bytes of its length, low byte first, and its bytes.
ghost use Rattle.std.specs.Prelude.{◌≡◌, ◌++◌, ◌∷◌, [], ◌≤◌, ℕ, List, Some, None, length, take, drop, MatchOption, IfOk};
ghost use Rattle.uc_mixed.specs.Sets as sets;

use std::alloc::AllocError;
use std::cmp::Ordering;

/// The first member of a set.
#[derive(Clone, Copy)]
struct Member<'a> {
    /// Its bytes.
    bytes: &'a [u8],
    /// Its length and its bytes.
    spelled: &'a [u8],
    /// The bytes after the member.
    others: &'a [u8],
}

/// The first member, if it is whole.
fn first_member(set: &[u8]) -> Option<Member<'_>>
    ensures { MatchOption result
        (sets.first_member set.now ≡ None)
        (λ m. (sets.first_member set.now ≡ Some (record { member = m.bytes.now; others = m.others.now }))
        × (m.spelled.now ≡ sets.member_bytes m.bytes.now)) }
{
    if set.len() < 2 {
        return None;
    }
    let (head, rest) = set.split_at(2);
    let len = usize::from(head[0]) + 256 * usize::from(head[1]);
    if rest.len() < len {
        return None;
    }
    let (bytes, others) = rest.split_at(len);
    let (spelled, _) = set.split_at(2 + len);
    Some(Member {
        bytes,
        spelled,
        others,
    })
}

/// Appends the members of a set.
fn push_members(mut bytes: Vec<u8>, set: &[u8]) -> Result<Vec<u8>, AllocError>
    ensures { IfOk result (λ after. after.items ≡ bytes.items ++ sets.set_bytes (sets.members set.now)) }
{
    let mut rest = set;
    while let Some(member) = first_member(rest) {
        bytes.extend_from_slice(member.spelled)?;
        rest = member.others;
    }
    Ok(bytes)
}

/// Appends the union of two sets. It reads each once.
fn push_union(mut bytes: Vec<u8>, older: &[u8], newer: &[u8]) -> Result<Vec<u8>, AllocError>
    ensures { IfOk result (λ after. after.items ≡ bytes.items ++ sets.union_of older.now newer.now) }
{
    let mut left = older;
    let mut right = newer;
    loop {
        let Some(x) = first_member(left) else {
            return push_members(bytes, right);
        };
        let Some(y) = first_member(right) else {
            return push_members(bytes, left);
        };
        match x.bytes.cmp(&y.bytes) {
            Ordering::Less => {
                bytes.extend_from_slice(x.spelled)?;
                left = x.others;
            }
            Ordering::Equal => {
                bytes.extend_from_slice(x.spelled)?;
                left = x.others;
                right = y.others;
            }
            Ordering::Greater => {
                bytes.extend_from_slice(y.spelled)?;
                right = y.others;
            }
        }
    }
}

/// Replaces the set from `start` on by its union with another.
pub(crate) fn unite(mut bytes: Vec<u8>, start: usize, others: &[u8]) -> Result<Vec<u8>, AllocError>
    requires { start ≤ length bytes.items }
    ensures { IfOk result (λ after. after.items ≡ take start bytes.items ++ sets.union_of (drop start bytes.items) others.now) }
{
    let set = bytes.split_off(start)?;
    push_union(bytes, set.as_slice(), others)
}

/// True if the bytes are members in ascending order, and nothing else.
pub(crate) fn is_set_of_members(set: &[u8]) -> bool
    ensures { result ≡ sets.is_set_of_members set.now }
{
    let Some(first) = first_member(set) else {
        return set.is_empty();
    };
    let mut before = first.bytes;
    let mut rest = first.others;
    while !rest.is_empty() {
        let Some(member) = first_member(rest) else {
            return false;
        };
        if !before.cmp(&member.bytes).is_lt() {
            return false;
        }
        before = member.bytes;
        rest = member.others;
    }
    true
}
