//! Fragments, read from bytes.
ghost use Rattle.std.specs.Prelude.{◌≡◌, ◌↔◌, ℕ, ◌<◌, ◌*◌, ◌^◌, ◌++◌, [], ◌∷◌, List, length, IsTrue, IfSome, IfNone, IfOk, IfErr, MatchOption};
ghost use Rattle.std.specs.List.{AllByRecursion};
ghost use Rattle.std.specs.Arc.{arc_value};
ghost use Rattle.uc_run_entry.specs.Fragment.{Fragment as FragmentOf};
ghost use Rattle.uc_run_file.specs.Faults.{Begins, IsHead, IsPushed, AreRead, IsFaultAt, IsErrorOf, ends_of, lists_of};
ghost use Rattle.uc_run_file.specs.Spelling.{Fits, fragments_text};

use crate::fragments_error::FragmentsError;
use crate::sequences::read_numbers;
use crate::strings::read_string;
use std::alloc::{AllocError, Global};
use std::sync::Arc;
use uc_run_entry::{Fragment, Fragments, Lists, Seqs};
use uc_run_points::spelled_number;

/// The ends of a fragment and the number of its sequences, with the bytes after them.
#[derive(Drop)]
struct Head<'a> {
    begin: &'a [u8],
    end: &'a [u8],
    /// Number of sequences.
    count: u64,
    rest: &'a [u8],
}

/// The ends of the fragment at the front, and the number of its sequences, if they are spelled there.
fn read_head(bytes: &[u8]) -> Option<Head<'_>>
    ensures some { IfSome result (λ head. IsHead bytes.now head.begin.now head.end.now head.count head.rest.now) }
    ensures none { IfNone result ((begin end : List ℕ) (count : ℕ) (rest : List ℕ) →
        IsHead bytes.now begin end count rest → ⊥) }
{
    let (begin, rest) = read_string(bytes)?;
    let (end, rest) = read_string(rest)?;
    let (count, rest) = spelled_number(rest)?;
    Some(Head {
        begin,
        end,
        count,
        rest,
    })
}

/// Reads the sequences after a head, pushes its ends and the sequences, and returns the bytes after them. None if no sequences are
/// spelled there. The buffer is for the sequences.
fn push_after<'a>(
    head: Head<'a>,
    seqs: &mut Vec<u64>,
    ends: &mut Lists<u8>,
    lists: &mut Lists<u64>,
) -> Result<Option<&'a [u8]>, AllocError>
    ensures read { IfOk result (λ found. (bytes : List ℕ) →
        IsHead bytes head.entry.begin.now head.entry.end.now head.entry.count head.entry.rest.now → MatchOption found
        ((f : FragmentOf) (rest : List ℕ) → Begins bytes f rest → ⊥)
        (λ rest. IsPushed bytes rest.now ends.old ends.new lists.old lists.new)) }
{
    match read_numbers(seqs, head.count, head.rest)? {
        None => Ok(None),
        Some(rest) => {
            ends.push(head.begin)?;
            ends.push(head.end)?;
            lists.push(seqs)?;
            Ok(Some(rest))
        }
    }
}

/// Reads the fragment at the front, pushes its ends and its sequences, and returns the bytes after it. None if no fragment is spelled
/// there. The buffer is for the sequences.
fn push_read<'a>(
    bytes: &'a [u8],
    seqs: &mut Vec<u64>,
    ends: &mut Lists<u8>,
    lists: &mut Lists<u64>,
) -> Result<Option<&'a [u8]>, AllocError>
    ensures read { IfOk result (λ found. MatchOption found
        ((f : FragmentOf) (rest : List ℕ) → Begins bytes.now f rest → ⊥)
        (λ rest. IsPushed bytes.now rest.now ends.old ends.new lists.old lists.new)) }
{
    match read_head(bytes) {
        None => Ok(None),
        Some(head) => {
            let found = push_after(head, seqs, ends, lists)?;
            Ok(found)
        }
    }
}

/// Reads fragments, and pushes their ends and their sequences. It returns the offset of the first fault, if there is one.
fn gather(
    alloc: Global,
    bytes: &[u8],
    ends: &mut Lists<u8>,
    lists: &mut Lists<u64>,
) -> Result<Option<usize>, AllocError>
    requires ends { ends.old ≡ [] }
    requires lists { lists.old ≡ [] }
    ensures { IfOk result (λ fault. MatchOption fault (AreRead bytes.now [] ends.new lists.new) (IsFaultAt bytes.now)) }
{
    let mut seqs = Vec::new(alloc);
    let mut rest = bytes;
    while !rest.is_empty() {
        match push_read(rest, &mut seqs, ends, lists)? {
            None => return Ok(Some(bytes.len() - rest.len())),
            Some(after) => rest = after,
        }
    }
    Ok(None)
}

/// Fragments with these ends, two for each, and these sequences.
fn fragments_of(
    alloc: Global,
    ends: &Arc<Lists<u8>>,
    lists: &Arc<Lists<u64>>,
) -> Result<Fragments, AllocError>
    requires { length (arc_value ends.now) ≡ 2 * length (arc_value lists.now) }
    ensures { (fs : List FragmentOf) → arc_value ends.now ≡ ends_of fs → arc_value lists.now ≡ lists_of fs →
        IfOk result (λ made. made ≡ fs) }
{
    let mut list = Vec::new(alloc);
    for number in 0..ends.len() / 2 {
        let seqs = Seqs::listed(lists, number)?;
        list.push(Fragment::new(ends.clone()?, 2 * number, seqs))?;
    }
    Ok(Fragments::from(list))
}

/// The fragments that bytes spell, which share two lists: of their ends, and of their sequences. It costs a step for each sequence.
pub fn read_fragments(alloc: Global, bytes: &[u8]) -> Result<Fragments, FragmentsError>
    ensures fragments { IfOk result (λ fragments. bytes.now ≡ fragments_text fragments) }
    ensures fits { IfOk result (λ fragments. AllByRecursion Fits fragments) }
    ensures fault { IfErr result (IsErrorOf bytes.now) }
{
    let mut ends = Lists::new(alloc)?;
    let mut lists = Lists::new(alloc)?;
    match gather(alloc, bytes, &mut ends, &mut lists)? {
        Some(offset) => Err(FragmentsError::Fault(offset)),
        None => {
            let ends = Arc::new(alloc, ends)?;
            let lists = Arc::new(alloc, lists)?;
            let fragments = fragments_of(alloc, &ends, &lists)?;
            Ok(fragments)
        }
    }
}
