//! [`Parted`]: an input in pieces, parted at the end of its head.
ghost use Rattle.std.specs.Prelude.{◌≡◌, ◌<◌, ◌≤◌, ◌-◌, ◌++◌, take, drop, length, vec_len, Ok, IfOk, IfErr, OnOk};
ghost use Rattle.uc_script.specs.Head.{head_of};
ghost use Rattle.uc_script.specs.HeadReading.{seen};
ghost use Rattle.uc_tool_ask.specs.Parting.{IsFaultOf};
ghost use Rattle.uc_tool_ask.specs.declared.parted_input.PartError.TheVariants.{Memory};

use std::alloc::{AllocError, Global};
use uc_batch::Pieces;
use uc_script::{Head, ScriptError, read_head, what_follows_a_head_changes_nothing};

/// The number of bytes in which a head is looked for first.
const FIRST_BYTES: usize = 1 << 20;

/// The most bytes that are moved at a time: as many as a piece has, so one comes out as it is.
const MOVED_BYTES: usize = 1 << 20;

/// A head, and the log after it.
#[derive(Drop)]
pub(crate) struct Parted {
    /// The head, and its size in bytes.
    pub(crate) head: Head,
    /// The bytes of the head.
    pub(crate) lines: Vec<u8>,
    /// The bytes of the log.
    pub(crate) log: Pieces,
}

/// Why an input isn't parted.
#[derive(Drop)]
pub(crate) enum PartError {
    /// The head has a fault: the number of the faulty line, from 1, and the bytes of the input.
    Fault(u64, Vec<u8>),
    /// An allocation failed.
    Memory,
}

impl From<AllocError> for PartError {
    ghost from_gives = { λ _ error. error ≡ Memory };

    fn from(_: AllocError) -> PartError {
        PartError::Memory
    }
}

/// Takes as many bytes more to the front of an input as it has, or all that are left if there are fewer.
fn double_front(alloc: Global, front: &mut Vec<u8>, rest: &mut Pieces) -> Result<(), AllocError>
    ensures whole { OnOk result (front.new.items ++ rest.new ≡ front.old.items ++ rest.old) }
    ensures longer { OnOk result (vec_len front.old ≤ vec_len front.new) }
    ensures left { OnOk result (length rest.new ≡ length rest.old - vec_len front.old) }
{
    let mut missing = front.len().min(rest.len());
    while missing > 0 {
        let more = rest.split_front(alloc, missing.min(MOVED_BYTES))?;
        front.extend_from_slice(&more)?;
        missing -= more.len();
    }
    Ok(())
}

/// Parts an input at the end of its head, which was read in its front. What the front has after the head goes back to the
/// rest.
fn part_front(alloc: Global, front: Vec<u8>, rest: Pieces, head: Head) -> Result<Parted, AllocError>
    requires { head.size ≤ vec_len front }
    ensures head { IfOk result (λ parted. parted.head ≡ head) }
    ensures lines { IfOk result (λ parted. parted.lines.items ≡ take head.size (front.items ++ rest)) }
    ensures log { IfOk result (λ parted. parted.log ≡ drop head.size (front.items ++ rest)) }
{
    let mut lines = front;
    let mut log = rest;
    log.push_front(Vec::from_slice(alloc, &lines[head.size..])?)?;
    lines.truncate(head.size);
    lines.shrink_to_fit();
    Ok(Parted { head, lines, log })
}

/// Parts an input into its head and the log after it. The head is looked for in the first MiB, and then in twice as many bytes
/// each time, until it is there or no bytes are left: so the time is linear in the bytes where it was found. The pieces after
/// those stay as they are.
///
/// A `Fault` is that of the head of all of the input, whose bytes come in one piece.
pub(crate) fn part_input(alloc: Global, input: Pieces) -> Result<Parted, PartError>
    ensures read { IfOk result (λ parted. head_of input ≡ Ok (seen input parted.head)) }
    ensures within { IfOk result (λ parted. parted.head.size ≤ length input) }
    ensures lines { IfOk result (λ parted. parted.lines.items ≡ take parted.head.size input) }
    ensures log { IfOk result (λ parted. parted.log ≡ drop parted.head.size input) }
    ensures fault { IfErr result (IsFaultOf input) }
{
    // A law of the layer below, which does nothing when it runs: a head that is read in the front is that of the input.
    what_follows_a_head_changes_nothing();
    let mut rest = input;
    let size = rest.len().min(FIRST_BYTES);
    let mut front = rest.split_front(alloc, size)?;
    loop {
        let line = match read_head(alloc, &front) {
            Ok(head) => return Ok(part_front(alloc, front, rest, head)?),
            Err(ScriptError::Fault(line)) => line,
            Err(ScriptError::Memory) => return Err(PartError::Memory),
        };
        if rest.len() == 0 {
            return Err(PartError::Fault(line, front));
        }
        double_front(alloc, &mut front, &mut rest)?;
    }
}
