//! [`LogWriter`]: from payloads to the bytes of a log. [`payload_bytes`]: those that one payload more takes.
ghost use Rattle.std.specs.Prelude.{◌≡◌, ℕ, ◌+◌, ◌-◌, ◌<◌, ◌≤◌, ◌^◌, List, [], ◌∷◌, ◌++◌, length, OnOk, OnErr, IfOk, vec_len};
ghost use Rattle.uc_logrec.specs.Format as format;
ghost use Rattle.uc_logrec.specs.Format.{record_text};
ghost use Rattle.uc_logrec.specs.Log.{payload_text, records_text, rest_text, trailer, log_text, Extends};

use crate::kind::Kind;
use crate::log_record::{
    BLOCK_SIZE, HEADER_SIZE, MAX_FRAGMENT, Record, checksum_of, fragment_room, room,
};
use std::alloc::{AllocError, Global};
use std::marker::Model;

/// Writes a log into memory, payload by payload.
///
/// A contract sees it as the list of the payloads that were added.
#[derive(Drop)]
pub struct LogWriter {
    text: Vec<u8>,
}

impl Model for LogWriter {
    ghost use Rattle.std.specs.Prelude.{◌≡◌, List, ℕ};
    ghost use Rattle.uc_logrec.specs.Log.{payloads_of, log_text};

    ghost Value = { List (List ℕ) };

    ghost view = { λ w. payloads_of w.text.items };

    ghost invariant = { λ w. w.text.items ≡ log_text (payloads_of w.text.items) };
}

impl LogWriter {
    /// A writer of a log without payloads. It doesn't allocate.
    pub fn new(alloc: Global) -> LogWriter
        ensures { result ≡ [] }
    {
        LogWriter {
            text: Vec::new(alloc),
        }
    }

    /// Adds a payload: one record if it fits the rest of the block, else a FIRST, MIDDLEs and a LAST.
    ///
    /// An `Err` adds nothing.
    pub fn add(&mut self, payload: &[u8]) -> Result<(), AllocError>
        ensures ok { OnOk result (self.new ≡ self.old ++ payload.now ∷ []) }
        ensures err { OnErr result (self.new ≡ self.old) }
    {
        let before = self.text.len();
        if let Err(error) = push_payload(0, &mut self.text, payload) {
            self.text.truncate(before);
            return Err(error);
        }
        Ok(())
    }

    /// The bytes of the log. It doesn't allocate.
    pub fn finish(self) -> Vec<u8>
        ensures { result.items ≡ log_text self }
    {
        self.text
    }
}

/// The bytes that a payload takes at the end of a log of `log_length` bytes: zero bytes up to the next place of a
/// header, if any are needed, and its records.
///
/// They are for a log that is kept elsewhere, as in a file, to which the caller appends them.
pub fn payload_bytes(alloc: Global, log_length: u64, payload: &[u8]) -> Result<Vec<u8>, AllocError>
    ensures { IfOk result (λ bytes. bytes.items ≡ payload_text log_length payload.now) }
{
    let start = (log_length % BLOCK_SIZE as u64) as usize;
    let mut text = Vec::new(alloc);
    push_payload(start, &mut text, payload)?;
    Ok(text)
}

// Below, `start` is the offset in its block at which the bytes begin.

/// Writes a record at the end.
#[tactic(auto, using(std::proofs::lemmas::List::append_assoc), unfolding(crate::specs::Format::record_text))]
fn push_record(text: &mut Vec<u8>, part: Record<'_>) -> Result<(), AllocError>
    requires { length part.fragment.now < 2 ^ 16 }
    ensures ok { OnOk result (text.new.items ≡ text.old.items ++ record_text part.entry.kind part.entry.fragment.now) }
    ensures kept { Extends text.old.items text.new.items }
{
    let Record { kind, fragment } = part;
    text.extend_from_slice(&checksum_of(kind.code(), fragment).to_le_bytes())?;
    text.extend_from_slice(&(fragment.len() as u16).to_le_bytes())?;
    text.push(kind.code())?;
    text.extend_from_slice(fragment)?;
    Ok(())
}

/// Writes the trailer before the next header place.
fn push_trailer(start: usize, text: &mut Vec<u8>) -> Result<(), AllocError>
    requires { start < 32768 }
    ensures ok { OnOk result (text.new.items ≡ text.old.items ++ trailer (start + length text.old.items)) }
    ensures kept { Extends text.old.items text.new.items }
{
    let space = room(start + text.len());
    if space < HEADER_SIZE {
        text.extend_from_slice(&[0; HEADER_SIZE][..space])?;
    }
    Ok(())
}

/// Writes what is left of a payload after its FIRST, from a block's start on.
fn push_rest(text: &mut Vec<u8>, payload: &[u8]) -> Result<(), AllocError>
    ensures ok { OnOk result (text.new.items ≡ text.old.items ++ rest_text payload.now) }
    ensures kept { Extends text.old.items text.new.items }
{
    let mut left = payload;
    while left.len() > MAX_FRAGMENT {
        let (fragment, behind) = left.split_at(MAX_FRAGMENT);
        let kind = Kind::Middle;
        push_record(text, Record { kind, fragment })?;
        left = behind;
    }
    let (kind, fragment) = (Kind::Last, left);
    push_record(text, Record { kind, fragment })
}

/// Writes the records of a payload at a header place.
fn push_records(start: usize, text: &mut Vec<u8>, payload: &[u8]) -> Result<(), AllocError>
    requires start { start < 32768 }
    requires fits { 7 ≤ format.room (start + length text.old.items) }
    ensures ok { OnOk result
        (text.new.items ≡ text.old.items ++ records_text (start + length text.old.items) payload.now) }
    ensures kept { Extends text.old.items text.new.items }
{
    let fits = fragment_room(start + text.len());
    if payload.len() <= fits {
        let (kind, fragment) = (Kind::Full, payload);
        return push_record(text, Record { kind, fragment });
    }
    let (fragment, rest) = payload.split_at(fits);
    let kind = Kind::First;
    push_record(text, Record { kind, fragment })?;
    push_rest(text, rest)
}

/// Writes a payload at the end.
fn push_payload(start: usize, text: &mut Vec<u8>, payload: &[u8]) -> Result<(), AllocError>
    requires { start < 32768 }
    ensures ok { OnOk result
        (text.new.items ≡ text.old.items ++ payload_text (start + length text.old.items) payload.now) }
    ensures kept { Extends text.old.items text.new.items }
{
    push_trailer(start, text)?;
    push_records(start, text, payload)
}
