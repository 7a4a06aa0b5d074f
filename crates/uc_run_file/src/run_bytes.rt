//! [`RunBytes`]: the bytes of a run's file.
ghost use Rattle.std.specs.Arc.{arc_value};
ghost use Rattle.std.specs.Prelude.{◌≡◌, ◌≤◌, ◌-◌, ◌+◌, ◌++◌, length, take, drop, min, IfOk};
ghost use Rattle.uc_run_points.specs.Spelling.{entries_text};
ghost use Rattle.uc_run_file.specs.Files.{file_text};

use crate::footer::{Footer, footer_bytes};
use crate::fragment_writer::push_fragments;
use crate::pieces::{push_sums, split_front};
use std::alloc::{AllocError, Global};
use std::marker::Model;
use std::sync::Arc;
use uc_run::Run;

/// The bytes of a run's file. A contract sees their list.
///
/// It shares the run, and the points stay there; only what follows them in the file is in memory of its own.
#[derive(Drop)]
pub struct RunBytes {
    run: Arc<Run>,
    /// Fragments, checksums and footer.
    tail: Vec<u8>,
}

impl Model for RunBytes {
    ghost use Rattle.std.specs.Prelude.{ℕ, List};
    ghost use Rattle.uc_run_file.specs.HeldRunBytes.{bytes_held};

    ghost Value = { List ℕ };

    ghost view = { bytes_held };
}

/// The bytes of a file after those of the points, which are given.
fn tail_of(alloc: Global, run: &Run, points: &[u8]) -> Result<Vec<u8>, AllocError>
    requires { points.now ≡ entries_text run.now.points }
    ensures { IfOk result (λ tail. points.now ++ tail.items ≡ file_text run.now) }
{
    let mut tail = Vec::new(alloc);
    push_fragments(alloc, &mut tail, run.fragments())?;
    let mut table = Vec::new(alloc);
    push_sums(&mut table, points, &tail)?;
    let footer = Footer {
        points_len: points.len() as u64,
        fragments_len: tail.len() as u64,
        points: run.points(),
        fragments: run.fragments().len() as u64,
        low: run.low_seq(),
        high: run.high_seq(),
    };
    let last = footer_bytes(alloc, &footer, &table)?;
    tail.extend_from_slice(&table)?;
    tail.extend_from_slice(&last)?;
    Ok(tail)
}

/// Copies bytes into a buffer from a place on, as many as fit, and returns their number.
fn copy_at(buffer: &mut [u8], at: usize, bytes: &[u8]) -> usize
    requires { at ≤ length buffer.old }
    ensures count { result ≡ min (length bytes.now) (length buffer.old - at) }
    ensures copied { buffer.new ≡ take at buffer.old ++ (take result bytes.now ++ drop (at + result) buffer.old) }
{
    let count = bytes.len().min(buffer.len() - at);
    buffer[at..at + count].copy_from_slice(&bytes[..count]);
    count
}

/// Copies bytes of two parts of a file from an offset on into a buffer, as many as fit, and returns their number.
fn copy_parts(points: &[u8], tail: &[u8], offset: usize, buffer: &mut [u8]) -> usize
    ensures count { result ≡ min (length buffer.old) (length (points.now ++ tail.now) - offset) }
    ensures copied { take result buffer.new ≡ take (length buffer.old) (drop offset (points.now ++ tail.now)) }
    ensures rest { drop result buffer.new ≡ drop result buffer.old }
{
    let (passed, first) = split_front(points, offset);
    let (_, second) = split_front(tail, offset - passed.len());
    let count = copy_at(buffer, 0, first);
    count + copy_at(buffer, count, second)
}

impl RunBytes {
    /// The bytes of a run's file. It sums each piece, and takes memory for all but the points.
    pub fn new(alloc: Global, run: &Arc<Run>) -> Result<RunBytes, AllocError>
        ensures { IfOk result (λ bytes. bytes ≡ file_text (arc_value run.now)) }
    {
        let tail = tail_of(alloc, run, run.entries().as_bytes())?;
        Ok(RunBytes {
            run: run.clone()?,
            tail,
        })
    }

    /// The size of the file in bytes.
    pub fn len(&self) -> u64
        ensures { result ≡ length self.now }
    {
        self.run.entries().as_bytes().len() as u64 + self.tail.len() as u64
    }

    /// Copies bytes from an offset on into a buffer, as many as fit, and returns their number, which is 0 only at the end of the file.
    pub fn copy_to(&self, offset: usize, buffer: &mut [u8]) -> usize
        ensures count { result ≡ min (length buffer.old) (length self.now - offset) }
        ensures copied { take result buffer.new ≡ take (length buffer.old) (drop offset self.now) }
        ensures rest { drop result buffer.new ≡ drop result buffer.old }
    {
        copy_parts(self.run.entries().as_bytes(), &self.tail, offset, buffer)
    }
}
