//! [`read_run`]: the run that a file spells.
ghost use Rattle.std.specs.Prelude.{◌≡◌, ◌↔◌, ◌++◌, length, IsTrue, IfOk, IfErr};
ghost use Rattle.uc_run_file.specs.Files.{IsSplit, AreParts, IsRefusal, AreRunOf, IsRefusalOf, file_text};
ghost use Rattle.uc_run_file.specs.Pieces.{table_of};

use crate::footer::Footer;
use crate::fragment_reader::read_fragments;
use crate::fragments_error::FragmentsError;
use crate::judging::run_fault;
use crate::pieces::first_damaged;
use crate::run_fault::{RunFault, RunFileError};
use crate::splitting::{Split, split_file};
use std::alloc::Global;
use uc_run::Run;
use uc_run_entry::Fragments;
use uc_run_points::{Points, PointsError};

/// The parts of a file whose checksums are all right.
fn sound_split(alloc: Global, file: &[u8]) -> Result<Split<'_>, RunFileError>
    ensures split { IfOk result (λ s. IsSplit file.now s.points.now s.fragments.now s.table.now s.footer) }
    ensures table { IfOk result (λ s. s.table.now ≡ table_of (s.points.now ++ s.fragments.now)) }
    ensures fault { IfErr result (IsRefusal file.now) }
{
    let split = split_file(alloc, file)?;
    let body = &file[..split.points.len() + split.fragments.len()];
    match first_damaged(body, split.table) {
        None => Ok(split),
        Some(offset) => Err(RunFileError::Fault(RunFault::Piece(offset))),
    }
}

/// The fragments and the numbers of a file, and the size of its points.
#[derive(Drop)]
struct Parts {
    /// The size of the points in bytes, which are the first of the file.
    points_len: usize,
    fragments: Fragments,
    footer: Footer,
}

/// Reads a file but for its points.
fn read_parts(alloc: Global, file: &[u8]) -> Result<Parts, RunFileError>
    ensures parts { IfOk result (λ p. AreParts file.now p.points_len p.fragments p.footer) }
    ensures fault { IfErr result (IsRefusal file.now) }
{
    let split = sound_split(alloc, file)?;
    match read_fragments(alloc, split.fragments) {
        Ok(fragments) => Ok(Parts {
            points_len: split.points.len(),
            fragments,
            footer: split.footer,
        }),
        Err(FragmentsError::Fault(offset)) => Err(RunFileError::Fault(RunFault::Fragment(
            split.points.len() + offset,
        ))),
        Err(FragmentsError::Memory) => Err(RunFileError::Memory),
    }
}

/// Whether there are as many points and fragments as a footer says.
fn are_counted(points: &Points, fragments: &Fragments, footer: &Footer) -> bool
    ensures { IsTrue result ↔ ((length points.now ≡ footer.now.points) × (length fragments.now ≡ footer.now.fragments)) }
{
    points.len() as u64 == footer.points && fragments.as_slice().len() as u64 == footer.fragments
}

/// The run of points and fragments, with the range of sequences that a footer says.
fn run_of(
    alloc: Global,
    points: Points,
    fragments: Fragments,
    footer: Footer,
) -> Result<Run, RunFileError>
    ensures run { IfOk result (AreRunOf points fragments footer) }
    ensures fault { IfErr result (IsRefusalOf points fragments footer) }
{
    if !are_counted(&points, &fragments, &footer) {
        return Err(RunFileError::Fault(RunFault::Counts));
    }
    match run_fault(footer.low, footer.high, &points, fragments.as_slice()) {
        Some(fault) => Err(RunFileError::Fault(fault)),
        None => {
            let run = Run::from_points(alloc, footer.low, footer.high, points, fragments)?;
            Ok(run)
        }
    }
}

/// The run that a file spells. The file's bytes become the run's points, of which none is copied.
///
/// It looks at each byte a few times. Memory is allocated only for what the file has, whatever lengths it claims. An error other than
/// `Memory` means that no run has these bytes; that of a piece, a point or a fragment has the offset of the first such fault.
pub fn read_run(alloc: Global, file: Vec<u8>) -> Result<Run, RunFileError>
    ensures run { IfOk result (λ run. file.items ≡ file_text run) }
    ensures fault { IfErr result (IsRefusal file.items) }
{
    let parts = read_parts(alloc, &file)?;
    let mut bytes = file;
    bytes.truncate(parts.points_len);
    match Points::from_bytes(alloc, bytes) {
        Ok(points) => {
            match run_of(alloc, points, parts.fragments, parts.footer) {
                Ok(run) => Ok(run),
                Err(error) => Err(error),
            }
        }
        Err(PointsError::Fault(offset)) => Err(RunFileError::Fault(RunFault::Point(offset))),
        Err(PointsError::Memory) => Err(RunFileError::Memory),
    }
}
