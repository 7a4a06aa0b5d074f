//! A file cut into its parts.
ghost use Rattle.std.specs.Prelude.{◌≡◌, ◌↔◌, ◌<◌, ◌^◌, IsTrue, IfOk, IfErr, MatchOption};
ghost use Rattle.uc_run_file.specs.Files.{AreLens, IsSplit, IsRefusal};

use crate::footer::{FOOTER_SIZE, Footer, footer_bytes, footer_fault, read_footer};
use crate::pieces::pieces_of;
use crate::run_fault::{RunFault, RunFileError};
use std::alloc::Global;

/// The parts of a file.
#[derive(Drop)]
pub(crate) struct Split<'a> {
    pub points: &'a [u8],
    pub fragments: &'a [u8],
    pub table: &'a [u8],
    pub footer: Footer,
}

/// The lengths of points and fragments, if all bytes before a footer are as many as they ask for.
fn lens_of(footer: &Footer, front: usize) -> Option<(usize, usize)>
    requires { front < 2 ^ 63 }
    ensures { MatchOption result (AreLens footer.now.points_len footer.now.fragments_len front → ⊥)
        (λ lens. (lens.0 ≡ footer.now.points_len) × (lens.1 ≡ footer.now.fragments_len) × AreLens lens.0 lens.1 front) }
{
    let points = footer.points_len;
    let fragments = footer.fragments_len;
    if (front as u64) < points || (front as u64) - points < fragments {
        return None;
    }
    let body = points as usize + fragments as usize;
    if 4 * pieces_of(body) != front - body {
        return None;
    }
    Some((points as usize, fragments as usize))
}

/// Whether bytes are equal.
fn are_same(bytes: &[u8], others: &[u8]) -> bool
    ensures { IsTrue result ↔ (bytes.now ≡ others.now) }
{
    bytes == others
}

/// The parts of a file whose footer is right.
pub(crate) fn split_file(alloc: Global, file: &[u8]) -> Result<Split<'_>, RunFileError>
    ensures split { IfOk result (λ s. IsSplit file.now s.points.now s.fragments.now s.table.now s.footer) }
    ensures fault { IfErr result (IsRefusal file.now) }
{
    if file.len() < FOOTER_SIZE {
        return Err(RunFileError::Fault(RunFault::TooShort));
    }
    let (front, last) = file.split_at(file.len() - FOOTER_SIZE);
    let footer = read_footer(last);
    match lens_of(&footer, front.len()) {
        None => Err(RunFileError::Fault(footer_fault(last, RunFault::Lengths))),
        Some((points_len, fragments_len)) => {
            let (points, rest) = front.split_at(points_len);
            let (fragments, table) = rest.split_at(fragments_len);
            let spelled = footer_bytes(alloc, &footer, table)?;
            if !are_same(&spelled, last) {
                return Err(RunFileError::Fault(footer_fault(last, RunFault::Footer)));
            }
            Ok(Split {
                points,
                fragments,
                table,
                footer,
            })
        }
    }
}
