//! [`report`]: what a version holds.
ghost use Rattle.std.specs.Prelude.{◌≡◌, map, IfOk};
ghost use Rattle.uc_query.specs.Reports as reports;

use crate::run_line::RunLine;
use crate::summary::Report;
use std::alloc::{AllocError, Global};
use std::marker::Sync;
use std::thread::Threads;
use uc_bytes::Items;
use uc_fold::{Sums, Totals, fold_all};
use uc_version_state::{Placed, Version};

/// A line for each run.
fn lines_of(alloc: Global, runs: &[Placed]) -> Result<Vec<RunLine>, AllocError>
    ensures { IfOk result (λ lines. lines.items ≡ map reports.line_of runs.now) }
{
    let mut lines = Vec::with_capacity(alloc, runs.len())?;
    for placed in runs {
        lines.push(RunLine::of(placed))?;
    }
    Ok(lines)
}

/// The share of each line in the totals.
fn parts_of(alloc: Global, lines: &[RunLine]) -> Result<Vec<Totals>, AllocError>
    ensures { IfOk result (λ parts. parts.items ≡ map reports.totals_of lines.now) }
{
    let mut parts = Vec::with_capacity(alloc, lines.len())?;
    for line in lines {
        parts.push(line.totals())?;
    }
    Ok(parts)
}

/// The report of a version: a line for each run, newest first, their sums, the snapshots' sequence numbers, and the last sequence
/// number. Fails only if allocation fails.
pub fn report(
    rt: &(impl Threads + Sync),
    alloc: Global,
    version: &Version,
) -> Result<Report, AllocError>
    ensures { IfOk result (λ report. report ≡ reports.report_of version.now) }
{
    let lines = lines_of(alloc, version.runs())?;
    let parts = parts_of(alloc, &lines)?;
    Ok(Report {
        lines: Items::from(lines),
        total: fold_all::<Sums>(rt, alloc, parts)?,
        keeps: Items::from(version.keeps().to_vec(alloc)?),
        last: version.last(),
    })
}
