//! [`CReport`]: what a store holds, or a view, in numbers, as C sees it.
ghost use Rattle.std.specs.Prelude.{◌≡◌, ◌⊎◌};
ghost use Rattle.uc_engine.specs.EngineReports.{report_of, report_seen};
ghost use Rattle.uc_c.specs.declared.status.TheConstants.{OK, NO_VIEW};
ghost use Rattle.uc_c.specs.Numbers.{Reports};
ghost use Rattle.uc_c.specs.Replies.{Answers, IsRead};

use crate::status::{BAD_SIZE, NO_STORE, NO_VIEW, OK};
use std::alloc::Global;
use std::mem::size_of;
use uc_engine::EngineReport;
use uc_handle::{Handle, ViewHandle};

/// The size of the struct in bytes.
pub const REPORT_SIZE: usize = 64;

/// The figures of a store, as C sees them.
#[repr(C)]
#[derive(Clone, Copy, Debug, PartialEq, Eq)]
pub struct CReport {
    /// [`REPORT_SIZE`], which C writes. A later library may have more fields after these.
    pub size: usize,
    /// The number of runs.
    pub runs: u64,
    /// The number of sequences that snapshots protect.
    pub snapshots: u64,
    /// Points of all runs: writes of a single key. It is held at 2^64 - 1, as the next two are.
    pub points: u64,
    /// Fragments of all runs: stretches of keys that range deletions cover.
    pub fragments: u64,
    /// Bytes of all runs, with 8 for each sequence.
    pub bytes: u64,
    /// The number of writes in memtables, which no run has yet.
    pub gathered: u64,
    /// The last sequence; 0 if nothing was written.
    pub last: u64,
}

const _: () = prove!(size_of::<CReport>() == REPORT_SIZE);

impl CReport {
    ghost use Rattle.uc_c.specs.Numbers.{report_in};

    /// The figures of an engine, as C sees them.
    pub fn of(report: EngineReport) -> CReport
        ensures { result ≡ report_in report }
    {
        CReport {
            size: REPORT_SIZE,
            runs: report.runs,
            snapshots: report.keeps,
            points: report.total.points,
            fragments: report.total.fragments,
            bytes: report.total.size,
            gathered: report.gathered,
            last: report.last,
        }
    }
}

/// Stores the store's contents in numbers. It reads each run's totals once, and no point. Fails if the report's size isn't the one
/// that this library knows.
#[unsafe(no_mangle)]
pub extern "C" fn ucstore_report(alloc: Global, handle: &mut Handle, report: &mut CReport) -> i32
    ensures reports { Answers result handle.old.held handle.new.held (λ e.
        Reports result (report_of e.live) report.old report.new) }
    ensures untold { (result ≡ OK) ⊎ (report.new ≡ report.old) }
{
    let Some(engine) = handle.take(alloc) else {
        return NO_STORE;
    };
    let found = engine.report();
    handle.put(engine);
    tell(found, report)
}

/// Stores the view's contents in numbers, as `ucstore_report` does.
#[unsafe(no_mangle)]
pub extern "C" fn ucstore_view_report(
    alloc: Global,
    view: &mut ViewHandle,
    report: &mut CReport,
) -> i32
    ensures reports { IsRead NO_VIEW result view.old.held view.new.held (λ v.
        Reports result (report_seen v.seen) report.old report.new) }
    ensures untold { (result ≡ OK) ⊎ (report.new ≡ report.old) }
{
    let Some(held) = view.take(alloc) else {
        return NO_VIEW;
    };
    let found = held.report();
    view.put(held);
    tell(found, report)
}

/// Stores a report, if C knows its size.
fn tell(found: EngineReport, report: &mut CReport) -> i32
    ensures reports { Reports result found report.old report.new }
    ensures untold { (result ≡ OK) ⊎ (report.new ≡ report.old) }
{
    if report.size != REPORT_SIZE {
        return BAD_SIZE;
    }
    *report = CReport::of(found);
    OK
}
