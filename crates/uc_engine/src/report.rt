//! [`EngineReport`]: what an engine holds, in numbers.
ghost use Rattle.std.specs.Prelude.{◌≡◌};
ghost use Rattle.uc_fold.specs.Adding.{added as added_totals};
ghost use Rattle.uc_engine.specs.EngineReports as reports;

use crate::engine::Engine;
use crate::engine_view::EngineView;
use uc_fold::Totals;
use uc_live::Version;
use uc_version_state::Placed;

/// The figures of an engine.
#[derive(Clone, Copy, Debug, PartialEq, Eq)]
pub struct EngineReport {
    /// The number of runs.
    pub runs: u64,
    /// The number of sequences that snapshots protect.
    pub keeps: u64,
    /// The sums of all runs: points, fragments of range deletions, and bytes, with 8 for each sequence. Each is held at
    /// 2^64 - 1.
    pub total: Totals,
    /// The number of writes in memtables, which no run has yet.
    pub gathered: u64,
    /// The last sequence.
    pub last: u64,
}

/// A run's share of the totals.
fn totals_of(placed: &Placed) -> Totals
    ensures { result ≡ reports.totals_of placed.now }
{
    let run = placed.run();
    Totals {
        points: run.points(),
        fragments: run.fragments().len() as u64,
        size: run.size(),
    }
}

/// The sums of two totals, each held at 2^64 - 1.
fn added(total: &Totals, more: &Totals) -> Totals
    ensures { result ≡ added_totals total.now more.now }
{
    Totals {
        points: total.points.saturating_add(more.points),
        fragments: total.fragments.saturating_add(more.fragments),
        size: total.size.saturating_add(more.size),
    }
}

/// The sums of all runs.
fn total(runs: &[Placed]) -> Totals
    ensures { result ≡ reports.total runs.now }
{
    let mut total = Totals {
        points: 0,
        fragments: 0,
        size: 0,
    };
    for placed in runs {
        total = added(&total, &totals_of(placed));
    }
    total
}

/// The report of a version with `gathered` writes in memtables, up to a last sequence number.
fn report_with(version: &Version, gathered: usize, last: u64) -> EngineReport
    ensures { result ≡ reports.report_with version.now gathered last }
{
    EngineReport {
        runs: version.runs().len() as u64,
        keeps: version.keeps().len() as u64,
        total: total(version.runs()),
        gathered: gathered as u64,
        last,
    }
}

impl Engine {
    /// Its figures. It looks at each run once, and at no point.
    pub fn report(&self) -> EngineReport
        ensures { result ≡ reports.report_of self.now.live }
    {
        report_with(self.version(), self.gathered(), self.last())
    }
}

impl EngineView {
    /// Its figures, as [`Engine::report`] returns them.
    pub fn report(&self) -> EngineReport
        ensures { result ≡ reports.report_seen self.now.seen }
    {
        report_with(self.version(), self.gathered(), self.last())
    }
}
