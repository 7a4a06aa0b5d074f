//! Compactors that install, and a feeder that feeds, while queries are answered.
use crate::logs::{answers_of, input_of};
use crate::meeting::{Meeting, Page, Waits};
use std::alloc::Global;
use std::marker::Sync;
use std::sync::Wait;
use std::thread::Threads;
use uc_oper::Append;
use uc_tool_ask::{Beside, ask_through, is_plan};
use uc_tool_io::Done;
use uc_version_state::Options;

/// The operator: joins operands with commas.
type Texts = Append<b','>;

/// A run of `ask`.
#[derive(Clone, Copy)]
struct Row {
    /// Number of changes in the log, and number of changes that are fed later.
    changes: u64,
    later: u64,
    /// Number of runs at which compaction starts, and largest number of runs in a compaction. A compaction takes as many adjacent runs
    /// as it can. Each change is a run.
    trigger: u32,
    greatest: u32,
    workers: usize,
    compactors: usize,
    waits: Waits,
    /// Number of installs, or `ANY`.
    installs: u64,
}

/// Any number of installs, since some happen before a feed and some after it.
const ANY: u64 = u64::MAX;

/// A row in short: the trigger and the largest number of runs in a compaction, the numbers of workers and compactors, the event that
/// compactors wait for, and the installs.
type Short = ((u32, u32), (usize, usize), Waits, u64);

/// One compactor compacts 20 runs as a report does (`crates/ucstore/cases/reports.txt`): two runs at a time until one is left; three at a
/// time until two are left, and then these; and three at a time until two are left. Without a compactor nothing is installed.
static ALONE: [Short; 4] = [
    ((2, 2), (1, 1), Waits::Never, 19),
    ((2, 3), (1, 1), Waits::Never, 10),
    ((4, 3), (1, 1), Waits::Never, 9),
    ((2, 2), (1, 0), Waits::Never, 0),
];

/// Any number of compactors leaves no runs to compact.
static CREWS: [Short; 5] = [
    ((2, 2), (2, 1), Waits::Never, 19),
    ((2, 2), (2, 2), Waits::Never, 19),
    ((2, 2), (2, 3), Waits::Never, 19),
    ((2, 2), (2, 4), Waits::Never, 19),
    ((2, 2), (2, 16), Waits::Never, 19),
];

/// A compactor picks again if another has claimed or compacted the runs that it picked.
static PICKS: [Short; 2] = [
    ((2, 2), (1, 2), Waits::Claims, 19),
    ((2, 2), (1, 2), Waits::Moves, 19),
];

/// Answers are printed while runs are claimed.
static PRINTS: [Short; 2] = [
    ((2, 2), (1, 1), Waits::Prints, 19),
    ((2, 2), (1, 2), Waits::Prints, 19),
];

/// Numbers of writes that are fed later.
static LATER: [u64; 5] = [0, 1, 3, 7, u64::MAX];

fn alone() -> &'static [Short] {
    &ALONE
}

fn crews() -> &'static [Short] {
    &CREWS
}

fn picks() -> &'static [Short] {
    &PICKS
}

fn prints() -> &'static [Short] {
    &PRINTS
}

fn later_writes() -> &'static [u64] {
    &LATER
}

impl Row {
    /// Returns a run over twenty changes.
    fn of_short(short: Short) -> Row {
        let ((trigger, greatest), (workers, compactors), waits, installs) = short;
        Row {
            changes: 20,
            later: 0,
            trigger,
            greatest,
            workers,
            compactors,
            waits,
            installs,
        }
    }

    /// Returns a run over three changes, the last `later` of which are fed later.
    fn of_later(later: u64) -> Row {
        Row {
            changes: 3,
            later,
            trigger: 2,
            greatest: 3,
            workers: 2,
            compactors: 1,
            waits: Waits::Never,
            installs: if later == 0 { 1 } else { ANY },
        }
    }

    /// Returns the number of writes that are fed, at most all of them.
    fn fed(self) -> u64 {
        self.later.min(self.changes)
    }

    /// Returns the options of the run.
    fn options(self) -> Options {
        Options {
            memtable: 1,
            trigger: self.trigger,
            greatest: self.greatest,
            ratio: u32::MAX,
            percent: u32::MAX,
            ..Options::usual()
        }
    }

    /// Returns true if the run succeeded with the expected installs and fed all later writes.
    fn is_done(self, done: Done, beside: Beside) -> bool {
        let installs = self.installs == ANY || beside.installs == self.installs;
        done == Done::Fine && installs && beside.fed == self.fed() && beside.left == 0
    }
}

/// Runs `ask`. Returns true if it ends as expected.
fn ends_well(
    rt: &(impl Threads + Wait + Sync),
    alloc: Global,
    input: &[u8],
    row: Row,
    page: &mut Page<'_>,
    meeting: &Meeting,
) -> bool {
    if !is_plan(row.workers, 1, row.compactors) {
        return false;
    }
    let mut reader = input;
    let (outcome, beside) = ask_through::<Texts, &[u8], Page<'_>, Meeting>(
        rt,
        alloc,
        &mut reader,
        page,
        &row.options(),
        row.workers,
        1,
        row.compactors,
        meeting,
        row.later,
    );
    row.is_done(outcome.done, beside)
}

/// Runs `ask`. Returns true if it ends as expected and prints the answers, and no thread waited too long.
fn comes_right(rt: &(impl Threads + Wait + Sync), alloc: Global, row: Row) -> Option<bool> {
    let input = input_of(alloc, row.changes)?;
    let meeting = Meeting::new(row.waits);
    let mut page = Page {
        text: Vec::new(alloc),
        meeting: &meeting,
    };
    let ends = ends_well(rt, alloc, input.as_slice(), row, &mut page, &meeting);
    let opened = row.changes.saturating_sub(row.fed());
    Some(ends && page.text.as_slice() == answers_of(opened) && meeting.is_in_time())
}

/// Returns true if all these runs succeed.
fn come_right(rt: &(impl Threads + Wait + Sync), alloc: Global, rows: &[Short]) -> bool {
    for short in rows {
        if comes_right(rt, alloc, Row::of_short(*short)) != Some(true) {
            return false;
        }
    }
    true
}

#[test]
fn one_compactor_installs_what_is_reported(rt: HostRuntime) {
    assert!(rt; come_right(&rt, rt.alloc(), alone()));
}

#[test]
fn crews_install_all_that_is_due(rt: HostRuntime) {
    assert!(rt; come_right(&rt, rt.alloc(), crews()));
}

#[test]
fn a_compactor_who_comes_too_late_picks_again(rt: HostRuntime) {
    assert!(rt; come_right(&rt, rt.alloc(), picks()));
}

#[test]
fn answers_are_printed_beside_compactors(rt: HostRuntime) {
    assert!(rt; come_right(&rt, rt.alloc(), prints()));
}

/// The program prints only the number of later writes that were left over.
#[test]
fn later_writes_are_fed(rt: HostRuntime) {
    for later in later_writes() {
        assert!(rt; comes_right(&rt, rt.alloc(), Row::of_later(*later)) == Some(true));
    }
}
