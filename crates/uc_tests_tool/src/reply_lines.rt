//! Lines of replies that no script causes: in a script, claims are made and installed one at a time, writes are numbered in order, and no
//! option sets the first id of runs.
use std::alloc::Global;
use uc_bytes::Items;
use uc_query::{Reply, Report, Totals};
use uc_tool_opening::reply_lines;
use uc_version::{ClaimError, InstallError};
use uc_version_state::FeedError;

/// The last sequence number after a reply.
const LAST: u64 = 70;

/// Returns the reply with a number, and its line.
fn reply_at(number: usize) -> (Reply, &'static [u8]) {
    match number {
        0 => (Reply::Refused(ClaimError::Moved), b"refused moved\n"),
        1 => (
            Reply::NotInstalled(InstallError::IdsSpent),
            b"refused ids spent\n",
        ),
        2 => (
            Reply::NotInstalled(InstallError::WrongInputs),
            b"refused wrong inputs\n",
        ),
        3 => (
            Reply::NotInstalled(InstallError::WrongKeeps(9)),
            b"refused wrong keeps 9\n",
        ),
        4 => (Reply::NotInstalled(InstallError::Stale), b"refused stale\n"),
        5 => (Reply::NotFed(FeedError::IdsSpent), b"refused ids spent\n"),
        6 => (
            Reply::Compacted(u64::MAX - 1),
            b"compacted 18446744073709551614\n",
        ),
        _ => (Reply::NotFed(FeedError::Back(3)), b"refused back 3\n"),
    }
}

/// Number of these replies.
const REPLIES: usize = 8;

/// Returns true if a reply has these lines.
fn has_lines(alloc: Global, reply: &Reply, lines: &[u8]) -> bool {
    match reply_lines(alloc, LAST, reply) {
        Ok(text) => text.as_slice() == lines,
        Err(_) => false,
    }
}

#[test]
fn replies_have_their_lines(rt: HostRuntime) {
    for number in 0..REPLIES {
        let (reply, lines) = reply_at(number);
        assert!(rt; has_lines(rt.alloc(), &reply, lines));
    }
}

/// Returns a report of no runs, with totals other than zero, and no keeps.
fn no_runs(alloc: Global) -> Reply {
    Reply::Reported(Report {
        lines: Items::from(Vec::new(alloc)),
        total: Totals {
            points: 0,
            fragments: 2,
            size: 168,
        },
        keeps: Items::from(Vec::new(alloc)),
        last: 0,
    })
}

#[test]
fn totals_are_those_of_the_report(rt: HostRuntime) {
    let text = b"total runs 0 points 0 fragments 2 size 168\nkeeps\nlast 0\n";
    assert!(rt; has_lines(rt.alloc(), &no_runs(rt.alloc()), text));
}
