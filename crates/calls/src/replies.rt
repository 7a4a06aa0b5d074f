//! Replies of a store with one owner, in the encoding of answers.
use crate::asked::write_answers;
use crate::out::Out;
use crate::versions::write_stretch;
use std::alloc::Global;
use std::fmt::Display;
use uc_query::{Field, Figure, Reply, Report, RunLine, total_fields};
use uc_version::ReleaseError;

/// Writes the number of fields, and for each its name and numbers.
fn write_fields(out: &mut Out, fields: &[Field]) {
    out.place(fields.len());
    for (name, figure) in fields {
        out.bytes(name.as_bytes());
        match figure {
            Figure::Number(number) => out.numbers(&[*number]),
            Figure::Range(low, high) => out.numbers(&[*low, *high]),
        }
    }
}

/// Writes the line of a run: its id and fields.
fn write_line(out: &mut Out, line: &RunLine) {
    out.number(line.id);
    write_fields(out, &line.fields());
}

/// Writes a report: the lines of runs, the fields of their totals, keeps, and the last sequence number.
fn write_report(out: &mut Out, report: &Report) {
    let lines = report.lines.as_slice();
    out.place(lines.len());
    for line in lines {
        write_line(out, line);
    }
    write_fields(out, &total_fields(&report.total));
    out.numbers(report.keeps.as_slice());
    out.number(report.last);
}

/// Writes a kind and a number.
fn write_numbered(out: &mut Out, kind: u64, number: u64) {
    out.number(kind);
    out.number(number);
}

/// Writes a kind and the library's error message.
pub(crate) fn write_refused<E: Display>(alloc: Global, out: &mut Out, kind: u64, error: &E) {
    out.number(kind);
    out.text(alloc, error);
}

/// Writes a reply about queries, feeds or snapshots.
fn write_other(alloc: Global, out: &mut Out, reply: &Reply) {
    match reply {
        Reply::Fed(count) => write_numbered(out, 11, *count),
        Reply::NotFed(error) => write_refused(alloc, out, 12, error),
        Reply::Kept(seq) => write_numbered(out, 13, *seq),
        Reply::Released(seq) => write_numbered(out, 14, *seq),
        Reply::NotReleased(seq) => write_refused(alloc, out, 15, &ReleaseError::NotKept(*seq)),
        Reply::Reported(report) => {
            out.number(9);
            write_report(out, report);
        }
        Reply::Answers(answers) => {
            out.number(10);
            write_answers(out, answers.as_slice());
        }
        _ => out.number(99),
    }
}

/// Writes a reply: its kind and contents.
pub(crate) fn write_reply(alloc: Global, out: &mut Out, reply: &Reply) {
    match reply {
        Reply::Claimed(name) => write_numbered(out, 0, u64::from(*name)),
        Reply::Refused(error) => write_refused(alloc, out, 1, error),
        Reply::Installed(id) => write_numbered(out, 2, *id),
        Reply::NotInstalled(error) => write_refused(alloc, out, 3, error),
        Reply::Abandoned(name) => write_numbered(out, 4, u64::from(*name)),
        Reply::NoClaim(name) => write_numbered(out, 5, u64::from(*name)),
        Reply::NameHeld(name) => write_numbered(out, 6, u64::from(*name)),
        Reply::Compacted(id) => write_numbered(out, 7, *id),
        Reply::Picked(picked) => {
            out.number(8);
            write_stretch(out, *picked);
        }
        other => write_other(alloc, out, other),
    }
}

/// Writes the number of replies, and each reply.
pub(crate) fn write_replies(alloc: Global, out: &mut Out, replies: &[Reply]) {
    out.place(replies.len());
    for reply in replies {
        write_reply(alloc, out, reply);
    }
}
