//! The lines of a report.

ghost use Rattle.std.specs.Prelude.{◌≡◌, ◌++◌, map, IfOk, OnOk};
ghost use Rattle.std.specs.List.{flat_map};
ghost use Rattle.uc_tool_opening.specs.ReportLines as lines;
ghost use Rattle.uc_tool_opening.specs.ReportLines.{run_line};

use std::alloc::{AllocError, Global};
use uc_fold::Totals;
use uc_query::{Field, Figure, Report, RunLine, total_fields};
use uc_tool_io::{push_counted, push_numbered_line};

/// Appends a number, or both of a range, each after a space.
fn push_figure(out: &mut Vec<u8>, figure: Figure) -> Result<(), AllocError>
    ensures { OnOk result (out.new.items ≡ out.old.items ++ lines.figure_text figure) }
{
    match figure {
        Figure::Number(number) => push_counted(out, b" ", number),
        Figure::Range(low, high) => {
            push_counted(out, b" ", low)?;
            push_counted(out, b" ", high)
        }
    }
}

/// Appends a name and its figure.
fn push_field(out: &mut Vec<u8>, name: &str, figure: Figure) -> Result<(), AllocError>
    ensures { OnOk result (out.new.items ≡ out.old.items ++ lines.field_text (name.now, figure)) }
{
    out.push(b' ')?;
    out.extend_from_slice(name.as_bytes())?;
    push_figure(out, figure)
}

/// Appends a line of words with a number, and fields after it.
fn push_counted_line(
    out: &mut Vec<u8>,
    words: &[u8],
    number: u64,
    fields: &[Field],
) -> Result<(), AllocError>
    ensures { OnOk result
        (out.new.items ≡ out.old.items ++ lines.counted_line words.now number (map (λ f. (f.0.now, f.1)) fields.now)) }
{
    push_counted(out, words, number)?;
    for (name, figure) in fields {
        push_field(out, name, *figure)?;
    }
    out.push(b'\n')?;
    Ok(())
}

/// Appends the line of a run.
fn push_run(out: &mut Vec<u8>, run: &RunLine) -> Result<(), AllocError>
    ensures { OnOk result (out.new.items ≡ out.old.items ++ run_line run.now) }
{
    push_counted_line(out, b"run ", run.id, &run.fields())
}

/// Appends a line for each run.
fn push_runs(out: &mut Vec<u8>, runs: &[RunLine]) -> Result<(), AllocError>
    ensures { OnOk result (out.new.items ≡ out.old.items ++ flat_map run_line runs.now) }
{
    for run in runs {
        push_run(out, run)?;
    }
    Ok(())
}

/// Appends how many runs there are, and what they hold in all.
fn push_total(out: &mut Vec<u8>, runs: usize, total: &Totals) -> Result<(), AllocError>
    ensures { OnOk result (out.new.items ≡ out.old.items ++ lines.total_line runs total.now) }
{
    push_counted_line(out, b"total runs ", runs as u64, &total_fields(total))
}

/// Appends the sequences that are kept.
fn push_keeps(out: &mut Vec<u8>, keeps: &[u64]) -> Result<(), AllocError>
    ensures { OnOk result (out.new.items ≡ out.old.items ++ lines.keeps_line keeps.now) }
{
    out.extend_from_slice(b"keeps")?;
    for keep in keeps {
        push_counted(out, b" ", *keep)?;
    }
    out.push(b'\n')?;
    Ok(())
}

/// The lines of a report: one for each run, newest first, then their totals, the sequence numbers that are kept and the last one.
/// Fails only if allocation fails.
pub fn report_lines(alloc: Global, report: &Report) -> Result<Vec<u8>, AllocError>
    ensures { IfOk result (λ text. text.items ≡ lines.report_lines report.now) }
{
    let mut out = Vec::new(alloc);
    let runs = report.lines.as_slice();
    push_runs(&mut out, runs)?;
    push_total(&mut out, runs.len(), &report.total)?;
    push_keeps(&mut out, report.keeps.as_slice())?;
    push_numbered_line(&mut out, b"last ", report.last)?;
    Ok(out)
}
