//! [`CallReader`]: the calls of a script, one at a time.

ghost use Rattle.std.specs.Prelude.{◌≡◌, ◌∷◌, ℕ, List, IfOk, OnErr};
ghost use Rattle.std.specs.List.{cons_option};
ghost use Rattle.uc_script.specs.Calls.{calls_in, Comes};
ghost use Rattle.uc_script.specs.Lines.{lines_of};
ghost use Rattle.uc_script.specs.Script.{calls_from};

use crate::call::Call;
use crate::call_line::read_call_line;
use crate::gathering::take_line;
use crate::lines::next_line;
use std::alloc::{AllocError, Global};
use std::marker::Model;
use uc_bytes::Op;

/// Reads the lines after the `open` of a validated script, front to back, and returns its calls one at a time. It collects the
/// writes of a `feed` on the way, and holds them until then.
///
/// Contracts see it as the calls that are ahead of it.
#[derive(Drop)]
pub struct CallReader<'a> {
    // The lines that are left.
    lines: &'a [u8],
    // The changes collected for the next `feed`.
    ops: Vec<Op>,
}

impl<'a> Model for CallReader<'a> {
    ghost use Rattle.std.specs.Prelude.{List};
    ghost use Rattle.uc_script.specs.Lines.{lines_of};
    ghost use Rattle.uc_script.specs.Script.{calls_from};
    ghost use Rattle.uc_script.specs.declared.call.Call.{Call};

    ghost Value = { List Call };

    ghost view = { λ r. calls_from r.ops.items (lines_of r.lines.now) };
}

impl<'a> CallReader<'a> {
    /// A reader before the first call of a script, whose bytes after `open` these are. It skips lines that are faulty.
    pub fn new(alloc: Global, lines: &'a [u8]) -> CallReader<'a>
        ensures { result ≡ calls_in lines.now }
    {
        CallReader {
            lines,
            ops: Vec::new(alloc),
        }
    }

    /// The next call, or `None` if none is left. A `feed` returns the collected writes, without a copy.
    ///
    /// After an `Err` no call is skipped, and no write is lost.
    pub fn next_call(&mut self, alloc: Global) -> Result<Option<Call>, AllocError>
        ensures next { IfOk result (λ next. Comes self.old next self.new) }
        ensures err { OnErr result (self.new ≡ self.old) }
    {
        let (next, rest) = read_next(alloc, self.lines, &mut self.ops);
        self.lines = rest;
        next
    }
}

/// The call of a line, if it is one. A change is collected, and a faulty line is skipped.
fn read_call(alloc: Global, line: &[u8], ops: &mut Vec<Op>) -> Result<Option<Call>, AllocError>
    ensures call { IfOk result (λ call. (lines : List (List ℕ)) →
        calls_from ops.old.items (line.now ∷ lines) ≡ cons_option call (calls_from ops.new.items lines)) }
    ensures err { OnErr result (ops.new.items ≡ ops.old.items) }
{
    match read_call_line(alloc, line)? {
        Some(said) => take_line(alloc, said, ops),
        None => Ok(None),
    }
}

/// The first call of lines, if they have one, and the lines after it. With an `Err` come the lines from the one on that
/// was not read.
fn read_next<'a>(
    alloc: Global,
    lines: &'a [u8],
    ops: &mut Vec<Op>,
) -> (Result<Option<Call>, AllocError>, &'a [u8])
    ensures next { IfOk result.0 (λ next.
        Comes (calls_from ops.old.items (lines_of lines.now)) next (calls_from ops.new.items (lines_of result.1.now))) }
    ensures err { OnErr result.0
        (calls_from ops.new.items (lines_of result.1.now) ≡ calls_from ops.old.items (lines_of lines.now)) }
{
    let mut rest = lines;
    while !rest.is_empty() {
        let (line, after) = next_line(rest);
        match read_call(alloc, line, ops) {
            Ok(None) => rest = after,
            Ok(Some(call)) => return (Ok(Some(call)), after),
            Err(error) => return (Err(error), rest),
        }
    }
    (Ok(None), rest)
}
