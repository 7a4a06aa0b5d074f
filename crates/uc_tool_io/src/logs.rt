//! The lines of a log: what is written, and how far the log was read.

ghost use Rattle.std.specs.Prelude.{◌≡◌, ◌++◌, ◌∷◌, [], codes, IfOk, OnOk};
ghost use Rattle.std.specs.Fmt.{decimal};
ghost use Rattle.uc_tool_io.specs.LogLines as lines;
ghost use Rattle.uc_tool_io.specs.LogLines.{op_text, write_line, batch_words};

use crate::digits::{push_hex, push_number};
use crate::line::{numbered_line, push_counted};
use std::alloc::{AllocError, Global};
use uc_batch::{BatchError, Ended};
use uc_bytes::{OpKind, OpRef, WriteRef};
use uc_logrec::LogFault;

/// The name of a kind of change, with a space before and after it.
fn op_words(kind: OpKind) -> &'static [u8]
    ensures { result.now ≡ lines.op_words kind }
{
    match kind {
        OpKind::Put => b" put ",
        OpKind::Delete => b" delete ",
        OpKind::Merge => b" merge ",
        OpKind::DeleteRange => b" range ",
    }
}

/// Appends the kind of a change, its key and its value.
fn push_op(out: &mut Vec<u8>, op: &OpRef<'_>) -> Result<(), AllocError>
    ensures { OnOk result (out.new.items ≡ out.old.items ++ op_text op.now) }
{
    let (kind, first, second) = op.parts();
    out.extend_from_slice(op_words(kind))?;
    push_hex(out, first)?;
    if kind != OpKind::Delete {
        out.push(b' ')?;
        push_hex(out, second)?;
    }
    Ok(())
}

/// Appends the line of a write.
pub fn push_write(out: &mut Vec<u8>, write: &WriteRef<'_>) -> Result<(), AllocError>
    ensures { OnOk result (out.new.items ≡ out.old.items ++ write_line write.now) }
{
    push_number(out, write.seq())?;
    push_op(out, write.op())?;
    out.push(b'\n')?;
    Ok(())
}

/// The name of a fault of a log.
fn log_words(fault: LogFault) -> &'static [u8]
    ensures { result.now ≡ lines.log_words fault }
{
    match fault {
        LogFault::BadLength => b"log fault bad length ",
        LogFault::BadChecksum => b"log fault bad checksum ",
        LogFault::UnsupportedType => b"log fault unsupported type ",
        LogFault::MiddleAlone => b"log fault middle alone ",
        LogFault::LastAlone => b"log fault last alone ",
        LogFault::FullInside => b"log fault full inside ",
        LogFault::FirstInside => b"log fault first inside ",
    }
}

/// Appends why a batch isn't valid.
fn push_batch_words(out: &mut Vec<u8>, fault: BatchError) -> Result<(), AllocError>
    ensures { OnOk result (out.new.items ≡ out.old.items ++ batch_words fault) }
{
    match fault {
        BatchError::TooShort => out.extend_from_slice(b" too short")?,
        BatchError::SequenceBack(last) => push_counted(out, b" sequence back ", last)?,
        BatchError::SequenceTooLarge => out.extend_from_slice(b" sequence too large")?,
        BatchError::BadTag(tag, offset) => {
            push_counted(out, b" bad tag ", u64::from(tag))?;
            push_counted(out, b" ", offset)?;
        }
        BatchError::Cut(offset) => push_counted(out, b" cut ", offset)?,
        BatchError::BadVarint(offset) => push_counted(out, b" bad varint ", offset)?,
        BatchError::OtherFamily(id) => push_counted(out, b" other family ", u64::from(id))?,
        BatchError::WrongCount => out.extend_from_slice(b" wrong count")?,
        BatchError::Memory => out.extend_from_slice(b" out of memory")?,
    }
    Ok(())
}

/// The line of an invalid batch.
fn batch_line(alloc: Global, number: u64, fault: BatchError) -> Result<Vec<u8>, AllocError>
    ensures { IfOk result (λ line.
        line.items ≡ codes "batch fault " ++ decimal number ++ batch_words fault ++ 10 ∷ []) }
{
    let mut line = Vec::from_slice(alloc, b"batch fault ")?;
    push_number(&mut line, number)?;
    push_batch_words(&mut line, fault)?;
    line.push(b'\n')?;
    Ok(line)
}

/// The line that says how far a log was read.
pub fn ended_line(alloc: Global, ended: Ended) -> Result<Vec<u8>, AllocError>
    ensures { IfOk result (λ line. line.items ≡ lines.ended_line ended) }
{
    match ended {
        Ended::Clean => Vec::from_slice(alloc, b"clean\n"),
        Ended::Torn(offset) => numbered_line(alloc, b"torn ", offset),
        Ended::LogFault(fault, offset) => numbered_line(alloc, log_words(fault), offset),
        Ended::BatchFault(number, fault) => batch_line(alloc, number, fault),
    }
}
