//! The records of a batch, read one at a time.
ghost use Rattle.std.specs.Prelude.{◌≡◌, ◌<◌, ◌≤◌, length};
ghost use Rattle.uc_batch.specs.Reads.{Exactly};
ghost use Rattle.uc_batch.specs.Records.{strings_at, after_family, family_at, body_at, record_at};

use crate::cursor::Cursor;
use crate::error::BatchError;
use crate::tag::{Form, Tag};
use uc_bytes::OpRef;

/// Reads the number of a column family, which must be 0, the default one's.
#[tactic(auto, unfolding(crate::specs::Records::family_at))]
fn read_family(batch: &mut Cursor<'_>, start: u64) -> Result<(), BatchError>
    ensures value { Exactly (λ _. batch.new.rest.now) result (family_at batch.old.total start batch.old.rest.now) }
    ensures total { batch.new.total ≡ batch.old.total }
    ensures shorter { length batch.new.rest.now ≤ length batch.old.rest.now }
{
    let id = batch.read_number(start)?;
    if id != 0 {
        return Err(BatchError::OtherFamily(id));
    }
    Ok(())
}

/// Skips the family's number, if there is one.
#[tactic(auto, unfolding(crate::specs::Records::after_family))]
fn skip_family(batch: &mut Cursor<'_>, has_family: bool, start: u64) -> Result<(), BatchError>
    ensures value { Exactly (λ _. batch.new.rest.now) result
        (after_family has_family batch.old.total start batch.old.rest.now) }
    ensures total { batch.new.total ≡ batch.old.total }
    ensures shorter { length batch.new.rest.now ≤ length batch.old.rest.now }
{
    if has_family {
        read_family(batch, start)?;
    }
    Ok(())
}

/// Reads two strings, which it borrows.
#[tactic(auto, unfolding(crate::specs::Records::strings_at))]
fn read_strings<'a>(batch: &mut Cursor<'a>, start: u64) -> Result<(&'a [u8], &'a [u8]), BatchError>
    ensures value { Exactly (λ two. ((two.0.now, two.1.now), batch.new.rest.now)) result
        (strings_at batch.old.total start batch.old.rest.now) }
    ensures total { batch.new.total ≡ batch.old.total }
    ensures shorter { length batch.new.rest.now ≤ length batch.old.rest.now }
{
    let first = batch.read_string(start)?;
    let second = batch.read_string(start)?;
    Ok((first, second))
}

/// Reads what follows the tag and the family, and returns the operation if it is counted.
#[tactic(auto, unfolding(crate::specs::Records::body_at))]
fn read_body<'a>(
    batch: &mut Cursor<'a>,
    form: Form,
    start: u64,
) -> Result<Option<OpRef<'a>>, BatchError>
    ensures value { Exactly (λ op. (op, batch.new.rest.now)) result
        (body_at form batch.old.total start batch.old.rest.now) }
    ensures total { batch.new.total ≡ batch.old.total }
    ensures shorter { length batch.new.rest.now ≤ length batch.old.rest.now }
{
    match form {
        Form::Deletion => {
            let key = batch.read_string(start)?;
            Ok(Some(OpRef::delete(key)))
        }
        Form::Value => {
            let (key, value) = read_strings(batch, start)?;
            Ok(Some(OpRef::put(key, value)))
        }
        Form::Merge => {
            let (key, operand) = read_strings(batch, start)?;
            Ok(Some(OpRef::merge(key, operand)))
        }
        Form::LogData => {
            let _text = batch.read_string(start)?;
            Ok(None)
        }
        Form::Noop => Ok(None),
        Form::RangeDeletion => {
            let (begin, end) = read_strings(batch, start)?;
            Ok(Some(OpRef::delete_range(begin, end)))
        }
    }
}

/// Reads the record at the front, and returns the operation if it is counted.
#[tactic(auto, unfolding(crate::specs::Records::record_at, crate::specs::Records::laid_out))]
pub(crate) fn read_record<'a>(batch: &mut Cursor<'a>) -> Result<Option<OpRef<'a>>, BatchError>
    requires some { 0 < length batch.old.rest.now }
    ensures value { Exactly (λ op. (op, batch.new.rest.now)) result (record_at batch.old.total batch.old.rest.now) }
    ensures total { batch.new.total ≡ batch.old.total }
    ensures shorter { length batch.new.rest.now < length batch.old.rest.now }
{
    let start = batch.offset();
    let byte = batch.read_byte();
    let Some(tag) = Tag::of_byte(byte) else {
        return Err(BatchError::BadTag(byte, start));
    };
    let layout = tag.layout();
    skip_family(batch, layout.has_family, start)?;
    read_body(batch, layout.form, start)
}
