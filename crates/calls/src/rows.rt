//! Calls of rows in one buffer.
use crate::input::Input;
use crate::out::Out;
use std::alloc::{AllocError, Global};
use uc_rows::{RowBuffer, RowIter, Rows, push_text};

/// Reads the number of rows, and their keys and values.
fn rows(alloc: Global, call: &mut Input<'_>) -> Result<RowBuffer, AllocError> {
    let mut rows = RowBuffer::new(alloc);
    for _ in 0..call.number() {
        if call.is_short() {
            break;
        }
        let (key, value) = (call.bytes(), call.bytes());
        rows.push(key, value)?;
    }
    Ok(rows)
}

/// Writes the number of remaining rows, and the rows.
fn write_rows(out: &mut Out, ahead: RowIter<'_>) {
    out.place(ahead.len());
    for (key, value) in ahead {
        out.bytes(key);
        out.bytes(value);
    }
}

/// Reads the number of rows to skip, and a size in bytes. Writes the rows after the skipped ones, the first of these again, all rows as
/// bytes, the rows that fit into the size, and their number.
fn walk(rows: &Rows, call: &mut Input<'_>, out: &mut Out) {
    let (passed, most) = (call.place(), call.place());
    let mut ahead = rows.iter();
    ahead.pass(passed);
    write_rows(out, ahead);
    match rows.get(passed) {
        Some((key, value)) => {
            out.some_bytes(Some(key));
            out.bytes(value);
        }
        None => out.some_bytes(None),
    }
    let (bytes, count) = rows.fitting(most);
    out.bytes(rows.as_bytes());
    out.bytes(bytes);
    out.place(count);
}

/// Reads rows, and the arguments of `walk`. Writes the number of rows, a flag that is set if their keys ascend, and the answer of `walk`.
pub(crate) fn gather(alloc: Global, call: &mut Input<'_>, out: &mut Out) {
    match rows(alloc, call) {
        Ok(buffer) => {
            out.place(buffer.len());
            look(buffer, call, out);
        }
        Err(_) => out.want(),
    }
}

/// Writes a flag that is set if the keys ascend, and the answer of `walk`.
fn look(buffer: RowBuffer, call: &mut Input<'_>, out: &mut Out) {
    match Rows::of(buffer) {
        Some(rows) => {
            out.flag(true);
            walk(&rows, call, out);
        }
        None => out.flag(false),
    }
}

/// Returns a byte string after its length.
fn spelled(alloc: Global, text: &[u8]) -> Result<Vec<u8>, AllocError> {
    let mut bytes = Vec::new(alloc);
    push_text(&mut bytes, text)?;
    Ok(bytes)
}

/// Reads a byte string. Writes it after its length, as the library encodes it.
pub(crate) fn spell(alloc: Global, call: &mut Input<'_>, out: &mut Out) {
    out.made(spelled(alloc, call.bytes()));
}
