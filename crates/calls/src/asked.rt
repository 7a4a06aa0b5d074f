//! Encodings of queries and answers in calls.
use crate::input::Input;
use crate::out::Out;
use crate::said::{self, Spelled};
use std::alloc::{AllocError, Global};
use uc_bytes::Bytes;
use uc_query_read::{Answer, Query, Rows};

impl Spelled for Query {
    /// Reads a query: 0, a key and a sequence number; or 1, the ends of a scan, its sequence number and its largest number of rows.
    fn read(alloc: Global, call: &mut Input<'_>) -> Result<Query, AllocError> {
        if call.number() == 0 {
            let key = Bytes::from_slice(alloc, call.bytes())?;
            return Ok(Query::Get {
                key,
                at: call.number(),
            });
        }
        let low = Bytes::from_slice(alloc, call.bytes())?;
        Ok(Query::Scan {
            low,
            high: said::value(alloc, call)?,
            at: call.number(),
            limit: call.number(),
        })
    }
}

/// Writes the number of rows, and the key and value of each.
fn write_rows(out: &mut Out, rows: &Rows) {
    out.place(rows.len());
    for (key, value) in rows.iter() {
        out.bytes(key);
        out.bytes(value);
    }
}

/// Writes an answer: 0 for no value, 1 and a value, 2 and rows, or 3 and a sequence number that isn't protected.
pub(crate) fn write_answer(out: &mut Out, answer: &Answer) {
    match answer {
        Answer::Value(None) => out.number(0),
        Answer::Value(Some(value)) => {
            out.number(1);
            out.bytes(value.as_slice());
        }
        Answer::Rows(rows) => {
            out.number(2);
            write_rows(out, rows);
        }
        Answer::NotProtected(at) => {
            out.number(3);
            out.number(*at);
        }
    }
}

/// Writes an answer, unless allocation failed.
pub(crate) fn made_answer(out: &mut Out, made: Result<Answer, AllocError>) {
    match made {
        Ok(answer) => write_answer(out, &answer),
        Err(_) => out.want(),
    }
}

/// Writes answers.
pub(crate) fn write_answers(out: &mut Out, answers: &[Answer]) {
    out.place(answers.len());
    for answer in answers {
        write_answer(out, answer);
    }
}
