//! [`QueryReader`]: the queries of a head, a few at a time.

ghost use Rattle.std.specs.Prelude.{◌≡◌, ◌≤◌, take, drop, length, IfOk, OnOk, OnErr};
ghost use Rattle.uc_script.specs.Head.{query_in, queries_in};

use crate::head_line::{HeadLine, read_head_line};
use crate::lines::next_line;
use crate::query::Query;
use std::alloc::{AllocError, Global};
use std::marker::Model;

/// Goes through the bytes of a head that was read before, front to back, and returns its queries, a few at a time.
///
/// Contracts see it as the queries that are ahead of it.
#[derive(Drop)]
pub struct QueryReader<'a> {
    // The lines that are left.
    lines: &'a [u8],
}

impl<'a> Model for QueryReader<'a> {
    ghost use Rattle.std.specs.Prelude.{List};
    ghost use Rattle.uc_script.specs.Head.{queries_in};
    ghost use Rattle.uc_script.specs.declared.query.Query.{Query};

    ghost Value = { List Query };

    ghost view = { λ r. queries_in r.lines.now };
}

impl<'a> QueryReader<'a> {
    /// A reader before the first query of a head, whose bytes these are. It skips lines that are no query.
    pub fn new(head: &'a [u8]) -> QueryReader<'a>
        ensures { result ≡ queries_in head.now }
    {
        QueryReader { lines: head }
    }

    /// The next `count` queries, or all that are left if there are fewer.
    ///
    /// After an `Err` nothing is passed over.
    pub fn next_queries(&mut self, alloc: Global, count: usize) -> Result<Vec<Query>, AllocError>
        ensures given { IfOk result (λ queries. queries.items ≡ take count self.old) }
        ensures left { OnOk result (self.new ≡ drop count self.old) }
        ensures err { OnErr result (self.new ≡ self.old) }
    {
        let (queries, rest) = read_queries(alloc, self.lines, count)?;
        self.lines = rest;
        Ok(queries)
    }
}

/// The query that a line names, if it names one.
#[tactic(auto, unfolding(crate::specs::Head::query_in))]
fn read_query(alloc: Global, line: &[u8]) -> Result<Option<Query>, AllocError>
    ensures { IfOk result (λ query. query ≡ query_in line.now) }
{
    match read_head_line(alloc, line)? {
        Some(HeadLine::Ask(query)) => Ok(Some(query)),
        Some(HeadLine::Skipped | HeadLine::Keep(_) | HeadLine::Log) | None => Ok(None),
    }
}

/// The first `count` queries of lines, or all if there are fewer, and the lines after them.
fn read_queries(
    alloc: Global,
    lines: &[u8],
    count: usize,
) -> Result<(Vec<Query>, &[u8]), AllocError>
    ensures given { IfOk result (λ found. found.0.items ≡ take count (queries_in lines.now)) }
    ensures left { IfOk result (λ found. queries_in found.1.now ≡ drop count (queries_in lines.now)) }
{
    let mut queries = Vec::new(alloc);
    let mut rest = lines;
    while !rest.is_empty() && queries.len() < count {
        let (line, after) = next_line(rest);
        if let Some(query) = read_query(alloc, line)? {
            queries.push(query)?;
        }
        rest = after;
    }
    Ok((queries, rest))
}
