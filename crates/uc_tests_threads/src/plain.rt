//! [`Plain`]: the answers of plain writes.
use std::alloc::Global;
use uc_batch::Writes;
use uc_oper::Operator;
use uc_query_read::{Answer, Query, answer_one, answer_writes};
use uc_query_shared::AskError;
use uc_share::Version;

/// Plain writes, and the sequence numbers that are kept.
#[derive(Clone, Copy)]
pub struct Plain<'a> {
    pub writes: &'a Writes,
    pub keeps: [u64; 3],
}

impl Plain<'_> {
    /// Returns true if plain writes give this answer.
    fn gives<O: Operator>(self, alloc: Global, query: &Query, answer: &Answer) -> bool {
        match answer_writes::<O>(alloc, self.writes, &self.keeps, query) {
            Ok(plain) => *answer == plain,
            Err(_) => false,
        }
    }

    /// Returns true if plain writes give these answers.
    fn gives_each<O: Operator>(self, alloc: Global, queries: &[Query], answers: &[Answer]) -> bool {
        for (query, answer) in queries.iter().zip(answers) {
            if !self.gives::<O>(alloc, query, answer) {
                return false;
            }
        }
        queries.len() == answers.len()
    }

    /// Returns true if a batch succeeded, and plain writes give its answers.
    pub fn gives_all<O: Operator>(
        self,
        alloc: Global,
        queries: &[Query],
        answers: &Result<Vec<Answer>, AskError>,
    ) -> bool {
        match answers {
            Ok(answers) => self.gives_each::<O>(alloc, queries, answers.as_slice()),
            Err(_) => false,
        }
    }

    /// Returns true if a version answers a query as plain writes do.
    fn is_given<O: Operator>(self, alloc: Global, version: &Version, query: &Query) -> bool {
        match answer_one::<O>(alloc, version, query) {
            Ok(answer) => self.gives::<O>(alloc, query, &answer),
            Err(_) => false,
        }
    }

    /// Returns true if a version answers all queries as plain writes do.
    pub fn are_given<O: Operator>(
        self,
        alloc: Global,
        version: &Version,
        queries: &[Query],
    ) -> bool {
        for query in queries {
            if !self.is_given::<O>(alloc, version, query) {
                return false;
            }
        }
        true
    }
}
