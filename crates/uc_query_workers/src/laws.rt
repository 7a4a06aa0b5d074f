//! The meaning of the answers that are given to queries.
ghost use Rattle.std.specs.Prelude.{◌≡◌, List, map};
ghost use Rattle.std.specs.List.{AllZip};
ghost use Rattle.uc_query_read.specs.declared.answer.Answer.{Answer};
ghost use Rattle.uc_query_read.specs.declared.query.Query.{Query};
ghost use Rattle.uc_query_workers.specs.Given.{GivenBySome};

use crate::source::Source;

/// Where each answer that the places may give to a query is that of one function, so are the answers to all queries.
pub fn answers_are_mapped<P, S: Source<P>>()
    ensures { (source : S) (before after : List P) (answer_to : Query → Answer) (queries : List Query) (answers : List Answer) →
        ((query : Query) (answer : Answer) → GivenBySome (S.gives source) before after query answer → answer ≡ answer_to query) →
        AllZip (GivenBySome (S.gives source) before after) queries answers → answers ≡ map answer_to queries }
{}
