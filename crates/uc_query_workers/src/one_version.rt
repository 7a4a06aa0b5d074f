//! [`OneVersion`]: a version as the source of all workers.
use crate::source::Source;
use crate::version_answers::push_answers;
use std::alloc::{AllocError, Global};
use std::marker::PhantomData;
use uc_oper::Operator;
use uc_query_read::{Answer, Query};
use uc_version_state::Version;

/// A version, from which all workers answer.
#[derive(Drop)]
pub(crate) struct OneVersion<'a, O> {
    pub(crate) version: &'a Version,
    pub(crate) operator: PhantomData<O>,
}

impl<'a, O: Operator + Sync> Source<()> for OneVersion<'a, O> {
    ghost use Rattle.std.specs.Prelude.{◌≡◌};
    ghost use Rattle.uc_query_read.specs.Answers.{answer_of};
    ghost use Rattle.uc_version_state.specs.Versions.{writes_in};

    ghost gives = { λ source before after query answer.
        answer ≡ answer_of O.meaning (writes_in source.version.now) source.version.now.keeps query };

    ghost goes_on = { λ before after. Unit {0} };

    fn push_answers(
        &self,
        _place: &mut (),
        alloc: Global,
        queries: &[Query],
        answers: &mut Vec<Answer>,
    ) -> Result<(), AllocError> {
        push_answers::<O>(alloc, self.version, queries, answers)
    }

    ghost stays = { λ place. tt };

    ghost goes_further = { λ first second third so_far then. tt };

    ghost gives_on = { λ source first start end last query answer before behind given. given };
}
