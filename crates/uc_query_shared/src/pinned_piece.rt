//! [`Pins`]: a shared store as the source of workers that have a reader each.
use crate::laws::pinned_versions_answer_as_given;
use std::alloc::{AllocError, Global};
use uc_oper::Operator;
use uc_query_read::{Answer, Query};
use uc_query_workers::{Source, push_answers};
use uc_share::{Name, Reader};

/// The pins of a worker's reader. Each piece is answered from the version that is pinned for it.
#[derive(Drop)]
pub(crate) struct Pins;

impl<O: Operator, N: Name> Source<Reader<O, N>> for Pins {
    ghost use mathlib.Core.List.{IsPrefix};
    ghost use Rattle.uc_query_shared.specs.Given.{MayBeGiven};
    ghost use Rattle.uc_share.proofs.Prefixes.{prefix_self, prefix_behind};

    ghost gives = { λ source before after query answer.
        MayBeGiven O.meaning N.keeps_stay N.base query answer before after };

    ghost goes_on = { λ before after. IsPrefix before after };

    fn push_answers(
        &self,
        place: &mut Reader<O, N>,
        alloc: Global,
        queries: &[Query],
        answers: &mut Vec<Answer>,
    ) -> Result<(), AllocError> {
        pinned_versions_answer_as_given::<O>();
        let pin = place.pin()?;
        pin.recall();
        push_answers::<O>(alloc, pin.version(), queries, answers)?;
        Ok(())
    }

    ghost stays = { λ place. prefix_self place };

    ghost goes_further = { λ first second third so_far then. prefix_behind first second third so_far then };

    ghost gives_on = { λ source first start end last query answer before behind given. record {
      between = record {
        events = given.between.events;
        behind = prefix_behind first start given.between.events before given.between.behind;
        seen = prefix_behind given.between.events end last given.between.seen behind;
        given = given.between.given;
      };
      stays = given.stays;
    } };
}
