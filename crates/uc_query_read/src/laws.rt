//! Laws about answers over versions.
ghost use Rattle.std.specs.Prelude.{◌≡◌, ◌++◌, List, Contains};
ghost use Rattle.uc_query_read.specs.declared.query.Query.{Query};
ghost use Rattle.uc_query_read.specs.Query.{at_of};
ghost use Rattle.uc_query_read.specs.Answers.{answer_of};
ghost use Rattle.uc_version_state.specs.Versions.{writes_in};
ghost use Rattle.uc_version_state.specs.Histories.{History, IsLegal, KeepsStay, version_after, writes_given};
ghost use Rattle.uc_version_state.specs.declared.event.Event.{Event};

use crate::answer_laws::equal_values_give_equal_answers;
use uc_model::later_writes_change_nothing;
use uc_oper::Operator;
use uc_version_state::{
    beginnings_are_legal, histories_keep_what_is_read, histories_say_writes_and_keeps,
};

/// Whatever happened to a store after its opening, its version's answer is the answer from the plain writes that it was
/// given.
pub fn histories_keep_answers<O: Operator>()
    ensures { (h : History) (query : Query) → IsLegal O.meaning h →
        answer_of O.meaning (writes_in (version_after h)) (version_after h).keeps query ≡
        answer_of O.meaning (writes_given h) (version_after h).keeps query }
{
    histories_keep_what_is_read::<O>();
    equal_values_give_equal_answers::<O>();
}

/// Later events leave an answer alone where its sequence stays kept: writes that come later are above every sequence that was
/// kept before. So if no keep comes and none goes, every query keeps its answer.
pub fn later_events_leave_answers_alone<O: Operator>()
    ensures kept { (h : History) (events : List Event) (query : Query) →
        IsLegal O.meaning (record h { events = h.events ++ events }) → Contains (version_after h).keeps (at_of query) →
        Contains (version_after (record h { events = h.events ++ events })).keeps (at_of query) →
        answer_of O.meaning (writes_given (record h { events = h.events ++ events }))
        (version_after (record h { events = h.events ++ events })).keeps query ≡
        answer_of O.meaning (writes_given h) (version_after h).keeps query }
    ensures stay { (h : History) (events : List Event) (query : Query) →
        IsLegal O.meaning (record h { events = h.events ++ events }) → KeepsStay events →
        answer_of O.meaning (writes_given (record h { events = h.events ++ events }))
        (version_after (record h { events = h.events ++ events })).keeps query ≡
        answer_of O.meaning (writes_given h) (version_after h).keeps query }
{
    beginnings_are_legal::<O>();
    histories_say_writes_and_keeps::<O>();
    histories_keep_what_is_read::<O>();
    later_writes_change_nothing::<O>();
    equal_values_give_equal_answers::<O>();
}
