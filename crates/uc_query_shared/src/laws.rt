//! Laws about the answers from pinned versions.
ghost use Rattle.std.specs.Prelude.{◌≡◌, List, fold};
ghost use Rattle.uc_query_read.specs.Answers.{answer_of};
ghost use Rattle.uc_query_read.specs.declared.query.Query.{Query};
ghost use Rattle.uc_query_shared.specs.Given.{longer};
ghost use Rattle.uc_version_state.specs.Histories.{History, IsLegal, KeepsStay, MayFollow, after, version_after, writes_given};
ghost use Rattle.uc_version_state.specs.Versions.{Stored, writes_in};
ghost use Rattle.uc_version_state.specs.declared.event.Event.{Event};

use uc_oper::Operator;
use uc_query_read::{histories_keep_answers, later_events_leave_answers_alone};
use uc_share::fronts_go_behind_histories;

/// Whatever happened to a store since it was opened, the answer from the version that is shown is the answer from all the plain
/// writes that it was given, at the sequences that it keeps. If no keep came and none went, it is also the answer from those that
/// it was opened with, at the sequences that it kept then.
pub fn pinned_versions_answer_as_given<O: Operator>()
    ensures given { (h : History) (base : Stored) (events : List Event) (query : Query) → IsLegal O.meaning h →
        version_after h ≡ base → MayFollow O.meaning base events →
        answer_of O.meaning (writes_in (fold after base events)) (fold after base events).keeps query ≡
        answer_of O.meaning (writes_given (longer h events)) (version_after (longer h events)).keeps query }
    ensures stay { (h : History) (base : Stored) (events : List Event) (query : Query) → IsLegal O.meaning h →
        version_after h ≡ base → MayFollow O.meaning base events → KeepsStay events →
        answer_of O.meaning (writes_in (fold after base events)) (fold after base events).keeps query ≡
        answer_of O.meaning (writes_given h) (version_after h).keeps query }
{
    fronts_go_behind_histories::<O>();
    histories_keep_answers::<O>();
    later_events_leave_answers_alone::<O>();
}
