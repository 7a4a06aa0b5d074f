//! The laws. Proof steps: they do nothing when they run.
ghost use Rattle.std.specs.Prelude.{◌≤◌, ◌++◌, ◌∷◌, [], ℕ, List, length, take};
ghost use Rattle.uc_bytes.specs.declared.write.Write.{Write};
ghost use Rattle.uc_query_read.specs.Answers.{reading};
ghost use Rattle.uc_query_read.specs.declared.answer.Answer.{Answer};
ghost use Rattle.uc_query_read.specs.declared.query.Query.{Query};
ghost use Rattle.uc_history.specs.Histories.{
  Acknowledges,
  Answers,
  Begins,
  Commits,
  Event,
  MayFollow,
  SeesMoment,
  Shows,
  Takes,
  run,
  start,
};

use uc_oper::Operator;

/// Each read sees the writes that were shown at a moment of its call: all that were acknowledged before it began, and all that a read has
/// seen which returned before.
pub fn each_read_sees_a_moment<O: Operator>()
    ensures { (before during after : List Event) (call : ℕ) (query : Query) (answer : Answer) →
        MayFollow O.meaning start (before ++ Begins call ∷ (during ++ Answers call query answer ∷ after)) →
        SeesMoment O.meaning before during call query answer }
{}

/// Example: a group is taken, shown and acknowledged, and a read answers by it.
pub fn a_read_sees_a_group<O: Operator>()
    ensures { (writes : List Write) (query : Query) → MayFollow O.meaning start (Commits writes ∷ Shows ∷ Acknowledges (length writes) ∷
        Begins 0 ∷ Takes 0 ∷ Answers 0 query (reading O.meaning (take (length writes) writes) query) ∷ []) }
{}

/// No more is shown than was taken, and no more is acknowledged or seen than is shown.
pub fn no_more_is_shown_than_was_taken<O: Operator>()
    ensures taken { (events : List Event) → MayFollow O.meaning start events → (run events start).shown ≤ length (run events start).log }
    ensures acknowledged { (events : List Event) → MayFollow O.meaning start events →
        (run events start).acknowledged ≤ (run events start).shown }
    ensures seen { (events : List Event) → MayFollow O.meaning start events → (run events start).seen ≤ (run events start).shown }
{}
