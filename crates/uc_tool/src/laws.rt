//! Laws about what is printed.
ghost use Rattle.std.specs.Prelude.{◌≡◌, ℕ, ◌≤◌, ◌+◌, List, Ok, None, length};
ghost use Rattle.uc_batch.specs.Batch.{numbered};
ghost use Rattle.uc_batch.specs.Rising.{IsRising};
ghost use Rattle.uc_version_state.specs.declared.options.Options.{Options};
ghost use Rattle.uc_version_state.specs.Openings.{opened};
ghost use Rattle.uc_version_state.specs.Histories.{known_at_first};
ghost use Rattle.uc_version_open.specs.Refusal.{opening_refusal};
ghost use Rattle.uc_version.specs.Owners.{unclaimed};
ghost use Rattle.uc_version.specs.declared.held_stretch.TheConstants.{MOST_CLAIMS};
ghost use Rattle.uc_query.specs.Running.{run_of, unnamed};
ghost use Rattle.uc_query.specs.Answered.{AreAnswered};
ghost use Rattle.uc_script.specs.Script.{script_of};
ghost use Rattle.uc_script.specs.declared.call.TheConstants.{NAMES};
ghost use Rattle.uc_script.specs.declared.script.Script.{Script};
ghost use Rattle.uc_tool_io.specs.declared.input.TheConstants.{INPUT_LIMIT};
ghost use Rattle.uc_tool.specs.Play.{FitLogs, calls_of, opening_of, play_of};
ghost use Rattle.uc_tool.specs.Reading.{AnswersReads};

use uc_oper::Operator;
use uc_query::asks_are_answered_from_plain_writes;
use uc_script::a_script_names_no_more_than_it_has;
use uc_version_open::no_refusal_is_leave_to_open;
use uc_version_state::opening_gives_a_version;

/// A script has a name for each claim that a store's owner may hold at once.
pub fn scripts_name_as_many_claims_as_are_held()
    ensures { NAMES ≡ MOST_CLAIMS }
{}

/// The replies to the calls of a script whose writes rise and whose store opens.
fn replies_are_answered_from_plain_writes<O: Operator>()
    ensures { (options : Options) (script : Script) → IsRising 0 (numbered 1 script.ops) →
        opening_refusal (opening_of options script) ≡ None →
        let version = opened (opening_of options script) in
        FitLogs (version.last + 1) script.calls →
        let asked = calls_of version.last (version.last + 1) script.calls in
        AreAnswered O.meaning (known_at_first (opening_of options script)) asked
        (run_of O.meaning (unnamed (unclaimed version options)) asked).replies }
{
    opening_gives_a_version();
    no_refusal_is_leave_to_open();
    asks_are_answered_from_plain_writes::<O>();
}

/// The output for the bytes of a script that is read and whose store opens: that it opened, and a reply to each of its calls.
/// Whatever the script claims, compacts and installs between its reads, each of its `get` and `scan` lines has the reply of its
/// plain writes up to that line, those of the opening and those that were fed: one thread folding them with the operator, at the
/// sequence numbers that are kept then. No feed fails because its writes come too late.
pub fn reads_are_answered_from_plain_writes<O: Operator>()
    ensures { (options : Options) (input : List ℕ) (script : Script) → length input ≤ INPUT_LIMIT →
        script_of input ≡ Ok script → opening_refusal (opening_of options script) ≡ None →
        AnswersReads O.meaning (opening_of options script) script.calls (play_of O.meaning options input) }
{
    a_script_names_no_more_than_it_has();
    replies_are_answered_from_plain_writes::<O>();
}
