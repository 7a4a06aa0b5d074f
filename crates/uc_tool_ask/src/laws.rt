//! Laws about what is printed.
ghost use Rattle.std.specs.Prelude.{◌≡◌, ℕ, List, Ok, None, drop, map};
ghost use Rattle.uc_batch.specs.Log.{log_writes};
ghost use Rattle.uc_script.specs.Head.{Head, head_of};
ghost use Rattle.uc_version_state.specs.declared.options.Options.{Options as OptionsOf};
ghost use Rattle.uc_version_state.specs.Openings.{Opening, opened};
ghost use Rattle.uc_version_open.specs.Refusal.{opening_refusal};
ghost use Rattle.uc_query_read.specs.Answers.{answer_of};
ghost use Rattle.uc_tool_io.specs.declared.done.Done.TheVariants.{Fine};
ghost use Rattle.uc_tool_opening.specs.AnswerLines.{answer_lines};
ghost use Rattle.uc_tool_opening.specs.Asked.{query_of};
ghost use Rattle.uc_tool_ask.specs.Ask.{ask_of, without_last};
ghost use Rattle.uc_bytes.specs.declared.write.Write.{Write};
ghost use Rattle.uc_tool_ask.specs.Readable.{IsReadable};

use uc_oper::Operator;

/// Where a head is read, the log after it can be read, and the store opens, each query is answered, in the order of the
/// head, as the log's plain writes answer it, without those that come later, at the sequences that the head keeps and at the
/// last one.
pub fn queries_are_answered_from_the_log<O: Operator>()
    ensures { (options : OptionsOf) (later : ℕ) (input : List ℕ) (head : Head) → head_of input ≡ Ok head →
        let log = log_writes (drop head.size input) in
        let writes = without_last later log.list in
        let o : Opening = record { writes = writes; keeps = head.keeps; options = options } in
        IsReadable log.ended → opening_refusal o ≡ None → ask_of O.meaning options later input ≡ record {
          replies = map (λ asked. answer_lines (answer_of O.meaning writes (opened o).keeps (query_of (opened o).last asked)))
              head.queries;
          done = Fine;
        } }
{}

/// Where no write comes later, the store opens from all of the log.
pub fn nothing_later_leaves_all_writes()
    ensures { (writes : List Write) → without_last 0 writes ≡ writes }
{}
