//! The lines of replies to calls.

ghost use Rattle.std.specs.Prelude.{◌≡◌, IfOk};
ghost use Rattle.std.specs.List.{flat_map};
ghost use Rattle.uc_tool_opening.specs.AnswerLines.{answer_lines};
ghost use Rattle.uc_tool_opening.specs.ReplyLines as lines;

use crate::answers::push_answer_lines;
use crate::refusals::{claim_refusal_line, feed_refusal_line, install_refusal_line};
use crate::reports::report_lines;
use std::alloc::{AllocError, Global};
use uc_query::Reply;
use uc_query_read::Answer;
use uc_tool_io::{fields_line, numbered_line};
use uc_version_state::Stretch;

/// The line of what would be compacted next.
fn pick_line(alloc: Global, stretch: Option<Stretch>) -> Result<Vec<u8>, AllocError>
    ensures { IfOk result (λ line. line.items ≡ lines.pick_line stretch) }
{
    match stretch {
        None => Vec::from_slice(alloc, b"pick none\n"),
        Some(Stretch { first, count }) => {
            fields_line(alloc, &[(b"pick ", first as u64), (b" ", count as u64)])
        }
    }
}

/// The line of a compaction: the position of the first run, how many they were, and the id of what they became.
pub fn compacted_line(alloc: Global, stretch: Stretch, id: u64) -> Result<Vec<u8>, AllocError>
    ensures { IfOk result (λ line. line.items ≡ lines.compacted_line stretch id) }
{
    let Stretch { first, count } = stretch;
    fields_line(
        alloc,
        &[
            (b"compacted ", first as u64),
            (b" ", count as u64),
            (b" ", id),
        ],
    )
}

/// The lines of some answers, in their order. Fails only if allocation fails.
pub fn answers_lines(alloc: Global, answers: &[Answer]) -> Result<Vec<u8>, AllocError>
    ensures { IfOk result (λ text. text.items ≡ flat_map answer_lines answers.now) }
{
    let mut out = Vec::new(alloc);
    for answer in answers {
        push_answer_lines(&mut out, answer)?;
    }
    Ok(out)
}

/// The line of a feed: how many runs the writes became, and the last sequence.
fn fed_line(alloc: Global, runs: u64, last: u64) -> Result<Vec<u8>, AllocError>
    ensures { IfOk result (λ line. line.items ≡ lines.fed_line runs last) }
{
    fields_line(alloc, &[(b"fed ", runs), (b" ", last)])
}

/// The lines of a reply, after which `last` is the last sequence.
pub fn reply_lines(alloc: Global, last: u64, reply: &Reply) -> Result<Vec<u8>, AllocError>
    ensures { IfOk result (λ text. text.items ≡ lines.reply_lines last reply.now) }
{
    match reply {
        Reply::Claimed(name) => numbered_line(alloc, b"claimed ", u64::from(*name)),
        Reply::Refused(error) => claim_refusal_line(alloc, *error),
        Reply::Installed(id) => numbered_line(alloc, b"installed ", *id),
        Reply::NotInstalled(error) => install_refusal_line(alloc, *error),
        Reply::Abandoned(name) => numbered_line(alloc, b"abandoned ", u64::from(*name)),
        Reply::NoClaim(name) => numbered_line(alloc, b"refused no claim ", u64::from(*name)),
        Reply::NameHeld(name) => numbered_line(alloc, b"refused name held ", u64::from(*name)),
        Reply::Compacted(id) => numbered_line(alloc, b"compacted ", *id),
        Reply::Picked(stretch) => pick_line(alloc, *stretch),
        Reply::Reported(report) => report_lines(alloc, report),
        Reply::Answers(answers) => answers_lines(alloc, answers.as_slice()),
        Reply::Fed(runs) => fed_line(alloc, *runs, last),
        Reply::NotFed(error) => feed_refusal_line(alloc, *error),
        Reply::Kept(seq) => numbered_line(alloc, b"kept ", *seq),
        Reply::Released(seq) => numbered_line(alloc, b"released ", *seq),
        Reply::NotReleased(seq) => numbered_line(alloc, b"refused not kept ", *seq),
    }
}
