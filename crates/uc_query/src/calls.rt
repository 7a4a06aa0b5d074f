//! [`run_calls`]: a list of calls to a store.
ghost use Rattle.std.specs.Prelude.{◌≡◌, IfOk, IfErr};
ghost use Rattle.std.specs.List.{AllByRecursion};
ghost use Rattle.uc_oper.specs.Operation.{Operation};
ghost use Rattle.uc_version_state.specs.Histories.{History, IsLegal, version_after, known};
ghost use Rattle.uc_query.specs.Names.{State, AreHeld, named};
ghost use Rattle.uc_query.specs.Turns.{FailsWith, HasName, turn_of};
ghost use Rattle.uc_query.specs.Answered.{AreAnswered, LeadsTo};
ghost use Rattle.uc_query.specs.Running.{RunsAll, Stops};
ghost use Rattle.uc_query.specs.Stepping.{RunsTo, Halts};

use crate::call::Call;
use crate::laws::{asks_are_answered_from_plain_writes, calls_extend_histories};
use crate::named_claims::NamedClaims;
use crate::reply::Reply;
use std::alloc::Global;
use std::marker::Sync;
use std::thread::Threads;
use uc_oper::Operator;
use uc_query_workers::{AskError, ask_refusal};
use uc_version::Owned;

/// Why a call fails that has no memory for its reply: its queries can't be asked so, which comes first, or that.
fn failure_without_memory(call: &Call) -> AskError
    ensures { (m : Operation) (s : State) → FailsWith (turn_of m s call.now) result }
{
    match call {
        Call::Ask(_, workers, piece) => match ask_refusal(*workers, *piece) {
            Some(error) => error,
            None => AskError::Memory,
        },
        _ => AskError::Memory,
    }
}

/// The replies to calls, in their order, up to the first one that isn't valid or whose allocation fails.
fn replies_to<O: Operator + Sync>(
    rt: &(impl Threads + Sync),
    alloc: Global,
    claims: &mut NamedClaims,
    owned: &mut Owned<O>,
    calls: &[Call],
) -> Result<Vec<Reply>, AskError>
    requires names { AllByRecursion HasName calls.now }
    requires held { AreHeld owned.old claims.old }
    ensures held { AreHeld owned.new claims.new }
    ensures ok { IfOk result (λ replies.
        RunsTo O.meaning (named owned.old claims.old) calls.now replies.items (named owned.new claims.new)) }
    ensures err { IfErr result (λ error.
        Halts O.meaning (named owned.old claims.old) calls.now error (named owned.new claims.new)) }
{
    let mut replies = Vec::new(alloc);
    for call in calls {
        call.recall();
        // Space for the reply is reserved before the call changes anything.
        if replies.reserve(1).is_err() {
            return Err(failure_without_memory(call));
        }
        let reply = match claims.call(rt, alloc, owned, call) {
            Ok(reply) => reply,
            Err(error) => return Err(error),
        };
        replies.push_reserved(reply);
    }
    Ok(replies)
}

/// The replies to a list of calls, in their order. At the end the claims that are still held under names are given back.
///
/// The first batch of queries that isn't valid, or the first failed allocation, ends the list: the effects of the calls before it
/// stay, that call changes nothing, and the claims are given back too. A batch that isn't valid is reported as that, even if
/// allocation would fail.
///
/// Whatever is claimed, compacted and installed between the calls, each batch has the answers of the plain writes that the store
/// was given until then, at the sequence numbers that it keeps then, and the store continues along its history.
pub fn run_calls<O: Operator + Sync>(
    rt: &(impl Threads + Sync),
    alloc: Global,
    owned: &mut Owned<O>,
    calls: &[Call],
) -> Result<Vec<Reply>, AskError>
    requires { AllByRecursion HasName calls.now }
    ensures ok { IfOk result (λ replies. RunsAll O.meaning owned.old calls.now replies.items owned.new) }
    ensures err { IfErr result (λ error. Stops O.meaning owned.old calls.now error owned.new) }
    ensures answered { (h : History) → IsLegal O.meaning h → owned.old.version ≡ version_after h →
        IfOk result (λ replies. AreAnswered O.meaning (known h) calls.now replies.items) }
    ensures goes_on { (h : History) → IsLegal O.meaning h → owned.old.version ≡ version_after h →
        LeadsTo O.meaning h owned.new.version }
{
    owned.recall();
    calls_extend_histories::<O>();
    asks_are_answered_from_plain_writes::<O>();
    let mut claims = NamedClaims::new();
    let replies = replies_to(rt, alloc, &mut claims, owned, calls);
    claims.release(owned);
    replies
}
