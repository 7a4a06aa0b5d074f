//! [`NamedClaims`]: claims under names, and what calls do with them.
ghost use Rattle.std.specs.Prelude.{◌≡◌, Ok, None, IfOk, IfErr, replicate};
ghost use Rattle.uc_version.specs.declared.held_stretch.TheConstants.{MOST_CLAIMS as MOST};
ghost use Rattle.uc_query.specs.Names.{AreHeld, named, released};
ghost use Rattle.uc_query.specs.Turns.{HasName, FailsWith, replied, turn_of};

use crate::ask_turn::answer_batch;
use crate::call::Call;
use crate::claim_turns::{abandon_under, claim_under, give_all_back};
use crate::install_turns::{compact_at_once, install_under};
use crate::live_turns::{feed_writes, keep_last, release_keep};
use crate::reply::Reply;
use crate::reports::report;
use std::alloc::Global;
use std::marker::{Model, Sync};
use std::thread::Threads;
use uc_oper::Operator;
use uc_query_workers::AskError;
use uc_version::{MOST_CLAIMS, Owned, OwnedClaim};

/// Claims of a store under names, from 0 to below [`MOST_CLAIMS`]. A contract sees them as a list, for each name the claim
/// that it stands for, if it stands for one.
#[derive(Drop)]
pub struct NamedClaims {
    claims: [Option<OwnedClaim>; MOST_CLAIMS],
}

impl Model for NamedClaims {
    ghost use Rattle.std.specs.Prelude.{List, Option};
    ghost use Rattle.uc_version.specs.Claiming.{Claim};

    ghost Value = { List (Option Claim) };

    ghost view = { λ n. n.claims };
}

impl NamedClaims {
    /// Nothing is claimed. It takes no memory.
    pub fn new() -> NamedClaims
        ensures { result ≡ replicate MOST None }
    {
        NamedClaims {
            claims: Default::default(),
        }
    }

    /// Executes a call and returns its reply. A name that is held is rejected before its stretch is checked. Fails if a batch has a
    /// wrong number of workers or a piece without queries, or if allocation fails, and changes nothing then.
    pub fn call<O: Operator + Sync>(
        &mut self,
        rt: &(impl Threads + Sync),
        alloc: Global,
        owned: &mut Owned<O>,
        call: &Call,
    ) -> Result<Reply, AskError>
        requires name { HasName call.now }
        requires held { AreHeld owned.old self.old }
        ensures held { AreHeld owned.new self.new }
        ensures ok { IfOk result (λ reply.
            turn_of O.meaning (named owned.old self.old) call.now
            ≡ Ok (replied (named owned.new self.new) reply)) }
        ensures err { IfErr result (λ error.
            FailsWith (turn_of O.meaning (named owned.old self.old) call.now) error) }
        ensures unchanged { IfErr result (λ error. (owned.new ≡ owned.old) × (self.new ≡ self.old)) }
    {
        match call {
            Call::Claim(name, stretch) => {
                Ok(claim_under(&mut self.claims, owned, *name, *stretch))
            }
            Call::Install(name) => { Ok(install_under(rt, alloc, &mut self.claims, owned, *name)?) }
            Call::Abandon(name) => Ok(abandon_under(&mut self.claims, owned, *name)),
            Call::Compact(stretch) => Ok(compact_at_once(rt, alloc, owned, *stretch)?),
            Call::Pick => Ok(Reply::Picked(owned.pick())),
            Call::Report => Ok(Reply::Reported(report(rt, alloc, owned.version())?)),
            Call::Ask(queries, workers, piece) => {
                answer_batch(rt, alloc, owned, queries, *workers, *piece)
            }
            Call::Feed(writes) => Ok(feed_writes(alloc, owned, writes)?),
            Call::Keep => Ok(keep_last(owned)?),
            Call::Release(seq) => Ok(release_keep(owned, *seq)),
        }
    }

    /// Gives all claims back. It takes no memory.
    pub fn release<O: Operator>(self, owned: &mut Owned<O>)
        requires { AreHeld owned.old self }
        ensures { owned.new ≡ released (named owned.old self) }
    {
        give_all_back(self.claims, owned);
    }
}
