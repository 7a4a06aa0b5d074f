//! [`Writes`]: a log's writes, whose sequences rise.
ghost use Rattle.std.specs.Prelude.{◌≡◌, ◌↔◌, IsTrue, IsSome, IfSome};
ghost use Rattle.uc_batch.specs.Rising.{IsRising, last_of};
ghost use Rattle.uc_batch.specs.declared.ended.Ended.TheVariants as ending;

use crate::ended::Ended;
use std::marker::Model;
use uc_bytes::{MAX_SEQUENCE, Write};

/// Writes whose sequences rise, and how far their log was read.
///
/// Sequences are from 1 to 2^56 - 1. There may be gaps.
#[derive(Drop)]
pub struct Writes {
    list: Vec<Write>,
    ended: Ended,
}

impl Model for Writes {
    ghost use Rattle.uc_batch.specs.WriteLog.{WriteLog};
    ghost use Rattle.uc_batch.specs.Rising.{IsRising};

    ghost Value = { WriteLog };

    ghost view = { λ w. record { list = w.list.items; ended = w.ended } };

    ghost invariant = { λ w. IsRising 0 w.list.items };
}

/// Whether each sequence is above the one before it, and below 2^56.
fn is_rising(list: &[Write]) -> bool
    ensures { IsTrue result ↔ IsRising 0 list.now }
{
    let mut last = 0;
    for write in list {
        if write.seq <= last || write.seq > MAX_SEQUENCE {
            return false;
        }
        last = write.seq;
    }
    true
}

impl Writes {
    /// The writes, if their sequences rise from 1 on and stay below 2^56. Otherwise `None`, and the list is lost. They
    /// count as a log that was read to its end.
    pub fn of(list: Vec<Write>) -> Option<Writes>
        ensures rising { IsSome result ↔ IsRising 0 list.items }
        ensures list { IfSome result (λ writes. writes.list ≡ list.items) }
        ensures ended { IfSome result (λ writes. writes.ended ≡ ending.Clean) }
    {
        if is_rising(&list) {
            Some(Writes {
                list,
                ended: Ended::Clean,
            })
        } else {
            None
        }
    }

    /// Writes that are known to rise.
    pub(crate) fn known(list: Vec<Write>, ended: Ended) -> Writes
        requires { IsRising 0 list.items }
        ensures list { result.list ≡ list.items }
        ensures ended { result.ended ≡ ended }
    {
        Writes { list, ended }
    }

    /// The writes in order.
    pub fn list(&self) -> &[Write]
        ensures list { result.now ≡ self.now.list }
        ensures rising { IsRising 0 result.now }
    {
        self.list.as_slice()
    }

    /// The last sequence, or 0 if there is no write.
    pub fn last(&self) -> u64
        ensures { result ≡ last_of 0 self.now.list }
    {
        match self.list().last() {
            Some(write) => write.seq,
            None => 0,
        }
    }

    /// Where the log ended, and why.
    pub fn ended(&self) -> Ended
        ensures { result ≡ self.now.ended }
    {
        self.ended
    }
}
