//! [`Keeping`]: which sequences a compaction keeps.
ghost use Rattle.std.specs.Prelude.{◌≡◌};
ghost use Rattle.std.specs.List.Sorted.{IsStrictlySortedBy};
ghost use Rattle.std.specs.Ordering.{nat_cmp};
ghost use Rattle.uc_compact.specs.Stripes as stripes;

use crate::stripe::Stripe;
use std::marker::Model;

/// The terms of a compaction: the sequences of reads, which rise, and a sequence of the bottom stripe if nothing lies
/// below its inputs. A contract sees it as these.
#[derive(Drop)]
pub struct Keeping<'a> {
    keeps: &'a [u64],
    bottom: Option<u64>,
}

impl<'a> Model for Keeping<'a> {
    ghost use Rattle.uc_compact.specs.Stripes.{Keeping};

    ghost Value = { Keeping };

    ghost view = { λ k. record { keeps = k.keeps.now; bottom = k.bottom } };
}

impl<'a> Keeping<'a> {
    /// Keeps these sequences. If `bottom` is given, nothing lies below its stripe.
    pub fn new(keeps: &'a [u64], bottom: Option<u64>) -> Keeping<'a>
        ensures { result ≡ record { keeps = keeps.now; bottom = bottom } }
    {
        Keeping { keeps, bottom }
    }

    /// The sequences of reads.
    pub(crate) fn keeps(&self) -> &'a [u64]
        ensures { result.now ≡ self.now.keeps }
    {
        self.keeps
    }

    /// The stripe of a sequence.
    pub(crate) fn stripe_of(&self, seq: u64) -> Stripe
        requires { IsStrictlySortedBy nat_cmp self.now.keeps }
        ensures { result ≡ stripes.stripe_of self.now.keeps seq }
    {
        Stripe::of(self.keeps, seq)
    }

    /// Whether a stripe is the bottom one, with nothing below it.
    pub(crate) fn is_bottom(&self, stripe: &Stripe) -> bool
        ensures { result ≡ stripes.is_bottom self.now stripe.now }
    {
        match self.bottom {
            None => false,
            Some(seq) => stripe.has(seq),
        }
    }
}
