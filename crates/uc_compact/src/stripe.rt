//! [`Stripe`]: the sequences between two neighbouring keeps.
ghost use Rattle.std.specs.Prelude.{◌≡◌, ◌≤◌, ◌-◌, ◌^◌, ◌∷◌, length, map, drop, filter, nat_le, nat_lt};
ghost use Rattle.std.specs.List.{slice_get, slice_index_or};
ghost use Rattle.std.specs.Option.{option_to_list};
ghost use Rattle.std.specs.List.Sorted.{IsStrictlySortedBy};
ghost use Rattle.std.specs.Ordering.{nat_cmp};
ghost use Rattle.uc_compact.specs.Choice.{PointsFall};
ghost use Rattle.uc_compact.specs.Stripes as stripes;

use crate::falling::points_above;
use crate::over::Over;
use std::marker::Model;
use uc_bytes::MAX_SEQUENCE;
use uc_run_points::PointRef;

/// The sequences above `above`, up to and including `upto`.
#[derive(Drop)]
pub(crate) struct Stripe {
    above: u64,
    upto: u64,
}

impl Model for Stripe {
    ghost use Rattle.uc_compact.specs.Stripes.{Stripe};

    ghost Value = { Stripe };

    ghost view = { λ s. record { above = s.above; upto = s.upto } };
}

/// The keep before a place, or 0 at the first one.
fn keep_before(keeps: &[u64], place: usize) -> u64
    requires { place ≤ length keeps.now }
    ensures { result ≡ slice_index_or (0 ∷ keeps.now) place 0 }
{
    if place == 0 { 0 } else { keeps[place - 1] }
}

/// The keep at a place, or the greatest sequence of all after the last one.
fn keep_at(keeps: &[u64], place: usize) -> u64
    ensures { result ≡ slice_index_or keeps.now place (2 ^ 56 - 1) }
{
    match keeps.get(place) {
        None => MAX_SEQUENCE,
        Some(keep) => *keep,
    }
}

/// A sequence, if there is one and it is above a number.
fn above(number: u64, seq: Option<u64>) -> Option<u64>
    ensures { result ≡ slice_get (filter (λ n. nat_lt number n) (option_to_list seq)) 0 }
{
    match seq {
        Some(seq) if number < seq => Some(seq),
        _ => None,
    }
}

impl Stripe {
    /// The stripe of a sequence. It is a binary search of the keeps.
    pub(crate) fn of(keeps: &[u64], seq: u64) -> Stripe
        requires { IsStrictlySortedBy nat_cmp keeps.now }
        ensures { result ≡ stripes.stripe_of keeps.now seq }
    {
        let place = keeps.partition_point(|keep| *keep < seq);
        Stripe {
            above: keep_before(keeps, place),
            upto: keep_at(keeps, place),
        }
    }

    /// The greatest sequence below the stripe.
    pub(crate) fn above(&self) -> u64
        ensures { result ≡ self.now.above }
    {
        self.above
    }

    /// Whether the stripe has a sequence.
    pub(crate) fn has(&self, seq: u64) -> bool
        ensures { result ≡ stripes.is_in self.now seq }
    {
        self.above < seq && seq <= self.upto
    }

    /// The points of the stripe, and how many points aren't below it. They come first.
    pub(crate) fn own_points<'b, 'a>(
        &self,
        points: &'b [PointRef<'a>],
    ) -> (&'b [PointRef<'a>], usize)
        requires { PointsFall points.now }
        ensures own { result.0.now ≡
            filter (λ p. stripes.is_in self.now p.seq) points.now }
        ensures bound { result.1 ≤ length points.now }
        ensures below { drop result.1 points.now ≡
            filter (λ p. nat_le p.seq self.now.above) points.now }
    {
        let count = points_above(points, self.above);
        let (newer, _) = points.split_at(count);
        let (_, own) = newer.split_at(points_above(newer, self.upto));
        (own, count)
    }

    /// The newest sequence of the stripe, if it has one of these.
    pub(crate) fn newest_of(&self, seqs: &Over<'_>) -> Option<u64>
        ensures { result ≡ slice_get (filter (stripes.is_in self.now) seqs.now) 0 }
    {
        seqs.recall_falling();
        above(self.above, seqs.newest_at_or_below(self.upto))
    }
}
