//! Walks down the tree over fragments.
ghost use Rattle.std.specs.Prelude.{◌≡◌, ◌<◌, ◌+◌, ◌-◌, ◌*◌, ◌^◌, length, min};
ghost use Rattle.std.specs.List.{AllByRecursion, sum_by};
ghost use Rattle.uc_run_entry.specs.Newest as newest;
ghost use Rattle.uc_run_entry.specs.Newest.{Descends, newest_of_all};
ghost use Rattle.uc_run_entry.specs.Tree.{held_over};

use crate::lists::Lists;
use crate::newest::{newer, newest_at_or_below};
use crate::node::Node;

/// The newest sequence at or below a number that a node over a fragment holds.
pub(crate) fn newest_over(
    nodes: &Lists<u64>,
    fragments: usize,
    fragment: usize,
    at: u64,
) -> Option<u64>
    requires all { length nodes.now + 1 ≡ 2 * fragments }
    requires within { fragment < fragments }
    requires falling { AllByRecursion Descends nodes.now }
    ensures { result ≡ newest_of_all at (held_over fragments fragment nodes.now) }
{
    let mut node = Node::root(fragments);
    let mut best = newest_at_or_below(nodes.list(node.number), at);
    while !node.is_leaf() {
        node = node.half(fragment);
        best = newer(best, newest_at_or_below(nodes.list(node.number), at));
    }
    best
}

/// The number of sequences in the nodes over a fragment together, at most 2^64 - 1.
pub(crate) fn count_over(nodes: &Lists<u64>, fragments: usize, fragment: usize) -> u64
    requires all { length nodes.now + 1 ≡ 2 * fragments }
    requires within { fragment < fragments }
    ensures { result ≡ min (sum_by length (held_over fragments fragment nodes.now)) (2 ^ 64 - 1) }
{
    let mut node = Node::root(fragments);
    let mut count = nodes.list(node.number).len() as u64;
    while !node.is_leaf() {
        node = node.half(fragment);
        count = count.saturating_add(nodes.list(node.number).len() as u64);
    }
    count
}
