//! [`Node`]: a node of the tree over fragments.
ghost use Rattle.std.specs.Prelude.{◌≡◌, ◌<◌, ◌≤◌, ◌+◌, ◌-◌, ◌*◌, ◌^◌, nat_le};
ghost use Rattle.uc_run_entry.specs.Tree as tree;

/// A node of the tree over fragments: its number, and its fragments, from `low` to below `high`. Numbers are in
/// preorder: the node, the nodes of its first half, then those of its second half.
#[derive(Clone, Copy)]
pub(crate) struct Node {
    pub(crate) number: usize,
    pub(crate) low: usize,
    pub(crate) high: usize,
}

/// Where the fragments from `low` to below `high` are halved.
pub(crate) fn middle(low: usize, high: usize) -> usize
    requires { low ≤ high }
    ensures { result ≡ tree.middle low high }
{
    low + (high - low) / 2
}

impl Node {
    /// The node of all fragments, `fragments` of them.
    pub(crate) fn root(fragments: usize) -> Node
        ensures { result ≡ tree.root fragments }
    {
        Node {
            number: 0,
            low: 0,
            high: fragments,
        }
    }

    /// Whether it has no halves: it has at most one fragment.
    pub(crate) fn is_leaf(&self) -> bool
        requires { self.now.low ≤ self.now.high }
        ensures { result ≡ tree.is_leaf self.now.low self.now.high }
    {
        self.high - self.low <= 1
    }

    /// Its half that has a given fragment.
    pub(crate) fn half(&self, fragment: usize) -> Node
        requires halves { 1 < self.now.high - self.now.low }
        requires fits { self.now.number + 2 * (self.now.high - self.now.low) ≤ 2 ^ 64 }
        ensures { result ≡ tree.half fragment self.now }
    {
        let middle = middle(self.low, self.high);
        if fragment < middle {
            Node {
                number: self.number + 1,
                low: self.low,
                high: middle,
            }
        } else {
            Node {
                number: self.number + 2 * (middle - self.low),
                low: middle,
                high: self.high,
            }
        }
    }
}
