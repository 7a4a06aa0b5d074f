//! [`PointTest`]: the test of a search among points.
ghost use Rattle.std.specs.Prelude.{◌≡◌, Bool};
ghost use Rattle.uc_run_entry.specs.declared.entry.Entry.{Entry as EntryOf};

use crate::point_ref::PointRef;

/// The test of a search among points. In a binary search the points that pass come first.
pub trait PointTest {
    /// True for the points that pass.
    ghost passing: { Self → EntryOf → Bool };

    /// Returns true if a point passes.
    fn passes(&self, point: &PointRef<'_>) -> bool
        ensures { result ≡ passing self.now point.now };
}
