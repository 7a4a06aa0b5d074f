//! [`StoreId`]: which store it is.
ghost use Rattle.std.specs.Prelude.{◌≡◌, ◌↔◌, IsTrue};

/// The id of a store: a number that distinguishes its jobs from those of others. A program whose stores exchange jobs must give
/// each a different one; 0 is for stores that don't.
#[derive(Clone, Copy, Debug, PartialEq, Eq)]
pub struct StoreId {
    /// The number.
    pub number: u64,
}

impl StoreId {
    /// The id of stores that exchange no jobs.
    pub const NONE: StoreId = StoreId { number: 0 };

    /// Whether both are the same.
    pub fn is(&self, other: &StoreId) -> bool
        ensures { IsTrue result ↔ (self.now ≡ other.now) }
    {
        self.number == other.number
    }
}
