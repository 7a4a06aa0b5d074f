//! [`Work`]: what a thread does while others flush.

/// The work of the calling thread while others flush. `join` proves of a closure's result only what doesn't borrow, so the closure
/// holds a value of a type parameter.
pub trait Work {
    /// The result.
    type Output;

    /// The condition before it is done.
    ghost can_be_done: { Self → Type 0 };

    /// The condition of the result.
    ghost gives: { Self → Self.Output → Type 0 };

    /// Does the work.
    fn run(self) -> Self::Output
        requires { can_be_done self }
        ensures { gives self result };
}
