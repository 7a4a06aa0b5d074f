//! [`Plan`]: how many threads answer and compact, and how the queries are cut.
ghost use Rattle.std.specs.Prelude.{◌≡◌, ◌↔◌, IsTrue};
ghost use Rattle.uc_tool_ask.specs.Plans.{IsPlan};

use uc_query_shared::MOST_WORKERS;

/// The most compactors that run with a batch.
pub const MOST_COMPACTORS: usize = 16;

/// Whether queries can be answered by these numbers of workers, of queries in a piece, and of compactors: there are 1 to 64
/// workers, a piece has one query or more, and there are up to [`MOST_COMPACTORS`].
pub fn is_plan(workers: usize, piece: usize, compactors: usize) -> bool
    ensures { IsTrue result ↔ IsPlan workers piece compactors }
{
    0 < workers && workers <= MOST_WORKERS && 0 < piece && compactors <= MOST_COMPACTORS
}

/// The numbers of threads that answer and compact, and the size of a piece of queries.
#[derive(Clone, Copy, Drop)]
pub(crate) struct Plan {
    pub(crate) workers: usize,
    pub(crate) piece: usize,
    pub(crate) compactors: usize,
    ghost is_plan: { IsPlan workers piece compactors },
}
