//! [`AskNumbers`]: how many threads `ucstore ask` works by, and on what.
use clap::ArgMatches;

/// The numbers of `ucstore ask`: threads that answer and compact, the size of a piece of queries, and the part of the log it opens.
#[derive(Clone, Copy)]
pub struct AskNumbers {
    /// The number of workers that answer.
    pub workers: usize,
    /// The number of queries that a worker takes at a time.
    pub piece: usize,
    /// The number of threads that compact.
    pub compactors: usize,
    /// The number of the log's last writes that come while it answers.
    pub later: u64,
}

/// A number that the words set, or 0: the parser gives each a usual value.
fn count(matches: &ArgMatches<'_>, name: &str) -> usize {
    matches.get_one::<u64>(name).unwrap_or(0) as usize
}

/// The numbers that the words of `ucstore ask` set.
pub fn numbers_of(matches: &ArgMatches<'_>) -> AskNumbers {
    AskNumbers {
        workers: count(matches, "workers"),
        piece: count(matches, "piece"),
        compactors: count(matches, "compactors"),
        later: matches.get_one::<u64>("later").unwrap_or(0),
    }
}
