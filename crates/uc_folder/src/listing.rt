//! [`found_in`]: the files of a directory that an opening reads.

ghost use Rattle.std.specs.Prelude.{◌≡◌};
ghost use Rattle.uc_folder.specs.Listing as listing;

/// Number of the first log.
const FIRST: u64 = 1;

/// A base in a directory's listing.
#[repr(C)]
#[derive(Debug, Clone, Copy, PartialEq, Eq)]
pub struct Base {
    /// Number of the base.
    pub number: u64,
    /// Number of batches of the log with the same number that the base contains.
    pub past: u64,
}

/// A log in a directory's listing.
#[repr(C)]
#[derive(Debug, Clone, Copy, PartialEq, Eq)]
pub struct Listed {
    /// Number of the log.
    pub number: u64,
    /// True if the log begins with a whole batch.
    pub is_used: bool,
}

/// The files that an opening reads: the newest base, and each log from its number to that of the current log.
#[repr(C)]
#[derive(Debug, Clone, Copy, PartialEq, Eq)]
pub struct Found {
    /// Number of the newest base, or of the first log if there is none.
    pub base: u64,
    /// Number of batches of the log `base` that the base contains.
    pub past: u64,
    /// The least number of a log or base. Logs and bases from this number to below `base` are removed.
    pub least: u64,
    /// Number of the current log: the last one that has a batch, and at least `base`.
    pub log: u64,
    /// The greatest number of a log. Logs after the current one are removed.
    pub top: u64,
    /// True if the current log exists. It can be missing only if the directory has neither a base nor a batch.
    pub is_there: bool,
}

/// Number of a log between the newest base and the last log that isn't listed. The opening fails.
#[derive(Debug, Clone, Copy, PartialEq, Eq)]
pub struct Missing(pub u64);

/// Returns the files that an opening reads of a directory with these bases and logs, in any order. Fast if the logs are ordered by number:
/// then each is examined once.
///
/// Fails with the number of the first missing log.
pub fn found_in(bases: &[Base], logs: &[Listed]) -> Result<Found, Missing>
    ensures { listing.IsFoundIn bases.now logs.now result }
{
    let base = base_in(bases);
    let log = log_in(base, logs);
    let is_there = is_listed(log, logs);
    if let Some(number) = missing_in(base, log, logs) {
        return Err(Missing(number));
    }
    if FIRST < log && !is_there {
        return Err(Missing(log));
    }
    Ok(Found {
        base,
        past: past_in(base, bases),
        least: least_in(base, bases, logs),
        log,
        top: top_in(log, logs),
        is_there,
    })
}

/// Returns the first number from `from` to below `to` that no log has.
fn missing_in(from: u64, to: u64, logs: &[Listed]) -> Option<u64>
    ensures { listing.IsMissingIn from to logs.now result }
{
    let mut place = count_below(from, logs);
    for number in from..to {
        if !is_found(number, place, logs) {
            return Some(number);
        }
        place = place.saturating_add(1);
    }
    None
}

/// Returns the number of logs below `number`, which is the log's index if the logs are ordered.
fn count_below(number: u64, logs: &[Listed]) -> usize {
    logs.iter().filter(|log| log.number < number).count()
}

/// Returns true if the log with this number is listed. Tries index `place` first.
fn is_found(number: u64, place: usize, logs: &[Listed]) -> bool
    ensures { result ≡ listing.is_listed number logs.now }
{
    match logs.get(place) {
        Some(log) if log.number == number => true,
        _ => is_listed(number, logs),
    }
}

/// Returns the number of the newest base, or of the first log if there is none.
fn base_in(bases: &[Base]) -> u64
    ensures { result ≡ listing.base_in bases.now }
{
    bases.iter().fold(FIRST, |most, base| most.max(base.number))
}

/// Returns the number of batches of the log `number` that a base of that number contains: the greatest, if there are several such bases.
fn past_in(number: u64, bases: &[Base]) -> u64
    ensures { result ≡ listing.past_in number bases.now }
{
    bases.iter().fold(0, |most, base| {
        if base.number == number {
            most.max(base.past)
        } else {
            most
        }
    })
}

/// Returns the number of the last log that has a batch, at least `base`.
fn log_in(base: u64, logs: &[Listed]) -> u64
    ensures { result ≡ listing.log_in base logs.now }
{
    logs.iter().fold(base, |most, log| {
        if log.is_used {
            most.max(log.number)
        } else {
            most
        }
    })
}

/// Returns true if the log with this number is listed.
fn is_listed(number: u64, logs: &[Listed]) -> bool
    ensures { result ≡ listing.is_listed number logs.now }
{
    logs.iter().any(|log| log.number == number)
}

/// Returns the greatest number of a log, at least `log`.
fn top_in(log: u64, logs: &[Listed]) -> u64
    ensures { result ≡ listing.top_in log logs.now }
{
    logs.iter().fold(log, |most, log| most.max(log.number))
}

/// Returns the least number of a base or log, at most `base`.
fn least_in(base: u64, bases: &[Base], logs: &[Listed]) -> u64
    ensures { result ≡ listing.least_in base bases.now logs.now }
{
    let least = bases
        .iter()
        .fold(base, |least, base| least.min(base.number));
    logs.iter().fold(least, |least, log| least.min(log.number))
}
