//! [`Told`]: an actor's record of its work and times.
use crate::out::Out;
use crate::plan::Plan;
use std::alloc::Global;
use uc_query_read::Answer;
use uc_query_shared::AskError;

/// An actor's record. All times are in nanoseconds.
pub(crate) struct Told {
    /// True if no call was refused.
    pub(crate) is_fine: bool,
    /// Time from the actor's beginning to its end.
    pub(crate) whole: u64,
    /// Sum of the timed parts.
    pub(crate) part: u64,
    /// Number of answers, pins, installs or stalls.
    pub(crate) count: u64,
    /// Checksum of the answers.
    pub(crate) checksum: u64,
    /// Numbers of runs and points after a batch.
    pub(crate) totals: (u64, u64),
    /// Times of single pins, lookups, keeps or installs.
    pub(crate) times: Vec<u64>,
    /// Times of installed compactions.
    pub(crate) compactions: Vec<u64>,
}

// A destructor of its own: where a value is dropped, the proof of a caller has one call, and not one for each field.
impl Drop for Told {
    fn drop(self) {
        let Told {
            is_fine: _,
            whole: _,
            part: _,
            count: _,
            checksum: _,
            totals: _,
            times: _,
            compactions: _,
        } = self;
    }
}

/// Returns a checksum, extended by bytes.
fn with_bytes(checksum: u64, bytes: &[u8]) -> u64 {
    let mut sum = checksum;
    for byte in bytes {
        sum = sum.wrapping_mul(31).wrapping_add(u64::from(*byte));
    }
    sum
}

/// Returns a checksum, extended by an answer: its bytes, and the number of its kind.
fn with_answer(checksum: u64, answer: &Answer) -> u64 {
    let (sum, kind) = match answer {
        Answer::Value(None) => (checksum, 0),
        Answer::Value(Some(value)) => (with_bytes(checksum, value.as_slice()), 1),
        Answer::Rows(rows) => {
            let mut sum = checksum;
            for (key, value) in rows.iter() {
                sum = with_bytes(with_bytes(sum, key), value);
            }
            (sum, 2)
        }
        Answer::NotProtected(_) => (checksum, 3),
    };
    sum.wrapping_mul(31).wrapping_add(kind)
}

impl Told {
    /// Returns an empty record.
    pub(crate) fn new(alloc: Global) -> Told {
        Told {
            is_fine: true,
            whole: 0,
            part: 0,
            count: 0,
            checksum: 0,
            totals: (0, 0),
            times: Vec::new(alloc),
            compactions: Vec::new(alloc),
        }
    }

    /// Counts an answer. The record isn't fine if the answer's sequence number isn't protected.
    fn tell(&mut self, answer: &Answer) {
        if let Answer::NotProtected(_) = answer {
            self.is_fine = false;
        }
        self.count = self.count.saturating_add(1);
        self.checksum = with_answer(self.checksum, answer);
    }

    /// Counts the answers of a batch.
    pub(crate) fn tell_all(&mut self, answers: &Result<Vec<Answer>, AskError>) {
        match answers {
            Err(_) => self.is_fine = false,
            Ok(answers) => {
                for answer in answers {
                    self.tell(answer);
                }
            }
        }
    }

    /// Counts a lookup's answer and its time, if there are any. Returns true, since the actor continues.
    pub(crate) fn tell_one(&mut self, answer: &Option<Answer>, time: Option<u64>) -> Option<bool> {
        if let Some(answer) = answer {
            self.tell(answer);
            if let Some(time) = time {
                self.times.push(time).ok()?;
            }
        }
        Some(true)
    }

    /// Writes all numbers. The number of times precedes the times.
    fn write(&self, out: &mut Out) {
        out.number(self.whole);
        out.number(self.part);
        out.number(self.count);
        out.number(self.checksum);
        out.number(self.totals.0);
        out.number(self.totals.1);
        out.numbers(self.times.as_slice());
        out.numbers(self.compactions.as_slice());
    }
}

/// Returns true if no call of any actor was refused.
fn are_fine(told: &[Told]) -> bool {
    for one in told {
        if !one.is_fine {
            return false;
        }
    }
    true
}

/// Returns the number of installs by the first actors.
fn installs_in(told: &[Told], actors: usize) -> u64 {
    let mut installs = 0_u64;
    for one in told.iter().take(actors) {
        installs = installs.saturating_add(one.count);
    }
    installs
}

/// Writes the checksum of a record, if there is one.
fn write_checksum(out: &mut Out, told: Option<&Told>) {
    if let Some(told) = told {
        out.number(told.checksum);
    }
}

/// Writes the results that are the same in each run: 1 if a compaction was installed, else 0; the checksum of the answers made meanwhile,
/// unless there are feeders; and the checksum of the last answers.
fn write_few(out: &mut Out, plan: Plan, told: &[Told]) {
    let changers = plan.changers();
    out.number(u64::from(installs_in(told, changers) > 0));
    if plan.feeders == 0 {
        write_checksum(out, told.get(changers));
    }
    write_checksum(out, told.last());
}

/// Writes the records. Returns `None` if a call was refused.
pub(crate) fn write_all(out: &mut Out, plan: Plan, told: &[Told]) -> Option<()> {
    if !are_fine(told) {
        return None;
    }
    if plan.is_few {
        write_few(out, plan, told);
        return Some(());
    }
    for one in told {
        one.write(out);
    }
    Some(())
}
