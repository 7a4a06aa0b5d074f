//! [`Talk`]: the list of calls, and the answers to them.
use crate::input::Input;
use crate::marks;
use crate::out::{Halt, Out};
use std::alloc::{AllocError, Global};
use std::io::{self, Write};
use std::time::Clock;

/// Largest number of requests for memory that are refused in one call.
const MOST: usize = 100_000;

/// The way in which the current call is made.
#[derive(Clone, Copy)]
enum Way {
    Once,
    /// Marked: the request for memory with this number is refused.
    Marked(usize),
    /// Looks at the state after the marked call in which this request was refused. The call must not have changed it.
    Looks(usize),
    /// Clocked: made this number of times.
    Clocked(u64),
}

/// Returns the status of a call: 0 if it was made, 1 if allocation failed, 2 if it was refused.
fn status_of(answer: &Out, call: Input<'_>) -> u64 {
    match answer.halt() {
        Some(Halt::Memory) => 1,
        Some(Halt::Refused) => 2,
        None => u64::from(call.is_short()) * 2,
    }
}

/// Prints a status, and an answer after its length and before a line feed.
fn print(rt: &impl Print, head: &mut Out, status: u64, answer: &[u8]) -> io::Result<()> {
    head.clear();
    head.number(status);
    head.place(answer.len());
    let mut writer = io::writer(rt);
    writer.write_all(head.as_slice())?;
    writer.write_all(answer)?;
    writer.write_all(b"\n")
}

/// The remaining calls, and the answer to the current one.
///
/// A call is bytes that begin with the number of its way:
///
/// - 0: made once.
/// - 1: made once. It looks at the state.
/// - 2: marked. It begins with a number, and the request for memory with that number is refused. If allocation fails then, the last call
///   that looks is made again, if there is one. Then the marked call is made with the next number, until it has an answer.
/// - 3: clocked. It begins with a number, and is made that number of times. After its last answer, the nanoseconds of all these calls
///   together are printed as another answer.
pub(crate) struct Talk<'a> {
    calls: Input<'a>,
    look: Option<Input<'a>>,
    /// The last marked or clocked call.
    again: Input<'a>,
    way: Way,
    was_refused: bool,
    head: Out,
    answer: Out,
}

impl<'a> Drop for Talk<'a> {
    fn drop(self) {
        let Talk {
            calls: _,
            look: _,
            again: _,
            way: _,
            was_refused: _,
            head: _,
            answer: _,
        } = self;
    }
}

impl<'a> Talk<'a> {
    /// Returns the list of all calls.
    pub(crate) fn new(alloc: Global, calls: Input<'a>) -> Result<Talk<'a>, AllocError> {
        Ok(Talk {
            calls,
            look: None,
            again: Input::new(&[]),
            way: Way::Once,
            was_refused: false,
            head: Out::new(alloc)?,
            answer: Out::new(alloc)?,
        })
    }

    /// Returns the next call of the list.
    fn read(&mut self) -> Option<Input<'a>> {
        if self.calls.is_empty() {
            return None;
        }
        let mut call = Input::new(self.calls.bytes());
        self.way = Way::Once;
        match call.number() {
            1 => self.look = Some(call),
            2 => {
                self.way = Way::Marked(call.place());
                self.again = call;
            }
            3 => {
                self.way = Way::Clocked(call.number());
                self.again = call;
            }
            _ => {}
        }
        Some(call)
    }

    /// Returns the marked call, in which the request after this one will be refused.
    fn mark(&mut self, request: usize) -> Input<'a> {
        self.way = Way::Marked(request.saturating_add(1));
        self.again
    }

    /// Returns the last call that looks, or else the marked call.
    fn look_or_mark(&mut self, request: usize) -> Input<'a> {
        match self.look {
            Some(look) => {
                self.way = Way::Looks(request);
                look
            }
            None => self.mark(request),
        }
    }

    /// Returns the next call to make, or `None` after the last.
    pub(crate) fn next(&mut self, clock: &impl Clock, alloc: Global) -> Option<Input<'a>> {
        let call = match self.way {
            Way::Marked(request) if self.was_refused && request < MOST => self.look_or_mark(
                request,
            ),
            Way::Looks(request) => self.mark(request),
            Way::Clocked(times) if 1 < times => {
                self.way = Way::Clocked(times - 1);
                self.again
            }
            _ => self.read()?,
        };
        self.answer.clear();
        match self.way {
            Way::Marked(request) => marks::begin(alloc, request),
            Way::Clocked(_) => self.answer.watch.start(clock),
            Way::Once | Way::Looks(_) => {}
        }
        Some(call)
    }

    /// Returns the answer to the current call.
    pub(crate) fn answer(&mut self) -> &mut Out {
        &mut self.answer
    }

    /// Prints the time of the clocked call: the nanoseconds of all its repetitions.
    fn print_time(&mut self, rt: &impl Print) -> io::Result<()> {
        let nanoseconds = self.answer.watch.take();
        self.answer.clear();
        self.answer.number(nanoseconds);
        print(rt, &mut self.head, 0, self.answer.as_slice())
    }

    /// Prints the status of a call and its answer. Prints nothing for a clocked call that will be repeated.
    pub(crate) fn end(
        &mut self,
        rt: &(impl Clock + Print),
        alloc: Global,
        call: Input<'_>,
    ) -> io::Result<()> {
        match self.way {
            Way::Marked(_) => marks::end(alloc),
            Way::Clocked(times) => {
                self.answer.watch.stop(rt);
                if 1 < times {
                    return Ok(());
                }
            }
            Way::Once | Way::Looks(_) => {}
        }
        let status = status_of(&self.answer, call);
        self.was_refused = status == 1;
        if status != 0 {
            self.answer.clear();
        }
        print(rt, &mut self.head, status, self.answer.as_slice())?;
        match self.way {
            Way::Clocked(_) => self.print_time(rt),
            _ => Ok(()),
        }
    }
}
