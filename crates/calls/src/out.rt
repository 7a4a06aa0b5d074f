//! [`Out`]: the answer to a call, as numbers and bytes.
use crate::watch::Watch;
use itoa::Buffer;
use std::alloc::{AllocError, Global};
use std::fmt::{Debug, Display};
use uc_oper::Effect;

/// Bytes reserved, so that most answers allocate nothing.
const RESERVED: usize = 1 << 16;

/// Reason why a call has no answer.
#[derive(Clone, Copy)]
pub(crate) enum Halt {
    /// Allocation failed.
    Memory,
    /// The call is malformed, or isn't allowed now.
    Refused,
}

impl From<AllocError> for Halt {
    fn from(_: AllocError) -> Halt {
        Halt::Memory
    }
}

/// An answer, in the encoding of an `Input`. Records the reason why there is no answer, so that steps of a call need no error handling.
#[derive(Drop)]
pub(crate) struct Out {
    bytes: Vec<u8>,
    halt: Option<Halt>,
    /// Time of the call, if it is clocked.
    pub(crate) watch: Watch,
}

impl Out {
    /// Returns an empty answer.
    pub(crate) fn new(alloc: Global) -> Result<Out, AllocError> {
        Ok(Out {
            bytes: Vec::with_capacity(alloc, RESERVED)?,
            halt: None,
            watch: Watch::new(),
        })
    }

    /// Empties the answer.
    pub(crate) fn clear(&mut self) {
        self.bytes.clear();
        self.halt = None;
    }

    /// Returns the bytes of the answer.
    pub(crate) fn as_slice(&self) -> &[u8] {
        self.bytes.as_slice()
    }

    /// Returns the reason why there is no answer, if there is one.
    pub(crate) fn halt(&self) -> Option<Halt> {
        self.halt
    }

    /// Records the reason why there is no answer, unless one was recorded before.
    pub(crate) fn stop(&mut self, halt: Halt) {
        if self.halt.is_none() {
            self.halt = Some(halt);
        }
    }

    /// Records that allocation failed.
    pub(crate) fn want(&mut self) {
        self.stop(Halt::Memory);
    }

    /// Records that the call is malformed or not allowed now.
    pub(crate) fn refuse(&mut self) {
        self.stop(Halt::Refused);
    }

    /// Records the reason why a step failed, if it did.
    pub(crate) fn end(&mut self, came: Result<(), Halt>) {
        if let Err(halt) = came {
            self.stop(halt);
        }
    }

    /// Writes bytes without their length.
    fn push(&mut self, bytes: &[u8]) {
        if self.halt.is_none() && self.bytes.extend_from_slice(bytes).is_err() {
            self.want();
        }
    }

    /// Writes a number.
    pub(crate) fn number(&mut self, number: u64) {
        let mut buffer = Buffer::new();
        self.push(buffer.format(number).as_bytes());
        self.push(b" ");
    }

    /// Writes an index or a length.
    pub(crate) fn place(&mut self, place: usize) {
        self.number(place as u64);
    }

    /// Writes a flag.
    pub(crate) fn flag(&mut self, flag: bool) {
        self.number(u64::from(flag));
    }

    /// Writes a byte string after its length.
    pub(crate) fn bytes(&mut self, bytes: &[u8]) {
        self.place(bytes.len());
        self.push(bytes);
        self.push(b" ");
    }

    /// Records that allocation failed in a step, if it did.
    pub(crate) fn done(&mut self, done: Result<(), AllocError>) {
        if done.is_err() {
            self.want();
        }
    }

    /// Writes a byte string, or records that allocation failed.
    pub(crate) fn made(&mut self, made: Result<Vec<u8>, AllocError>) {
        match made {
            Ok(bytes) => self.bytes(&bytes),
            Err(_) => self.want(),
        }
    }

    /// Writes the library's error message.
    pub(crate) fn text<E: Display>(&mut self, alloc: Global, error: &E) {
        match format!(in alloc; "{error}") {
            Ok(text) => self.bytes(text.as_bytes()),
            Err(_) => self.want(),
        }
    }

    /// Writes the library's name of a value.
    pub(crate) fn name<E: Debug>(&mut self, alloc: Global, error: &E) {
        match format!(in alloc; "{error:?}") {
            Ok(name) => self.bytes(name.as_bytes()),
            Err(_) => self.want(),
        }
    }

    /// Writes an optional byte string.
    pub(crate) fn some_bytes(&mut self, bytes: Option<&[u8]>) {
        self.flag(bytes.is_some());
        if let Some(bytes) = bytes {
            self.bytes(bytes);
        }
    }

    /// Writes the number of numbers, and the numbers.
    pub(crate) fn numbers(&mut self, numbers: &[u64]) {
        self.place(numbers.len());
        for number in numbers {
            self.number(*number);
        }
    }

    /// Writes numbers, or records that allocation failed.
    pub(crate) fn made_numbers(&mut self, made: Result<Vec<u64>, AllocError>) {
        match made {
            Ok(numbers) => self.numbers(&numbers),
            Err(_) => self.want(),
        }
    }

    /// Writes an effect, or records that allocation failed.
    pub(crate) fn made_effect(&mut self, made: Result<Effect, AllocError>) {
        match made {
            Ok(effect) => self.effect(&effect),
            Err(_) => self.want(),
        }
    }

    /// Writes an effect: 0 keeps the value, 1 clears it, 2 sets it, and 3 merges an operand.
    pub(crate) fn effect(&mut self, effect: &Effect) {
        match effect {
            Effect::Keep => self.number(0),
            Effect::Set(None) => self.number(1),
            Effect::Set(Some(value)) => {
                self.number(2);
                self.bytes(value.as_slice());
            }
            Effect::Fold(operand) => {
                self.number(3);
                self.bytes(operand.as_slice());
            }
        }
    }
}
