//! [`Out`]: a line of numbers.
use itoa::Buffer;
use std::alloc::Global;
use std::io::{self, ErrorKind, Write};

/// A line of numbers. After a failed allocation it takes no more numbers, and isn't printed.
#[derive(Drop)]
pub(crate) struct Out {
    bytes: Vec<u8>,
    is_short: bool,
}

impl Out {
    /// Returns an empty line.
    pub(crate) fn new(alloc: Global) -> Out {
        Out {
            bytes: Vec::new(alloc),
            is_short: false,
        }
    }

    /// Writes bytes.
    fn push(&mut self, bytes: &[u8]) {
        if !self.is_short && self.bytes.extend_from_slice(bytes).is_err() {
            self.is_short = true;
        }
    }

    /// Writes a number.
    pub(crate) fn number(&mut self, number: u64) {
        let mut buffer = Buffer::new();
        self.push(buffer.format(number).as_bytes());
        self.push(b" ");
    }

    /// Writes the number of numbers, and the numbers.
    pub(crate) fn numbers(&mut self, numbers: &[u64]) {
        self.number(numbers.len() as u64);
        for number in numbers {
            self.number(*number);
        }
    }

    /// Ends the line and prints it.
    pub(crate) fn print(&mut self, rt: &impl Print) -> io::Result<()> {
        self.push(b"\n");
        if self.is_short {
            return Err(io::Error::from(ErrorKind::OutOfMemory));
        }
        let printed = io::writer(rt).write_all(self.bytes.as_slice());
        self.bytes.clear();
        printed
    }
}
