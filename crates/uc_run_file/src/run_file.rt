//! [`RunFile`]: the file of a run that is read piece by piece.
ghost use Rattle.std.specs.Prelude.{◌≡◌, ◌++◌, [], None, IfOk, IfErr, OnOk, IsSomeAnd, length, option_map};
ghost use Rattle.uc_run_file.specs.Files.{IsRefusal, file_text};

use crate::reading::read_run;
use crate::run_fault::RunFileError;
use std::alloc::{AllocError, Global};
use std::marker::Model;
use std::mem::replace;
use uc_run::Run;

/// The file of a run that is read: its bytes as they come, piece by piece, and once they are judged the run. A contract sees both.
pub struct RunFile {
    bytes: Vec<u8>,
    run: Option<Run>,
}

impl Model for RunFile {
    ghost use Rattle.uc_run_file.specs.HeldRunFiles.{ReadFile, read_file};

    ghost Value = { ReadFile };

    ghost view = { read_file };
}

// A destructor of its own: where a value is dropped, the proof of a caller has one call, and not one for each field.
impl Drop for RunFile {
    fn drop(self) {
        let RunFile { bytes: _, run: _ } = self;
    }
}

impl RunFile {
    /// A file of no bytes, with memory for some.
    pub fn with_capacity(alloc: Global, size: usize) -> Result<RunFile, AllocError>
        ensures { IfOk result (λ file. (file.bytes ≡ []) × (file.run ≡ None)) }
    {
        let bytes = Vec::with_capacity(alloc, size)?;
        Ok(RunFile { bytes, run: None })
    }

    /// The run, if it was read.
    pub fn run(&self) -> Option<&Run>
        ensures { option_map (λ run. run.now) result ≡ self.now.run }
    {
        self.run.as_ref()
    }

    /// The number of bytes that came and aren't read yet.
    pub fn len(&self) -> usize
        ensures { result ≡ length self.now.bytes }
    {
        self.bytes.len()
    }

    /// Appends a piece of the file. An `Err` changes nothing.
    pub fn append(&mut self, piece: &[u8]) -> Result<(), AllocError>
        ensures ok { OnOk result (self.new.bytes ≡ self.old.bytes ++ piece.now) }
        ensures err { IfErr result (λ _. self.new.bytes ≡ self.old.bytes) }
        ensures run { self.new.run ≡ self.old.run }
    {
        self.bytes.extend_from_slice(piece)
    }

    /// Reads the run of its bytes, as [`read_run`] does: they become the run's points, of which none is copied. After an `Err` they are
    /// gone.
    pub fn read(&mut self, alloc: Global) -> Result<(), RunFileError>
        ensures run { OnOk result (IsSomeAnd self.new.run (λ run. self.old.bytes ≡ file_text run)) }
        ensures fault { IfErr result (IsRefusal self.old.bytes) }
        ensures kept { IfErr result (λ _. self.new.run ≡ self.old.run) }
        ensures bytes { self.new.bytes ≡ [] }
    {
        let bytes = replace(&mut self.bytes, Vec::new(alloc));
        let run = read_run(alloc, bytes)?;
        self.run = Some(run);
        Ok(())
    }

    /// Takes the run out, if it was read.
    pub fn take_run(&mut self) -> Option<Run>
        ensures run { result ≡ self.old.run }
        ensures left { self.new.run ≡ None }
        ensures bytes { self.new.bytes ≡ self.old.bytes }
    {
        replace(&mut self.run, None)
    }
}
