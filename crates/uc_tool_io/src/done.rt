//! [`Done`]: how a run of the program ended.

/// The end of a run of the program.
#[derive(Clone, Copy, Debug, PartialEq, Eq)]
pub enum Done {
    /// All was asked and answered.
    Fine,
    /// The script has a fault, or the opening failed.
    Refused,
    /// The log was rejected.
    BadLog,
    /// Memory ran out.
    NoMemory,
    /// The reader or the writer failed, or the input is longer than the program reads.
    Device,
}

impl Done {
    ghost use Rattle.std.specs.Prelude.{◌≡◌};
    ghost use Rattle.uc_tool_io.specs.Status.{status_of};

    /// The exit status of a program that ended so.
    pub fn status(self) -> u8
        ensures { result ≡ status_of self }
    {
        match self {
            Done::Fine => 0,
            Done::Refused => 2,
            Done::BadLog => 3,
            Done::NoMemory => 4,
            Done::Device => 5,
        }
    }
}
