//! The types of records.
ghost use Rattle.std.specs.Prelude.{◌≡◌};
ghost use Rattle.uc_logrec.specs.Format.{code_of, kind_of};

/// The part of a payload that a record holds. The numbers are the types in the log.
#[derive(Clone, Copy, PartialEq, Eq)]
pub(crate) enum Kind {
    /// All of it.
    Full = 1,
    /// The first fragment of several.
    First = 2,
    /// A fragment between the first and the last.
    Middle = 3,
    /// The last fragment.
    Last = 4,
}

impl Kind {
    /// The type in the log.
    pub(crate) fn code(self) -> u8
        ensures { result ≡ code_of self }
    {
        self as u8
    }

    /// The kind with this type, if there is one.
    pub(crate) fn of_code(code: u8) -> Option<Kind>
        ensures { result ≡ kind_of code }
    {
        match code {
            1 => Some(Kind::Full),
            2 => Some(Kind::First),
            3 => Some(Kind::Middle),
            4 => Some(Kind::Last),
            _ => None,
        }
    }
}
