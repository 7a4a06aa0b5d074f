//! [`OperatorName`]: which operator merges, as the command line names it.

ghost use Rattle.std.specs.Prelude.{◌≡◌, map};
ghost use Rattle.uc_tool_io.specs.OperatorName as names;
ghost use Rattle.uc_tool_io.specs.OperatorName.{operators, word_of};

/// The number of operators that the command line can name.
pub const OPERATORS: usize = 4;

/// A merge operator that the command line can name.
///
/// The parser and the program both use these names: a name that isn't in `ALL` is rejected, and a match over the names is one over
/// all of them.
#[derive(Clone, Copy, Debug, PartialEq, Eq)]
pub enum OperatorName {
    /// `counter`: sums of 64-bit numbers.
    Counter,
    /// `append`: byte strings joined by commas.
    Append,
    /// `maximum`: the greater byte string.
    Maximum,
    /// `tail`: the last bytes of all operands.
    Tail,
}

impl OperatorName {
    /// All of them.
    const ALL: [OperatorName; OPERATORS] = [
        OperatorName::Counter,
        OperatorName::Append,
        OperatorName::Maximum,
        OperatorName::Tail,
    ];

    /// The word for it.
    fn word(self) -> &'static str
        ensures { result.now ≡ word_of self }
    {
        match self {
            OperatorName::Counter => "counter",
            OperatorName::Append => "append",
            OperatorName::Maximum => "maximum",
            OperatorName::Tail => "tail",
        }
    }

    /// The words for all of them.
    pub fn words() -> [&'static str; OPERATORS]
        ensures { map (λ word. word.now) result ≡ map word_of operators }
    {
        OperatorName::ALL.map(OperatorName::word)
    }

    /// The operator that a word names.
    pub fn named(word: &str) -> Option<OperatorName>
        ensures { result ≡ names.named word.now }
    {
        OperatorName::ALL
            .iter()
            .copied()
            .find(|name| name.word() == word)
    }
}
