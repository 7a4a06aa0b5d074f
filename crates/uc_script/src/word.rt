//! [`Word`]: the words that lines begin with, and what follows each.

ghost use Rattle.std.specs.Prelude.{◌≡◌, Some};
ghost use Rattle.uc_script.specs.Words as words;
ghost use Rattle.uc_script.specs.Words.{word_text, form_of};

use crate::field_kind::FieldKind;
use crate::part::Part;
use std::fmt;

/// A word that a line may begin with.
#[derive(Clone, Copy, Debug, PartialEq, Eq)]
pub enum Word {
    /// `put KEY VALUE`.
    Put,
    /// `delete KEY`.
    Delete,
    /// `merge KEY OPERAND`.
    Merge,
    /// `range BEGIN END`.
    Range,
    /// `keep SEQUENCE`, before `open` and in front of a log.
    Keep,
    /// `open`.
    Open,
    /// `feed`.
    Feed,
    /// `keep`, after `open`.
    KeepLast,
    /// `release SEQUENCE`.
    Release,
    /// `get KEY SEQUENCE`.
    Get,
    /// `scan LOW HIGH LIMIT SEQUENCE`.
    Scan,
    /// `claim NAME FIRST COUNT`.
    Claim,
    /// `install NAME`.
    Install,
    /// `abandon NAME`.
    Abandon,
    /// `compact FIRST COUNT`.
    Compact,
    /// `pick`.
    Pick,
    /// `report`.
    Report,
    /// `log`.
    Log,
}

impl Word {
    /// All of them.
    const ALL: [Word; 18] = [
        Word::Put,
        Word::Delete,
        Word::Merge,
        Word::Range,
        Word::Keep,
        Word::Open,
        Word::Feed,
        Word::KeepLast,
        Word::Release,
        Word::Get,
        Word::Scan,
        Word::Claim,
        Word::Install,
        Word::Abandon,
        Word::Compact,
        Word::Pick,
        Word::Report,
        Word::Log,
    ];

    /// The word itself.
    fn text(self) -> &'static [u8]
        ensures { result.now ≡ word_text self }
    {
        match self {
            Word::Put => b"put",
            Word::Delete => b"delete",
            Word::Merge => b"merge",
            Word::Range => b"range",
            Word::Keep => b"keep",
            Word::Open => b"open",
            Word::Feed => b"feed",
            Word::KeepLast => b"keep",
            Word::Release => b"release",
            Word::Get => b"get",
            Word::Scan => b"scan",
            Word::Claim => b"claim",
            Word::Install => b"install",
            Word::Abandon => b"abandon",
            Word::Compact => b"compact",
            Word::Pick => b"pick",
            Word::Report => b"report",
            Word::Log => b"log",
        }
    }

    /// The word of this part that a line's first field is.
    #[tactic(auto, unfolding(crate::specs::Words::named))]
    pub fn named(part: Part, field: &[u8]) -> Option<Word>
        ensures { result ≡ words.named part field.now }
    {
        Word::ALL
            .iter()
            .copied()
            .find(|word| word.text() == field && word.stands_in(part))
    }

    /// Whether a line's first field is a word of any part.
    #[tactic(auto, unfolding(crate::specs::Words::is_word))]
    pub fn is_word(field: &[u8]) -> bool
        ensures { result ≡ words.is_word field.now }
    {
        Word::ALL.iter().any(|word| word.text() == field)
    }

    /// Whether a line of this part may begin with the word.
    pub fn stands_in(self, part: Part) -> bool
        ensures { result ≡ words.stands_in self part }
    {
        match self {
            Word::Put | Word::Delete | Word::Merge | Word::Range => part != Part::Head,
            Word::Open => part == Part::Setup,
            Word::Keep => part != Part::Calls,
            Word::Get | Word::Scan => part != Part::Setup,
            Word::Feed
            | Word::KeepLast
            | Word::Release
            | Word::Claim
            | Word::Install
            | Word::Abandon
            | Word::Compact
            | Word::Pick
            | Word::Report => part == Part::Calls,
            Word::Log => part == Part::Head,
        }
    }

    /// The fields that follow it, in order.
    pub fn kinds(self) -> &'static [FieldKind]
        ensures { result.now ≡ words.kinds self }
    {
        match self {
            Word::Put | Word::Merge | Word::Range => &[FieldKind::Text, FieldKind::Text],
            Word::Delete => &[FieldKind::Text],
            Word::Keep => &[FieldKind::Number],
            Word::Release => &[FieldKind::Seq],
            Word::Get => &[FieldKind::Text, FieldKind::Seq],
            Word::Scan => &[
                FieldKind::Text,
                FieldKind::High,
                FieldKind::Number,
                FieldKind::Seq,
            ],
            Word::Claim => &[FieldKind::Name, FieldKind::Number, FieldKind::Number],
            Word::Install | Word::Abandon => &[FieldKind::Name],
            Word::Compact => &[FieldKind::Number, FieldKind::Number],
            Word::Open | Word::Feed | Word::KeepLast | Word::Pick | Word::Report | Word::Log => &[],
        }
    }
}

/// The form of a line that begins with the word.
impl fmt::Display for Word {
    ghost output = { λ word. Some (form_of word) };

    fn fmt<W: fmt::Write>(&self, f: &mut fmt::Formatter<W>) -> fmt::Result {
        f.write_str(match self {
            Word::Put => "put KEY VALUE",
            Word::Delete => "delete KEY",
            Word::Merge => "merge KEY OPERAND",
            Word::Range => "range BEGIN END",
            Word::Keep => "keep SEQUENCE",
            Word::Open => "open",
            Word::Feed => "feed",
            Word::KeepLast => "keep",
            Word::Release => "release SEQUENCE",
            Word::Get => "get KEY SEQUENCE",
            Word::Scan => "scan LOW HIGH LIMIT SEQUENCE",
            Word::Claim => "claim NAME FIRST COUNT",
            Word::Install => "install NAME",
            Word::Abandon => "abandon NAME",
            Word::Compact => "compact FIRST COUNT",
            Word::Pick => "pick",
            Word::Report => "report",
            Word::Log => "log",
        })
    }
}
