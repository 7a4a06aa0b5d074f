//! The tags of records, and what follows them.
ghost use Rattle.std.specs.Prelude.{◌≡◌};
ghost use Rattle.uc_batch.specs.Tag as tag;

/// The tag of a record (RocksDB, `dbformat.h`, `ValueType`: there each name begins with `kType`).
#[derive(Clone, Copy, PartialEq, Eq)]
pub(crate) enum Tag {
    Deletion = 0x00,
    Value = 0x01,
    Merge = 0x02,
    LogData = 0x03,
    ColumnFamilyDeletion = 0x04,
    ColumnFamilyValue = 0x05,
    ColumnFamilyMerge = 0x06,
    SingleDeletion = 0x07,
    ColumnFamilySingleDeletion = 0x08,
    Noop = 0x0D,
    ColumnFamilyRangeDeletion = 0x0E,
    RangeDeletion = 0x0F,
}

/// The layout after a record's tag, apart from a column family's number.
#[derive(Clone, Copy, PartialEq, Eq)]
pub(crate) enum Form {
    /// A key to delete.
    Deletion,
    /// A key and its value.
    Value,
    /// A key and an operand.
    Merge,
    /// Bytes for the log alone, which aren't counted.
    LogData,
    /// Nothing, which isn't counted.
    Noop,
    /// The begin and the end of a range to delete.
    RangeDeletion,
}

/// A tag's form, and whether the number of a column family comes before it.
#[derive(Clone, Copy, PartialEq, Eq)]
pub(crate) struct Layout {
    pub(crate) form: Form,
    pub(crate) has_family: bool,
}

impl Tag {
    /// The byte in the batch.
    pub(crate) fn byte(self) -> u8
        ensures { result ≡ tag.byte_of self }
    {
        self as u8
    }

    /// The tag of this byte, if a record may begin with it.
    pub(crate) fn of_byte(byte: u8) -> Option<Tag>
        ensures { result ≡ tag.tag_of byte }
    {
        Some(match byte {
            0x00 => Tag::Deletion,
            0x01 => Tag::Value,
            0x02 => Tag::Merge,
            0x03 => Tag::LogData,
            0x04 => Tag::ColumnFamilyDeletion,
            0x05 => Tag::ColumnFamilyValue,
            0x06 => Tag::ColumnFamilyMerge,
            0x07 => Tag::SingleDeletion,
            0x08 => Tag::ColumnFamilySingleDeletion,
            0x0D => Tag::Noop,
            0x0E => Tag::ColumnFamilyRangeDeletion,
            0x0F => Tag::RangeDeletion,
            _ => return None,
        })
    }

    /// The layout that the tag announces. A single deletion is read as a deletion.
    pub(crate) fn layout(self) -> Layout
        ensures { result ≡ tag.layout_of self }
    {
        let (form, has_family) = match self {
            Tag::Deletion | Tag::SingleDeletion => (Form::Deletion, false),
            Tag::Value => (Form::Value, false),
            Tag::Merge => (Form::Merge, false),
            Tag::LogData => (Form::LogData, false),
            Tag::ColumnFamilyDeletion | Tag::ColumnFamilySingleDeletion => (Form::Deletion, true),
            Tag::ColumnFamilyValue => (Form::Value, true),
            Tag::ColumnFamilyMerge => (Form::Merge, true),
            Tag::Noop => (Form::Noop, false),
            Tag::ColumnFamilyRangeDeletion => (Form::RangeDeletion, true),
            Tag::RangeDeletion => (Form::RangeDeletion, false),
        };
        Layout { form, has_family }
    }
}
