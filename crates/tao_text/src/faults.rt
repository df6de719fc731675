//! Why a text could not be read.

use std::error::Error;
use std::fmt;
use tao_base::NoMemory;

/// What is wrong with a line. If several kinds apply, the one with the smallest number is reported.
#[derive(Clone, Copy, Debug, PartialEq, Eq)]
pub enum TextKind {
    /// A byte is neither printable ASCII nor a space.
    NotText = 1,
    /// The first word or the operation is unknown, or there are too few or too many words.
    Word = 2,
    /// A number isn't decimal, has a leading zero, or is too large.
    Number = 3,
    /// A value is not an even number of hexadecimal digits.
    Hex = 4,
    /// A value isn't as long as a block, or a key isn't 32 bytes long.
    Length = 5,
    /// A number is out of its range, or the parameters are past a limit.
    Range = 6,
    /// The line isn't allowed at this place, or not in this kind of text.
    Order = 7,
    /// The tape has too few words.
    TapeShort = 8,
    /// The text has more than 2^24 bytes.
    TooLong = 9,
    /// Memory ran out.
    Memory = 10,
}

impl TextKind {
    ghost use Rattle.std.specs.Prelude.{◌≡◌};
    ghost use Rattle.tao_text.specs.Kinds.{kind_name};

    /// The fault's name in a transcript.
    pub fn name(self) -> &'static str
        ensures { result.now ≡ kind_name self }
    {
        match self {
            TextKind::NotText => "NotText",
            TextKind::Word => "Word",
            TextKind::Number => "Number",
            TextKind::Hex => "Hex",
            TextKind::Length => "Length",
            TextKind::Range => "Range",
            TextKind::Order => "Order",
            TextKind::TapeShort => "TapeShort",
            TextKind::TooLong => "TooLong",
            TextKind::Memory => "Memory",
        }
    }
}

impl fmt::Display for TextKind {
    ghost use Rattle.std.specs.Prelude.{Some};
    ghost use Rattle.tao_text.specs.Kinds.{kind_name};

    ghost output = { λ kind. Some (kind_name kind) };

    fn fmt<W: fmt::Write>(&self, f: &mut fmt::Formatter<W>) -> fmt::Result {
        write!(f, "{}", self.name())
    }
}

impl Error for TextKind {}

impl From<NoMemory> for TextKind {
    ghost use Rattle.std.specs.Prelude.{◌≡◌};
    ghost use Rattle.tao_text.specs.declared.faults.TextKind.TheVariants.{Memory};

    ghost from_gives = { λ _ kind. kind ≡ Memory };

    fn from(_: NoMemory) -> TextKind {
        TextKind::Memory
    }
}

/// The first fault of a text: its line, counted from 1, and its kind. Line 0 stands for the whole text.
#[derive(Clone, Copy, Debug, PartialEq, Eq)]
pub struct TextFault {
    pub line: u32,
    pub kind: TextKind,
}

impl fmt::Display for TextFault {
    ghost use Rattle.std.specs.Prelude.{Some};
    ghost use Rattle.tao_text.specs.Kinds.{fault_text};

    ghost output = { λ fault. Some (fault_text fault.line fault.kind) };

    fn fmt<W: fmt::Write>(&self, f: &mut fmt::Formatter<W>) -> fmt::Result {
        write!(f, "line {}: {}", self.line, self.kind)
    }
}

impl Error for TextFault {}
