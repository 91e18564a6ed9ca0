//! What can be wrong with a line.

ghost use Rattle.std.specs.Prelude.{◌≡◌};
ghost use Rattle.text_lines.specs.declared.text_faults.FieldStop.TheVariants as stop;
ghost use Rattle.text_lines.specs.declared.text_faults.LineFault.TheVariants as wrong;
ghost use Rattle.text_lines.specs.declared.text_faults.LineStop.TheVariants as line;
ghost use Rattle.text_lines.specs.LineFaults.{kind_of, lifted, stopped};
ghost use Rattle.text_lines.specs.Fields.{field_kind};

use std::alloc::{AllocError, AllocFailed};

/// The kinds of what can be wrong with a line.
#[derive(Clone, Copy)]
pub enum LineKind {
    /// The first word isn't one that may begin a line, the number of words is wrong, or a word isn't one of the names
    /// that it may be.
    Word,
    /// A number isn't one to ten decimal digits.
    Number,
    /// Hexadecimal digits are odd in number, or one of them is another character.
    Hex,
    /// A value is outside its range, or there are too many lines of a kind.
    Range,
    /// The line has to stand before one that comes before it, or the lines before it leave no room for it.
    Order,
    /// Another line has to stand here.
    Missing,
}

/// The names that a word chooses from, in any language of lines.
#[derive(Clone, Copy, Debug)]
pub enum Names {
    /// Those of containers.
    Containers,
    /// What a sink does without some control packets.
    Sinks,
    /// The numbers of return packets that tell all statuses.
    Statuses,
}

/// What is wrong with a word of a line. The words of a line are counted from 1.
#[derive(Clone, Copy, Debug)]
pub enum FieldFault {
    /// It isn't a number of one to ten decimal digits.
    Number { word: u64 },
    /// Its digits are odd in number, or one of them is no hexadecimal digit.
    Hex { word: u64 },
    /// It is a number that isn't from `least` to `most`.
    Range { word: u64, least: u64, most: u64 },
    /// It doesn't say from `least` to `most` octets.
    Size { word: u64, least: u64, most: u64 },
    /// It is none of the names that it may be.
    Name { word: u64, names: Names },
}

impl FieldFault {
    /// Its kind.
    pub fn kind(self) -> LineKind
        ensures { result ≡ field_kind self }
    {
        match self {
            FieldFault::Number { .. } => LineKind::Number,
            FieldFault::Hex { .. } => LineKind::Hex,
            FieldFault::Range { .. } | FieldFault::Size { .. } => LineKind::Range,
            FieldFault::Name { .. } => LineKind::Word,
        }
    }
}

/// Why a word wasn't read.
#[derive(Clone, Copy)]
pub enum FieldStop {
    /// It has a fault.
    Fault(FieldFault),
    /// There was no memory.
    Memory,
}

impl From<FieldFault> for FieldStop {
    ghost from_gives = { λ fault given. given ≡ stop.Fault fault };

    fn from(fault: FieldFault) -> FieldStop {
        FieldStop::Fault(fault)
    }
}

impl From<AllocError> for FieldStop {
    ghost from_gives = { λ _ given. given ≡ stop.Memory };

    fn from(_: AllocError) -> FieldStop {
        FieldStop::Memory
    }
}

impl<T: Drop> From<AllocFailed<T>> for FieldStop {
    ghost from_gives = { λ _ given. given ≡ stop.Memory };

    fn from(_failed: AllocFailed<T>) -> FieldStop {
        FieldStop::Memory
    }
}

/// What is wrong with a line, with what can be said of how to write it. The words that may begin a line are `K`, and
/// `O` is what can be wrong with one in its language alone.
pub enum LineFault<K, O> {
    /// The first word is none that begins a line.
    First,
    /// So many words follow a keyword that takes another number of them.
    Count { keyword: K, takes: u64, follow: u64 },
    /// A word isn't what it has to be.
    Field(FieldFault),
    /// The line of this keyword has to stand here.
    Missing(K),
    /// The line has to stand before the one before it.
    Order { this: K, before: K },
    /// The lines before it leave no room for it.
    Own(O),
}

impl<K: Copy, O: Copy> Clone for LineFault<K, O> {
    fn clone(&self) -> Result<LineFault<K, O>, AllocError> {
        Ok(*self)
    }
}

impl<K: Copy, O: Copy> Copy for LineFault<K, O> {}

impl<K: Copy, O: Copy> LineFault<K, O> {
    /// Its kind.
    pub fn kind(self) -> LineKind
        ensures { result ≡ kind_of self }
    {
        match self {
            LineFault::First | LineFault::Count { .. } => LineKind::Word,
            LineFault::Field(fault) => fault.kind(),
            LineFault::Missing(_) => LineKind::Missing,
            LineFault::Order { .. } | LineFault::Own(_) => LineKind::Order,
        }
    }
}

impl<K, O> From<FieldFault> for LineFault<K, O> {
    ghost from_gives = { λ fault given. given ≡ wrong.Field fault };

    fn from(fault: FieldFault) -> LineFault<K, O> {
        LineFault::Field(fault)
    }
}

/// Why a line wasn't read.
pub enum LineStop<K, O> {
    /// It has a fault.
    Fault(LineFault<K, O>),
    /// There was no memory.
    Memory,
}

impl<K: Copy, O: Copy> Clone for LineStop<K, O> {
    fn clone(&self) -> Result<LineStop<K, O>, AllocError> {
        Ok(*self)
    }
}

impl<K: Copy, O: Copy> Copy for LineStop<K, O> {}

impl<K, O> From<LineFault<K, O>> for LineStop<K, O> {
    ghost from_gives = { λ fault given. given ≡ line.Fault fault };

    fn from(fault: LineFault<K, O>) -> LineStop<K, O> {
        LineStop::Fault(fault)
    }
}

impl<K, O> From<FieldFault> for LineStop<K, O> {
    ghost from_gives = { λ fault given. given ≡ line.Fault (wrong.Field fault) };

    fn from(fault: FieldFault) -> LineStop<K, O> {
        LineStop::Fault(LineFault::Field(fault))
    }
}

impl<K, O> From<AllocError> for LineStop<K, O> {
    ghost from_gives = { λ _ given. given ≡ line.Memory };

    fn from(_: AllocError) -> LineStop<K, O> {
        LineStop::Memory
    }
}

impl<K, O, T: Drop> From<AllocFailed<T>> for LineStop<K, O> {
    ghost from_gives = { λ _ given. given ≡ line.Memory };

    fn from(_failed: AllocFailed<T>) -> LineStop<K, O> {
        LineStop::Memory
    }
}

impl<K, O> From<FieldStop> for LineStop<K, O> {
    ghost from_gives = { λ why given. given ≡ lifted why };

    fn from(why: FieldStop) -> LineStop<K, O> {
        match why {
            FieldStop::Fault(fault) => LineStop::Fault(LineFault::Field(fault)),
            FieldStop::Memory => LineStop::Memory,
        }
    }
}

/// Why a text isn't read.
pub enum TextFault<K, O> {
    /// Line `number` is the first faulty one, counted from 1.
    Line { number: u64, fault: LineFault<K, O> },
    /// Memory is short.
    Memory,
}

impl<K: Copy, O: Copy> Clone for TextFault<K, O> {
    fn clone(&self) -> Result<TextFault<K, O>, AllocError> {
        Ok(*self)
    }
}

impl<K: Copy, O: Copy> Copy for TextFault<K, O> {}

impl<K: Copy, O: Copy> LineStop<K, O> {
    /// Why a text isn't read of which the line of this number wasn't.
    pub(crate) fn at(self, number: u64) -> TextFault<K, O>
        ensures { result ≡ stopped number self }
    {
        match self {
            LineStop::Fault(fault) => TextFault::Line { number, fault },
            LineStop::Memory => TextFault::Memory,
        }
    }
}
