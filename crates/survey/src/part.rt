//! What of refused bytes is passed over, and where reading begins again.

ghost use Rattle.std.specs.Prelude.{◌≡◌, ◌≤◌};
ghost use Rattle.survey.specs.Passing.{no_count, taken};

use crate::named_line::NamedLine;
use crate::refusal::Refusal;
use pcl_items::{Group, LexCause, Place};

/// What an escape sequence stands in, to which reading comes back behind it.
#[derive(Clone, Copy)]
pub enum Home {
    /// Mode PCL.
    Page,
    /// A frame of HP-GL/2.
    Frame,
}

/// An escape sequence that is passed over: why it is refused, what it stands in, and the number of
/// bytes before its command at hand.
#[derive(Clone, Copy)]
pub struct Passing {
    pub cause: LexCause,
    pub home: Home,
    pub begun: Place,
}

/// The number of a value field so far, as a count of data: at most 32767.
#[derive(Clone, Copy)]
pub struct Count {
    pub bytes: u16,
    /// A minus or a point stands behind it, so no further digit is one of the count.
    pub is_over: bool,
}

/// Which refused bytes stand next.
#[derive(Clone, Copy)]
pub enum Part {
    /// What stands behind ESC.
    Escape(Passing),
    /// What stands behind ESC and an introducer.
    Introduced(Passing, u8),
    /// A value field behind an introducer and a group character, or what ends it.
    Grouped(Passing, u8, u8, Count),
    /// The same without a group character.
    Ungrouped(Passing, u8),
    /// So many bytes of data.
    Data(Home, u16),
    /// So many bytes of data within a combined sequence of an introducer and a group character.
    Inner(Passing, u8, u8, u16),
    /// The second letter of an instruction of HP-GL/2, whose letters as capitals these are.
    Second(u8, u8),
    /// The numbers of an instruction.
    Numbers,
    /// A text between quotes.
    Quoted,
    /// A character that stands for itself, as behind `DT`.
    Character,
    /// A text up to ETX, as behind `LB`.
    Label,
    /// Numbers that are packed, up to a semicolon, as behind `PE`.
    Packed,
    /// A line of the job language, how far it enters PCL or another language, and which line it
    /// is so far.
    Line(Passing, u8, NamedLine),
    /// Another language, of which so many bytes of the universal exit stand before.
    Foreign(u8),
}

/// Where it goes on.
#[derive(Clone, Copy)]
pub enum Onto {
    /// Reading begins again in mode PCL.
    Page,
    /// In a combined sequence of this group.
    Group(Group),
    /// In a frame.
    Frame,
    /// Where a line of the job language may stand.
    Lines,
    /// Further bytes are passed over.
    Part(Part),
}

/// What comes next: whether the byte that stands there is passed over, what is told, and where it
/// goes on.
#[derive(Clone, Copy)]
pub struct Turn {
    pub is_taken: bool,
    pub told: Option<Refusal>,
    pub onto: Onto,
}

impl Turn {
    /// How many bytes are passed over.
    pub fn taken(self) -> usize
        ensures bytes { result ≡ taken self }
        ensures most { result ≤ 1 }
    {
        if self.is_taken { 1 } else { 0 }
    }
}

impl Count {
    /// Of no digits.
    pub fn none() -> Count
        ensures { result ≡ no_count }
    {
        Count {
            bytes: 0,
            is_over: false,
        }
    }
}
