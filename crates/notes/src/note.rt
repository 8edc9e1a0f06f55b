//! The notes: their numbers, names and short words.
ghost use Rattle.std.specs.Prelude.{◌≡◌, ◌++◌, ℕ, List, OnOk};
ghost use Rattle.notes.specs.Note.{Told, note_line, note_name, note_number, short_note};

use pcl_items::Place;
use shown_bytes::push_number;
use std::alloc::{AllocError, Allocator};

/// So many items macros may carry out in a job before that is a note: a profile with this limit
/// tells it.
pub const MOST_ITEMS: u64 = 1_000_000;

/// What a job leaves to the printer, or to the jobs before and behind it.
#[derive(Clone, Copy, Debug, PartialEq, Eq)]
pub enum Note {
    /// Something prints, moves or sets before the first reset.
    OpenStart,
    /// Something prints, moves or sets behind the last reset.
    OpenEnd,
    /// The job closes no page.
    NoPage,
    /// A line of the job language is printed as text.
    PjlAsText,
    /// The orientation in force is set, where the spacing or a margin was set.
    SameOrientation,
    /// A column is no whole number of PCL units.
    RoundedColumn,
    /// A move has a fraction of a PCL unit.
    FractionOfUnit,
    /// A command came with PCL 5e.
    LaterLanguage,
    /// A raster ends before its height.
    ShortRaster,
    /// A line feed leads past the bottom margin of a page without a mark.
    BlankOverflow,
    /// A paper source or sides are chosen where there is a left margin.
    SourceMovesLeft,
    /// Macros would carry out more items than the profile allows.
    LongRun,
    /// Text begins as a file of another language does.
    OtherLanguage,
}

impl Note {
    /// The number of the note.
    pub fn number(self) -> u8
        ensures { result ≡ note_number self }
    {
        match self {
            Note::OpenStart => 101,
            Note::OpenEnd => 102,
            Note::NoPage => 103,
            Note::PjlAsText => 104,
            Note::SameOrientation => 105,
            Note::RoundedColumn => 106,
            Note::FractionOfUnit => 107,
            Note::LaterLanguage => 108,
            Note::ShortRaster => 109,
            Note::BlankOverflow => 110,
            Note::SourceMovesLeft => 111,
            Note::LongRun => 112,
            Note::OtherLanguage => 113,
        }
    }
}

/// The name of a note, as `OpenStart`.
pub fn note_name(note: Note) -> &'static [u8]
    ensures { result.now ≡ note_name note }
{
    match note {
        Note::OpenStart => b"OpenStart",
        Note::OpenEnd => b"OpenEnd",
        Note::NoPage => b"NoPage",
        Note::PjlAsText => b"PjlAsText",
        Note::SameOrientation => b"SameOrientation",
        Note::RoundedColumn => b"RoundedColumn",
        Note::FractionOfUnit => b"FractionOfUnit",
        Note::LaterLanguage => b"LaterLanguage",
        Note::ShortRaster => b"ShortRaster",
        Note::BlankOverflow => b"BlankOverflow",
        Note::SourceMovesLeft => b"SourceMovesLeft",
        Note::LongRun => b"LongRun",
        Note::OtherLanguage => b"OtherLanguage",
    }
}

/// A note in short words.
pub fn short_note(note: Note) -> &'static [u8]
    ensures { result.now ≡ short_note note }
{
    match note {
        Note::OpenStart => b"something prints, moves or sets before the first reset",
        Note::OpenEnd => b"something prints, moves or sets behind the last reset",
        Note::NoPage => b"the job closes no page",
        Note::PjlAsText => b"a line of the job language is printed as text",
        Note::SameOrientation => b"the orientation is set again where spacing or a margin is set",
        Note::RoundedColumn => b"a column is used that is no whole number of PCL units",
        Note::FractionOfUnit => b"a move has a fraction of a PCL unit",
        Note::LaterLanguage => b"printers before PCL 5e pass over this command",
        Note::ShortRaster => b"a raster ends before the last row of its height",
        Note::BlankOverflow => b"a line feed leads past the bottom margin of a blank page",
        Note::SourceMovesLeft => b"a tray or sides are chosen where the left margin is not 0",
        Note::LongRun => b"macros carry out more than a million items",
        Note::OtherLanguage =>
            b"this looks like PostScript, PDF, PCL XL or an image, and is no PCL",
    }
}

/// How a note is told.
pub trait NoteText {
    // What is told of a note at its place.
    ghost note_text: { Self → Told → List ℕ };

    /// Appends what is told of a note at a place.
    fn push<A: Allocator>(
        &self,
        text: &mut Vec<u8, A>,
        place: Place,
        note: Note,
    ) -> Result<(), AllocError>
        ensures { OnOk result (text.new.items ≡ text.old.items
            ++ Self.note_text self.now (record { place = place; note = note })) };
}

/// Tells a note by a line: its place, its number and its name.
#[derive(Clone, Copy, Debug)]
pub struct NoteLine;

impl NoteText for NoteLine {
    ghost note_text = { λ _ told. note_line told };

    fn push<A: Allocator>(
        &self,
        text: &mut Vec<u8, A>,
        place: Place,
        note: Note,
    ) -> Result<(), AllocError> {
        push_number(text, place)?;
        text.extend_from_slice(b" ")?;
        push_number(text, u64::from(note.number()))?;
        text.extend_from_slice(b" ")?;
        text.extend_from_slice(note_name(note))?;
        text.extend_from_slice(b"\n")
    }
}
