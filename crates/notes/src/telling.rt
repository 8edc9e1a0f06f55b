//! Notes are told once each.
ghost use Rattle.std.specs.Prelude.{◌≡◌, OnOk};
ghost use Rattle.notes.specs.Carriers.Rest.{WritesNotes};
ghost use Rattle.notes.specs.Note.{is_among, is_same, told_if};

use crate::note::{Note, NoteText};
use pcl_items::Place;
use std::alloc::{AllocError, Allocator};

/// Whether two notes are the same one.
fn is_same(a: Note, b: Note) -> bool
    ensures { result ≡ is_same a b }
{
    a.number() == b.number()
}

/// Whether a note was told.
fn is_among(told: &[Note], note: Note) -> bool
    ensures { result ≡ is_among told.now note }
{
    told.iter().any(|other| is_same(note, *other))
}

/// Tells a note where it holds, unless it was told before.
pub(crate) fn tell<N: NoteText, A: Allocator, B: Allocator>(
    form: &N,
    told: &mut Vec<Note, B>,
    text: &mut Vec<u8, A>,
    holds: bool,
    place: Place,
    note: Note,
) -> Result<(), AllocError>
    ensures { OnOk result (WritesNotes (N.note_text form.now) told.old.items
        told.new.items text.old.items text.new.items
        (told_if holds place note)) }
{
    if !holds || is_among(told.as_slice(), note) {
        return Ok(());
    }
    form.push(text, place, note)?;
    told.push(note)?;
    Ok(())
}
