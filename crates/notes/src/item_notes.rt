//! The notes that hold by the items of a job alone.
ghost use Rattle.std.specs.Prelude.{◌≡◌, OnOk};
ghost use Rattle.notes.specs.Carriers.Past.{ends_job_word, opens, past_notes};
ghost use Rattle.notes.specs.Carriers.Rest.{WritesNotes};
ghost use Rattle.notes.specs.ItemNotes.{has_decimals, is_fraction, is_later, is_later_resolution};
ghost use Rattle.pcl_items.specs.Items.{amount, at, view};

use crate::note::{Note, NoteText};
use crate::other_words::ends_other_word;
use crate::past::{Past, Spelled, acts};
use crate::telling::tell;
use pcl_items::{Command, Item, Number, Place, Sign, SimpleItem};
use std::alloc::{AllocError, Allocator};

/// Whether an item prints, moves or sets before the first reset.
fn opens(past: Past, item: &Item<'_>) -> bool
    ensures { result ≡ opens past (view item.now) }
{
    acts(item) && !past.has_reset
}

/// Whether an item is the last byte of `@PJL`, with which a text begins.
fn ends_job_word(spelled: Spelled, item: &Item<'_>) -> bool
    ensures { result ≡ ends_job_word spelled (view item.now) }
{
    match (spelled, item) {
        (Spelled::AtPj, Item::Text(byte)) => byte.code == b'L',
        _ => false,
    }
}

/// Whether a number has decimals.
fn has_decimals(n: Number) -> bool
    ensures { result ≡ has_decimals (amount n) }
{
    !n.is_whole()
}

/// Whether an item is a move by PCL units with decimals.
fn is_fraction(item: &Item<'_>) -> bool
    ensures { result ≡ is_fraction (view item.now) }
{
    match item {
        Item::Simple(SimpleItem::Parameterized(command, n)) => match command {
            Command::HorizontalUnits | Command::VerticalUnits => has_decimals(*n),
            _ => false,
        },
        _ => false,
    }
}

/// Whether a resolution of rasters came with PCL 5e.
fn is_later_resolution(n: Number) -> bool
    ensures { result ≡ is_later_resolution (amount n) }
{
    match n.sign {
        Sign::Minus => false,
        Sign::Absent | Sign::Plus => {
            n.ten_thousandths == 2_000_000 || n.ten_thousandths == 6_000_000
        }
    }
}

/// Whether an item came with PCL 5e.
fn is_later(item: &Item<'_>) -> bool
    ensures { result ≡ is_later (view item.now) }
{
    match item {
        Item::Simple(SimpleItem::Parameterized(command, n)) => match command {
            Command::UnitOfMeasure => true,
            Command::RasterResolution => is_later_resolution(*n),
            _ => false,
        },
        _ => false,
    }
}

/// Tells the notes of an item by what stands before it.
pub(crate) fn tell_item<N: NoteText, A: Allocator, B: Allocator>(
    form: &N,
    told: &mut Vec<Note, B>,
    text: &mut Vec<u8, A>,
    past: Past,
    place: Place,
    item: &Item<'_>,
) -> Result<(), AllocError>
    ensures { OnOk result (WritesNotes (N.note_text form.now) told.old.items
        told.new.items text.old.items text.new.items
        (past_notes past (at place (view item.now)))) }
{
    let (is_word, begins) = (ends_job_word(past.spelled, item), place.saturating_sub(3));
    let is_other = ends_other_word(past.front, item);
    tell(form, told, text, opens(past, item), place, Note::OpenStart)?;
    tell(form, told, text, is_word, begins, Note::PjlAsText)?;
    tell(
        form,
        told,
        text,
        is_fraction(item),
        place,
        Note::FractionOfUnit,
    )?;
    tell(form, told, text, is_later(item), place, Note::LaterLanguage)?;
    tell(form, told, text, is_other, begins, Note::OtherLanguage)?;
    Ok(())
}
