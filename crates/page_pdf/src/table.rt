//! The table of where the objects of a document stand, at its end.
ghost use Rattle.std.specs.Prelude.{◌≡◌, ◌++◌, OnOk};
ghost use Rattle.page_pdf.specs.Table.{
  five_digits,
  place_digits,
  places_table,
  table_end,
  table_entries,
  table_entry,
  table_places,
  table_text,
};

use crate::object_parts::ObjectPart;
use shown_bytes::{digit, push_number};
use std::alloc::{AllocError, Allocator};

/// The last five digits of a number.
fn five_digits(n: u64) -> [u8; 5]
    ensures { result ≡ five_digits n }
{
    [
        digit(n / 10_000),
        digit(n / 1_000),
        digit(n / 100),
        digit(n / 10),
        digit(n),
    ]
}

/// Appends a place by ten digits.
#[tactic(auto, unfolding(crate::specs::Table::place_digits))]
fn push_place<A: Allocator>(text: &mut Vec<u8, A>, place: u64) -> Result<(), AllocError>
    ensures { OnOk result (text.new.items ≡ text.old.items ++ place_digits place) }
{
    text.extend_from_slice(&five_digits(place / 100_000))?;
    text.extend_from_slice(&five_digits(place))
}

#[tactic(auto, unfolding(crate::specs::Table::table_entry))]
fn push_entry<A: Allocator>(text: &mut Vec<u8, A>, place: u64) -> Result<(), AllocError>
    ensures { OnOk result (text.new.items ≡ text.old.items ++ table_entry place) }
{
    push_place(text, place)?;
    text.extend_from_slice(ObjectPart::TableEntry.bytes())
}

fn push_entries<A: Allocator>(text: &mut Vec<u8, A>, places: &[u64]) -> Result<(), AllocError>
    ensures { OnOk result (text.new.items ≡ text.old.items ++ table_entries places.now) }
{
    for place in places {
        push_entry(text, *place)?;
    }
    Ok(())
}

/// Appends the places of so many objects, of those of the lowest numbers first.
#[tactic(auto, unfolding(crate::specs::Table::table_places))]
fn push_places<A: Allocator>(
    text: &mut Vec<u8, A>,
    count: u64,
    first: &[u64],
    others: &[u64],
) -> Result<(), AllocError>
    ensures { OnOk result
        (text.new.items ≡ text.old.items ++ table_places count first.now others.now) }
{
    text.extend_from_slice(ObjectPart::Table.bytes())?;
    push_number(text, count)?;
    text.extend_from_slice(ObjectPart::TableFree.bytes())?;
    push_entries(text, first)?;
    push_entries(text, others)
}

#[tactic(auto, unfolding(crate::specs::Table::table_end))]
fn push_table_end<A: Allocator>(
    text: &mut Vec<u8, A>,
    count: u64,
    start: u64,
) -> Result<(), AllocError>
    ensures { OnOk result (text.new.items ≡ text.old.items ++ table_end count start) }
{
    text.extend_from_slice(ObjectPart::Trailer.bytes())?;
    push_number(text, count)?;
    text.extend_from_slice(ObjectPart::TableStart.bytes())?;
    push_number(text, start)?;
    text.extend_from_slice(ObjectPart::FileEnd.bytes())
}

/// Appends the table, which stands at this place.
fn push_table<A: Allocator>(
    text: &mut Vec<u8, A>,
    count: u64,
    first: &[u64],
    others: &[u64],
    start: u64,
) -> Result<(), AllocError>
    ensures { OnOk result
        (text.new.items ≡ text.old.items ++ table_text count first.now others.now start) }
{
    push_places(text, count, first, others)?;
    push_table_end(text, count, start)
}

/// Appends the table of these places, of which the last four are those of the first objects.
pub(crate) fn push_places_table<A: Allocator>(
    text: &mut Vec<u8, A>,
    places: &[u64],
    start: u64,
) -> Result<(), AllocError>
    ensures { OnOk result (text.new.items ≡ text.old.items ++ places_table places.now start) }
{
    let count = places.len().saturating_sub(4);
    let (others, first) = (&places[..count], &places[count..]);
    push_table(text, count as u64 + 5, first, others, start)
}
