//! Compares the marks of two pages in any order.

ghost use Rattle.std.specs.Prelude.{◌≡◌, ◌+◌, ◌<◌, ◌≤◌, ◌^◌, ◌∷◌, List, [], OnOk, drop, length};
ghost use Rattle.std.specs.Prelude.{if◌then◌else◌};
ghost use Rattle.page_comparison.specs.AnyOrder.{
  all_in_any_order,
  first_free,
  free_told,
  mark_told,
  matched_with,
  stand_at,
};
ghost use Rattle.page_comparison.specs.declared.bag.Matched.{Matched};
ghost use Rattle.page_comparison.specs.declared.differences.PageChange.TheVariants.{Covers};
ghost use Rattle.page_comparison.specs.Kept.{kept_all};
ghost use Rattle.page_comparison.specs.Pages.{made_mark, made_marks};
ghost use Rattle.page_comparison.specs.Told.{difference_at, next_place};

use crate::bag::Bag;
use crate::differences::PageChange;
use crate::footprint::footprint_of;
use crate::in_order::next_place;
use crate::listing::Listing;
use crate::page::PlacedMark;
use crate::setting::Setting;
use crate::standing::Standing;
use std::alloc::{AllocError, Allocator};

/// Tells the differences of the marks of two pages in any order.
///
/// An error of these functions means that the allocator refused a request.
pub(crate) fn tell_in_any_order<A: Allocator + Copy>(
    alloc: A,
    setting: &Setting,
    old: &[PlacedMark<A>],
    new: &[PlacedMark<A>],
    listing: &mut Listing<A>,
) -> Result<(), AllocError>
    requires old { length old.now ≤ 2 ^ 21 }
    requires new { length new.now ≤ 2 ^ 21 }
    ensures { OnOk result (listing.new ≡ kept_all
        (all_in_any_order setting.now (made_marks old.now) (made_marks new.now)) listing.old) }
{
    let mut bag = Bag::new(alloc, new)?;
    for (index, mark) in old.iter().enumerate() {
        tell_mark(setting, new, index + 1, mark, &mut bag, listing)?;
    }
    tell_free(setting, old.len() + 1, new, &bag, listing)
}

/// Matches the mark of OLD of this number, and tells where it has no match, or covers another mark
/// otherwise.
fn tell_mark<A: Allocator + Copy>(
    setting: &Setting,
    new: &[PlacedMark<A>],
    number: usize,
    mark: &PlacedMark<A>,
    bag: &mut Bag<A>,
    listing: &mut Listing<A>,
) -> Result<(), AllocError>
    requires taken { length bag.old.taken ≡ length new.now }
    requires few { length new.now ≤ 2 ^ 21 }
    ensures told { OnOk result (
        let found = first_free setting.now.within (made_mark mark.now) (made_marks new.now)
        bag.old.taken in
        listing.new ≡ kept_all (mark_told setting.now (made_marks new.now) number
        (made_mark mark.now) bag.old.earlier found) listing.old) }
    ensures matched { OnOk result (
        let found = first_free setting.now.within (made_mark mark.now) (made_marks new.now)
        bag.old.taken in
        bag.new ≡ matched_with (made_mark mark.now) found bag.old) }
{
    match bag.find(mark, new, setting.within) {
        None => tell_unmatched(setting, new, number, mark, listing),
        Some(place) => tell_matched(setting, new, number, mark, place, bag, listing),
    }
}

/// Tells of a mark of OLD that has no match.
fn tell_unmatched<A: Allocator + Copy>(
    setting: &Setting,
    new: &[PlacedMark<A>],
    number: usize,
    mark: &PlacedMark<A>,
    listing: &mut Listing<A>,
) -> Result<(), AllocError>
    requires { length new.now ≤ 2 ^ 21 }
    ensures { OnOk result ((earlier : List Matched) → listing.new ≡ kept_all
        (mark_told setting.now (made_marks new.now) number (made_mark mark.now) earlier None)
        listing.old) }
{
    let at = standing(setting, number, new.len() + 1);
    listing.tell(at.difference(mark.place, setting.new_end, PageChange::OnlyInOld))
}

/// Tells where a mark of OLD covers another one otherwise than its match at a place, and matches
/// both.
fn tell_matched<A: Allocator + Copy>(
    setting: &Setting,
    new: &[PlacedMark<A>],
    number: usize,
    mark: &PlacedMark<A>,
    place: usize,
    bag: &mut Bag<A>,
    listing: &mut Listing<A>,
) -> Result<(), AllocError>
    requires taken { length bag.old.taken ≡ length new.now }
    requires few { length new.now ≤ 2 ^ 21 }
    requires inside { place < length new.now }
    ensures told { OnOk result (listing.new ≡ kept_all (mark_told setting.now (made_marks new.now)
        number (made_mark mark.now) bag.old.earlier (Some place)) listing.old) }
    ensures matched { OnOk result (bag.new
        ≡ matched_with (made_mark mark.now) (Some place) bag.old) }
{
    let footprint = footprint_of(&mark.mark);
    let crossed = bag.is_crossed(place, &footprint);
    tell_if_crossed(setting, new, number, mark, place, crossed, listing)?;
    bag.take(place, footprint)
}

/// Tells, where it does, that a mark of OLD covers another one otherwise than its match at a place.
fn tell_if_crossed<A: Allocator>(
    setting: &Setting,
    new: &[PlacedMark<A>],
    number: usize,
    mark: &PlacedMark<A>,
    place: usize,
    crossed: bool,
    listing: &mut Listing<A>,
) -> Result<(), AllocError>
    requires few { length new.now ≤ 2 ^ 21 }
    requires inside { place < length new.now }
    ensures { let told = difference_at
        (stand_at setting.now.page number (place + 1)) (made_mark mark.now).place
        (next_place setting.now.new_end (drop place (made_marks new.now))) Covers in
        OnOk result (listing.new ≡ kept_all (if crossed then told ∷ [] else []) listing.old) }
{
    if !crossed {
        return Ok(());
    }
    let at = standing(setting, number, place + 1);
    let new_place = next_place(&new[place..], setting.new_end);
    listing.tell(at.difference(mark.place, new_place, PageChange::Covers))
}

/// The page, and the numbers of two of its marks.
fn standing(setting: &Setting, old_mark: usize, new_mark: usize) -> Standing
    ensures { result ≡ stand_at setting.now.page old_mark new_mark }
{
    Standing {
        page: setting.page,
        old_mark: old_mark as u64,
        new_mark: new_mark as u64,
    }
}

/// Tells of the marks of NEW that have no match.
fn tell_free<A: Allocator + Copy>(
    setting: &Setting,
    old_mark: usize,
    new: &[PlacedMark<A>],
    bag: &Bag<A>,
    listing: &mut Listing<A>,
) -> Result<(), AllocError>
    requires taken { length bag.now.taken ≡ length new.now }
    requires few { length new.now ≤ 2 ^ 21 }
    ensures { OnOk result (listing.new ≡ kept_all
        (free_told setting.now old_mark 1 (made_marks new.now) bag.now.taken) listing.old) }
{
    for (index, mark) in new.iter().enumerate() {
        let taken = bag.is_taken(index);
        tell_if_free(setting, old_mark, index + 1, mark, taken, listing)?;
    }
    Ok(())
}

/// Tells of the mark of NEW of this number, unless it is matched.
fn tell_if_free<A: Allocator>(
    setting: &Setting,
    old_mark: usize,
    number: usize,
    mark: &PlacedMark<A>,
    taken: bool,
    listing: &mut Listing<A>,
) -> Result<(), AllocError>
    ensures { OnOk result (listing.new ≡ kept_all (free_told setting.now old_mark number
        (made_mark mark.now ∷ []) (taken ∷ [])) listing.old) }
{
    if taken {
        return Ok(());
    }
    let at = standing(setting, old_mark, number);
    listing.tell(at.difference(setting.old_end, mark.place, PageChange::OnlyInNew))
}
