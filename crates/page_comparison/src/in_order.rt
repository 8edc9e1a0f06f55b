//! Compares the marks of two pages in their order.

ghost use Rattle.std.specs.Prelude.{◌≡◌, ◌≤◌, ◌^◌, OnOk, length};
ghost use Rattle.page_comparison.specs.InOrder.{all_in_order, turn_told};
ghost use Rattle.page_comparison.specs.Kept.{kept_all};
ghost use Rattle.page_comparison.specs.Marks.{changed};
ghost use Rattle.page_comparison.specs.Pages.{made_mark, made_marks};
ghost use Rattle.page_comparison.specs.Told.{left_out, next_place, only_new, only_old, pair_told};

use crate::differences::PageChange;
use crate::listing::Listing;
use crate::nearness::is_near;
use crate::page::PlacedMark;
use crate::setting::Setting;
use crate::standing::Standing;
use crate::turn::{Turn, next_turn};
use comparison::is_moved;
use pcl_items::Place;
use std::alloc::{AllocError, Allocator};

/// Tells the differences of the marks of two pages in their order.
///
/// An error of these functions means that the allocator refused a request.
pub(crate) fn tell_in_order<A: Allocator>(
    setting: &Setting,
    old: &[PlacedMark<A>],
    new: &[PlacedMark<A>],
    listing: &mut Listing<A>,
) -> Result<(), AllocError>
    requires old { length old.now ≤ 2 ^ 21 }
    requires new { length new.now ≤ 2 ^ 21 }
    ensures { OnOk result (listing.new ≡ kept_all
        (all_in_order setting.now (made_marks old.now) (made_marks new.now)) listing.old) }
{
    let turns = old.len() + new.len();
    let mut at = Standing::first(setting.page);
    let mut one = old;
    let mut other = new;
    for _ in 0..turns {
        let turn = next_turn(one, other, setting.within);
        tell_turn(setting, at, one, other, turn, listing)?;
        at = at.behind(turn.old, turn.new);
        one = &one[turn.old..];
        other = &other[turn.new..];
    }
    Ok(())
}

/// Tells the differences of a turn of the rests of two pages.
fn tell_turn<A: Allocator>(
    setting: &Setting,
    at: Standing,
    old: &[PlacedMark<A>],
    new: &[PlacedMark<A>],
    turn: Turn,
    listing: &mut Listing<A>,
) -> Result<(), AllocError>
    requires old { turn.old ≤ length old.now }
    requires new { turn.new ≤ length new.now }
    ensures { OnOk result (listing.new ≡ kept_all
        (turn_told setting.now at (made_marks old.now) (made_marks new.now) turn) listing.old) }
{
    if turn.same {
        return Ok(());
    }
    let old_place = next_place(&old[turn.old..], setting.old_end);
    let new_place = next_place(&new[turn.new..], setting.new_end);
    tell_left_out(
        setting.within,
        (old_place, new_place),
        at,
        &old[..turn.old],
        &new[..turn.new],
        listing,
    )
}

/// Where the item of the next mark stands, or what ends the page at a place.
pub(crate) fn next_place<A: Allocator>(marks: &[PlacedMark<A>], end: Place) -> Place
    ensures { result ≡ next_place end (made_marks marks.now) }
{
    match marks {
        [] => end,
        [mark, ..] => mark.place,
    }
}

/// Tells of marks that are left out of both pages: pair by pair, and then of those that one has
/// more. Behind them the next items stand at these places of OLD and NEW.
fn tell_left_out<A: Allocator>(
    within: u64,
    next: (Place, Place),
    start: Standing,
    old: &[PlacedMark<A>],
    new: &[PlacedMark<A>],
    listing: &mut Listing<A>,
) -> Result<(), AllocError>
    ensures { OnOk result (listing.new ≡ kept_all (left_out within next.0 next.1 start
        (made_marks old.now) (made_marks new.now)) listing.old) }
{
    let pairs = old.len().min(new.len());
    let mut at = start;
    for index in 0..pairs {
        tell_pair(within, at, &old[index], &new[index], listing)?;
        at = at.behind(1, 1);
    }
    tell_only_old(next.1, at, &old[pairs..], listing)?;
    tell_only_new(next.0, at, &new[pairs..], listing)
}

/// Tells that a mark of NEW stands for one of OLD, unless they are near.
fn tell_pair<A: Allocator>(
    within: u64,
    at: Standing,
    one: &PlacedMark<A>,
    other: &PlacedMark<A>,
    listing: &mut Listing<A>,
) -> Result<(), AllocError>
    ensures { OnOk result (listing.new
        ≡ kept_all (pair_told within at (made_mark one.now) (made_mark other.now)) listing.old) }
{
    if is_near(&one.mark, &other.mark, within) {
        return Ok(());
    }
    let change = changed(one, other);
    listing.tell(at.difference(one.place, other.place, change))
}

/// What differs between two marks.
fn changed<A: Allocator>(one: &PlacedMark<A>, other: &PlacedMark<A>) -> PageChange
    ensures { result ≡ changed (made_mark one.now) (made_mark other.now) }
{
    if is_moved(&one.mark, &other.mark) {
        PageChange::Moved
    } else {
        PageChange::Changed
    }
}

/// Tells of marks that are only in OLD, where the next item of NEW stands at a place.
fn tell_only_old<A: Allocator>(
    new_place: Place,
    start: Standing,
    marks: &[PlacedMark<A>],
    listing: &mut Listing<A>,
) -> Result<(), AllocError>
    ensures { OnOk result (listing.new
        ≡ kept_all (only_old new_place start (made_marks marks.now)) listing.old) }
{
    let mut at = start;
    for mark in marks {
        listing.tell(at.difference(mark.place, new_place, PageChange::OnlyInOld))?;
        at = at.behind(1, 0);
    }
    Ok(())
}

/// Tells of marks that are only in NEW, where the next item of OLD stands at a place.
fn tell_only_new<A: Allocator>(
    old_place: Place,
    start: Standing,
    marks: &[PlacedMark<A>],
    listing: &mut Listing<A>,
) -> Result<(), AllocError>
    ensures { OnOk result (listing.new
        ≡ kept_all (only_new old_place start (made_marks marks.now)) listing.old) }
{
    let mut at = start;
    for mark in marks {
        listing.tell(at.difference(old_place, mark.place, PageChange::OnlyInNew))?;
        at = at.behind(0, 1);
    }
    Ok(())
}
