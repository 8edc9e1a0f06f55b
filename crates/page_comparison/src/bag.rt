//! The marks of NEW's page, of which some are matched with marks of OLD.

ghost use Rattle.std.specs.Prelude.{◌≡◌, ◌++◌, ◌+◌, ◌<◌, ◌^◌, ◌∷◌, ◌==◌, [], IfOk, IfSome};
ghost use Rattle.std.specs.Prelude.{Bool, OnOk, false, if◌then◌else◌, length};
ghost use Rattle.std.specs.Prelude.{map, slice_get, slice_set, true};
ghost use Rattle.std.specs.List.{list_any};
ghost use Rattle.page_comparison.specs.AnyOrder.{first_free, is_crossed, is_match, none_matched};
ghost use Rattle.page_comparison.specs.Pages.{made_mark, made_marks};

use crate::footprint::{Footprint, hides};
use crate::nearness::is_near;
use crate::page::PlacedMark;
use std::alloc::{AllocError, Allocator};
use std::marker::Model;

/// The place in NEW of a mark that is matched, and what OLD's mark covers.
#[derive(Clone, Copy)]
pub(crate) struct Matched {
    pub(crate) new: usize,
    pub(crate) footprint: Footprint,
}

/// Which marks of NEW are matched, and what with.
#[derive(Drop)]
pub(crate) struct Bag<A: Allocator> {
    taken: Vec<bool, A>,
    /// So many marks at the front are matched: they are passed over.
    front: usize,
    earlier: Vec<Matched, A>,
    /// All marks that are matched stand before this place.
    beyond: usize,
}

impl<A: Allocator> Model for Bag<A> {
    ghost use Rattle.std.specs.Prelude.{◌≡◌, ◌<◌, ◌≤◌, length, replicate, take, true};
    ghost use Rattle.std.specs.List.{AllByRecursion};
    ghost use Rattle.page_comparison.specs.AnyOrder.{Matching};

    ghost Value = { Matching };

    ghost view = { λ bag. record { taken = bag.taken.items; earlier = bag.earlier.items } };

    ghost invariant = { λ bag. (bag.front ≤ length bag.taken.items)
        × (take bag.front bag.taken.items ≡ replicate bag.front true)
        × AllByRecursion (λ matched. matched.new < bag.beyond) bag.earlier.items };
}

impl<A: Allocator + Copy> Bag<A> {
    /// The marks of a page, of which none is matched.
    ///
    /// An error means that the allocator refused a request.
    pub(crate) fn new(alloc: A, marks: &[PlacedMark<A>]) -> Result<Bag<A>, AllocError>
        ensures { IfOk result (λ bag. bag ≡ none_matched (made_marks marks.now)) }
    {
        let taken = none_taken(alloc, marks)?;
        Ok(Bag {
            taken,
            front: 0,
            earlier: Vec::new(alloc),
            beyond: 0,
        })
    }

    /// The place of the first mark that is near a mark of OLD and not matched yet.
    pub(crate) fn find(
        &self,
        one: &PlacedMark<A>,
        marks: &[PlacedMark<A>],
        within: u64,
    ) -> Option<usize>
        requires { length self.now.taken ≡ length marks.now }
        ensures free { result ≡ first_free within
            (made_mark one.now) (made_marks marks.now) self.now.taken }
        ensures inside { IfSome result (λ place. place < length marks.now) }
    {
        for place in self.front..marks.len() {
            if self.is_match(place, one, &marks[place], within) {
                return Some(place);
            }
        }
        None
    }

    /// Whether the mark at a place, which is this one, is near a mark of OLD and not matched yet.
    fn is_match(
        &self,
        place: usize,
        one: &PlacedMark<A>,
        other: &PlacedMark<A>,
        within: u64,
    ) -> bool
        requires { place < length self.now.taken }
        ensures { (taken : Bool) → slice_get self.now.taken place ≡ Some taken →
            result ≡ is_match within (made_mark one.now) (made_mark other.now) taken }
    {
        !self.is_taken(place) && is_near(&one.mark, &other.mark, within)
    }

    /// The mark at this place is matched with one of OLD that has this footprint.
    ///
    /// An error means that the allocator refused a request.
    pub(crate) fn take(&mut self, place: usize, footprint: Footprint) -> Result<(), AllocError>
        requires { place < length self.old.taken }
        ensures { OnOk result (self.new ≡ record {
          taken = slice_set self.old.taken place true;
          earlier = self.old.earlier ++ record { new = place; footprint = footprint } ∷ [];
        }) }
    {
        self.earlier.push(Matched {
            new: place,
            footprint,
        })?;
        self.taken[place] = true;
        self.front = next_front(self.front, place);
        self.beyond = self.beyond.max(place + 1);
        Ok(())
    }

    /// Whether the mark at a place and one that is made before it by OLD and behind it by NEW hide
    /// each other, where OLD's mark has this footprint.
    pub(crate) fn is_crossed(&self, place: usize, footprint: &Footprint) -> bool
        requires { place < length self.now.taken }
        ensures { result ≡ list_any (is_crossed place footprint.now) self.now.earlier }
    {
        let last = self.beyond <= place + 1;
        if last {
            return false;
        }
        is_crossed_by(place, footprint, self.earlier.as_slice())
    }

    /// Whether the mark at a place is matched.
    pub(crate) fn is_taken(&self, place: usize) -> bool
        requires { place < length self.now.taken }
        ensures { slice_get self.now.taken place ≡ Some result }
    {
        self.taken[place]
    }
}

/// How many marks at the front are matched, where so many were before and one at a place is.
fn next_front(front: usize, place: usize) -> usize
    requires { place < 2 ^ 63 }
    ensures { result ≡ (if place == front then front + 1 else front) }
{
    if place == front { front + 1 } else { front }
}

/// For each mark that it is not matched.
fn none_taken<A: Allocator + Copy>(
    alloc: A,
    marks: &[PlacedMark<A>],
) -> Result<Vec<bool, A>, AllocError>
    ensures { IfOk result (λ taken. taken.items ≡ map (λ mark. false) (made_marks marks.now)) }
{
    let mut taken = Vec::new(alloc);
    for _ in 0..marks.len() {
        taken.push(false)?;
    }
    Ok(taken)
}

fn is_crossed_by(place: usize, footprint: &Footprint, earlier: &[Matched]) -> bool
    ensures { result ≡ list_any (is_crossed place footprint.now) earlier.now }
{
    for matched in earlier {
        if crosses(place, footprint, matched) {
            return true;
        }
    }
    false
}

/// Whether NEW makes an earlier mark behind the one at a place, and one of them hides the other.
fn crosses(place: usize, footprint: &Footprint, earlier: &Matched) -> bool
    ensures { result ≡ is_crossed place footprint.now earlier.now }
{
    place < earlier.new && hides(&earlier.footprint, footprint)
}
