//! A page of a job that is kept.

ghost use Rattle.std.specs.Prelude.{◌≡◌, ◌++◌, ◌∷◌, [], OnOk, IfOk};
ghost use Rattle.sinks.specs.Owned.{event_of, shape_of_owned};
ghost use Rattle.page_comparison.specs.Pages.{made_page};
ghost use Rattle.page_comparison.specs.Reading.{is_mark, new_page, page_at_end, page_with};

use comparison::lent;
use page_env::PageEnd;
use pcl_items::Place;
use sinks::{OwnedEvent, OwnedMark};
use std::alloc::{AllocError, Allocator};

/// A mark, and where the item stands that made it.
#[derive(Drop)]
pub struct PlacedMark<A: Allocator> {
    pub place: Place,
    pub mark: OwnedMark<A>,
}

/// The marks of a page, and how it ends.
#[derive(Drop)]
pub struct Page<A: Allocator> {
    pub marks: Vec<PlacedMark<A>, A>,
    /// The values with which it ends. None: the job is over before that.
    pub end: Option<PageEnd>,
    /// Where the item stands that ends it, or where the job ends.
    pub place: Place,
}

/// A page of two jobs by its number, from 1.
#[derive(Drop)]
pub struct PagePair<A: Allocator> {
    pub number: u64,
    pub old: Page<A>,
    pub new: Page<A>,
}

impl<A: Allocator + Copy> Page<A> {
    /// A page with no mark and no end.
    pub(crate) fn new(alloc: A) -> Page<A>
        ensures { made_page result ≡ new_page }
    {
        Page {
            marks: Vec::new(alloc),
            end: None,
            place: 0,
        }
    }

    /// The job is over at this place.
    pub(crate) fn end_at(&mut self, place: Place)
        ensures { made_page self.new ≡ page_at_end place (made_page self.old) }
    {
        self.place = place;
    }

    /// Takes an event of an item at a place, and answers whether the page goes on behind it.
    ///
    /// An error means that the allocator refused a request.
    pub(crate) fn take(
        &mut self,
        alloc: A,
        event: &OwnedEvent<A>,
        place: Place,
    ) -> Result<bool, AllocError>
        ensures page { OnOk result (made_page self.new
            ≡ page_with (record { place = place; event = event_of event.now })
            (made_page self.old)) }
        ensures goes_on { IfOk result (λ goes_on. is_mark (event_of event.now) ≡ goes_on) }
    {
        match event {
            OwnedEvent::Marked(mark) => {
                self.push(alloc, mark, place)?;
                Ok(true)
            }
            OwnedEvent::Ended(values) => {
                self.end = Some(*values);
                self.place = place;
                Ok(false)
            }
        }
    }

    /// Takes a mark.
    fn push(&mut self, alloc: A, mark: &OwnedMark<A>, place: Place) -> Result<(), AllocError>
        ensures { OnOk result (made_page self.new ≡ record (made_page self.old) {
          marks = (made_page self.old).marks
              ++ record { place = place; shape = shape_of_owned mark.now } ∷ [];
        }) }
    {
        let mark_lent = lent(mark);
        let copy = OwnedMark::copy_of(alloc, &mark_lent)?;
        self.marks.push(PlacedMark { place, mark: copy })?;
        Ok(())
    }
}
