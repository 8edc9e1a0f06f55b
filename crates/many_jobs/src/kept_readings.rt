//! Texts of a job that are kept in memory, for its row in a document.
ghost use Rattle.std.specs.Prelude.{◌≡◌, ◌++◌, IsFalse, OnOk, refl};
ghost use Rattle.pcl_items.specs.Items.{at, view};
ghost use Rattle.job_rows.specs.Kept.{kept_text};
ghost use Rattle.renderings.specs.Carriers.Rests.{faults_matter};
ghost use Rattle.many_jobs.specs.JobRow.{IsRightText, is_near, near_line, near_rendering};
ghost use Rattle.many_jobs.specs.JobRow.{page_rendering};

use crate::limited_text::LimitedText;
use device_profile::Profile;
use job_picture::{Wanted, picture_of};
use line_words::push_item;
use named_inputs::{KeptText, kept_error};
use pcl_items::{Item, LexFault, Place};
use renderings::{Outcome, Renderer, render_job};
use requests::{DrawnPages, Selection};
use std::alloc::{AllocError, Allocator};
use streams::{Error, Outlet, Source, write_enough};

/// So many bytes before the place at which a job fails its items are listed.
const BEFORE: u64 = 40;

/// So many bytes behind it.
const BEHIND: u64 = 16;

/// The picture of a page of a job on a printer, from its first panel; nothing where the job does
/// not have the page. An error is `Read`, `Memory` or `Turns`, or `Write` where the picture is too
/// large for a row.
pub(crate) fn read_page<S: Source, A: Allocator + Copy>(
    alloc: A,
    job: &mut S,
    printer: &Profile<A>,
    page: u64,
) -> Result<Vec<u8, A>, Error>
    requires { IsFalse (S.state job.old).failed }
    ensures { IsRightText (page_rendering printer.now page)
        (S.state job.old) (S.state job.new) (kept_text (λ text. text.items) result) }
{
    let wanted = Wanted {
        selection: Selection {
            pages: DrawnPages::One(page),
            has_boxes: false,
        },
        sentence: &[],
    };
    let panel = printer.first_panel();
    let mut text = LimitedText::new(alloc);
    match picture_of(alloc, job, printer, &panel, &wanted, &mut text) {
        Ok(_) => Ok(text.into_bytes()),
        Err(error) => Err(error),
    }
}

/// The lines of the items near a place of a job, as a list has them. An error is `Read`, `Memory`
/// or `Turns`.
pub fn read_near<S: Source, A: Allocator + Copy>(
    alloc: A,
    job: &mut S,
    place: u64,
) -> Result<Vec<u8, A>, Error>
    requires { IsFalse (S.state job.old).failed }
    ensures { IsRightText (near_rendering place)
        (S.state job.old) (S.state job.new) (kept_text (λ text. text.items) result) }
{
    let mut nearby = Nearby {
        place,
        spelling: Vec::new(alloc),
    };
    let mut text = KeptText::new(alloc);
    match render_job(alloc, job, &mut nearby, &mut text) {
        Ok(_) => Ok(text.into_bytes()),
        Err(error) => Err(kept_error(error)),
    }
}

/// Writes the lines of the items near a place.
#[derive(Drop)]
struct Nearby<B: Allocator> {
    place: u64,
    /// Room for the spelling of an item, so that it is not asked for at each.
    spelling: Vec<u8, B>,
}

/// Appends the line of an item, where it is near this place. What it is spelled in is given.
fn push_near<A: Allocator, B: Allocator>(
    text: &mut Vec<u8, A>,
    spelling: &mut Vec<u8, B>,
    near: u64,
    place: Place,
    item: &Item<'_>,
) -> Result<(), AllocError>
    ensures { OnOk result (text.new.items ≡ text.old.items
        ++ near_line near (at place (view item.now))) }
{
    if !is_near(near, place) {
        return Ok(());
    }
    push_item(text, spelling, place, item)
}

/// Whether an item at `x` is near a place.
fn is_near(place: u64, x: u64) -> bool
    ensures { result ≡ is_near place x }
{
    let first = place.saturating_sub(BEFORE);
    let before = x.saturating_sub(BEHIND);
    first <= x && before <= place
}

impl<B: Allocator> Renderer for Nearby<B> {
    ghost rendering = { λ nearby. near_rendering nearby.place };

    ghost is_in = { λ _ _. Unit {0} };

    fn item<W: Outlet, A: Allocator>(
        &mut self,
        outlet: &mut W,
        kept: &mut Vec<u8, A>,
        place: Place,
        item: &Item<'_>,
    ) -> Result<Option<Outcome>, Error> {
        let near = self.place;
        push_near(kept, &mut self.spelling, near, place, item)?;
        write_enough(outlet, kept)?;
        Ok(None)
    }

    fn end<W: Outlet, A: Allocator>(
        &mut self,
        _outlet: &mut W,
        _kept: &mut Vec<u8, A>,
        _place: Place,
    ) -> Result<Outcome, Error> {
        Ok(Outcome::Done)
    }

    fn fault<W: Outlet, A: Allocator>(
        &mut self,
        _outlet: &mut W,
        _kept: &mut Vec<u8, A>,
        fault: LexFault,
    ) -> Result<Outcome, Error> {
        Ok(Outcome::of_fault(fault))
    }

    ghost adds_at_fault = { λ _ place cause. refl };

    ghost rest_matters = { λ nearby over.
        faults_matter (near_rendering nearby.place) (λ place. refl) over };
}
