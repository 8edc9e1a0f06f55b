//! The pictures of the pages of a job on one printer, from one panel.
ghost use Rattle.std.specs.Prelude.{◌≡◌, ◌++◌, IsFalse, OnOk, false, refl};
ghost use Rattle.device_profile.specs.Printer.{IsAllowed};
ghost use Rattle.page_env.specs.Places.{geometry_of};
ghost use Rattle.page_env.specs.Settings.{state_at};
ghost use Rattle.renderings.specs.Carriers.PageRendering.{any_panel};
ghost use Rattle.renderings.specs.Carriers.Rests.{faults_matter};
ghost use Rattle.renderings.specs.Expected.{Renders};
ghost use Rattle.job_picture.specs.Carriers.Rest.{drawn_from};
ghost use Rattle.job_picture.specs.JobPicture.{late_end, picture_rendering};
ghost use Rattle.job_picture.specs.Sheet.{drawn_failure, end_of_all, sheet_of, start_if_due};

use crate::drawing::{finish_on, step_on};
use crate::failing::{Spot, mark_of, spot_of};
use crate::progress::Progress;
use crate::sheet::{Sheet, push_drawn_failure, push_end_of_all, push_start_of_all};
use device_profile::{Geometry, Panel, Profile};
use page_env::{Finding, Page};
use page_machine::{Machine, Start};
use pcl_items::{Item, LexCause, LexFault, Place};
use renderings::{Outcome, Renderer, render_job};
use requests::{DrawnPages, Selection};
use std::alloc::{AllocError, Allocator};
use streams::{Error, Outlet, Source};

/// What is drawn of a job.
#[derive(Clone, Copy)]
pub struct Wanted<'a> {
    pub selection: Selection,
    /// Of one page the sentence on its failure, or nothing where the job does not fail on it; it
    /// stands below the sheet. Of all pages the verdict on the job, on top. Without a line end.
    pub sentence: &'a [u8],
}

/// What the end of a job comes to behind which more would be drawn: a job that ends before the page
/// that is wanted is too short.
fn late_end(selection: Selection, place: Place) -> Outcome
    ensures { result ≡ late_end selection place }
{
    match selection.pages {
        DrawnPages::All => Outcome::Done,
        DrawnPages::One(_) => Outcome::of_fault(LexFault {
            cause: LexCause::Truncated,
            place,
        }),
    }
}

// ---- the job

/// Executes the items on a machine that knows the panel, and draws what they mark.
#[derive(Drop)]
struct JobPicture<'p, 'w, P: Allocator, B: Allocator + Copy> {
    machine: Machine<'p, P, B>,
    wanted: Wanted<'w>,
    progress: Progress,
    /// What stands before all pages is put.
    is_started: bool,
}

/// The paper of the page that is open. The panel is known, so no setting is left to it.
fn paper_of<P: Allocator>(profile: &Profile<P>, page: &Page) -> Geometry
    ensures { result ≡ geometry_of profile.now (state_at any_panel page.now) }
{
    let fields = &page.env.fields;
    profile.page_geometry(fields.size.under(0), fields.orientation.under(0))
}

/// The sheet of the page that is open, for the marks of an item at a place.
fn sheet_of<P: Allocator>(
    place: Place,
    profile: &Profile<P>,
    page: &Page,
    wanted: &Wanted<'_>,
) -> Sheet
    ensures { result ≡ sheet_of place wanted.now.selection wanted.now.sentence.now profile.now
        (state_at any_panel page.now) }
{
    let has_sentence = match wanted.selection.pages {
        DrawnPages::All => false,
        DrawnPages::One(_) => !wanted.sentence.is_empty(),
    };
    Sheet {
        place,
        selection: wanted.selection,
        paper: paper_of(profile, page),
        has_sentence,
    }
}

/// Appends what stands before all pages, unless it is put.
fn push_start_if_due<A: Allocator>(
    text: &mut Vec<u8, A>,
    wanted: &Wanted<'_>,
    is_started: bool,
) -> Result<(), AllocError>
    ensures { OnOk result (text.new.items ≡ text.old.items
        ++ start_if_due wanted.now.selection wanted.now.sentence.now is_started) }
{
    if is_started {
        return Ok(());
    }
    push_start_of_all(text, wanted.selection, wanted.sentence)
}

/// Appends what a failure draws, and what stands behind all pages.
fn push_failed<A: Allocator>(
    text: &mut Vec<u8, A>,
    sheet: &Sheet,
    progress: Progress,
    spot: Spot,
    why: Option<Finding>,
    wanted: &Wanted<'_>,
) -> Result<(), AllocError>
    ensures { OnOk result (text.new.items ≡ text.old.items
        ++ (drawn_failure sheet.now progress spot why wanted.now.sentence.now
        ++ end_of_all wanted.now.selection)) }
{
    push_drawn_failure(text, sheet, progress, spot, why, wanted.sentence)?;
    push_end_of_all(text, wanted.selection)
}

impl<P: Allocator, B: Allocator + Copy> Renderer for JobPicture<'_, '_, P, B> {
    ghost rendering = { λ picture. drawn_from picture.wanted.selection picture.wanted.sentence.now
        picture.machine picture.progress picture.is_started };

    ghost is_in = { λ picture mode. (picture.machine.stopped ≡ false)
        × (picture.machine.mode ≡ mode) };

    #[inline(always)]
    fn item<W: Outlet, A: Allocator>(
        &mut self,
        outlet: &mut W,
        kept: &mut Vec<u8, A>,
        place: Place,
        item: &Item<'_>,
    ) -> Result<Option<Outcome>, Error> {
        let sheet = sheet_of(
            place,
            self.machine.profile(),
            self.machine.page(),
            &self.wanted,
        );
        let mark = mark_of(
            self.machine.profile(),
            &sheet.paper,
            self.machine.page(),
            item,
        );
        let spot = spot_of(&sheet.paper, self.machine.page(), mark);
        push_start_if_due(kept, &self.wanted, self.is_started)?;
        self.is_started = true;
        let (machine, progress) = (&mut self.machine, &mut self.progress);
        let found = step_on(machine, &sheet, progress, outlet, kept, item)?;
        if self.wanted.selection.is_behind(self.progress.page) {
            return Ok(Some(Outcome::Done));
        }
        match found {
            None => Ok(None),
            Some(finding) => {
                push_failed(
                    kept,
                    &sheet,
                    self.progress,
                    spot,
                    Some(finding),
                    &self.wanted,
                )?;
                Ok(Some(Outcome::of_finding(place, finding)))
            }
        }
    }

    fn end<W: Outlet, A: Allocator>(
        &mut self,
        outlet: &mut W,
        kept: &mut Vec<u8, A>,
        place: Place,
    ) -> Result<Outcome, Error> {
        let sheet = sheet_of(
            place,
            self.machine.profile(),
            self.machine.page(),
            &self.wanted,
        );
        let spot = spot_of(&sheet.paper, self.machine.page(), None);
        push_start_if_due(kept, &self.wanted, self.is_started)?;
        let (machine, progress) = (&mut self.machine, &mut self.progress);
        let found = finish_on(machine, &sheet, progress, outlet, kept)?;
        if self.wanted.selection.is_behind(self.progress.page) {
            return Ok(Outcome::Done);
        }
        match found {
            None => {
                push_end_of_all(kept, self.wanted.selection)?;
                Ok(late_end(self.wanted.selection, place))
            }
            Some(finding) => {
                push_failed(
                    kept,
                    &sheet,
                    self.progress,
                    spot,
                    Some(finding),
                    &self.wanted,
                )?;
                Ok(Outcome::of_finding(place, finding))
            }
        }
    }

    fn fault<W: Outlet, A: Allocator>(
        &mut self,
        _outlet: &mut W,
        kept: &mut Vec<u8, A>,
        fault: LexFault,
    ) -> Result<Outcome, Error> {
        let sheet = sheet_of(
            fault.place,
            self.machine.profile(),
            self.machine.page(),
            &self.wanted,
        );
        let spot = spot_of(&sheet.paper, self.machine.page(), None);
        push_start_if_due(kept, &self.wanted, self.is_started)?;
        push_failed(kept, &sheet, self.progress, spot, None, &self.wanted)?;
        Ok(Outcome::of_fault(fault))
    }

    ghost adds_at_fault = { λ _ place cause. refl };

    ghost rest_matters = { λ picture over. faults_matter
        (drawn_from picture.wanted.selection picture.wanted.sentence.now
        picture.machine picture.progress picture.is_started)
        (λ place. refl) over };
}

/// Writes the pictures of pages of a job on a printer, from a panel that its profile allows: of one
/// page as SVG, of all as a document of HTML.
///
/// A page stands there as far as it came before the first finding, or before a fault of the bytes,
/// in gray; upon that the mark that fails and what it leaves, or a cross where the cursor was. Of a
/// page that the job does not have nothing is written, and the job counts as one whose bytes end
/// too early. After an error a front of the text is written: `Memory` where the allocator refused a
/// request, `Read` and `Write` where a read or a write failed, `Turns` after 2^40 reads without an
/// end.
pub fn picture_of<S: Source, W: Outlet, A: Allocator + Copy, P: Allocator>(
    alloc: A,
    reader: &mut S,
    profile: &Profile<P>,
    panel: &Panel,
    wanted: &Wanted<'_>,
    writer: &mut W,
) -> Result<Outcome, Error>
    requires reading { IsFalse (S.state reader.old).failed }
    requires writing { IsFalse (W.state writer.old).failed }
    requires allowed { IsAllowed profile.now panel.now }
    ensures { Renders (picture_rendering profile.now panel.now
        wanted.now.selection wanted.now.sentence.now)
        (S.state reader.old) (S.state reader.new) (W.state writer.old) (W.state writer.new) result }
{
    let mut picture = JobPicture {
        machine: Machine::new(alloc, profile, Start::At(*panel)),
        wanted: *wanted,
        progress: Progress::first_page(),
        is_started: false,
    };
    render_job(alloc, reader, &mut picture, writer)
}
