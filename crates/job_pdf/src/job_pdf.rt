//! The pages of a job on one printer, from one panel, as a PDF document.
ghost use Rattle.std.specs.Prelude.{◌≡◌, ◌++◌, IsFalse, OnOk, false, refl};
ghost use Rattle.device_profile.specs.Printer.{IsAllowed};
ghost use Rattle.page_env.specs.Places.{cursor_x, cursor_y, geometry_of, origin_on};
ghost use Rattle.page_env.specs.Settings.{state_at};
ghost use Rattle.renderings.specs.Carriers.PageRendering.{any_panel};
ghost use Rattle.renderings.specs.Carriers.Rests.{faults_matter};
ghost use Rattle.renderings.specs.Expected.{Renders};
ghost use Rattle.job_pdf.specs.Carriers.Rest.{drawn_from};
ghost use Rattle.job_pdf.specs.JobPdf.{failed_end, pdf_rendering, whole_end};
ghost use Rattle.job_pdf.specs.Plan.{plan_of};
ghost use Rattle.job_pdf.specs.Sheet.{drawn_failure, end_text, sheet_of};
ghost use Rattle.job_pdf.specs.Telling.{told_failure};

use crate::drawing::{finish_on, step_on};
use crate::sheet::{Sheet, push_drawn_failure, push_start_if_due};
use crate::telling::{told_failure, told_whole};
use crate::wanted::WantedPages;
use device_profile::{Geometry, Panel, Profile};
use page_env::{Page, SheetPlace, cursor_on};
use page_machine::{Machine, Start};
use page_pdf::{Document, PageSheet};
use pcl_items::{Item, LexFault, Place};
use renderings::{Outcome, Renderer, render_job};
use std::alloc::{AllocError, Allocator};
use streams::{Error, Outlet, Source};
use verdict::Failure;

/// Executes the items on a machine that knows the panel, and writes what they mark.
#[derive(Drop)]
struct JobPdf<'p, 'w, P: Allocator, B: Allocator + Copy> {
    machine: Machine<'p, P, B>,
    wanted: &'w WantedPages<'w, B>,
    document: Document<B>,
    /// What stands before the pages is written.
    is_started: bool,
    alloc: B,
}

/// The paper of the page that is open. The panel is known, so no setting is left to it.
fn paper_of<P: Allocator>(profile: &Profile<P>, page: &Page) -> Geometry
    ensures { result ≡ geometry_of profile.now (state_at any_panel page.now) }
{
    let fields = &page.env.fields;
    profile.page_geometry(fields.size.under(0), fields.orientation.under(0))
}

/// The sheet of the page that is open.
fn sheet_of<P: Allocator, B: Allocator>(
    profile: &Profile<P>,
    page: &Page,
    wanted: &WantedPages<'_, B>,
) -> Sheet
    ensures { result ≡ sheet_of (plan_of wanted.now) profile.now (state_at any_panel page.now) }
{
    Sheet {
        selection: wanted.selection,
        page: PageSheet {
            paper: paper_of(profile, page),
            is_proof: wanted.is_proof,
        },
    }
}

/// Where the cursor stands on the sheet.
fn place_on(paper: &Geometry, page: &Page) -> SheetPlace
    ensures x { result.x ≡ cursor_x (origin_on paper.now) (state_at any_panel page.now) }
    ensures y { result.y ≡ cursor_y (origin_on paper.now) (state_at any_panel page.now) }
{
    cursor_on(paper, page, page.env.fields.vmi.under(0))
}

/// Writes the end of the document, with this sentence on the job.
fn push_end_text<A: Allocator, B: Allocator + Copy>(
    text: &mut Vec<u8, A>,
    wanted: &WantedPages<'_, B>,
    document: &mut Document<B>,
    sentence: &[u8],
) -> Result<(), AllocError>
    ensures { OnOk result (text.new.items ≡ text.old.items
        ++ end_text (plan_of wanted.now) sentence.now document.old) }
{
    document.push_end(text, wanted.job, wanted.printers.first_name(), sentence)
}

/// Writes the end of the document behind pages that print.
fn push_whole_end<A: Allocator, B: Allocator + Copy>(
    alloc: B,
    text: &mut Vec<u8, A>,
    wanted: &WantedPages<'_, B>,
    document: &mut Document<B>,
) -> Result<(), AllocError>
    ensures { OnOk result
        (text.new.items ≡ text.old.items ++ whole_end (plan_of wanted.now) document.old) }
{
    let told = told_whole(alloc, wanted)?;
    push_end_text(text, wanted, document, told.as_slice())
}

/// Writes a failure, and the end of the document behind it.
fn push_failure_end<A: Allocator, B: Allocator + Copy>(
    alloc: B,
    text: &mut Vec<u8, A>,
    wanted: &WantedPages<'_, B>,
    document: &mut Document<B>,
    sheet: &Sheet,
    spot: SheetPlace,
    failure: Failure,
) -> Result<(), AllocError>
    ensures { OnOk result (text.new.items ≡ text.old.items
        ++ failed_end (plan_of wanted.now)
        (told_failure (plan_of wanted.now) document.old.page failure)
        (drawn_failure sheet.now (record { x = spot.x; y = spot.y })
        (told_failure (plan_of wanted.now) document.old.page failure) document.old)) }
{
    let told = told_failure(alloc, wanted, document.page(), failure)?;
    push_drawn_failure(text, sheet, document, spot, told.as_slice())?;
    push_end_text(text, wanted, document, told.as_slice())
}

impl<P: Allocator, B: Allocator + Copy> Renderer for JobPdf<'_, '_, P, B> {
    ghost rendering = { λ job. drawn_from (plan_of job.wanted.now) job.machine job.document
        job.is_started };

    ghost is_in = { λ job mode. (job.machine.stopped ≡ false) × (job.machine.mode ≡ mode) };

    #[inline(always)]
    fn item<W: Outlet, A: Allocator>(
        &mut self,
        outlet: &mut W,
        kept: &mut Vec<u8, A>,
        place: Place,
        item: &Item<'_>,
    ) -> Result<Option<Outcome>, Error> {
        let sheet = sheet_of(self.machine.profile(), self.machine.page(), self.wanted);
        let spot = place_on(&sheet.page.paper, self.machine.page());
        push_start_if_due(kept, &mut self.document, self.is_started)?;
        self.is_started = true;
        let (machine, document) = (&mut self.machine, &mut self.document);
        let found = step_on(machine, &sheet, document, outlet, kept, item)?;
        if self.wanted.selection.is_behind(self.document.page()) {
            push_whole_end(self.alloc, kept, self.wanted, &mut self.document)?;
            return Ok(Some(Outcome::Done));
        }
        match found {
            None => Ok(None),
            Some(finding) => {
                let failure = Failure::of_finding(place, 1, finding);
                let (alloc, document) = (self.alloc, &mut self.document);
                push_failure_end(alloc, kept, self.wanted, document, &sheet, spot, failure)?;
                Ok(Some(Outcome::of_finding(place, finding)))
            }
        }
    }

    fn end<W: Outlet, A: Allocator>(
        &mut self,
        outlet: &mut W,
        kept: &mut Vec<u8, A>,
        place: Place,
    ) -> Result<Outcome, Error> {
        let sheet = sheet_of(self.machine.profile(), self.machine.page(), self.wanted);
        let spot = place_on(&sheet.page.paper, self.machine.page());
        push_start_if_due(kept, &mut self.document, self.is_started)?;
        let (machine, document) = (&mut self.machine, &mut self.document);
        let found = finish_on(machine, &sheet, document, outlet, kept)?;
        if self.wanted.selection.is_behind(self.document.page()) {
            push_whole_end(self.alloc, kept, self.wanted, &mut self.document)?;
            return Ok(Outcome::Done);
        }
        match found {
            None => {
                push_whole_end(self.alloc, kept, self.wanted, &mut self.document)?;
                Ok(Outcome::Done)
            }
            Some(finding) => {
                let failure = Failure::of_finding(place, 1, finding);
                let (alloc, document) = (self.alloc, &mut self.document);
                push_failure_end(alloc, kept, self.wanted, document, &sheet, spot, failure)?;
                Ok(Outcome::of_finding(place, finding))
            }
        }
    }

    fn fault<W: Outlet, A: Allocator>(
        &mut self,
        _outlet: &mut W,
        kept: &mut Vec<u8, A>,
        fault: LexFault,
    ) -> Result<Outcome, Error> {
        let sheet = sheet_of(self.machine.profile(), self.machine.page(), self.wanted);
        let spot = place_on(&sheet.page.paper, self.machine.page());
        push_start_if_due(kept, &mut self.document, self.is_started)?;
        let failure = Failure::of_fault(fault);
        let (alloc, document) = (self.alloc, &mut self.document);
        push_failure_end(alloc, kept, self.wanted, document, &sheet, spot, failure)?;
        Ok(Outcome::of_fault(fault))
    }

    ghost adds_at_fault = { λ _ place cause. refl };

    ghost rest_matters = { λ job over. faults_matter
        (drawn_from (plan_of job.wanted.now) job.machine job.document job.is_started)
        (λ place. refl) over };
}

/// Writes pages of a job on a printer, from a panel that its profile allows, as a PDF document.
///
/// The page on which the job fails stands as far as it came before the first finding, or before a
/// fault of the bytes, with a cross where the cursor was and a sentence. A job that does not have
/// the page that is wanted alone gives a document of no page: callers ask for that before. After an
/// error a front of the text is written: `Memory` where the allocator refused a request, `Read` and
/// `Write` where a read or a write failed, `Turns` after 2^40 reads without an end.
pub fn pdf_of<S: Source, W: Outlet, A: Allocator + Copy, P: Allocator>(
    alloc: A,
    reader: &mut S,
    profile: &Profile<P>,
    panel: &Panel,
    wanted: &WantedPages<'_, A>,
    writer: &mut W,
) -> Result<Outcome, Error>
    requires reading { IsFalse (S.state reader.old).failed }
    requires writing { IsFalse (W.state writer.old).failed }
    requires allowed { IsAllowed profile.now panel.now }
    ensures { Renders (pdf_rendering profile.now panel.now (plan_of wanted.now))
        (S.state reader.old) (S.state reader.new) (W.state writer.old) (W.state writer.new) result }
{
    let mut job = JobPdf {
        machine: Machine::new(alloc, profile, Start::At(*panel)),
        wanted,
        document: Document::new(alloc),
        is_started: false,
        alloc,
    };
    render_job(alloc, reader, &mut job, writer)
}
