//! What is told of the pages of a job before they are drawn: whether the job fails on them, and
//! whether it has them.
ghost use Rattle.std.specs.Prelude.{◌≡◌, ◌++◌, IfErr, IsSome, OnOk, None, Some, false, refl};
ghost use Rattle.pcl_items.specs.declared.item.Mode.TheVariants.{Pcl};
ghost use Rattle.pcl_items.specs.Modes.{follows};
ghost use Rattle.pcl_items.specs.Items.{view};
ghost use Rattle.device_profile.specs.Printer.{IsAllowed};
ghost use Rattle.page_env.specs.Settings.{state_at};
ghost use Rattle.renderings.specs.Carriers.PageRendering.{any_panel};
ghost use Rattle.job_reports.specs.JobSentences.{fails_where};
ghost use Rattle.requests.specs.Selection.{is_behind};
ghost use Rattle.picture_command.specs.Carriers.{Finishes, Keeps, Steps, search_from};
ghost use Rattle.picture_command.specs.SearchedRests.{search_matters};
ghost use Rattle.picture_command.specs.PageSearch.{drawn_line, font_of, font_where};
ghost use Rattle.picture_command.specs.PageSearch.{found_at_failure, missing_line};
ghost use Rattle.picture_command.specs.PageSearch.{missing_part, open_page, search_rendering};
ghost use Rattle.picture_command.specs.PageSearch.{sentence, spot_of, spot_where, text_at_end};

use device_profile::{Panel, Profile, nearest_request};
use job_reports::{PrinterGroup, Report, push_job_sentence, push_named_first};
use judgement::{FailingItem, Judgement, MissingFont, SheetSpot};
use line_words::push_named;
use page_env::{Finding, font_request, known_cursor};
use page_machine::{Machine, Start, Stop};
use pcl_items::{Item, LexFault, Place};
use renderings::{Outcome, Renderer};
use requests::{DrawnPages, Selection};
use sinks::Counts;
use std::alloc::{AllocError, Allocator};
use streams::{Error, Outlet};
use verdict::{Failure, Verdict};

/// Whose pages are searched for, and for which printer: names for sentences.
#[derive(Drop)]
pub struct Names<'n, B: Allocator> {
    /// The name of the job.
    pub job: &'n [u8],
    pub printers: &'n PrinterGroup<'n, B>,
}

// ---- calls of the machine

/// Carries out an item, and counts its marks and pages. A finding ends the job.
///
/// An error is `Memory`.
#[inline(always)]
fn step_on<P: Allocator, B: Allocator + Copy>(
    machine: &mut Machine<'_, P, B>,
    counts: &mut Counts,
    item: &Item<'_>,
) -> Result<Option<Finding>, Error>
    requires running { machine.old.stopped ≡ false }
    requires admitted { IsSome (follows machine.old.mode (view item.now)) }
    ensures steps { Steps machine.old machine.new (view item.now) counts.old counts.new result }
    ensures err { IfErr result (λ error. error ≡ Error.Memory) }
{
    match machine.step(item, counts) {
        Ok(()) => Ok(None),
        Err(Stop::Found(finding)) => Ok(Some(finding)),
        Err(Stop::Refused(never)) => match never {},
        Err(Stop::Memory(_)) => Err(Error::Memory),
        Err(Stop::Stopped) => unreachable!(),
    }
}

/// Carries out the end of the bytes.
///
/// An error is `Memory`.
fn finish_on<P: Allocator, B: Allocator + Copy>(
    machine: &mut Machine<'_, P, B>,
    counts: &mut Counts,
) -> Result<Option<Finding>, Error>
    requires { machine.old.stopped ≡ false }
    ensures finishes { Finishes machine.old counts.old counts.new result }
    ensures err { IfErr result (λ error. error ≡ Error.Memory) }
{
    match machine.finish(counts) {
        Ok(()) => Ok(None),
        Err(Stop::Found(finding)) => Ok(Some(finding)),
        Err(Stop::Refused(never)) => match never {},
        Err(Stop::Memory(_)) => Err(Error::Memory),
        Err(Stop::Stopped) => unreachable!(),
    }
}

/// Where the cursor of a machine stands, if no panel decides that.
fn spot_of<P: Allocator, B: Allocator + Copy>(machine: &Machine<'_, P, B>) -> Option<SheetSpot>
    ensures { result ≡ spot_of machine.now.printer (state_at any_panel machine.now.page) }
{
    match known_cursor(machine.profile(), machine.page()) {
        Err(_) => None,
        Ok(place) => Some(SheetSpot::of(place)),
    }
}

/// The same where an item was one step, so that it is where the cursor stood before that.
fn spot_where<P: Allocator, B: Allocator + Copy>(
    machine: &Machine<'_, P, B>,
    one_step: bool,
) -> Option<SheetSpot>
    ensures { result ≡ spot_where one_step machine.now.printer
        (state_at any_panel machine.now.page) }
{
    if one_step { spot_of(machine) } else { None }
}

/// Which font a machine is asked for, if no panel decides that, and the nearest that its printer
/// has.
fn font_of<P: Allocator, B: Allocator + Copy>(machine: &Machine<'_, P, B>) -> Option<MissingFont>
    ensures { result ≡ font_of machine.now.printer (state_at any_panel machine.now.page) }
{
    let profile = machine.profile();
    match font_request(profile, machine.page()) {
        Err(_) => None,
        Ok(asked) => {
            let nearest = nearest_request(profile.faces(), &asked);
            Some(MissingFont { asked, nearest })
        }
    }
}

/// The same where an item was one step, so that it is what was asked for before that. It is told of
/// 13 NoFont alone.
fn font_where<P: Allocator, B: Allocator + Copy>(
    machine: &Machine<'_, P, B>,
    one_step: bool,
) -> Option<MissingFont>
    ensures { result ≡ font_where one_step machine.now.printer
        (state_at any_panel machine.now.page) }
{
    if one_step { font_of(machine) } else { None }
}

// ---- the search

/// Executes the items on a machine that knows the panel, up to the end of the page that is searched
/// for, and tells why it does not come.
#[derive(Drop)]
pub(crate) struct PageSearch<'p, 'n, B: Allocator + Copy> {
    machine: Machine<'p, B, B>,
    names: &'n Names<'n, B>,
    selection: Selection,
    counts: Counts,
    alloc: B,
}

impl<'p, 'n, B: Allocator + Copy> PageSearch<'p, 'n, B> {
    /// Nothing is executed yet.
    pub fn new(
        alloc: B,
        profile: &'p Profile<B>,
        panel: &Panel,
        names: &'n Names<'n, B>,
        selection: Selection,
    ) -> PageSearch<'p, 'n, B>
        requires { IsAllowed profile.now panel.now }
        ensures rendering { search_from result.selection result.names.now.job.now
            result.names.now.printers.now result.machine result.counts
            ≡ search_rendering profile.now panel.now selection
            names.now.job.now names.now.printers.now }
        ensures mode { (result.machine.stopped ≡ false) × (result.machine.mode ≡ Pcl) }
    {
        PageSearch {
            machine: Machine::new(alloc, profile, Start::At(*panel)),
            names,
            selection,
            counts: Counts::none(),
            alloc,
        }
    }

    /// The number of the page that is open.
    fn open_page(&self) -> u64
        ensures { result ≡ open_page self.now.counts }
    {
        self.counts.pages.saturating_add(1)
    }

    /// All pages that are searched for have ended.
    fn is_over(&self) -> bool
        ensures { result ≡ is_behind self.now.selection (open_page self.now.counts) }
    {
        self.selection.is_behind(self.open_page())
    }

    /// Appends the sentence on a verdict.
    fn push_sentence<A: Allocator>(
        &self,
        text: &mut Vec<u8, A>,
        verdict: Verdict,
        cursor: Option<SheetSpot>,
        font: Option<MissingFont>,
        failing_item: Option<FailingItem>,
    ) -> Result<(), AllocError>
        ensures { OnOk result (text.new.items ≡ text.old.items
            ++ sentence self.now.names.now.job.now self.now.names.now.printers.now
            (fails_where (Some (open_page self.now.counts)) cursor font failing_item) verdict) }
    {
        let mut line = Vec::new(self.alloc);
        let report = Report {
            printers: self.names.printers,
            job: self.names.job,
            answer: Ok(Judgement {
                verdict,
                failing_item,
                page: Some(self.open_page()),
                cursor,
                font,
            }),
            cause: None,
        };
        push_job_sentence(self.alloc, &mut line, &report)?;
        text.extend_from_slice(line.as_slice())
    }

    /// Appends that the job does not have the page of this number.
    fn push_missing_line<A: Allocator>(
        &self,
        text: &mut Vec<u8, A>,
        number: u64,
    ) -> Result<(), AllocError>
        ensures { OnOk result (text.new.items ≡ text.old.items
            ++ missing_line self.now.names.now.job.now number self.now.counts.pages) }
    {
        push_named_first(self.alloc, text, self.names.job)?;
        push_named(text, b"there is no page ", number)?;
        push_named(text, b" (pages=", self.counts.pages)?;
        text.extend_from_slice(b")\n")
    }

    /// Appends that the job does not have the page that is searched for alone.
    fn push_missing_part<A: Allocator>(&self, text: &mut Vec<u8, A>) -> Result<(), AllocError>
        ensures { OnOk result (text.new.items ≡ text.old.items
            ++ missing_part self.now.selection self.now.names.now.job.now self.now.counts) }
    {
        match self.selection.pages {
            DrawnPages::All => Ok(()),
            DrawnPages::One(number) => self.push_missing_line(text, number),
        }
    }

    /// Appends that all pages are drawn.
    fn push_drawn_line<A: Allocator>(&self, text: &mut Vec<u8, A>) -> Result<(), AllocError>
        ensures { OnOk result (text.new.items ≡ text.old.items
            ++ drawn_line self.now.names.now.job.now self.now.names.now.printers.now
            self.now.counts) }
    {
        push_named_first(self.alloc, text, self.names.job)?;
        text.extend_from_slice(self.names.printers.first_name())?;
        push_named(
            text,
            b" prints this job from this panel (pages=",
            self.counts.pages,
        )?;
        push_named(text, b" marks=", self.counts.marks)?;
        text.extend_from_slice(b")\n")
    }

    /// Tells a failure. Where it comes before the page that is searched for, the job does not have
    /// that page.
    fn tell_failure<A: Allocator>(
        &self,
        text: &mut Vec<u8, A>,
        failure: Failure,
        cursor: Option<SheetSpot>,
        font: Option<MissingFont>,
        failing_item: Option<FailingItem>,
    ) -> Result<Outcome, Error>
        ensures told { Keeps text.old.items text.new.items
            (found_at_failure self.now.selection self.now.names.now.job.now
            self.now.names.now.printers.now self.now.counts
            (fails_where None cursor font failing_item) failure) result }
        ensures err { IfErr result (λ error. error ≡ Error.Memory) }
    {
        if self.selection.is_drawn(self.open_page()) {
            self.push_sentence(text, failure.verdict(), cursor, font, failing_item)?;
            return Ok(Outcome::of(failure));
        }
        self.push_missing_part(text)?;
        self.push_sentence(text, failure.verdict(), cursor, font, failing_item)?;
        Ok(Outcome::Done)
    }

    /// Tells the end of the job.
    fn push_end<A: Allocator>(&self, text: &mut Vec<u8, A>) -> Result<(), AllocError>
        ensures { OnOk result (text.new.items ≡ text.old.items
            ++ text_at_end self.now.selection self.now.names.now.job.now
            self.now.names.now.printers.now self.now.counts) }
    {
        match self.selection.pages {
            DrawnPages::One(number) => self.push_missing_line(text, number),
            DrawnPages::All => self.push_drawn_line(text),
        }
    }
}

impl<B: Allocator + Copy> Renderer for PageSearch<'_, '_, B> {
    ghost rendering = { λ search. search_from search.selection search.names.now.job.now
        search.names.now.printers.now search.machine search.counts };

    ghost is_in = { λ search mode. (search.machine.stopped ≡ false)
        × (search.machine.mode ≡ mode) };

    #[inline(always)]
    fn item<W: Outlet, A: Allocator>(
        &mut self,
        _outlet: &mut W,
        kept: &mut Vec<u8, A>,
        place: Place,
        item: &Item<'_>,
    ) -> Result<Option<Outcome>, Error> {
        let found = step_on(&mut self.machine, &mut self.counts, item)?;
        if self.is_over() {
            return Ok(Some(Outcome::Done));
        }
        match found {
            None => Ok(None),
            Some(finding) => {
                let failure = Failure::of_finding(place, 1, finding);
                let failing_item = FailingItem::of(item);
                let one_step = failing_item.is_one_step();
                let cursor = spot_where(&self.machine, one_step);
                let font = font_where(&self.machine, one_step);
                let outcome = self.tell_failure(kept, failure, cursor, font, Some(failing_item))?;
                Ok(Some(outcome))
            }
        }
    }

    fn end<W: Outlet, A: Allocator>(
        &mut self,
        _outlet: &mut W,
        kept: &mut Vec<u8, A>,
        place: Place,
    ) -> Result<Outcome, Error> {
        let found = finish_on(&mut self.machine, &mut self.counts)?;
        if self.is_over() {
            return Ok(Outcome::Done);
        }
        match found {
            None => {
                self.push_end(kept)?;
                Ok(Outcome::Done)
            }
            Some(finding) => {
                let failure = Failure::of_finding(place, 1, finding);
                self.tell_failure(kept, failure, None, None, None)
            }
        }
    }

    fn fault<W: Outlet, A: Allocator>(
        &mut self,
        _outlet: &mut W,
        kept: &mut Vec<u8, A>,
        fault: LexFault,
    ) -> Result<Outcome, Error> {
        self.tell_failure(kept, Failure::of_fault(fault), None, None, None)
    }

    ghost adds_at_fault = { λ _ place cause. refl };

    ghost rest_matters = { λ search over. search_matters search.selection search.names.now.job.now
        search.names.now.printers.now search.machine search.counts over };
}
