//! The pages of a job on one printer, from one panel.
ghost use Rattle.std.specs.Prelude.{◌≡◌, IsFalse, false, refl};
ghost use Rattle.device_profile.specs.Printer.{IsAllowed};
ghost use Rattle.renderings.specs.Carriers.PageRendering.{pages_from, TakesLine, RefusesLine};
ghost use Rattle.renderings.specs.Carriers.Rendering.{IsErrorOfRendering};
ghost use Rattle.renderings.specs.Carriers.Rests.{faults_matter};
ghost use Rattle.streams.specs.Writing.{PutsKept};
ghost use Rattle.renderings.specs.Expected.{Renders, pages_rendering};
ghost use Rattle.streams.specs.Errors.{is_err_of_write, is_write};

use crate::outcome::Outcome;
use crate::render::{Renderer, render_job};
use device_profile::{Panel, Profile};
use line_words::{push_mark, push_page};
use page_env::{Mark, PageEnd};
use page_machine::{Machine, MarkSink, Start, Stop};
use pcl_items::{Item, LexFault, Place};
use std::alloc::Allocator;
use streams::{Error, Outlet, Source, write_enough};

/// Writes a line for each mark and for each end of a page.
#[derive(Drop)]
struct PageText<'t, W: Outlet, A: Allocator> {
    outlet: &'t mut W,
    kept: &'t mut Vec<u8, A>,
    /// The number of the page that is open, from 1; it stands still at 2^64 - 1.
    page: u64,
}

impl<W: Outlet, A: Allocator> PageText<'_, W, A> {
    /// Writes the text that is kept, where there is enough of it.
    fn write_enough(&mut self) -> Result<(), Error>
        ensures text { PutsKept (W.state self.old.outlet.now) (W.state self.new.outlet.now)
            self.old.kept.now.items self.new.kept.now.items result }
        ensures status { (W.state self.new.outlet.now).failed ≡ is_err_of_write result }
        ensures same { (self.new.outlet.ghost_name ≡ self.old.outlet.ghost_name)
            × (self.new.kept.ghost_name ≡ self.old.kept.ghost_name) }
        ensures page { self.new.page ≡ self.old.page }
    {
        if self.outlet.has_failed() {
            return Err(Error::Write);
        }
        write_enough(self.outlet, self.kept)
    }
}

impl<W: Outlet, A: Allocator> MarkSink for PageText<'_, W, A> {
    type Fault = Error;

    ghost takes = { TakesLine W.state };

    ghost refuses = { RefusesLine W.state };

    fn mark(&mut self, mark: &Mark<'_>) -> Result<(), Error> {
        push_mark(self.kept, mark)?;
        self.write_enough()
    }

    fn page(&mut self, page: PageEnd) -> Result<(), Error> {
        push_page(self.kept, self.page, page)?;
        self.page = self.page.saturating_add(1);
        self.write_enough()
    }
}

/// Executes the items on a machine that knows the panel, and writes what they mark.
#[derive(Drop)]
struct Pages<'p, P: Allocator, B: Allocator + Copy> {
    machine: Machine<'p, P, B>,
    /// The number of the page that is open.
    page: u64,
}

/// Why a line was refused: the outlet failed, or else memory was refused.
fn refusal<W: Outlet>(outlet: &W) -> Error
    ensures status { (W.state outlet.now).failed ≡ is_write result }
    ensures error { IsErrorOfRendering result }
{
    if outlet.has_failed() {
        Error::Write
    } else {
        Error::Memory
    }
}

impl<P: Allocator, B: Allocator + Copy> Renderer for Pages<'_, P, B> {
    ghost rendering = { λ pages. pages_from pages.machine pages.page };

    ghost is_in = { λ pages mode. (pages.machine.stopped ≡ false) × (pages.machine.mode ≡ mode) };

    #[inline(always)]
    fn item<W: Outlet, A: Allocator>(
        &mut self,
        outlet: &mut W,
        kept: &mut Vec<u8, A>,
        place: Place,
        item: &Item<'_>,
    ) -> Result<Option<Outcome>, Error> {
        let mut text = PageText {
            outlet,
            kept,
            page: self.page,
        };
        match self.machine.step(item, &mut text) {
            Ok(()) => {
                self.page = text.page;
                Ok(None)
            }
            Err(Stop::Found(finding)) => Ok(Some(Outcome::of_finding(place, finding))),
            // Whether the outlet failed or memory was refused, the outlet tells.
            Err(Stop::Refused(_)) => Err(refusal(text.outlet)),
            Err(Stop::Memory(_)) => Err(Error::Memory),
            Err(Stop::Stopped) => unreachable!(),
        }
    }

    fn end<W: Outlet, A: Allocator>(
        &mut self,
        outlet: &mut W,
        kept: &mut Vec<u8, A>,
        place: Place,
    ) -> Result<Outcome, Error> {
        let mut text = PageText {
            outlet,
            kept,
            page: self.page,
        };
        match self.machine.finish(&mut text) {
            Ok(()) => Ok(Outcome::Done),
            Err(Stop::Found(finding)) => Ok(Outcome::of_finding(place, finding)),
            // Whether the outlet failed or memory was refused, the outlet tells.
            Err(Stop::Refused(_)) => Err(refusal(text.outlet)),
            Err(Stop::Memory(_)) => Err(Error::Memory),
            Err(Stop::Stopped) => unreachable!(),
        }
    }

    fn fault<W: Outlet, A: Allocator>(
        &mut self,
        _outlet: &mut W,
        _kept: &mut Vec<u8, A>,
        fault: LexFault,
    ) -> Result<Outcome, Error> {
        Ok(Outcome::of_fault(fault))
    }

    ghost adds_at_fault = { λ _ place cause. refl };

    ghost rest_matters = { λ pages over. faults_matter (pages_from pages.machine pages.page)
        (λ place. refl) over };
}

/// Writes the pages of a job on a printer from a panel that its profile allows: a line for each
/// mark, in the order of the job, and one for the end of each page.
///
/// The first finding ends it, or else a fault of the bytes; what was marked before is then written.
/// After an error a front of the text is written: `Memory` where the allocator refused a request,
/// `Read` and `Write` where a read or a write failed, `Turns` after 2^40 reads without an end.
pub fn pages_of<S: Source, W: Outlet, A: Allocator + Copy, P: Allocator>(
    alloc: A,
    reader: &mut S,
    profile: &Profile<P>,
    panel: &Panel,
    writer: &mut W,
) -> Result<Outcome, Error>
    requires reading { IsFalse (S.state reader.old).failed }
    requires writing { IsFalse (W.state writer.old).failed }
    requires allowed { IsAllowed profile.now panel.now }
    ensures { Renders (pages_rendering profile.now panel.now)
        (S.state reader.old) (S.state reader.new) (W.state writer.old) (W.state writer.new) result }
{
    let mut pages = Pages {
        machine: Machine::new(alloc, profile, Start::At(*panel)),
        page: 1,
    };
    render_job(alloc, reader, &mut pages, writer)
}
