//! Carries out an item, and writes what it marks on the sheet of the page that is open.
ghost use Rattle.std.specs.Prelude.{◌≡◌, IfErr, IsFalse, IsSome, false};
ghost use Rattle.pcl_items.specs.Modes.{follows};
ghost use Rattle.pcl_items.specs.Items.{view};
ghost use Rattle.renderings.specs.Carriers.Rendering.{IsErrorOfRendering};
ghost use Rattle.streams.specs.Writing.{PutsKept};
ghost use Rattle.streams.specs.Errors.{is_err_of_write, is_write};
ghost use Rattle.job_pdf.specs.Carriers.Drawing.{Finishes, RefusesPart, Steps, TakesPart};

use crate::sheet::{Sheet, push_drawn_end, push_drawn_mark};
use page_env::{Finding, Mark, PageEnd};
use page_machine::{Machine, MarkSink, Stop};
use page_pdf::Document;
use pcl_items::Item;
use std::alloc::Allocator;
use streams::{Error, Outlet, write_enough};

/// Writes marks and ends of pages on the sheet of the page that is open.
#[derive(Drop)]
struct DocumentText<'o, 'k, 'd, W: Outlet, A: Allocator, B: Allocator + Copy> {
    outlet: &'o mut W,
    kept: &'k mut Vec<u8, A>,
    document: &'d mut Document<B>,
    sheet: Sheet,
}

impl<W: Outlet, A: Allocator, B: Allocator + Copy> DocumentText<'_, '_, '_, W, A, B> {
    /// Writes the text that is kept, where there is enough of it.
    fn write_enough(&mut self) -> Result<(), Error>
        ensures text { PutsKept (W.state self.old.outlet.now) (W.state self.new.outlet.now)
            self.old.kept.now.items self.new.kept.now.items result }
        ensures status { (W.state self.new.outlet.now).failed ≡ is_err_of_write result }
        ensures same { (self.new.outlet.ghost_name ≡ self.old.outlet.ghost_name)
            × (self.new.kept.ghost_name ≡ self.old.kept.ghost_name)
            × (self.new.document.ghost_name ≡ self.old.document.ghost_name) }
        ensures sheet { self.new.sheet ≡ self.old.sheet }
        ensures document { self.new.document.now ≡ self.old.document.now }
    {
        if self.outlet.has_failed() {
            return Err(Error::Write);
        }
        write_enough(self.outlet, self.kept)
    }
}

impl<W: Outlet, A: Allocator, B: Allocator + Copy> MarkSink for DocumentText<'_, '_, '_, W, A, B> {
    type Fault = Error;

    ghost takes = { TakesPart W.state };

    ghost refuses = { RefusesPart W.state };

    fn mark(&mut self, mark: &Mark<'_>) -> Result<(), Error> {
        push_drawn_mark(self.kept, &self.sheet, self.document, mark)?;
        self.write_enough()
    }

    fn page(&mut self, page: PageEnd) -> Result<(), Error> {
        push_drawn_end(self.kept, &self.sheet, self.document, page)?;
        self.write_enough()
    }
}

/// Why a part was refused: the outlet failed, or else memory was refused.
fn refusal<W: Outlet>(outlet: &W) -> Error
    ensures status { (W.state outlet.now).failed ≡ is_write result }
    ensures error { IsErrorOfRendering result }
{
    if outlet.has_failed() {
        Error::Write
    } else {
        Error::Memory
    }
}

/// Carries out an item, and writes what it marks. A finding ends the job.
#[inline(always)]
pub(crate) fn step_on<W: Outlet, A: Allocator, P: Allocator, B: Allocator + Copy>(
    machine: &mut Machine<'_, P, B>,
    sheet: &Sheet,
    document: &mut Document<B>,
    outlet: &mut W,
    kept: &mut Vec<u8, A>,
    item: &Item<'_>,
) -> Result<Option<Finding>, Error>
    requires working { IsFalse (W.state outlet.old).failed }
    requires running { machine.old.stopped ≡ false }
    requires admitted { IsSome (follows machine.old.mode (view item.now)) }
    ensures steps { Steps sheet.now machine.old machine.new (view item.now)
        (W.state outlet.old) (W.state outlet.new) kept.old.items kept.new.items
        document.old document.new result }
    ensures status { (W.state outlet.new).failed ≡ is_err_of_write result }
    ensures err { IfErr result IsErrorOfRendering }
{
    let mut text = DocumentText {
        outlet: &mut *outlet,
        kept,
        document,
        sheet: *sheet,
    };
    match machine.step(item, &mut text) {
        Ok(()) => Ok(None),
        Err(Stop::Found(finding)) => Ok(Some(finding)),
        // Whether the outlet failed or memory was refused, the outlet tells.
        Err(Stop::Refused(_)) => Err(refusal(outlet)),
        Err(Stop::Memory(_)) => Err(Error::Memory),
        Err(Stop::Stopped) => unreachable!(),
    }
}

/// Carries out the end of the bytes, and writes what it marks.
pub(crate) fn finish_on<W: Outlet, A: Allocator, P: Allocator, B: Allocator + Copy>(
    machine: &mut Machine<'_, P, B>,
    sheet: &Sheet,
    document: &mut Document<B>,
    outlet: &mut W,
    kept: &mut Vec<u8, A>,
) -> Result<Option<Finding>, Error>
    requires working { IsFalse (W.state outlet.old).failed }
    requires running { machine.old.stopped ≡ false }
    ensures finishes { Finishes sheet.now machine.old
        (W.state outlet.old) (W.state outlet.new) kept.old.items kept.new.items
        document.old document.new result }
    ensures status { (W.state outlet.new).failed ≡ is_err_of_write result }
    ensures err { IfErr result IsErrorOfRendering }
{
    let mut text = DocumentText {
        outlet: &mut *outlet,
        kept,
        document,
        sheet: *sheet,
    };
    match machine.finish(&mut text) {
        Ok(()) => Ok(None),
        Err(Stop::Found(finding)) => Ok(Some(finding)),
        // Whether the outlet failed or memory was refused, the outlet tells.
        Err(Stop::Refused(_)) => Err(refusal(outlet)),
        Err(Stop::Memory(_)) => Err(Error::Memory),
        Err(Stop::Stopped) => unreachable!(),
    }
}
