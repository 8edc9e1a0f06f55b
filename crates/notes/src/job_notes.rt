//! The notes of a job on one printer, from one panel.
ghost use Rattle.std.specs.Prelude.{◌≡◌, IfOk, IsFalse, OnOk, false, refl};
ghost use Rattle.device_profile.specs.Printer.{IsAllowed};
ghost use Rattle.notes.specs.Carriers.Rest.{WritesNotes, notes_from};
ghost use Rattle.notes.specs.Notes.{long_run, noted_outcome, notes_at_end, notes_rendering};
ghost use Rattle.renderings.specs.Carriers.Rests.{faults_matter};
ghost use Rattle.renderings.specs.Expected.{Renders};
ghost use Rattle.renderings.specs.Outcomes.{fails_with};
ghost use Rattle.verdict.specs.Failing.{found_at};

use crate::closing::Closing;
use crate::item_notes::tell_item;
use crate::note::{Note, NoteText};
use crate::past::Past;
use crate::state_before::{has_rows_left, state_before_at, tell_behind};
use crate::telling::tell;
use device_profile::{Panel, Profile};
use page_env::Finding;
use page_machine::{Machine, Start, Stop};
use pcl_items::{Item, LexFault, Place};
use renderings::{Outcome, Renderer, render_job};
use std::alloc::{AllocError, Allocator};
use streams::{Error, Outlet, Source};
use verdict::Reason;

/// Executes the items on a machine at its panel, and tells the notes of each.
#[derive(Drop)]
struct Notes<'p, N: NoteText, P: Allocator, B: Allocator + Copy> {
    /// How a note is told.
    form: &'p N,
    machine: Machine<'p, P, B>,
    panel: Panel,
    /// The items so far.
    past: Past,
    /// The pages so far.
    closing: Closing,
    /// The notes that were told, at most one of each.
    told: Vec<Note, B>,
}

/// What a job comes to by a finding, the note of which is told where it has one.
fn end_at<N: NoteText, A: Allocator, B: Allocator>(
    form: &N,
    told: &mut Vec<Note, B>,
    text: &mut Vec<u8, A>,
    place: Place,
    finding: Finding,
) -> Result<Outcome, AllocError>
    ensures tells { OnOk result (WritesNotes (N.note_text form.now) told.old.items
        told.new.items text.old.items text.new.items
        (long_run (fails_with (found_at place 1 finding)))) }
    ensures outcome { IfOk result
        (λ outcome. outcome ≡ noted_outcome (fails_with (found_at place 1 finding))) }
{
    let is_long = Reason::Finding(finding).is_many_items();
    tell(form, told, text, is_long, place, Note::LongRun)?;
    if is_long {
        return Ok(Outcome::Done);
    }
    Ok(Outcome::of_finding(place, finding))
}

/// Tells the notes of the end of the bytes.
fn tell_end<N: NoteText, A: Allocator, B: Allocator>(
    form: &N,
    told: &mut Vec<Note, B>,
    text: &mut Vec<u8, A>,
    is_open: bool,
    has_no_page: bool,
    is_short: bool,
    place: Place,
) -> Result<(), AllocError>
    ensures { OnOk result (WritesNotes (N.note_text form.now) told.old.items
        told.new.items text.old.items text.new.items
        (notes_at_end is_open has_no_page is_short place)) }
{
    tell(form, told, text, is_open, place, Note::OpenEnd)?;
    tell(form, told, text, has_no_page, place, Note::NoPage)?;
    tell(form, told, text, is_short, place, Note::ShortRaster)?;
    Ok(())
}

impl<N: NoteText, P: Allocator, B: Allocator + Copy> Renderer for Notes<'_, N, P, B> {
    ghost rendering = { λ notes. notes_from (N.note_text notes.form.now) notes.machine notes.panel
        notes.past notes.closing.closed notes.told.items };

    ghost is_in = { λ notes mode. (notes.machine.stopped ≡ false) × (notes.machine.mode ≡ mode) };

    #[inline(always)]
    fn item<W: Outlet, A: Allocator>(
        &mut self,
        _outlet: &mut W,
        kept: &mut Vec<u8, A>,
        place: Place,
        item: &Item<'_>,
    ) -> Result<Option<Outcome>, Error> {
        let before = state_before_at(&self.machine, &self.panel, item);
        tell_item(self.form, &mut self.told, kept, self.past, place, item)?;
        match self.machine.step(item, &mut self.closing) {
            Ok(()) => {
                let (page, panel) = (self.machine.page(), &self.panel);
                tell_behind(
                    self.form,
                    &mut self.told,
                    kept,
                    before,
                    page,
                    panel,
                    place,
                    item,
                )?;
                self.past = self.past.behind(item);
                Ok(None)
            }
            Err(Stop::Found(finding)) => {
                Ok(Some(end_at(self.form, &mut self.told, kept, place, finding)?))
            }
            Err(Stop::Refused(never)) => match never {},
            Err(Stop::Memory(_)) => Err(Error::Memory),
            Err(Stop::Stopped) => unreachable!(),
        }
    }

    fn end<W: Outlet, A: Allocator>(
        &mut self,
        _outlet: &mut W,
        kept: &mut Vec<u8, A>,
        place: Place,
    ) -> Result<Outcome, Error> {
        let is_short = has_rows_left(self.machine.page().raster);
        match self.machine.finish(&mut self.closing) {
            Ok(()) => {
                let has_no_page = !self.closing.closed;
                tell_end(
                    self.form,
                    &mut self.told,
                    kept,
                    self.past.is_open,
                    has_no_page,
                    is_short,
                    place,
                )?;
                Ok(Outcome::Done)
            }
            Err(Stop::Found(finding)) => Ok(end_at(
                self.form,
                &mut self.told,
                kept,
                place,
                finding,
            )?),
            Err(Stop::Refused(never)) => match never {},
            Err(Stop::Memory(_)) => Err(Error::Memory),
            Err(Stop::Stopped) => unreachable!(),
        }
    }

    fn fault<W: Outlet, A: Allocator>(
        &mut self,
        _outlet: &mut W,
        _kept: &mut Vec<u8, A>,
        fault: LexFault,
    ) -> Result<Outcome, Error> {
        Ok(Outcome::of_fault(fault))
    }

    ghost adds_at_fault = { λ _ place cause. refl };

    ghost rest_matters = { λ notes over. faults_matter
        (notes_from (N.note_text notes.form.now) notes.machine notes.panel
        notes.past notes.closing.closed notes.told.items)
        (λ place. refl) over };
}

/// Writes the notes of a job on a printer from a panel that its profile allows, each in this form,
/// in the order of the items by which they hold. A note is told once, where it holds first.
///
/// The first finding ends it, or else a fault of the bytes; what was told before is then written.
/// But where macros would carry out more items than the profile allows, that is a note, and the
/// job is done: what follows is not looked at. `Profile::limit_items` sets this limit.
///
/// After an error a front of the text is written: `Memory` where the allocator refused a request,
/// `Read` and `Write` where a read or a write failed, `Turns` after 2^40 reads without an end.
pub fn notes_of<N: NoteText, S: Source, W: Outlet, A: Allocator + Copy, P: Allocator>(
    alloc: A,
    form: &N,
    reader: &mut S,
    profile: &Profile<P>,
    panel: &Panel,
    writer: &mut W,
) -> Result<Outcome, Error>
    requires reading { IsFalse (S.state reader.old).failed }
    requires writing { IsFalse (W.state writer.old).failed }
    requires allowed { IsAllowed profile.now panel.now }
    ensures { Renders (notes_rendering (N.note_text form.now) profile.now panel.now)
        (S.state reader.old) (S.state reader.new)
        (W.state writer.old) (W.state writer.new) result }
{
    let machine = Machine::new(alloc, profile, Start::At(*panel));
    let past = Past::none();
    let told = Vec::new(alloc);
    let mut notes = Notes {
        form,
        machine,
        panel: *panel,
        past,
        closing: Closing { closed: false },
        told,
    };
    render_job(alloc, reader, &mut notes, writer)
}
