//! Jobs that are pinned to one panel.
ghost use Rattle.std.specs.Prelude.{◌≡◌, ◌+◌, ◌≤◌, ◌++◌, map, flat_map, IsFalse, IsTrue, OnOk};
ghost use Rattle.std.specs.Prelude.{refl};
ghost use Rattle.device_profile.specs.Faces.{is_request};
ghost use Rattle.device_profile.specs.Printer.{HasItsValues, IsAllowed};
ghost use Rattle.page_env.specs.JobControl.{is_reset};
ghost use Rattle.page_env.specs.Pinned.{is_orientation, is_unpinnable};
ghost use Rattle.page_machine.specs.Pinning.{written_before, written_behind};
ghost use Rattle.page_machine.specs.Pinning.{is_due_behind, needs_no_prologue};
ghost use Rattle.page_machine.specs.Pinning.{prologue, unsigned, weight_amount};
ghost use Rattle.pcl_items.specs.Spellings.Canon.{canon};
ghost use Rattle.pcl_items.specs.Items.{Parameterized, SymbolSet, simple_view, view};
ghost use Rattle.pcl_items.specs.declared.pcl.command.Command.TheVariants.{FontWeight};
ghost use Rattle.pcl_items.specs.Escapes.Value.{most};
ghost use Rattle.renderings.specs.Carriers.Rests.{faults_matter};
ghost use Rattle.renderings.specs.Expected.{Renders};
ghost use Rattle.renderings.specs.Pins.{pinned_item, pins_from, pinned_rendering};

use crate::outcome::Outcome;
use crate::render::{Renderer, render_job};
use device_profile::{FontRequest, Panel, Profile};
use page_env::{Control, control_of};
use pcl_items::{Command, Item, LexFault, Number, Place, SetLetter, Sign, SimpleItem};
use pcl_spelling::spell;
use std::alloc::{AllocError, Allocator};
use streams::{Error, Outlet, Source, write_enough};

/// A whole number as values have it, in ten-thousandths.
const WHOLE: u32 = 10_000;

/// What a panel chooses, as a job sets it.
#[derive(Clone, Copy)]
struct Settings {
    panel: Panel,
    /// The request of the panel's face.
    request: FontRequest,
    /// A job can set all of it.
    ghost set: { HasItsValues panel × IsTrue (is_request request) },
}

/// A command with a value without a sign, in ten-thousandths.
fn sent(command: Command, ten_thousandths: u32) -> SimpleItem
    requires { ten_thousandths ≤ most }
    ensures { simple_view result ≡ Parameterized command (unsigned ten_thousandths) }
{
    let number = Number {
        sign: Sign::Absent,
        ten_thousandths,
    };
    SimpleItem::Parameterized(command, number)
}

impl Settings {
    /// The symbol set of the request.
    fn symbol_set(&self) -> SimpleItem
        ensures { simple_view result ≡ SymbolSet (unsigned self.now.request.symbol_set.number)
            self.now.request.symbol_set.letter }
    {
        let letter = SetLetter {
            code: self.request.symbol_set.letter,
        };
        let number = Number {
            sign: Sign::Absent,
            ten_thousandths: self.request.symbol_set.number,
        };
        SimpleItem::SymbolSet(letter, number)
    }

    /// The stroke weight of the request, which may be negative.
    fn weight(&self) -> SimpleItem
        ensures { simple_view result ≡ Parameterized FontWeight
            (weight_amount self.now.request.weight) }
    {
        let weight = self.request.weight;
        let number = Number {
            sign: if weight < 0 {
                Sign::Minus
            } else {
                Sign::Absent
            },
            ten_thousandths: weight.unsigned_abs(),
        };
        SimpleItem::Parameterized(Command::FontWeight, number)
    }

    /// The prologue: commands that set all that the panel chooses.
    fn prologue(&self) -> [SimpleItem; 14]
        ensures { map simple_view result ≡ prologue self.now.panel self.now.request }
    {
        [
            sent(Command::PageSize, self.panel.size * WHOLE),
            sent(Command::Orientation, self.panel.orientation * WHOLE),
            sent(Command::Copies, self.panel.copies * WHOLE),
            sent(Command::Sides, self.panel.sides * WHOLE),
            sent(Command::Source, self.panel.tray * WHOLE),
            sent(Command::VerticalMotionIndex, self.panel.vmi),
            self.symbol_set(),
            sent(Command::FontSpacing, self.request.spacing),
            sent(Command::FontPitch, self.request.pitch),
            sent(Command::FontHeight, self.request.height),
            sent(Command::FontStyle, self.request.style),
            self.weight(),
            sent(Command::FontTypeface, self.request.typeface),
            sent(
                Command::LineTermination,
                self.panel.line_termination * WHOLE,
            ),
        ]
    }
}

/// Appends items, each in its canonical spelling.
fn push_items<A: Allocator>(text: &mut Vec<u8, A>, items: &[SimpleItem]) -> Result<(), AllocError>
    ensures { OnOk result (text.new.items ≡ text.old.items ++ flat_map canon
        (map simple_view items.now)) }
{
    for item in items {
        spell(&Item::Simple(*item), text)?;
    }
    Ok(())
}

/// Whether an item resets.
fn is_reset(item: &Item<'_>) -> bool
    ensures { result ≡ is_reset (view item.now) }
{
    matches!(
        item,
        Item::Simple(SimpleItem::Reset | SimpleItem::ExitLanguage)
    )
}

/// Whether no prologue is written before an item.
fn needs_no_prologue(item: &Item<'_>) -> bool
    ensures { result ≡ needs_no_prologue (view item.now) }
{
    matches!(
        item,
        Item::Simple(SimpleItem::Reset | SimpleItem::ExitLanguage) | Item::PjlLine(_)
    )
}

/// Whether a prologue is due behind an item, where one was due before it or not.
fn is_due_behind(is_due: bool, item: &Item<'_>) -> bool
    ensures { result ≡ is_due_behind is_due (view item.now) }
{
    is_reset(item) || is_due && needs_no_prologue(item)
}

/// Whether an item is an orientation, which sets the VMI to what the panel has.
fn is_orientation(item: &Item<'_>) -> bool
    ensures { result ≡ is_orientation (view item.now) }
{
    matches!(
        item,
        Item::Simple(SimpleItem::Parameterized(Command::Orientation, _))
    )
}

/// Whether there is no pinned job for an item: it returns to the panel's font, or enables an
/// overlay, which begins with what the panel has.
fn is_unpinnable(item: &Item<'_>) -> bool
    ensures { result ≡ is_unpinnable (view item.now) }
{
    match item {
        Item::Simple(SimpleItem::DefaultFont) => true,
        Item::Simple(SimpleItem::Parameterized(Command::MacroControl, n)) => {
            matches!(control_of(*n), Some(Control::EnableOverlay))
        }
        _ => false,
    }
}

/// Writes each item in its canonical spelling, and what sets what the panel chooses.
#[derive(Clone, Copy)]
struct Pinning {
    settings: Settings,
    /// The prologue is written before the next item that needs it.
    is_due: bool,
}

impl Pinning {
    /// Appends the prologue, where one is due and the item needs it.
    fn push_before<A: Allocator>(
        &self,
        text: &mut Vec<u8, A>,
        item: &Item<'_>,
    ) -> Result<(), AllocError>
        ensures { OnOk result (text.new.items ≡ text.old.items ++ flat_map canon
            (written_before self.now.settings.panel self.now.settings.request self.now.is_due
            (view item.now))) }
    {
        if self.is_due && !needs_no_prologue(item) {
            push_items(text, &self.settings.prologue())
        } else {
            Ok(())
        }
    }

    /// Appends the panel's VMI, where the item is an orientation.
    fn push_behind<A: Allocator>(
        &self,
        text: &mut Vec<u8, A>,
        item: &Item<'_>,
    ) -> Result<(), AllocError>
        ensures { OnOk result (text.new.items ≡ text.old.items ++ flat_map canon
            (written_behind self.now.settings.panel (view item.now))) }
    {
        if is_orientation(item) {
            let spacing = sent(Command::VerticalMotionIndex, self.settings.panel.vmi);
            push_items(text, &[spacing])
        } else {
            Ok(())
        }
    }

    /// Appends an item, with what belongs before and behind it.
    fn push<A: Allocator>(&self, text: &mut Vec<u8, A>, item: &Item<'_>) -> Result<(), AllocError>
        ensures { OnOk result
            (text.new.items ≡ text.old.items ++ pinned_item self.now.settings.panel
            self.now.settings.request self.now.is_due (view item.now)) }
    {
        self.push_before(text, item)?;
        spell(item, text)?;
        self.push_behind(text, item)
    }
}

impl Renderer for Pinning {
    ghost rendering = { λ pinning. pins_from pinning.settings.panel pinning.settings.request
        pinning.is_due };

    ghost is_in = { λ _ _. Unit {0} };

    #[inline(always)]
    fn item<W: Outlet, A: Allocator>(
        &mut self,
        outlet: &mut W,
        kept: &mut Vec<u8, A>,
        place: Place,
        item: &Item<'_>,
    ) -> Result<Option<Outcome>, Error> {
        if is_unpinnable(item) {
            return Ok(Some(Outcome::of_unpinnable(place)));
        }
        self.push(kept, item)?;
        self.is_due = is_due_behind(self.is_due, item);
        write_enough(outlet, kept)?;
        Ok(None)
    }

    fn end<W: Outlet, A: Allocator>(
        &mut self,
        _outlet: &mut W,
        _kept: &mut Vec<u8, A>,
        _place: Place,
    ) -> Result<Outcome, Error> {
        Ok(Outcome::Done)
    }

    fn fault<W: Outlet, A: Allocator>(
        &mut self,
        _outlet: &mut W,
        _kept: &mut Vec<u8, A>,
        fault: LexFault,
    ) -> Result<Outcome, Error> {
        Ok(Outcome::of_fault(fault))
    }

    ghost adds_at_fault = { λ _ place cause. refl };

    ghost rest_matters = { λ pinning over. faults_matter
        (pins_from pinning.settings.panel pinning.settings.request pinning.is_due)
        (λ place. refl) over };
}

/// Writes the items of a job, each in its canonical spelling, with commands that set all that a
/// panel chooses, up to the end of the job or up to a fault of its bytes.
///
/// The job that is written prints from each panel of the printer as this one prints from the given
/// panel, which its profile has to allow. An item for which that cannot be had, `ESC (3@` or one
/// that enables an overlay, ends it as `Unpinnable`. What an item comes to on a page is not looked
/// at. After an error a front of the text is written: `Memory` where the allocator refused a
/// request, `Read` and `Write` where a read or a write failed, `Turns` after 2^40 reads without an
/// end.
pub fn pin_job<S: Source, W: Outlet, A: Allocator + Copy, P: Allocator>(
    alloc: A,
    reader: &mut S,
    profile: &Profile<P>,
    panel: &Panel,
    writer: &mut W,
) -> Result<Outcome, Error>
    requires reading { IsFalse (S.state reader.old).failed }
    requires writing { IsFalse (W.state writer.old).failed }
    requires allowed { IsAllowed profile.now panel.now }
    ensures { Renders (pinned_rendering profile.now panel.now)
        (S.state reader.old) (S.state reader.new) (W.state writer.old) (W.state writer.new) result }
{
    let Some(face) = profile.face(panel.font) else {
        unreachable!()
    };
    let settings = Settings {
        panel: *panel,
        request: face.request(),
    };
    let mut pinning = Pinning {
        settings,
        is_due: true,
    };
    render_job(alloc, reader, &mut pinning, writer)
}
