//! The notes that hold by the state before an item and the state behind it.
ghost use Rattle.std.specs.Prelude.{◌≡◌, ◌==◌, not, ◌&&◌, ◌||◌, is_none, OnOk};
ghost use Rattle.notes.specs.Carriers.Rest.{WritesNotes};
ghost use Rattle.notes.specs.Carriers.StateBefore.{behind_notes, state_before_at, before_notes};
ghost use Rattle.notes.specs.Carriers.StateBefore.{state_before_of};
ghost use Rattle.notes.specs.StateNotes.{
  feeds_line,
  has_rows,
  has_rows_left,
  has_spacing,
  is_rounded,
  is_rounded_column,
  is_source,
  is_source_with_margin,
  sets_same_orientation,
  uses_column,
};
ghost use Rattle.page_env.specs.Rasters.{is_of_raster};
ghost use Rattle.page_env.specs.Settings.{state_at};
ghost use Rattle.pcl_items.specs.Items.{at, view};

use crate::note::{Note, NoteText};
use crate::telling::tell;
use device_profile::{Panel, Profile};
use page_env::{JobSettings, Page, StartedRaster, column_under, is_of_raster};
use page_machine::Machine;
use pcl_items::{Command, DataCommand, Item, Place, SimpleItem};
use std::alloc::{AllocError, Allocator};
use tick_length::{TICKS_PER_HALF_INCH, Unit, UnitsPerInch};

/// What is kept of the state before an item.
#[derive(Clone, Copy)]
pub struct StateBefore {
    pub sets_same_orientation: bool,
    pub has_spacing: bool,
    pub vmi: u32,
    pub is_rounded: bool,
    pub has_rows_left: bool,
    pub feeds_blank: bool,
    pub has_margin: bool,
}

/// Whether an item sets the orientation that is in force.
fn sets_same_orientation(page: &Page, panel: &Panel, item: &Item<'_>) -> bool
    ensures { result ≡ sets_same_orientation (view item.now) (state_at panel.now page.now) }
{
    match item {
        Item::Simple(SimpleItem::Parameterized(Command::Orientation, n)) => {
            let orientation = page.env.fields.orientation.under(panel.orientation);
            n.whole_part() == orientation
        }
        _ => false,
    }
}

/// How far the default top margin is from the upper edge of the logical page, in ticks.
const DEFAULT_TOP_MARGIN: i64 = TICKS_PER_HALF_INCH as i64;

/// Whether the HMI is set, or a margin is another than its default.
fn has_spacing(job: &JobSettings) -> bool
    ensures { result ≡ has_spacing job.now }
{
    job.hmi.is_some()
        || job.top_margin.ticks() != DEFAULT_TOP_MARGIN
        || job.bottom_margin.is_some()
        || job.left_margin.ticks() != 0
        || job.right_margin.is_some()
}

/// Whether an item uses how far columns are apart.
fn uses_column(item: &Item<'_>) -> bool
    ensures { result ≡ uses_column (view item.now) }
{
    match item {
        Item::Text(_) => true,
        Item::WithData(DataCommand::TransparentText, data) => !data.bytes.is_empty(),
        Item::Simple(SimpleItem::Parameterized(command, _)) => matches!(
            command,
            Command::Column | Command::LeftMargin | Command::RightMargin
        ),
        _ => false,
    }
}

/// Whether so many ticks are no whole number of PCL units.
fn is_rounded(units_per_inch: UnitsPerInch, column: u64) -> bool
    ensures { result ≡ is_rounded units_per_inch column }
{
    column % Unit::PclUnit(units_per_inch).ticks().unsigned_abs() != 0
}

/// Whether an item uses how far columns are apart, and that is no whole number of PCL units.
fn is_rounded_column<P: Allocator>(
    profile: &Profile<P>,
    page: &Page,
    panel: &Panel,
    item: &Item<'_>,
) -> bool
    ensures { result ≡
        is_rounded_column profile.now (view item.now) (state_at panel.now page.now) }
{
    if !uses_column(item) {
        return false;
    }
    match column_under(profile, page, panel) {
        Some(column) => is_rounded(page.env.job.units_per_inch, column),
        None => false,
    }
}

/// Whether rows are left of a raster's height.
fn has_rows(raster: StartedRaster) -> bool
    ensures { result ≡ has_rows raster }
{
    match raster.rows_left {
        Some(rows) => 0 < rows,
        None => false,
    }
}

/// Whether a raster is started that has rows left of its height.
pub(crate) fn has_rows_left(raster: Option<StartedRaster>) -> bool
    ensures { result ≡ has_rows_left raster }
{
    match raster {
        Some(raster) => has_rows(raster),
        None => false,
    }
}

/// Whether an item feeds a line.
fn feeds_line(page: &Page, panel: &Panel, item: &Item<'_>) -> bool
    ensures { result ≡ feeds_line (view item.now) (state_at panel.now page.now) }
{
    match item {
        Item::Simple(SimpleItem::LineFeed | SimpleItem::HalfLineFeed) => true,
        Item::Simple(SimpleItem::CarriageReturn) => {
            let termination = page.env.fields.line_termination;
            let termination = termination.under(panel.line_termination);
            termination == 1 || termination == 3
        }
        _ => false,
    }
}

/// Whether an item chooses a paper source or sides.
fn is_source(item: &Item<'_>) -> bool
    ensures { result ≡ is_source (view item.now) }
{
    match item {
        Item::Simple(SimpleItem::Parameterized(command, _)) => {
            matches!(command, Command::Source | Command::Sides)
        }
        _ => false,
    }
}

impl StateBefore {
    /// What is kept of the state before an item.
    fn before<P: Allocator>(
        profile: &Profile<P>,
        page: &Page,
        panel: &Panel,
        item: &Item<'_>,
    ) -> StateBefore
        ensures { result ≡ state_before_of profile.now (view item.now)
            (state_at panel.now page.now) }
    {
        StateBefore {
            sets_same_orientation: sets_same_orientation(page, panel, item),
            has_spacing: has_spacing(&page.env.job),
            vmi: page.env.fields.vmi.under(panel.vmi),
            is_rounded: is_rounded_column(profile, page, panel, item),
            has_rows_left: has_rows_left(page.raster),
            feeds_blank: feeds_line(page, panel, item) && !page.marked,
            has_margin: is_source(item) && page.env.job.left_margin.ticks() != 0,
        }
    }

    /// Whether the orientation in force was set where the spacing or a margin was.
    fn orients(&self, page: &Page, panel: &Panel) -> bool
        ensures { result ≡ (self.now.sets_same_orientation && (self.now.has_spacing
            || not (self.now.vmi == (state_at panel.now page.now).settings.fields.vmi))) }
    {
        let vmi = page.env.fields.vmi.under(panel.vmi);
        self.sets_same_orientation && (self.has_spacing || self.vmi != vmi)
    }

    /// Whether the item ends a raster that has rows left.
    fn ends_raster(&self, page: &Page, item: &Item<'_>) -> bool
        ensures { result ≡ (self.now.has_rows_left
            && (is_none page.now.raster || not (is_of_raster (view item.now)))) }
    {
        self.has_rows_left && (page.raster.is_none() || !is_of_raster(item))
    }

    /// Whether a line feed led home on a page without a mark.
    fn overflows(&self, page: &Page) -> bool
        ensures { result ≡ (self.now.feeds_blank && is_none page.now.cursor.y) }
    {
        self.feeds_blank && page.cursor.y.is_none()
    }

    /// Tells the notes of an item by the page behind it.
    fn tell<N: NoteText, A: Allocator, B: Allocator>(
        &self,
        form: &N,
        told: &mut Vec<Note, B>,
        text: &mut Vec<u8, A>,
        page: &Page,
        panel: &Panel,
        place: Place,
        item: &Item<'_>,
    ) -> Result<(), AllocError>
        ensures { OnOk result (WritesNotes (N.note_text form.now) told.old.items
            told.new.items text.old.items text.new.items
            (before_notes (at place (view item.now)) (state_at panel.now page.now) self.now)) }
    {
        let orients = self.orients(page, panel);
        let ends = self.ends_raster(page, item);
        let overflows = self.overflows(page);
        tell(form, told, text, orients, place, Note::SameOrientation)?;
        tell(
            form,
            told,
            text,
            self.is_rounded,
            place,
            Note::RoundedColumn,
        )?;
        tell(form, told, text, ends, place, Note::ShortRaster)?;
        tell(form, told, text, overflows, place, Note::BlankOverflow)?;
        tell(
            form,
            told,
            text,
            self.has_margin,
            place,
            Note::SourceMovesLeft,
        )?;
        Ok(())
    }
}

/// What is kept of the state before an item that is carried out: where a definition is open none
/// is.
pub(crate) fn state_before_at<P: Allocator, B: Allocator + Copy>(
    machine: &Machine<'_, P, B>,
    panel: &Panel,
    item: &Item<'_>,
) -> Option<StateBefore>
    ensures { result ≡ state_before_at machine.now panel.now (view item.now) }
{
    if machine.is_defining() {
        return None;
    }
    let (profile, page) = (machine.profile(), machine.page());
    Some(StateBefore::before(profile, page, panel, item))
}

/// Tells the notes of an item by what was kept of the state before it, and the page behind it.
pub(crate) fn tell_behind<N: NoteText, A: Allocator, B: Allocator>(
    form: &N,
    told: &mut Vec<Note, B>,
    text: &mut Vec<u8, A>,
    before: Option<StateBefore>,
    page: &Page,
    panel: &Panel,
    place: Place,
    item: &Item<'_>,
) -> Result<(), AllocError>
    ensures { OnOk result (WritesNotes (N.note_text form.now) told.old.items
        told.new.items text.old.items text.new.items
        (behind_notes (at place (view item.now)) (state_at panel.now page.now) before)) }
{
    match before {
        Some(before) => before.tell(form, told, text, page, panel, place, item),
        None => Ok(()),
    }
}
