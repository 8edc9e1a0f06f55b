//! The item that a job fails at, and where, beside a verdict.

ghost use Rattle.std.specs.Prelude.{◌≡◌, ℕ, List};
ghost use Rattle.pcl_items.specs.Items.{Entry, WithData, simple_view, view};
ghost use Rattle.page_machine.specs.Still.{is_one_step, may_close};
ghost use Rattle.judgement.specs.FailingItem.{IsFailingItem};

use device_profile::FontRequest;
use page_env::SheetPlace;
use pcl_items::{Command, DataCommand, Item, SimpleItem};
use verdict::Verdict;

/// The item that a job fails at, without its data.
#[derive(Clone, Copy, Debug, PartialEq, Eq)]
pub enum FailingItem {
    /// A byte of text.
    Text(u8),
    /// An item that has no data.
    Simple(SimpleItem),
    /// A command with so many bytes of data.
    WithData(DataCommand, usize),
    /// A line of the job language.
    Line,
}

/// A place in ticks from the left and the upper edge of the sheet, be it on the sheet or not.
#[derive(Clone, Copy, Debug, PartialEq, Eq)]
pub struct SheetSpot {
    pub x: i64,
    pub y: i64,
}

/// A font that no face of a printer answers.
#[derive(Clone, Copy, Debug, PartialEq, Eq)]
pub struct MissingFont {
    pub asked: FontRequest,
    /// What selects the face that meets most parts of it, of several such the first of the profile.
    /// None where there is no face.
    pub nearest: Option<FontRequest>,
}

/// A verdict on a job, and where it fails.
#[derive(Clone, Copy, Debug, PartialEq, Eq)]
pub struct Judgement {
    pub verdict: Verdict,
    /// The item at the place of a Fail. None for a Pass, for a fault of the bytes, and for what is
    /// wrong at the end of the job.
    pub failing_item: Option<FailingItem>,
    /// The page that is open where the job fails: 1, and one for each page that ended before. None
    /// for a Pass.
    ///
    /// Of a finding those of its printer are counted, up to it; of a difference those before the
    /// item at which a printer differs; of a fault of the bytes all before it.
    pub page: Option<u64>,
    /// Where the cursor stood before the item of a finding, on the printer of the failure. None
    /// where the panel decides that, and for what is more than one step on the page: what may close
    /// it, a macro, several characters of data, and a move of the pen.
    pub cursor: Option<SheetSpot>,
    /// The font that the item of a finding asked for, where no face answers that: 13 NoFont. None
    /// where the panel decides it, and for what is more than one step on the page.
    pub font: Option<MissingFont>,
}

impl SheetSpot {
    /// A place on the sheet, as it is told.
    pub fn of(place: SheetPlace) -> SheetSpot
        ensures x { result.x ≡ place.x }
        ensures y { result.y ≡ place.y }
    {
        SheetSpot {
            x: place.x,
            y: place.y,
        }
    }
}

impl FailingItem {
    /// What is told of an item.
    pub fn of(item: &Item<'_>) -> FailingItem
        ensures { IsFailingItem result (view item.now) }
    {
        match item {
            Item::Text(byte) => FailingItem::Text(byte.code),
            Item::Simple(item) => FailingItem::Simple(*item),
            Item::WithData(command, data) => FailingItem::WithData(*command, data.bytes.len()),
            Item::PjlLine(_) => FailingItem::Line,
        }
    }

    /// Whether it is one step on the page.
    pub fn is_one_step(&self) -> bool
        ensures { (item : Entry) → IsFailingItem self.now item → is_one_step item ≡ result }
    {
        match self {
            FailingItem::Text(_) => true,
            FailingItem::Simple(item) => is_step(item),
            FailingItem::WithData(command, _) => is_row(*command),
            FailingItem::Line => true,
        }
    }
}

/// Whether a command with data is one step on the page: a row of a raster.
fn is_row(command: DataCommand) -> bool
    ensures { (bytes : List ℕ) → is_one_step (WithData command bytes) ≡ result }
{
    match command {
        DataCommand::TransparentText => false,
        DataCommand::RasterRow => true,
    }
}

/// Whether a command may close the page.
fn may_close(command: Command) -> bool
    ensures { result ≡ may_close command }
{
    matches!(
        command,
        Command::Sides
            | Command::Source
            | Command::PageSize
            | Command::Orientation
            | Command::MacroControl
    )
}

/// Whether an item without data is one step on the page.
fn is_step(item: &SimpleItem) -> bool
    ensures { result ≡ is_one_step (simple_view item.now) }
{
    match item {
        SimpleItem::CarriageReturn
        | SimpleItem::LineFeed
        | SimpleItem::FormFeed
        | SimpleItem::HalfLineFeed
        | SimpleItem::Reset
        | SimpleItem::ExitLanguage
        | SimpleItem::Move(_, _) => false,
        SimpleItem::Parameterized(command, _) => !may_close(*command),
        SimpleItem::ClearMargins
        | SimpleItem::SymbolSet(_, _)
        | SimpleItem::DefaultFont
        | SimpleItem::EnterFrame(_)
        | SimpleItem::LeaveFrame(_)
        | SimpleItem::Initialize
        | SimpleItem::Set(_, _) => true,
    }
}
