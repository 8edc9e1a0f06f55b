//! What the language leaves out of the values of commands that HP's manual has.
ghost use Rattle.std.specs.Prelude.{◌≡◌};
ghost use Rattle.pcl_items.specs.Items.{amount, simple_view};
ghost use Rattle.page_env.specs.Numbers.{is_negative};
ghost use Rattle.job_reports.specs.LeftOut.{is_between, is_method_left_out, left_out_at};
ghost use Rattle.job_reports.specs.LeftOut.{left_out_by, left_out_in, left_out_of};
ghost use Rattle.job_reports.specs.LeftOut.{setting_left_out, takes_decimals, value_words};
ghost use Rattle.job_reports.specs.LeftOut.{where_is};

use judgement::FailingItem;
use line_words::short_reason;
use page_env::Finding;
use pcl_items::{Command, Number, Setting, Sign, SimpleItem};
use verdict::Reason;

/// What pclcheck does not check of a value that HP's manual has, where it is 10 BadValue.
#[derive(Clone, Copy, Debug, PartialEq, Eq)]
pub enum LeftOut {
    /// Decimals of a whole value, which printers cut.
    Decimals,
    /// `(s1P`: proportional spacing.
    Proportional,
    /// `*b#M`: compressed rasters.
    Compression,
    /// `*t#R`: another resolution of rasters, for which printers take one that they have.
    Resolution,
    /// `*r2A` and `*r3A`: scaled rasters.
    Scaling,
    /// `*c4P` and `*c5P`: a pattern that the job defines, and the one that is current.
    Pattern,
    /// `&f10X`: a macro that outlives the job.
    Permanent,
    /// `SP`: a pen other than 0 and 1.
    Pen,
    /// `PW0`: the thinnest line that the printer draws.
    ThinLine,
    /// The value stands in a macro that the item runs, and is not told.
    InMacro,
}

/// What the language leaves out, where a job fails at this item by 10 BadValue; None where no
/// printer takes the value.
pub fn left_out_of(failing_item: Option<FailingItem>) -> Option<LeftOut>
    ensures { result ≡ left_out_of failing_item }
{
    match failing_item {
        Some(FailingItem::Simple(item)) => left_out_in(item),
        _ => Some(LeftOut::InMacro),
    }
}

/// What is left out of the value of an item.
fn left_out_in(item: SimpleItem) -> Option<LeftOut>
    ensures { result ≡ left_out_in (simple_view item) }
{
    match item {
        SimpleItem::Parameterized(command, number) => left_out_by(command, number),
        SimpleItem::SymbolSet(_, _) => None,
        SimpleItem::Set(setting, _) => Some(setting_left_out(setting)),
        _ => Some(LeftOut::InMacro),
    }
}

/// What is left out of a command by its value.
fn left_out_by(command: Command, number: Number) -> Option<LeftOut>
    ensures { result ≡ left_out_by command (amount number) }
{
    if takes_decimals(command) {
        return None;
    }
    if is_negative(number) {
        return None;
    }
    if !number.is_whole() {
        return Some(LeftOut::Decimals);
    }
    left_out_at(command, number.whole_part())
}

/// What is left out of a command by its whole value. Where the command takes the value, it is a
/// macro that it runs, or an overlay, that has another one.
fn left_out_at(command: Command, value: u32) -> Option<LeftOut>
    ensures { result ≡ left_out_at command value }
{
    match command {
        Command::FontSpacing => where_is(value == 1, LeftOut::Proportional),
        Command::CompressionMethod => where_is(is_method_left_out(value), LeftOut::Compression),
        Command::RasterResolution => where_is(value > 0, LeftOut::Resolution),
        Command::StartRaster => where_is(is_between(2, value, 3), LeftOut::Scaling),
        Command::FillRectangle => where_is(is_between(4, value, 5), LeftOut::Pattern),
        Command::MacroControl if value == 10 => Some(LeftOut::Permanent),
        Command::MacroControl => where_is(value <= 9, LeftOut::InMacro),
        Command::PageSize => where_is(is_between(1, value, 999), LeftOut::InMacro),
        Command::Orientation => where_is(value <= 3, LeftOut::InMacro),
        Command::Sides => where_is(value <= 2, LeftOut::InMacro),
        Command::Source => where_is(value <= 255, LeftOut::InMacro),
        _ => None,
    }
}

/// Whether rasters are compressed by this method of the manual.
fn is_method_left_out(value: u32) -> bool
    ensures { result ≡ is_method_left_out value }
{
    is_between(1, value, 3) || value == 5 || value == 9
}

/// Whether a value lies between two, or is one of them.
fn is_between(low: u32, value: u32, high: u32) -> bool
    ensures { result ≡ is_between low value high }
{
    low <= value && value <= high
}

/// This, where it is so.
fn where_is(is_so: bool, what: LeftOut) -> Option<LeftOut>
    ensures { result ≡ where_is is_so what }
{
    if is_so { Some(what) } else { None }
}

/// What is left out of a command of a frame: whatever value it does not take.
fn setting_left_out(setting: Setting) -> LeftOut
    ensures { result ≡ setting_left_out setting }
{
    match setting {
        Setting::Pen => LeftOut::Pen,
        Setting::Width => LeftOut::ThinLine,
    }
}

/// Whether a command takes decimals, and leaves out none of the manual's values.
fn takes_decimals(command: Command) -> bool
    ensures { result ≡ takes_decimals command }
{
    matches!(
        command,
        Command::VerticalMotionIndex | Command::HorizontalMotionIndex
    )
}

/// Whether a minus stands before a value other than 0.
fn is_negative(number: Number) -> bool
    ensures { result ≡ is_negative (amount number) }
{
    match number.sign {
        Sign::Minus => number.ten_thousandths > 0,
        Sign::Absent | Sign::Plus => false,
    }
}

/// Why a job fails by 10 BadValue, in a few words, where this is left out.
pub fn value_words(left_out: Option<LeftOut>) -> &'static [u8]
    ensures { result.now ≡ value_words left_out }
{
    match left_out {
        None => short_reason(Reason::Finding(Finding::BadValue)),
        Some(LeftOut::Decimals) => b"pclcheck does not check decimals of this value",
        Some(LeftOut::Proportional) => b"pclcheck does not check proportional spacing",
        Some(LeftOut::Compression) => b"pclcheck does not check compressed rasters",
        Some(LeftOut::Resolution) => b"pclcheck does not check rasters of this resolution",
        Some(LeftOut::Scaling) => b"pclcheck does not check scaled rasters",
        Some(LeftOut::Pattern) => b"pclcheck does not check patterns that a job defines",
        Some(LeftOut::Permanent) => b"pclcheck does not check permanent macros",
        Some(LeftOut::Pen) => b"pclcheck does not check pens other than 0 and 1",
        Some(LeftOut::ThinLine) => b"pclcheck does not check lines as thin as can be",
        Some(LeftOut::InMacro) => b"a value here or in a macro is one that pclcheck does not take",
    }
}
