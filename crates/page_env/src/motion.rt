//! Motion and line ends: VMI, line spacing, HMI, line termination, and the control codes.
#![tactic(auto, unfolding(crate::specs::Answers::CarriesOut, crate::specs::Answers::Marks))]

ghost use Rattle.std.specs.Prelude.{◌≡◌, ◌+◌, ◌^◌, ◌/◌, ◌==◌, ◌&&◌, ℤ, pos, neg_ℤ, ◌≤ℤ◌, ◌+ℤ◌};
ghost use Rattle.std.specs.Prelude.{◌-ℤ◌, int_lt, cond, unwrap_or, Some, None, Ok, Err};
ghost use Rattle.std.specs.List.{list_any};
ghost use Rattle.pcl_items.specs.Items.{amount};
ghost use Rattle.page_env.specs.Numbers.{is_whole_from, whole_of};
ghost use Rattle.page_env.specs.Places.{ticks_in, first_line};
ghost use Rattle.page_env.specs.Settings.{half_inch, fields_at};
ghost use Rattle.page_env.specs.Effect.{ReadsFields};
ghost use Rattle.page_env.specs.Motion.{line_spacings, set_vmi, set_line_spacing, set_hmi};
ghost use Rattle.page_env.specs.Motion.{set_line_termination, termination_of};
ghost use Rattle.page_env.specs.Motion.{line_termination_reads, carriage_return, at_home};
ghost use Rattle.page_env.specs.Motion.{distance_of, feed_by, return_with, return_line};
ghost use Rattle.page_env.specs.Motion.{before_feed, line_feed, form_feed, half_line_feed};
ghost use Rattle.page_env.specs.Answers.{CarriesOut, Changes, Steps, Moves};

use crate::cell::Cell;
use crate::change::{Carried, PageChange};
use crate::cursor::Coordinate;
use crate::finding::Finding;
use crate::number::{is_up_to, is_whole_between, is_whole_from, whole_of};
use crate::page::Page;
use crate::places::{bottom_margin, geometry_and_vmi, ticks_in, vertical_with};
use device_profile::{Field, Geometry, Profile};
use pcl_items::Number;
use std::alloc::Allocator;
use tick_length::Unit;

/// How far a feed goes.
#[derive(Clone, Copy, PartialEq, Eq)]
pub enum Feed {
    /// A line.
    Line,
    /// Half a line.
    HalfLine,
}

/// `&l#C`: sets the vertical motion index, in 1/48 inch.
pub(crate) fn set_vmi(page: &mut Page, n: Number) -> Result<(), Finding>
    ensures { Steps (λ s. set_vmi s (amount n)) page.old page.new result }
{
    if !is_up_to(3_350_000, n) {
        return Err(Finding::BadValue);
    }
    page.env.fields.vmi = Cell::Known(n.ten_thousandths);
    Ok(())
}

const LINE_SPACINGS: [u32; 10] = [1, 2, 3, 4, 6, 8, 12, 16, 24, 48];

/// Whether an inch may have so many lines: a divisor of 48.
fn is_line_spacing(lines: u32) -> bool
    ensures { result ≡ list_any (λ spacing. spacing == lines) line_spacings }
{
    LINE_SPACINGS.contains(&lines)
}

/// The VMI of so many lines an inch, in ten-thousandths of 1/48 inch.
fn vmi_of_spacing(n: Number) -> Option<u32>
    ensures { result ≡ cond (is_whole_from 1 (amount n)
        && list_any (λ spacing. spacing == whole_of (amount n)) line_spacings)
        (Some (480_000 / whole_of (amount n))) None }
{
    let lines = whole_of(n);
    if is_whole_from(1, n) && is_line_spacing(lines) {
        Some(480_000 / lines)
    } else {
        None
    }
}

/// `&l#D`: sets the VMI to so many lines an inch.
pub(crate) fn set_line_spacing(page: &mut Page, n: Number) -> Result<(), Finding>
    ensures { Steps (λ s. set_line_spacing s (amount n)) page.old page.new result }
{
    match vmi_of_spacing(n) {
        None => Err(Finding::BadValue),
        Some(vmi) => {
            page.env.fields.vmi = Cell::Known(vmi);
            Ok(())
        }
    }
}

/// `&k#H`: sets the horizontal motion index, in 1/120 inch.
pub(crate) fn set_hmi(page: &mut Page, n: Number) -> Result<(), Finding>
    ensures { Steps (λ s. set_hmi s (amount n)) page.old page.new result }
{
    if !is_up_to(8_400_000, n) {
        return Err(Finding::BadValue);
    }
    page.env.job.hmi = Some(n.ten_thousandths);
    Ok(())
}

/// The cursor goes home.
#[tactic(auto, unfolding(crate::specs::Answers::Changes))]
pub(crate) fn go_home(page: &mut Page)
    ensures { Moves (λ s. at_home s) page.old page.new }
{
    page.cursor.y = None;
}

/// How far a feed goes, where a line has so many ticks.
fn distance_of(feed: Feed, line: u64) -> u64
    ensures { result ≡ distance_of feed line }
{
    match feed {
        Feed::Line => line,
        Feed::HalfLine => line / 2,
    }
}

/// How far down a feed may lead, in ticks: to the bottom margin, or to the foot of the page where
/// the perforation is not skipped.
pub(crate) fn feed_limit(page: &Page, geometry: &Geometry) -> i64
    ensures high { result ≤ℤ pos (2 ^ 60) }
    ensures low { neg_ℤ (pos (2 ^ 60 + 2 ^ 50)) ≤ℤ result }
    ensures value { result ≡ cond page.now.env.job.skips_perforation
        (unwrap_or page.now.env.job.bottom_margin (geometry.now.logical_height -ℤ half_inch))
        geometry.now.logical_height }
{
    if page.env.job.skips_perforation {
        bottom_margin(&page.env.job, geometry)
    } else {
        geometry.logical_height.ticks()
    }
}

/// Where a feed leads, in ticks from the upper edge of the logical page.
fn fed_to(page: &Page, vmi: u32, feed: Feed) -> i128
    ensures value { result ≡ unwrap_or page.now.cursor.y
        (first_line page.now.env.job.top_margin vmi)
        +ℤ pos (distance_of feed (ticks_in Unit.FortyEighthInch vmi)) }
    ensures low { neg_ℤ (pos (2 ^ 60 + 2 ^ 50)) ≤ℤ result }
{
    let by = distance_of(feed, ticks_in(Unit::FortyEighthInch, vmi));
    i128::from(vertical_with(page, vmi).ticks()) + i128::from(by)
}

/// A place, unless it lies past a limit.
pub(crate) fn up_to(limit: i64, y: i128) -> Option<Coordinate>
    requires limit { limit ≤ℤ pos (2 ^ 60) }
    requires low { neg_ℤ (pos (2 ^ 60 + 2 ^ 50)) ≤ℤ y }
    ensures { result ≡ cond (int_lt limit y) None (Some y) }
{
    if i128::from(limit) < y {
        None
    } else {
        Some(Coordinate::from_ticks(y as i64))
    }
}

/// What a feed past the limit comes to: the closing of the page, where the perforation is skipped.
fn past_limit(page: &Page) -> Result<Carried, Finding>
    ensures { result ≡ cond page.now.env.job.skips_perforation
        (Ok (Carried.Closing PageChange.Home)) (Err Finding.OffPage) }
{
    if page.env.job.skips_perforation {
        Ok(Carried::Closing(PageChange::Home))
    } else {
        Err(Finding::OffPage)
    }
}

/// Feeds a line or half a line. Past the bottom margin the page is to be closed, where the
/// perforation is skipped.
#[inline(always)]
fn feed_by<A: Allocator>(
    profile: &Profile<A>,
    page: &mut Page,
    by: Feed,
) -> Result<Carried, Finding>
    ensures { CarriesOut (λ defaults s. feed_by profile.now s by) page.old page.new result }
{
    let (geometry, vmi) = geometry_and_vmi(profile, page)?;
    match up_to(feed_limit(page, &geometry), fed_to(page, vmi, by)) {
        Some(y) => {
            page.cursor.y = Some(y);
            Ok(Carried::Stepped)
        }
        None => past_limit(page),
    }
}

/// `ESC =`.
pub(crate) fn half_line_feed<A: Allocator>(
    profile: &Profile<A>,
    page: &mut Page,
) -> Result<Carried, Finding>
    ensures { CarriesOut (λ defaults s. half_line_feed profile.now s) page.old page.new result }
{
    feed_by(profile, page, Feed::HalfLine)
}

/// `&k#G`: sets what CR, LF and FF do beside what they stand for.
pub(crate) fn set_line_termination(page: &mut Page, n: Number) -> Result<(), Finding>
    ensures { Steps (λ s. set_line_termination s (amount n)) page.old page.new result }
{
    if !is_whole_between(0, 3, n) {
        return Err(Finding::BadValue);
    }
    page.env.fields.line_termination = Cell::Known(whole_of(n));
    Ok(())
}

/// What CR, LF and FF do beside what they stand for (the manual's "Line Termination").
#[derive(Clone, Copy, PartialEq, Eq)]
pub struct LineTermination {
    /// CR feeds a line, too.
    pub feeds_at_return: bool,
    /// LF and FF return to the left margin first.
    pub returns_at_feed: bool,
}

/// The line termination in force. CR, LF and FF read it as a step of their own, before all else.
pub(crate) fn line_termination(page: &Page) -> Result<LineTermination, Field>
    ensures { ReadsFields page.now.env line_termination_reads
        (λ panel. termination_of (fields_at panel page.now.env.fields).line_termination) result }
{
    let value = page.env.fields.line_termination.known(Field::LineTerm)?;
    Ok(LineTermination {
        feeds_at_return: value == 1 || value == 3,
        returns_at_feed: value == 2 || value == 3,
    })
}

/// The cursor goes to the left margin.
#[tactic(auto, unfolding(crate::specs::Answers::Changes))]
fn go_left(page: &mut Page)
    ensures { Moves (λ s. carriage_return s) page.old page.new }
{
    page.cursor.x = page.env.job.left_margin;
}

/// The cursor goes to the left margin, and a line is fed where line termination has it so.
#[inline(always)]
fn return_with<A: Allocator>(
    profile: &Profile<A>,
    page: &mut Page,
    termination: LineTermination,
) -> Result<Carried, Finding>
    ensures { CarriesOut (λ defaults s. return_with profile.now termination s) page.old page.new
        result }
{
    go_left(page);
    if termination.feeds_at_return {
        feed_by(profile, page, Feed::Line)
    } else {
        Ok(Carried::Stepped)
    }
}

/// CR.
#[inline(always)]
pub(crate) fn return_line<A: Allocator>(
    profile: &Profile<A>,
    page: &mut Page,
) -> Result<Carried, Finding>
    ensures { CarriesOut (λ defaults s. return_line profile.now s) page.old page.new result }
{
    let read = line_termination(page)?;
    return_with(profile, page, read)
}

/// The cursor goes to the left margin, where line termination has it so before LF and FF.
#[tactic(auto, unfolding(crate::specs::Answers::Changes))]
fn return_before_feed(page: &mut Page, termination: LineTermination)
    ensures { Moves (λ s. before_feed termination s) page.old page.new }
{
    if termination.returns_at_feed {
        page.cursor.x = page.env.job.left_margin;
    }
}

/// LF.
#[inline(always)]
pub(crate) fn line_feed<A: Allocator>(
    profile: &Profile<A>,
    page: &mut Page,
) -> Result<Carried, Finding>
    ensures { CarriesOut (λ defaults s. line_feed profile.now s) page.old page.new result }
{
    let termination = line_termination(page)?;
    return_before_feed(page, termination);
    feed_by(profile, page, Feed::Line)
}

/// FF: the page is to be closed.
pub(crate) fn form_feed(page: &mut Page) -> Result<Carried, Finding>
    ensures { CarriesOut (λ defaults s. form_feed s) page.old page.new result }
{
    let termination = line_termination(page)?;
    return_before_feed(page, termination);
    Ok(Carried::Ending)
}
