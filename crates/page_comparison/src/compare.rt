//! Compares the pages of two jobs.

ghost use Rattle.std.specs.Prelude.{◌≡◌, ◌≤◌, ◌^◌, ◌&&◌, IfErr, IfOk, IsFalse, OnOk, false};
ghost use Rattle.std.specs.Prelude.{length, map};
ghost use Rattle.comparison.specs.Running.{RunsOut, failure_of, is_open};
ghost use Rattle.device_profile.specs.Printer.{first_panel};
ghost use Rattle.page_machine.specs.Event.{Marked, Ended};
ghost use Rattle.sinks.specs.Same.{is_same_end};
ghost use Rattle.sinks.specs.Counts.{counted, counts_after};
ghost use Rattle.page_comparison.specs.Comparison.{
  IsPageComparison,
  are_same_ends,
  end_change,
  ends_compared,
  marks_compared,
  page_differences,
  pair_differences,
  told_pages,
};
ghost use Rattle.page_comparison.specs.Kept.{kept_all, page_kept};
ghost use Rattle.page_comparison.specs.Pages.{made_page, made_pair, page_counted, shapes_of};
ghost use Rattle.page_comparison.specs.Reading.{
  IsErrorOfPages,
  IsOwnError,
  NewFailsRight,
  PagesCompare,
  is_over,
  is_unread,
};
ghost use Rattle.streams.specs.Pieces.{ByReads};

use crate::any_order::tell_in_any_order;
use crate::differences::{
    MOST_MARKS, Most, Nearness, PageChange, PageComparison, PageDifference, PageOf, PagesError,
};
use crate::in_order::tell_in_order;
use crate::listing::Listing;
use crate::page::{Page, PagePair};
use crate::reading::{is_over, read_page};
use crate::setting::Setting;
use crate::standing::Standing;
use comparison::{Follower, Unread, Which};
use device_profile::Profile;
use page_env::PageEnd;
use page_machine::MarkSink;
use pcl_lexer::one_reading;
use sinks::Counts;
use std::alloc::{AllocError, Allocator};
use streams::{Error, Source};
use verdict::Failure;

/// All differences of a page, which is kept already.
const ALL: Most = Most {
    differences: u64::MAX,
    pages: 0,
};

/// All that differs of two jobs on the printer of this number, from the first panel that its
/// profile lists: whether they print the same by a relation, or the first differences and the first
/// pages that differ, so many at most. A failure of the job OLD comes before one of the job NEW,
/// and both before a difference.
///
/// Both are read page by page: a page of each is held, the differences, and pages that are kept.
pub fn compare_pages<S: Source, T: Source, A: Allocator + Copy, P: Allocator>(
    alloc: A,
    old_job: &mut S,
    new_job: &mut T,
    profile: &Profile<P>,
    number: u64,
    nearness: Nearness,
    most: Most,
) -> Result<PageComparison<A>, PagesError>
    requires old_job { IsFalse (S.state old_job.old).failed }
    requires new_job { IsFalse (T.state new_job.old).failed }
    ensures compared { IfOk result (λ comparison.
        ByReads (S.state old_job.old) (S.state old_job.new) (λ one.
        ByReads (T.state new_job.old) (T.state new_job.new) (λ other.
        IsPageComparison nearness most number profile.now (first_panel profile.now) one other
        (told_pages comparison)))) }
    ensures old_read { (S.state old_job.new).failed ≡ is_unread Which.Old result }
    ensures new_read { (T.state new_job.new).failed ≡ is_unread Which.New result }
    ensures err { IfErr result (λ error. IsErrorOfPages error) }
{
    one_reading();
    let panel = profile.first_panel();
    let mut first = Follower::new(alloc, profile, &panel, number);
    let mut second = Follower::new(alloc, profile, &panel, number);
    compare_all(
        alloc,
        old_job,
        &mut first,
        new_job,
        &mut second,
        nearness,
        most,
    )
}

/// Compares all pages of two jobs of which nothing was read.
fn compare_all<S: Source, T: Source, A: Allocator + Copy, P: Allocator>(
    alloc: A,
    old_job: &mut S,
    first: &mut Follower<'_, A, P>,
    new_job: &mut T,
    second: &mut Follower<'_, A, P>,
    nearness: Nearness,
    most: Most,
) -> Result<PageComparison<A>, PagesError>
    requires old_job { IsFalse (S.state old_job.old).failed }
    requires new_job { IsFalse (T.state new_job.old).failed }
    ensures compared { IfOk result (λ comparison. PagesCompare nearness most
        (S.state old_job.old) (S.state old_job.new) (T.state new_job.old) (T.state new_job.new)
        first.old second.old (told_pages comparison)) }
    ensures old_read { (S.state old_job.new).failed ≡ is_unread Which.Old result }
    ensures new_read { (T.state new_job.new).failed ≡ is_unread Which.New result }
    ensures err { IfErr result (λ error. IsErrorOfPages error) }
{
    let mut listing = Listing::new(alloc, most);
    let mut counts = Counts::none();
    for page in 1..u64::MAX {
        match first.failure() {
            None => {}
            Some(failure) => return Ok(PageComparison::OldFails(failure)),
        }
        match second.failure() {
            None => {}
            Some(own) => return new_fails(old_job, first, own),
        }
        if are_over(first, second) {
            return Ok(listing.into_comparison(counts));
        }
        let old_page = PageOf {
            which: Which::Old,
            page,
        };
        let new_page = PageOf {
            which: Which::New,
            page,
        };
        let one = read_page(alloc, old_page, old_job, first)?;
        let other = read_page(alloc, new_page, new_job, second)?;
        counts = count_page(counts, &one);
        let pair = PagePair {
            number: page,
            old: one,
            new: other,
        };
        compare_page(alloc, nearness, pair, &mut listing)?;
    }
    Err(PagesError::Unread(Unread {
        which: Which::Old,
        error: Error::Turns,
    }))
}

/// What differs of a page that is kept.
pub fn differences_of<A: Allocator + Copy>(
    alloc: A,
    nearness: Nearness,
    pair: &PagePair<A>,
) -> Result<Vec<PageDifference, A>, PagesError>
    ensures { IfOk result (λ differences.
        differences.items ≡ pair_differences nearness (made_pair pair.now)) }
{
    if pair.old.marks.len() > MOST_MARKS {
        return Err(too_many_marks(Which::Old, pair.number));
    }
    if pair.new.marks.len() > MOST_MARKS {
        return Err(too_many_marks(Which::New, pair.number));
    }
    let mut listing = Listing::new(alloc, ALL);
    tell_page(alloc, nearness, pair, &mut listing)?;
    Ok(listing.into_listed())
}

fn too_many_marks(which: Which, page: u64) -> PagesError {
    PagesError::TooManyMarks(PageOf { which, page })
}

/// Whether both jobs are over.
fn are_over<A: Allocator + Copy, P: Allocator>(
    first: &Follower<'_, A, P>,
    second: &Follower<'_, A, P>,
) -> bool
    ensures { result ≡ (is_over first.now && is_over second.now) }
{
    is_over(first) && is_over(second)
}

/// What comes of two jobs of which NEW fails: OLD is carried out to its end, since its own failure
/// comes first.
fn new_fails<S: Source, A: Allocator + Copy, P: Allocator>(
    old_job: &mut S,
    first: &mut Follower<'_, A, P>,
    failure: Failure,
) -> Result<PageComparison<A>, PagesError>
    requires { IsFalse (S.state old_job.old).failed }
    ensures right { IfOk result (λ comparison. NewFailsRight
        (S.state old_job.old) (S.state old_job.new) first.old failure (told_pages comparison)) }
    ensures read { (S.state old_job.new).failed ≡ is_unread Which.Old result }
    ensures err { IfErr result (λ error. IsOwnError Which.Old error × IsErrorOfPages error) }
{
    match last_failure(old_job, first) {
        Ok(Some(own)) => Ok(PageComparison::OldFails(own)),
        Ok(None) => Ok(PageComparison::NewFails(failure)),
        Err(error) => Err(error),
    }
}

/// Carries out the rest of OLD, and answers why it fails, if it does.
fn last_failure<S: Source, A: Allocator + Copy, P: Allocator>(
    old_job: &mut S,
    first: &mut Follower<'_, A, P>,
) -> Result<Option<Failure>, PagesError>
    requires { IsFalse (S.state old_job.old).failed }
    ensures failure { IfOk result (λ failure. failure ≡ failure_of first.new.run.progress) }
    ensures run { OnOk result (RunsOut (S.state old_job.old) (S.state old_job.new)
        first.old.run first.new.run) }
    ensures over { OnOk result (is_open first.new.run.progress ≡ false) }
    ensures number { first.new.run.number ≡ first.old.run.number }
    ensures read { (S.state old_job.new).failed ≡ is_unread Which.Old result }
    ensures err { IfErr result (λ error. IsOwnError Which.Old error × IsErrorOfPages error) }
{
    match first.run_out(old_job) {
        Ok(()) => Ok(first.failure()),
        Err(error) => Err(PagesError::Unread(Unread {
            which: Which::Old,
            error,
        })),
    }
}

/// Tells the differences of a page of both jobs, and keeps it, where it differs and there is room.
fn compare_page<A: Allocator + Copy>(
    alloc: A,
    nearness: Nearness,
    pair: PagePair<A>,
    listing: &mut Listing<A>,
) -> Result<(), AllocError>
    requires old { length (made_page pair.old).marks ≤ 2 ^ 21 }
    requires new { length (made_page pair.new).marks ≤ 2 ^ 21 }
    ensures { OnOk result (listing.new ≡ page_kept nearness pair.number
        (made_page pair.old) (made_page pair.new) listing.old) }
{
    tell_page(alloc, nearness, &pair, listing)?;
    listing.end_page(pair)?;
    Ok(())
}

/// Tells the differences of a page of both jobs.
fn tell_page<A: Allocator + Copy>(
    alloc: A,
    nearness: Nearness,
    pair: &PagePair<A>,
    listing: &mut Listing<A>,
) -> Result<(), AllocError>
    requires old { length (made_page pair.now.old).marks ≤ 2 ^ 21 }
    requires new { length (made_page pair.now.new).marks ≤ 2 ^ 21 }
    ensures { OnOk result (listing.new ≡ kept_all (page_differences nearness pair.now.number
        (made_page pair.now.old) (made_page pair.now.new)) listing.old) }
{
    let (one, other) = (&pair.old, &pair.new);
    let setting = Setting {
        page: pair.number,
        old_end: one.place,
        new_end: other.place,
        within: nearness.within,
    };
    tell_marks(alloc, nearness.any_order, &setting, one, other, listing)?;
    tell_ends(pair.number, one, other, listing)?;
    Ok(())
}

/// Tells the differences of the marks of two pages.
fn tell_marks<A: Allocator + Copy>(
    alloc: A,
    any_order: bool,
    setting: &Setting,
    one: &Page<A>,
    other: &Page<A>,
    listing: &mut Listing<A>,
) -> Result<(), AllocError>
    requires old { length (made_page one.now).marks ≤ 2 ^ 21 }
    requires new { length (made_page other.now).marks ≤ 2 ^ 21 }
    ensures { OnOk result (listing.new ≡ kept_all (marks_compared any_order setting.now
        (made_page one.now).marks (made_page other.now).marks) listing.old) }
{
    let (old, new) = (one.marks.as_slice(), other.marks.as_slice());
    if any_order {
        tell_in_any_order(alloc, setting, old, new, listing)
    } else {
        tell_in_order(setting, old, new, listing)
    }
}

/// Tells where two pages end otherwise.
fn tell_ends<A: Allocator>(
    page: u64,
    one: &Page<A>,
    other: &Page<A>,
    listing: &mut Listing<A>,
) -> Result<(), AllocError>
    requires old { length (made_page one.now).marks ≤ 2 ^ 21 }
    requires new { length (made_page other.now).marks ≤ 2 ^ 21 }
    ensures { OnOk result (listing.new
        ≡ kept_all (ends_compared page (made_page one.now) (made_page other.now)) listing.old) }
{
    if are_same_ends(one.end, other.end) {
        return Ok(());
    }
    let at = Standing {
        page,
        old_mark: one.marks.len() as u64 + 1,
        new_mark: other.marks.len() as u64 + 1,
    };
    let change = end_change(one.end, other.end);
    listing.tell(at.difference(one.place, other.place, change))
}

/// What differs between two ends that are not the same.
fn end_change(one: Option<PageEnd>, other: Option<PageEnd>) -> PageChange
    ensures { result ≡ end_change one other }
{
    match (one, other) {
        (None, Some(_)) => PageChange::PageOnlyInNew,
        (Some(_), None) => PageChange::PageOnlyInOld,
        _ => PageChange::PageEnds,
    }
}

fn are_same_ends(one: Option<PageEnd>, other: Option<PageEnd>) -> bool
    ensures { result ≡ are_same_ends one other }
{
    match (one, other) {
        (None, None) => true,
        (Some(one), Some(other)) => is_same_end(&one, &other),
        _ => false,
    }
}

/// Whether two pages end with the same five values.
fn is_same_end(one: &PageEnd, other: &PageEnd) -> bool
    ensures { result ≡ is_same_end one.now other.now }
{
    one.size == other.size
        && one.orientation == other.orientation
        && one.sides == other.sides
        && one.tray == other.tray
        && one.copies == other.copies
}

/// Counts a page of OLD and its marks.
fn count_page<A: Allocator>(counts: Counts, page: &Page<A>) -> Counts
    ensures { result ≡ page_counted (made_page page.now) counts }
{
    let counts = count_marks(counts, page);
    match page.end {
        None => counts,
        Some(values) => count_end(counts, values),
    }
}

fn count_marks<A: Allocator>(counts: Counts, page: &Page<A>) -> Counts
    ensures { result ≡ counts_after (map Marked (shapes_of (made_page page.now).marks)) counts }
{
    let mut counts = counts;
    counts.add_marks(page.marks.len() as u64);
    counts
}

fn count_end(counts: Counts, values: PageEnd) -> Counts
    ensures { result ≡ counted (Ended values) counts }
{
    let mut counts = counts;
    let Ok(()) = counts.page(values);
    counts
}
