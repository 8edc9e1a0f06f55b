//! Reads the pages of a job that is carried out.

ghost use Rattle.std.specs.Prelude.{◌≡◌, ◌+◌, ◌≤◌, ◌^◌, [], IfErr, IfOk, IsFalse, OnOk, false};
ghost use Rattle.std.specs.Prelude.{length};
ghost use Rattle.comparison.specs.Comparing.{FollowsOn, still_made};
ghost use Rattle.comparison.specs.Running.{is_open};
ghost use Rattle.page_comparison.specs.Pages.{made_page};
ghost use Rattle.page_comparison.specs.Reading.{IsErrorOfPages, IsOwnError, ReadsPage};
ghost use Rattle.page_comparison.specs.Reading.{TakesEvent, TakesNext, is_over, is_unread};

use crate::differences::{MOST_MARKS, PageOf, PagesError};
use crate::page::Page;
use comparison::{Follower, Unread};
use std::alloc::{AllocError, Allocator};
use streams::Source;

/// All marks of a page, and its end.
const MOST_EVENTS: usize = MOST_MARKS + 1;

/// Whether all that a job makes is behind it, and it is over.
pub(crate) fn is_over<A: Allocator + Copy, P: Allocator>(job: &Follower<'_, A, P>) -> bool
    ensures { result ≡ is_over job.now }
{
    match job.next() {
        Some(_) => false,
        None => !job.is_open(),
    }
}

/// Reads a page of a job. Where the job is over before that ends, the page has no end; of a job
/// that is over it has no marks, too.
pub(crate) fn read_page<S: Source, A: Allocator + Copy, P: Allocator>(
    alloc: A,
    page_of: PageOf,
    source: &mut S,
    job: &mut Follower<'_, A, P>,
) -> Result<Page<A>, PagesError>
    requires { IsFalse (S.state source.old).failed }
    ensures read { IfOk result (λ page. ReadsPage (S.state source.old) (S.state source.new)
        job.old job.new (made_page page)) }
    ensures few { IfOk result (λ page. length (made_page page).marks ≤ 2 ^ 21) }
    ensures number { job.new.run.number ≡ job.old.run.number }
    ensures failed { (S.state source.new).failed ≡ is_unread page_of.which result }
    ensures err { IfErr result (λ error. IsOwnError page_of.which error × IsErrorOfPages error) }
{
    if is_over(job) {
        let mut page = Page::new(alloc);
        page.end_at(job.place());
        return Ok(page);
    }
    fill_page(alloc, page_of, source, job)
}

/// The same of a job that is not over.
fn fill_page<S: Source, A: Allocator + Copy, P: Allocator>(
    alloc: A,
    page_of: PageOf,
    source: &mut S,
    job: &mut Follower<'_, A, P>,
) -> Result<Page<A>, PagesError>
    requires working { IsFalse (S.state source.old).failed }
    requires unended { is_over job.old ≡ false }
    ensures read { IfOk result (λ page. ReadsPage (S.state source.old) (S.state source.new)
        job.old job.new (made_page page)) }
    ensures few { IfOk result (λ page. length (made_page page).marks ≤ 2 ^ 21) }
    ensures number { job.new.run.number ≡ job.old.run.number }
    ensures failed { (S.state source.new).failed ≡ is_unread page_of.which result }
    ensures err { IfErr result (λ error. IsOwnError page_of.which error × IsErrorOfPages error) }
{
    let mut page = Page::new(alloc);
    for _ in 0..MOST_EVENTS {
        let came = take_next(alloc, page_of, source, job, &mut page)?;
        match came {
            None => return Ok(page),
            Some(false) => return Ok(page),
            Some(true) => {}
        }
    }
    Err(PagesError::TooManyMarks(page_of))
}

/// Takes what a job makes next, and answers whether the page goes on behind it. None: the job is
/// over.
fn take_next<S: Source, A: Allocator + Copy, P: Allocator>(
    alloc: A,
    page_of: PageOf,
    source: &mut S,
    job: &mut Follower<'_, A, P>,
    page: &mut Page<A>,
) -> Result<Option<bool>, PagesError>
    requires { IsFalse (S.state source.old).failed }
    ensures taken { IfOk result (λ came. TakesNext (S.state source.old) (S.state source.new)
        job.old job.new (made_page page.old) (made_page page.new) came) }
    ensures few { OnOk result (length (made_page page.new).marks
        ≤ length (made_page page.old).marks + 1) }
    ensures number { job.new.run.number ≡ job.old.run.number }
    ensures failed { (S.state source.new).failed ≡ is_unread page_of.which result }
    ensures err { IfErr result (λ error. IsOwnError page_of.which error × IsErrorOfPages error) }
{
    come(page_of, source, job)?;
    let came = take_event(alloc, job, page)?;
    Ok(came)
}

/// Takes the event that has come. None: none has, and the job is over.
fn take_event<A: Allocator + Copy, P: Allocator>(
    alloc: A,
    job: &mut Follower<'_, A, P>,
    page: &mut Page<A>,
) -> Result<Option<bool>, AllocError>
    requires { still_made job.old ≡ [] → is_open job.old.run.progress ≡ false }
    ensures taken { IfOk result (λ came. TakesEvent job.old job.new
        (made_page page.old) (made_page page.new) came) }
    ensures few { OnOk result (length (made_page page.new).marks
        ≤ length (made_page page.old).marks + 1) }
    ensures number { job.new.run.number ≡ job.old.run.number }
{
    let place = job.place();
    match job.next() {
        None => {
            page.end_at(place);
            Ok(None)
        }
        Some(event) => {
            let goes_on = page.take(alloc, event, place)?;
            job.pass();
            Ok(Some(goes_on))
        }
    }
}

/// Goes on with a job until there is an event that is not taken, or it is over.
fn come<S: Source, A: Allocator + Copy, P: Allocator>(
    page_of: PageOf,
    source: &mut S,
    job: &mut Follower<'_, A, P>,
) -> Result<(), PagesError>
    requires { IsFalse (S.state source.old).failed }
    ensures run { OnOk result (FollowsOn (S.state source.old) (S.state source.new)
        job.old job.new) }
    ensures came { OnOk result (still_made job.new ≡ [] →
        is_open job.new.run.progress ≡ false) }
    ensures number { job.new.run.number ≡ job.old.run.number }
    ensures failed { (S.state source.new).failed ≡ is_unread page_of.which result }
    ensures err { IfErr result (λ error. IsOwnError page_of.which error × IsErrorOfPages error) }
{
    match job.come(source) {
        Ok(()) => Ok(()),
        Err(error) => Err(PagesError::Unread(Unread {
            which: page_of.which,
            error,
        })),
    }
}
