//! What further readings of a job told, in its row.
ghost use Rattle.std.specs.Prelude.{◌≡◌, ◌++◌, OnOk};
ghost use Rattle.streams.specs.Errors.{is_write};
ghost use Rattle.job_rows.specs.Bodies.{listed, lost_page, lost_part, near_part, notes_part};
ghost use Rattle.job_rows.specs.Bodies.{once_part, page_part};
ghost use Rattle.job_rows.specs.Kept.{kept_part};

use crate::escapes::push_html;
use crate::pictures::{push_picture, push_too_large};
use requests::error_words;
use std::alloc::{AllocError, Allocator};
use streams::Error;
use verdict::Verdict;

/// Appends notes, as they are told.
pub(crate) fn push_notes<A: Allocator>(
    text: &mut Vec<u8, A>,
    notes: &Option<Result<Vec<u8, A>, Error>>,
) -> Result<(), AllocError>
    ensures { OnOk result (text.new.items ≡ text.old.items ++
        notes_part (kept_part (λ text. text.items) notes.now)) }
{
    match notes {
        None => Ok(()),
        Some(Ok(notes)) => text.extend_from_slice(notes.as_slice()),
        Some(Err(error)) => push_lost(text, b"The notes", *error),
    }
}

/// Appends the items near the place at which a job fails, as a list has them.
pub(crate) fn push_near<A: Allocator>(
    text: &mut Vec<u8, A>,
    near: &Option<Result<Vec<u8, A>, Error>>,
) -> Result<(), AllocError>
    ensures { OnOk result (text.new.items ≡ text.old.items ++
        near_part (kept_part (λ text. text.items) near.now)) }
{
    match near {
        None => Ok(()),
        Some(Ok(near)) => {
            text.extend_from_slice(b"<pre>")?;
            push_listed(text, 4_000, near.as_slice())?;
            text.extend_from_slice(b"</pre>\n")
        }
        Some(Err(error)) => push_lost(text, b"The items near the place", *error),
    }
}

/// Appends lines of a list; of many the beginning.
#[tactic(auto, unfolding(crate::specs::Bodies::listed))]
fn push_listed<A: Allocator>(
    text: &mut Vec<u8, A>,
    most: usize,
    lines: &[u8],
) -> Result<(), AllocError>
    ensures { OnOk result (text.new.items ≡ text.old.items ++ listed most lines.now) }
{
    if lines.len() <= most {
        return push_html(text, lines);
    }
    push_html(text, &lines[..most])?;
    text.extend_from_slice(b"...")
}

/// Appends the picture of a page.
pub(crate) fn push_page<A: Allocator + Copy>(
    alloc: A,
    text: &mut Vec<u8, A>,
    answer: Result<Verdict, Error>,
    page: &Option<Result<Vec<u8, A>, Error>>,
) -> Result<(), AllocError>
    ensures { OnOk result (text.new.items ≡ text.old.items ++
        page_part answer (kept_part (λ text. text.items) page.now)) }
{
    match page {
        None => Ok(()),
        Some(Ok(picture)) => push_picture(alloc, text, answer, picture.as_slice()),
        Some(Err(error)) => push_lost_page(text, *error),
    }
}

/// Appends why there is no picture of a page.
fn push_lost_page<A: Allocator>(text: &mut Vec<u8, A>, error: Error) -> Result<(), AllocError>
    ensures { OnOk result (text.new.items ≡ text.old.items ++ lost_page error) }
{
    if is_write(error) {
        push_too_large(text)
    } else {
        push_lost(text, b"The page", error)
    }
}

/// Whether a write failed, as it does where a picture is too large.
fn is_write(error: Error) -> bool
    ensures { result ≡ is_write error }
{
    matches!(error, Error::Write)
}

/// Appends that no page is drawn of a job that can be read only once.
#[tactic(auto, unfolding(crate::specs::Bodies::once_part))]
pub(crate) fn push_once<A: Allocator>(
    text: &mut Vec<u8, A>,
    is_once: bool,
) -> Result<(), AllocError>
    ensures { OnOk result (text.new.items ≡ text.old.items ++ once_part is_once) }
{
    if !is_once {
        return Ok(());
    }
    text.extend_from_slice(b"<p>This job can be read only once, so no page of it is drawn.</p>\n")
}

/// Appends why something could not be had.
#[tactic(auto, unfolding(crate::specs::Bodies::lost_part))]
fn push_lost<A: Allocator>(
    text: &mut Vec<u8, A>,
    what: &[u8],
    error: Error,
) -> Result<(), AllocError>
    ensures { OnOk result (text.new.items ≡ text.old.items ++ lost_part what.now error) }
{
    text.extend_from_slice(b"<p>")?;
    text.extend_from_slice(what)?;
    text.extend_from_slice(b" could not be had when the job was read again (")?;
    text.extend_from_slice(error_words(error))?;
    text.extend_from_slice(b").</p>\n")
}
