//! The document of a job, to which the job's row leads.
ghost use Rattle.std.specs.Prelude.{◌≡◌, ◌<◌, ◌++◌, ◌∷◌, [], IfSome, MatchOption, OnOk, Some};
ghost use Rattle.std.specs.Prelude.{length, option_map};
ghost use Rattle.job_rows.specs.Links.{address_byte, address_of, document_path, has_pages};
ghost use Rattle.job_rows.specs.Links.{is_letter_or_digit, is_plain, last_part, later_part, link};
ghost use Rattle.job_rows.specs.Links.{link_part, told_of};

use crate::escapes::is_between;
use shown_bytes::hex_byte;
use std::alloc::{AllocError, Allocator};
use streams::Error;
use verdict::Verdict;

/// A folder, and the job whose document is in it.
#[derive(Clone, Copy)]
pub struct JobDocument<'d> {
    pub folder: &'d str,
    pub job: &'d [u8],
}

/// Appends the path of the document of a job.
#[tactic(auto, unfolding(crate::specs::Links::document_path))]
pub fn push_document_path<A: Allocator>(
    path: &mut Vec<u8, A>,
    document: &JobDocument<'_>,
) -> Result<(), AllocError>
    ensures { OnOk result
        (path.new.items ≡ path.old.items ++ document_path (told_of document.now)) }
{
    path.extend_from_slice(document.folder.as_bytes())?;
    path.extend_from_slice(b"/")?;
    path.extend_from_slice(last_part(document.job))?;
    path.extend_from_slice(b".pdf")
}

/// The name of what is at a path.
pub fn last_part(path: &[u8]) -> &[u8]
    ensures { result.now ≡ last_part path.now }
{
    let mut part = path;
    let mut rest = path;
    while let Some((first, behind)) = cut_byte(rest) {
        part = later_part(first, part, behind);
        rest = behind;
    }
    part
}

/// The first byte, and what stands behind it.
fn cut_byte(bytes: &[u8]) -> Option<(u8, &[u8])>
    ensures cut { MatchOption result (bytes.now ≡ [])
        (λ cut. bytes.now ≡ cut.0 ∷ cut.1.now) }
    ensures shorter { IfSome result (λ cut. length cut.1.now < length bytes.now) }
{
    match bytes {
        [] => None,
        [first, behind @ ..] => Some((*first, behind)),
    }
}

/// What is the last part behind this byte.
fn later_part<'p>(byte: u8, part: &'p [u8], behind: &'p [u8]) -> &'p [u8]
    ensures { result.now ≡ later_part byte part.now behind.now }
{
    if byte == b'/' { behind } else { part }
}

/// Appends a link to the document of a job of this verdict, where it has one and pages in it.
pub(crate) fn push_link<A: Allocator>(
    text: &mut Vec<u8, A>,
    answer: Result<Verdict, Error>,
    document: &Option<JobDocument<'_>>,
) -> Result<(), AllocError>
    ensures { OnOk result (text.new.items ≡ text.old.items
        ++ link_part answer (option_map told_of document.now)) }
{
    match document {
        None => Ok(()),
        Some(document) => push_link_to(text, answer, document),
    }
}

fn push_link_to<A: Allocator>(
    text: &mut Vec<u8, A>,
    answer: Result<Verdict, Error>,
    document: &JobDocument<'_>,
) -> Result<(), AllocError>
    ensures { OnOk result (text.new.items ≡ text.old.items
        ++ link_part answer (Some (told_of document.now))) }
{
    if !has_pages(answer) {
        return Ok(());
    }
    push_pages_link(text, document)
}

/// Whether a job of this verdict has pages.
fn has_pages(answer: Result<Verdict, Error>) -> bool
    ensures { result ≡ has_pages answer }
{
    match answer {
        Ok(Verdict::Pass { pages, .. }) => 0 < pages,
        Ok(Verdict::Fail { .. }) => true,
        Err(_) => false,
    }
}

#[tactic(auto, unfolding(crate::specs::Links::link))]
fn push_pages_link<A: Allocator>(
    text: &mut Vec<u8, A>,
    document: &JobDocument<'_>,
) -> Result<(), AllocError>
    ensures { OnOk result (text.new.items ≡ text.old.items ++ link (told_of document.now)) }
{
    text.extend_from_slice(b"<p><a href=\"")?;
    push_address(text, document.folder.as_bytes())?;
    text.extend_from_slice(b"/")?;
    push_address(text, last_part(document.job))?;
    text.extend_from_slice(b".pdf\">All pages as a PDF document</a></p>\n")
}

/// Appends a path as an address has it.
fn push_address<A: Allocator>(text: &mut Vec<u8, A>, path: &[u8]) -> Result<(), AllocError>
    ensures { OnOk result (text.new.items ≡ text.old.items ++ address_of path.now) }
{
    for byte in path {
        push_address_byte(text, *byte)?;
    }
    Ok(())
}

#[tactic(auto, unfolding(crate::specs::Links::address_byte))]
fn push_address_byte<A: Allocator>(text: &mut Vec<u8, A>, byte: u8) -> Result<(), AllocError>
    ensures { OnOk result (text.new.items ≡ text.old.items ++ address_byte byte) }
{
    if is_plain(byte) {
        return text.extend_from_slice(&[byte]);
    }
    text.extend_from_slice(b"%")?;
    text.extend_from_slice(&hex_byte(byte))
}

/// Whether an address has a byte as it is.
fn is_plain(byte: u8) -> bool
    ensures { result ≡ is_plain byte }
{
    is_letter_or_digit(byte) || is_between(45, 47, byte) || byte == b'_' || byte == b'~'
}

fn is_letter_or_digit(byte: u8) -> bool
    ensures { result ≡ is_letter_or_digit byte }
{
    is_between(48, 57, byte) || is_between(65, 90, byte) || is_between(97, 122, byte)
}
