//! What standard error is told of printers that are refused or cannot be read.
ghost use Rattle.std.specs.Prelude.{◌≡◌, ◌++◌, IsFalse, OnOk, option_map};
ghost use Rattle.job_reports.specs.Refusals.{fault_part, fault_phrase, line_phrase, refusal_words};
ghost use Rattle.job_reports.specs.Refusals.{refused_profile, refused_profile_sentence, unread};
ghost use Rattle.job_reports.specs.Refusals.{unread_profile, unread_profile_sentence, TellsUnread};

use crate::job_lines::push_cause;
use crate::job_sentences::{push_cause_phrase, push_named_first};
use device_profile::Cause;
use line_words::push_named;
use named_inputs::system_words::system_words;
use requests::{Status, Trouble, cause_name};
use shown_bytes::push_shown;
use std::alloc::{AllocError, Allocator};
use std::io;
use streams::{Error, Outlet, write_text};

/// Appends that the profile of this number and word is refused at a line of its text.
pub fn push_refused_profile<A: Allocator>(
    text: &mut Vec<u8, A>,
    number: u64,
    word: &str,
    line: u64,
    cause: Cause,
) -> Result<(), AllocError>
    ensures { OnOk result (text.new.items ≡ text.old.items ++
        refused_profile number word.now line cause) }
{
    push_named(text, b"ERROR profile ", number)?;
    text.push(b' ')?;
    push_shown(text, word.as_bytes())?;
    push_fault(text, line, cause)?;
    Ok(())
}

/// Appends a line of a text, and what is wrong there.
fn push_fault<A: Allocator>(
    text: &mut Vec<u8, A>,
    line: u64,
    cause: Cause,
) -> Result<(), AllocError>
    ensures { OnOk result (text.new.items ≡ text.old.items ++ fault_part line cause) }
{
    push_named(text, b":", line)?;
    text.push(b' ')?;
    text.extend_from_slice(cause_name(cause))?;
    text.push(b'\n')?;
    Ok(())
}

/// Appends that the profile of this word could not be read.
pub fn push_unread_profile<A: Allocator>(
    text: &mut Vec<u8, A>,
    word: &str,
    cause: Option<&[u8]>,
) -> Result<(), AllocError>
    ensures { OnOk result (text.new.items ≡ text.old.items ++
        unread_profile word.now (option_map (λ words. words.now) cause.entry)) }
{
    push_unread(text, b"ERROR read profile ", word, cause)
}

/// Appends that what a word names could not be read, behind these words.
pub fn push_unread<A: Allocator>(
    text: &mut Vec<u8, A>,
    front: &[u8],
    word: &str,
    cause: Option<&[u8]>,
) -> Result<(), AllocError>
    ensures { OnOk result (text.new.items ≡ text.old.items ++
        unread front.now word.now (option_map (λ words. words.now) cause.entry)) }
{
    text.extend_from_slice(front)?;
    push_shown(text, word.as_bytes())?;
    push_cause(text, cause)?;
    text.extend_from_slice(b"\n")
}

/// Appends the sentence of the profile of this number and word, which is refused at a line of its
/// text.
pub fn push_refused_profile_sentence<A: Allocator + Copy>(
    alloc: A,
    text: &mut Vec<u8, A>,
    number: u64,
    word: &str,
    line: u64,
    cause: Cause,
) -> Result<(), AllocError>
    ensures { OnOk result (text.new.items ≡ text.old.items ++
        refused_profile_sentence number word.now line cause) }
{
    push_named_first(alloc, text, word.as_bytes())?;
    push_line_phrase(text, line)?;
    text.extend_from_slice(fault_phrase(line, cause))?;
    push_refusal_words(text, number, cause)
}

/// Appends the line of a text that is wrong, where it is one line.
fn push_line_phrase<A: Allocator>(text: &mut Vec<u8, A>, line: u64) -> Result<(), AllocError>
    ensures { OnOk result (text.new.items ≡ text.old.items ++ line_phrase line) }
{
    if line == 0 {
        return Ok(());
    }
    push_named(text, b"line ", line)?;
    text.extend_from_slice(b": ")
}

/// What is wrong in a line of a text, or with line 0 in all of it.
fn fault_phrase(line: u64, cause: Cause) -> &'static [u8]
    ensures { result.now ≡ fault_phrase line cause }
{
    match cause {
        Cause::Version => {
            b"this is neither 'pclprofile 1' nor 'pclprofile 2', so no profile; jobs come behind -p or -f"
        }
        Cause::Unknown => b"the first word is no key of this version",
        Cause::Repeated => b"this gives again what an earlier line gave, or a number twice",
        Cause::Range if line == 0 => {
            b"the text has more than 65,536 bytes, or the panel offers what the printer lacks"
        }
        Cause::Range => b"what stands behind the key is not as the key wants it",
        Cause::Missing => b"a key, a page or a face is missing",
        Cause::NoGeometry => {
            b"a size has no page in an orientation that the panel or another page has"
        }
    }
}

/// Appends the words by which a program knows the refusal.
fn push_refusal_words<A: Allocator>(
    text: &mut Vec<u8, A>,
    number: u64,
    cause: Cause,
) -> Result<(), AllocError>
    ensures { OnOk result (text.new.items ≡ text.old.items ++ refusal_words number cause) }
{
    push_named(text, b" (ERROR profile ", number)?;
    text.extend_from_slice(b" ")?;
    text.extend_from_slice(cause_name(cause))?;
    text.extend_from_slice(b")\n")
}

/// Appends the sentence of the profile of this word, which could not be read.
pub fn push_unread_profile_sentence<A: Allocator + Copy>(
    alloc: A,
    text: &mut Vec<u8, A>,
    word: &str,
    cause: Option<&[u8]>,
) -> Result<(), AllocError>
    ensures { OnOk result (text.new.items ≡ text.old.items ++
        unread_profile_sentence word.now (option_map (λ words. words.now) cause.entry)) }
{
    push_named_first(alloc, text, word.as_bytes())?;
    text.extend_from_slice(b"this profile cannot be read")?;
    push_cause_phrase(alloc, text, cause)?;
    text.extend_from_slice(b" (ERROR read)\n")
}

/// Tells standard error that what a word names could not be read; the front says what that is, as
/// `ERROR read names ` does of a file with the names of jobs.
pub fn tell_unread<E: Outlet, A: Allocator + Copy>(
    alloc: A,
    front: &[u8],
    word: &str,
    error: Option<io::Error>,
    stderr: &mut E,
) -> Status
    requires { IsFalse (E.state stderr.old).failed }
    ensures { TellsUnread front.now word.now result (E.state stderr.old) (E.state stderr.new) }
{
    let told = system_words(alloc, error);
    let cause = told.as_ref().map(|told| told.as_bytes());
    let mut text = Vec::new(alloc);
    if push_unread(&mut text, front, word, cause).is_err() {
        return Status::Stopped(Error::Memory);
    }
    // Where standard error takes nothing, the status alone is left to tell.
    let _ = write_text(stderr, text.as_slice());
    Status::Told(Trouble::NoVerdict)
}
