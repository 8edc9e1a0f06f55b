//! A fleet as a text: a profile a line.
ghost use Rattle.std.specs.Prelude.{◌≡◌, ◌∷◌, ◌++◌, [], IfErr, IfNone, IfOk, IsFalse, OnOk};
ghost use Rattle.std.specs.Prelude.{option_map, string_bytes};
ghost use Rattle.many_jobs.specs.FleetFile.{AddsBytes, AddsFleet, TellsOfFleet, fleet_words};
ghost use Rattle.many_jobs.specs.FleetFile.{is_passed_over, is_sample, line_words, refused_fleet};
ghost use Rattle.many_jobs.specs.FleetFile.{refused_text, word_of};

use job_reports::push_unread;
use named_inputs::ProfileTexts;
use named_inputs::system_words::system_words;
use requests::{Status, Trouble};
use shown_bytes::push_shown;
use std::alloc::{AllocError, Allocator};
use std::io;
use std::path::Path;
use streams::{Error, Outlet, write_text};

/// A text has at most so many bytes.
const MOST_BYTES: usize = 65_536;

/// Why a fleet's text gives no printers.
#[derive(Clone, Copy, Debug, PartialEq, Eq)]
enum FleetFault {
    Unreadable,
    TooLong,
    NoText,
    NoPrinter,
}

/// Appends the words that a fleet's text names, in its order: each line is the path of a profile,
/// relative to the folder of the text, or a sample; empty lines and those that begin with `#` are
/// passed over. Of a fleet that is refused standard error tells.
pub fn read_fleet_file<T: ProfileTexts, E: Outlet, A: Allocator + Copy>(
    alloc: A,
    texts: &mut T,
    path: &str,
    words: &mut Vec<String<A>, A>,
    stderr: &mut E,
) -> Result<(), Status>
    requires texts { IsFalse (T.failed texts.old) }
    requires stderr { IsFalse (E.state stderr.old).failed }
    ensures named { OnOk result (AddsFleet string_bytes (T.text_of texts.old) path.now
        (T.given texts.old) (T.given texts.new) words.old.items words.new.items) }
    ensures asked { T.named texts.new ≡ T.named texts.old ++ path.now ∷ [] }
    ensures working { OnOk result (IsFalse (T.failed texts.new)) }
    ensures same { T.text_of texts.new ≡ T.text_of texts.old }
    ensures quiet { OnOk result (stderr.new ≡ stderr.old) }
    ensures end { IfErr result (λ status. TellsOfFleet path.now status
        (E.state stderr.old) (E.state stderr.new)) }
{
    match gather_words(alloc, texts, path, words) {
        Ok(None) => Ok(()),
        Ok(Some(fault)) => Err(tell_fault(alloc, path, fault, texts.error(), stderr)),
        Err(AllocError) => Err(Status::Stopped(Error::Memory)),
    }
}

/// Appends the words that a fleet's text names, or finds what is wrong with the text.
fn gather_words<T: ProfileTexts, A: Allocator + Copy>(
    alloc: A,
    texts: &mut T,
    path: &str,
    words: &mut Vec<String<A>, A>,
) -> Result<Option<FleetFault>, AllocError>
    requires { IsFalse (T.failed texts.old) }
    ensures named { IfOk result (λ fault. IfNone fault (AddsFleet string_bytes
        (T.text_of texts.old) path.now (T.given texts.old) (T.given texts.new)
        words.old.items words.new.items)) }
    ensures asked { T.named texts.new ≡ T.named texts.old ++ path.now ∷ [] }
    ensures working { IfOk result (λ fault. IfNone fault (IsFalse (T.failed texts.new))) }
    ensures same { T.text_of texts.new ≡ T.text_of texts.old }
{
    let text = match texts.read_text(alloc, path) {
        Ok(text) => text,
        Err(Error::Read) => return Ok(Some(FleetFault::Unreadable)),
        Err(_) => return Err(AllocError),
    };
    if text.len() > MOST_BYTES {
        return Ok(Some(FleetFault::TooLong));
    }
    let Ok(text) = str::from_utf8(text.as_slice()) else {
        return Ok(Some(FleetFault::NoText));
    };
    let before = words.len();
    push_words(alloc, path, text, words)?;
    if words.len() == before {
        return Ok(Some(FleetFault::NoPrinter));
    }
    Ok(None)
}

/// Appends the words that a text at this path names, line by line.
fn push_words<A: Allocator + Copy>(
    alloc: A,
    path: &str,
    text: &str,
    words: &mut Vec<String<A>, A>,
) -> Result<(), AllocError>
    ensures { OnOk result (AddsBytes string_bytes words.old.items words.new.items
        (fleet_words path.now text.now)) }
{
    for line in text.lines() {
        push_word(alloc, path, line.trim(), words)?;
    }
    Ok(())
}

/// Appends the word of a line, unless it is passed over.
fn push_word<A: Allocator + Copy>(
    alloc: A,
    path: &str,
    line: &str,
    words: &mut Vec<String<A>, A>,
) -> Result<(), AllocError>
    ensures { OnOk result (AddsBytes string_bytes words.old.items words.new.items
        (line_words path.now line.now)) }
{
    if is_passed_over(line) {
        return Ok(());
    }
    let word = word_of(alloc, path, line)?;
    words.push(word)?;
    Ok(())
}

/// Whether a line is empty or a comment.
fn is_passed_over(line: &str) -> bool
    ensures { result ≡ is_passed_over line.now }
{
    line.is_empty() || line.starts_with('#')
}

/// Whether a word is that of a sample.
fn is_sample(word: &str) -> bool
    ensures { result ≡ is_sample word.now }
{
    word.starts_with('@')
}

/// The word of a line: a sample as it stands, and a path as seen from the folder of the text.
fn word_of<A: Allocator + Copy>(alloc: A, path: &str, line: &str) -> Result<String<A>, AllocError>
    ensures { IfOk result (λ word. string_bytes word ≡ word_of path.now line.now) }
{
    if is_sample(line) {
        return String::from_str(alloc, line);
    }
    let path = Path::new(path).with_file_name(alloc, line)?;
    Ok(path.into_string())
}

/// Tells standard error why a fleet is refused.
fn tell_fault<E: Outlet, A: Allocator + Copy>(
    alloc: A,
    path: &str,
    fault: FleetFault,
    error: Option<io::Error>,
    stderr: &mut E,
) -> Status
    requires { IsFalse (E.state stderr.old).failed }
    ensures { TellsOfFleet path.now result (E.state stderr.old) (E.state stderr.new) }
{
    let told = system_words(alloc, error);
    let cause = told.as_ref().map(|told| told.as_bytes());
    let mut line = Vec::new(alloc);
    if push_fault(&mut line, path, fault, cause).is_err() {
        return Status::Stopped(Error::Memory);
    }
    // Where standard error takes nothing, the status alone is left to tell.
    let _ = write_text(stderr, line.as_slice());
    Status::Told(Trouble::Refused)
}

/// Appends why a fleet is refused.
fn push_fault<A: Allocator>(
    line: &mut Vec<u8, A>,
    path: &str,
    fault: FleetFault,
    cause: Option<&[u8]>,
) -> Result<(), AllocError>
    ensures { OnOk result (line.new.items ≡ line.old.items ++
        refused_fleet path.now fault (option_map (λ words. words.now) cause.entry)) }
{
    match fault {
        FleetFault::Unreadable => push_unread(line, b"ERROR read fleet ", path, cause),
        FleetFault::TooLong => push_refused(line, path, b": more than 65536 bytes\n"),
        FleetFault::NoText => push_refused(line, path, b": not UTF-8 text\n"),
        FleetFault::NoPrinter => push_refused(line, path, b": names no printer\n"),
    }
}

/// Appends that a fleet's text is refused, with these words.
fn push_refused<A: Allocator>(
    line: &mut Vec<u8, A>,
    path: &str,
    words: &[u8],
) -> Result<(), AllocError>
    ensures { OnOk result (line.new.items ≡ line.old.items ++ refused_text path.now words.now) }
{
    line.extend_from_slice(b"ERROR fleet ")?;
    push_shown(line, path.as_bytes())?;
    line.extend_from_slice(words)?;
    Ok(())
}
