//! The line that is written for a fault.
ghost use Rattle.std.specs.Prelude.{◌≡◌, ◌++◌, codes, OnOk};
ghost use Rattle.profile_lint.specs.FaultLines.{cause_word, fault_line, fault_words, line_words};
ghost use Rattle.profile_lint.specs.Rules.{broken_rule};
ghost use Rattle.profile_lint.specs.Shown.{quoted};
ghost use Rattle.shown_bytes.specs.Shown.{shown};

use crate::fault::TextFault;
use crate::key_rules::{meaning_of, push_broken_rule};
use crate::shown::{line_at, push_number_in, push_numbers_in, push_quoted, push_word_in};
use device_profile::{Cause, Key};
use shown_bytes::{push_number, push_shown};
use std::alloc::{AllocError, Allocator};

/// Appends the line that tells a fault of a file's text: `FILE:LINE: WORDS (CAUSE)`, or
/// `FILE: WORDS (CAUSE)` where the whole is wrong.
///
/// Bytes of the file's name and of its text that show nothing stand there as `\xHH`. Of a faulty
/// line at most 40 bytes are quoted.
///
/// An error means that the allocator refused a request.
#[tactic(auto, unfolding(crate::specs::FaultLines::fault_line))]
pub fn push_fault<A: Allocator>(
    out: &mut Vec<u8, A>,
    file: &[u8],
    text: &[u8],
    fault: TextFault,
) -> Result<(), AllocError>
    ensures { OnOk result (out.new.items ≡ out.old.items ++ fault_line file.now text.now fault) }
{
    push_place(out, file, fault.line())?;
    push_fault_words(out, text, fault)?;
    push_cause(out, fault.cause())
}

/// Appends a file and the number of a line in it.
fn push_place<A: Allocator>(
    out: &mut Vec<u8, A>,
    file: &[u8],
    number: u64,
) -> Result<(), AllocError>
    ensures { OnOk result
        (out.new.items ≡ out.old.items ++ (shown file.now ++ line_words number ++ codes ": ")) }
{
    push_shown(out, file)?;
    push_line_words(out, number)?;
    out.extend_from_slice(b": ")
}

/// Appends a cause in brackets, and the end of the line.
fn push_cause<A: Allocator>(out: &mut Vec<u8, A>, cause: Cause) -> Result<(), AllocError>
    ensures { OnOk result
        (out.new.items ≡ out.old.items ++ (codes " (" ++ cause_word cause ++ codes ")\n")) }
{
    out.extend_from_slice(b" (")?;
    out.extend_from_slice(cause_word(cause))?;
    out.extend_from_slice(b")\n")
}

/// Appends the number of a line behind its file, and nothing for the whole, which has 0.
#[tactic(auto, unfolding(crate::specs::FaultLines::line_words))]
fn push_line_words<A: Allocator>(out: &mut Vec<u8, A>, number: u64) -> Result<(), AllocError>
    ensures { OnOk result (out.new.items ≡ out.old.items ++ line_words number) }
{
    if number == 0 {
        return Ok(());
    }
    out.push(b':')?;
    push_number(out, number)
}

/// Appends what is wrong with a text.
#[tactic(auto, unfolding(crate::specs::FaultLines::fault_words))]
fn push_fault_words<A: Allocator>(
    out: &mut Vec<u8, A>,
    text: &[u8],
    fault: TextFault,
) -> Result<(), AllocError>
    ensures { OnOk result (out.new.items ≡ out.old.items ++ fault_words text.now fault) }
{
    match fault {
        TextFault::TooLong => {
            out.extend_from_slice(b"it has more than 65536 bytes, which no profile has")
        }
        TextFault::NoVersion => {
            push_quoted(out, line_at(text, 1))?;
            out.extend_from_slice(b": the first line has to be 'pclprofile 1' or 'pclprofile 2'")
        }
        TextFault::OnLine { number, key, cause } => {
            push_line_fault(out, line_at(text, number), key, cause)
        }
        TextFault::Ungiven(key) => {
            push_word_in(out, b"no line gives '", key.word(), b"', ", meaning_of(key))
        }
        TextFault::NoPageOfSize(size) => {
            let behind = b", but no geometry line has it";
            push_number_in(out, b"the panel may have size ", size, behind)
        }
        TextFault::NoPageInOrientation(orientation) => {
            let behind = b", but no geometry line has it";
            push_number_in(out, b"the panel may have orientation ", orientation, behind)
        }
        TextFault::NoPair { size, orientation } => {
            let before = b"no geometry line has both size ";
            let behind = b", but some have either";
            push_numbers_in(out, before, size, b" and orientation ", orientation, behind)
        }
        TextFault::NoFace(font) => {
            let behind = b", but no face line has this id";
            push_number_in(out, b"the panel may have font ", font, behind)
        }
        TextFault::NoTray(tray) => {
            let behind = b", but 'trays' lacks it";
            push_number_in(out, b"the panel may take paper from tray ", tray, behind)
        }
        TextFault::NoSides(sides) => {
            let behind = b", but 'duplex' is 0";
            push_number_in(out, b"the panel may have sides ", sides, behind)
        }
    }
}

/// Appends a line and the rule that it breaks.
fn push_line_fault<A: Allocator>(
    out: &mut Vec<u8, A>,
    line: &[u8],
    key: Option<Key>,
    cause: Cause,
) -> Result<(), AllocError>
    ensures { OnOk result
        (out.new.items ≡ out.old.items ++
        (quoted line.now ++ codes ": " ++ broken_rule key cause)) }
{
    push_quoted(out, line)?;
    out.extend_from_slice(b": ")?;
    push_broken_rule(out, key, cause)
}

/// The name of a cause.
fn cause_word(cause: Cause) -> &'static [u8]
    ensures { result.now ≡ cause_word cause }
{
    match cause {
        Cause::Version => b"Version",
        Cause::Unknown => b"Unknown",
        Cause::Repeated => b"Repeated",
        Cause::Range => b"Range",
        Cause::Missing => b"Missing",
        Cause::NoGeometry => b"NoGeometry",
    }
}
