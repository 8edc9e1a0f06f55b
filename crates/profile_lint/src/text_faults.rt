//! Every fault of a profile's text.
ghost use Rattle.std.specs.Prelude.{◌≡◌, ◌≤◌, ◌++◌, length, IfOk, OnOk};
ghost use Rattle.std.specs.Str.Lines.{lines};
ghost use Rattle.device_profile.specs.Draft.{draft_after};
ghost use Rattle.device_profile.specs.Given.{Gives};
ghost use Rattle.device_profile.specs.Text.{words_of_line};
ghost use Rattle.device_profile.specs.Words.{words_of};
ghost use Rattle.profile_lint.specs.Faults.{draft_past, draft_past_lines, fault_on_line};
ghost use Rattle.profile_lint.specs.Faults.{faults_on_lines, key_on_line};
ghost use Rattle.profile_lint.specs.TextFaults.{faults_behind, faults_of, faults_past};

use crate::fault::TextFault;
use crate::whole::faults_of_whole;
use device_profile::{Draft, Format, Key, LineFault, MOST_BYTES, format_of, next_line, next_word};
use std::alloc::{AllocError, Allocator};

/// Every fault of a profile's text, in the order of its lines, and then those of the whole.
///
/// It is empty exactly where `Profile::read` takes the text, and else begins with the fault that
/// it tells. Each line is read as if the faulty ones before it were not there, and of the whole
/// nothing is told that a faulty line may have caused.
///
/// An error means that the allocator refused a request.
#[tactic(auto, unfolding(crate::specs::TextFaults::faults_of))]
pub fn faults<A: Allocator + Copy>(alloc: A, text: &[u8]) -> Result<Vec<TextFault, A>, AllocError>
    ensures { IfOk result (λ faults. faults.items ≡ faults_of text.now) }
{
    if text.len() > MOST_BYTES {
        return Vec::from_slice(alloc, &[TextFault::TooLong]);
    }
    let Some((first, rest)) = next_line(text) else {
        return Vec::from_slice(alloc, &[TextFault::NoVersion]);
    };
    match format_of(first) {
        Some(format) => faults_behind(alloc, format, rest),
        None => Vec::from_slice(alloc, &[TextFault::NoVersion]),
    }
}

/// The faults of the lines behind the first of a text of this version, and then of the whole.
fn faults_behind<A: Allocator + Copy>(
    alloc: A,
    format: Format,
    text: &[u8],
) -> Result<Vec<TextFault, A>, AllocError>
    requires { length text.now ≤ 65_536 }
    ensures { IfOk result (λ faults. faults.items ≡ faults_behind format (lines text.now)) }
{
    let mut draft = Draft::new(alloc, format)?;
    faults_past(&mut draft, alloc, format, text)
}

/// The same, where a draft has what was given before.
fn faults_past<A: Allocator + Copy>(
    draft: &mut Draft<A>,
    alloc: A,
    format: Format,
    text: &[u8],
) -> Result<Vec<TextFault, A>, AllocError>
    requires { length text.now ≤ 65_536 }
    ensures { IfOk result (λ faults.
        faults.items ≡ faults_past format draft.old (lines text.now)) }
{
    let mut faults = faults_on_lines(draft, alloc, format, text)?;
    let of_whole = faults_of_whole(alloc, draft, &faults)?;
    faults.extend_from_slice(&of_whole)?;
    Ok(faults)
}

/// The faults of lines, of which the first has number 2. What the others give is taken.
fn faults_on_lines<A: Allocator + Copy>(
    draft: &mut Draft<A>,
    alloc: A,
    format: Format,
    text: &[u8],
) -> Result<Vec<TextFault, A>, AllocError>
    requires { length text.now ≤ 65_536 }
    ensures faults { IfOk result (λ faults.
        faults.items ≡ faults_on_lines format draft.old 2 (lines text.now)) }
    ensures draft { OnOk result (draft.new ≡ draft_past_lines format draft.old (lines text.now)) }
{
    let mut faults = Vec::new(alloc);
    let mut number = 2;
    let mut rest = text;
    while let Some((line, after)) = next_line(rest) {
        push_fault_on_line(&mut faults, draft, alloc, format, number, line)?;
        number += 1;
        rest = after;
    }
    Ok(faults)
}

/// Takes what the line of this number gives, or appends what is wrong with it.
fn push_fault_on_line<A: Allocator + Copy>(
    faults: &mut Vec<TextFault, A>,
    draft: &mut Draft<A>,
    alloc: A,
    format: Format,
    number: u64,
    line: &[u8],
) -> Result<(), AllocError>
    ensures faults { OnOk result
        (faults.new.items ≡ faults.old.items ++ fault_on_line format draft.old number line.now) }
    ensures draft { OnOk result (draft.new ≡ draft_past format draft.old line.now) }
{
    match take_line(draft, alloc, format, line) {
        Ok(()) => Ok(()),
        Err(LineFault::Memory) => Err(AllocError),
        Err(LineFault::Wrong(cause)) => {
            let key = key_on_line(format, line);
            faults.push(TextFault::OnLine { number, key, cause })?;
            Ok(())
        }
    }
}

/// Takes what a line gives, unless it is a comment, whose first byte is `#`.
fn take_line<A: Allocator + Copy>(
    draft: &mut Draft<A>,
    alloc: A,
    format: Format,
    line: &[u8],
) -> Result<(), LineFault>
    ensures { Gives (draft_after format draft.old (words_of_line line.now))
        draft.old result draft.new }
{
    match line {
        [b'#', ..] => Ok(()),
        _ => draft.take_line(alloc, format, line),
    }
}

/// The key of a line that is no comment.
fn key_on_line(format: Format, line: &[u8]) -> Option<Key>
    ensures { result ≡ key_on_line format (words_of line.now) }
{
    let (word, _) = next_word(line)?;
    Key::of(format, word)
}
