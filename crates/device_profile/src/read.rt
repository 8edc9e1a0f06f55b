//! Reading a profile's text.
ghost use Rattle.std.specs.Prelude.{◌≡◌, ◌≤◌, Ok, MatchResult, length};
ghost use Rattle.std.specs.Str.Lines.{lines};
ghost use Rattle.device_profile.specs.Words.{words_of};
ghost use Rattle.device_profile.specs.Text.{format_of, version_of, words_of_line, draft_of_lines};
ghost use Rattle.device_profile.specs.Text.{draft_of, printer_of_text, IsErrorOfText};
ghost use Rattle.device_profile.specs.Draft.{no_draft, draft_after};
ghost use Rattle.device_profile.specs.Given.{Gives, IsFaultOf, IsGiven};

use crate::draft::Draft;
use crate::fault::{Cause, LineFault, ProfileFault};
use crate::format::Format;
use crate::profile::Profile;
use crate::scan::{next_line, next_word};
use std::alloc::Allocator;

/// The word that begins the first line of a text, before its version.
pub const FORMAT_NAME: &[u8] = b"pclprofile";

/// A text has at most so many bytes.
pub const MOST_BYTES: usize = 65_536;

impl<A: Allocator + Copy> Profile<A> {
    /// The profile that a text describes.
    ///
    /// The first line holds the words `pclprofile 1` or `pclprofile 2`, each other line a key and
    /// its words; lines without a word and lines that begin with `#` are skipped.
    ///
    /// An error is `Memory` where the allocator refused a request, or the first thing wrong: that
    /// the text has more than 65,536 bytes (`Range` with line 0); then the first faulty line,
    /// counted from 1; then, with line 0, `Missing`, `NoGeometry` or `Range` of the whole.
    #[tactic(auto, unfolding(crate::specs::Text::printer_of_text))]
    pub fn read(alloc: A, text: &[u8]) -> Result<Profile<A>, ProfileFault>
        ensures { MatchResult result (λ profile. printer_of_text text.now ≡ Ok profile)
            (IsErrorOfText text.now) }
    {
        if text.len() > MOST_BYTES {
            return Err(ProfileFault::Fault {
                line: 0,
                cause: Cause::Range,
            });
        }
        read_lines(alloc, text)?.finish()
    }
}

/// The first line names no version.
const NO_VERSION: ProfileFault = ProfileFault::Fault {
    line: 1,
    cause: Cause::Version,
};

/// What all lines of a text give, or the first faulty line.
fn read_lines<A: Allocator + Copy>(alloc: A, text: &[u8]) -> Result<Draft<A>, ProfileFault>
    requires { length text.now ≤ 65_536 }
    ensures { MatchResult result (λ draft. draft_of (lines text.now) ≡ Ok draft)
        (IsFaultOf (draft_of (lines text.now))) }
{
    let Some((first, rest)) = next_line(text) else {
        return Err(NO_VERSION);
    };
    match format_of(first) {
        Some(format) => read_from(alloc, format, rest),
        None => Err(NO_VERSION),
    }
}

/// What the lines behind the first give in a text of this version, or the first faulty one.
fn read_from<A: Allocator + Copy>(
    alloc: A,
    format: Format,
    text: &[u8],
) -> Result<Draft<A>, ProfileFault>
    requires { length text.now ≤ 65_536 }
    ensures { MatchResult result
        (λ draft. draft_of_lines format (no_draft format) 2 (lines text.now) ≡ Ok draft)
        (IsFaultOf (draft_of_lines format (no_draft format) 2 (lines text.now))) }
{
    let mut draft = Draft::new(alloc, format)?;
    let mut line_number = 2;
    let mut rest = text;
    while let Some((line, after)) = next_line(rest) {
        if let Err(fault) = take_line(alloc, format, &mut draft, line) {
            return Err(fault.at(line_number));
        }
        line_number += 1;
        rest = after;
    }
    Ok(draft)
}

/// Takes one more line, unless it is a comment, whose first byte is `#`.
fn take_line<A: Allocator + Copy>(
    alloc: A,
    format: Format,
    draft: &mut Draft<A>,
    line: &[u8],
) -> Result<(), LineFault>
    ensures { Gives (draft_after format draft.old (words_of_line line.now))
        draft.old result draft.new }
{
    match line {
        [b'#', ..] => Ok(()),
        _ => draft.take_line(alloc, format, line),
    }
}

/// The version that a word names.
fn version_of(word: &[u8]) -> Option<Format>
    ensures { result ≡ version_of word.now }
{
    match word {
        b"1" => Some(Format::One),
        b"2" => Some(Format::Two),
        _ => None,
    }
}

/// The version that a line names, where it names the format; the first line of a text does.
pub fn format_of(line: &[u8]) -> Option<Format>
    ensures { result ≡ format_of (words_of line.now) }
{
    let (name, words) = next_word(line)?;
    let (version, rest) = next_word(words)?;
    if next_word(rest).is_some() {
        return None;
    }
    if name == FORMAT_NAME {
        version_of(version)
    } else {
        None
    }
}
