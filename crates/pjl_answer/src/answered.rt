//! A printer's answer, put into the text of a profile.
ghost use Rattle.std.specs.Prelude.{◌≡◌, [], IfErr, IfOk, IsTrue};
ghost use Rattle.device_profile.specs.Name.{printer_name};
ghost use Rattle.pjl_answer.specs.Answered.{IsAnswered, IsAnswerError, IsDescribed, IsLate};
ghost use Rattle.pjl_answer.specs.Answered.{IsOfText, IsReadable, is_long};
ghost use Rattle.pjl_answer.specs.Warning.{warning_lines};

use crate::comparison::describes;
use crate::entry::{is_answer, odd_line};
use crate::text::text_with;
use crate::warning::{Warning, warnings};
use crate::warning_text::push_warning_lines;
use device_profile::{Profile, ProfileFault, printer_name};
use std::alloc::{AllocError, Allocator};
use thiserror::Error;

/// An answer and a text have at most so many bytes.
pub const MOST_BYTES: usize = 65_536;

/// Why there is no text.
#[derive(Clone, Copy, Debug, PartialEq, Eq, Error)]
pub enum AnswerError {
    /// The answer has more than 65,536 bytes.
    #[error("the answer has more than 65536 bytes")]
    LongAnswer,
    /// The answer gives no variable that is read. The line is the first with a byte that is not one
    /// of text, counted from 1; or 1, where there is none.
    #[error("line {0} of the answer: nothing in it is a printer's answer to PJL")]
    NoAnswer(u64),
    /// The text that it was to be put into is not that of a profile.
    #[error("the profile: {0}")]
    Base(ProfileFault),
    /// The text would have more than 65,536 bytes.
    #[error("the text would have more than 65536 bytes")]
    LongText,
    /// The text that was made is not that of the printer that is told, which is a mistake in this
    /// program.
    #[error("the text is not that of the printer that is told")]
    Mismatch,
    /// The allocator refused a request.
    #[error("out of memory")]
    Memory,
}

impl From<AllocError> for AnswerError {
    ghost use Rattle.std.specs.Prelude.{◌≡◌};
    ghost use Rattle.pjl_answer.specs.declared.answered.AnswerError.TheVariants.{Memory};

    ghost from_gives = { λ _ error. error ≡ Memory };

    fn from(_: AllocError) -> AnswerError {
        AnswerError::Memory
    }
}

/// The text of a profile with what a printer's answer tells, and the lines of the warnings, which
/// stand in the text's comments too.
#[derive(Drop)]
pub struct Answered<A: Allocator> {
    pub text: Vec<u8, A>,
    pub warnings: Vec<u8, A>,
}

/// Puts a printer's answer into the text of a profile, which keeps all that is not told.
///
/// An error is, of these the first: that the answer is too long; that it gives no variable that is
/// read; what is wrong with the profile; that the text would be too long; that it is not that of
/// the printer that is told, with which it is compared; or, in place of any but the first two, that
/// the allocator refused a request.
pub fn answered_text<A: Allocator + Copy>(
    alloc: A,
    answer: &[u8],
    base: &[u8],
) -> Result<Answered<A>, AnswerError>
    ensures text { IfOk result (λ answered.
        IsAnswered answer.now base.now answered.text.items answered.warnings.items) }
    ensures err { IfErr result (IsAnswerError answer.now base.now) }
{
    if is_long(answer) {
        return Err(AnswerError::LongAnswer);
    }
    if !is_answer(answer) {
        return Err(AnswerError::NoAnswer(odd_line(answer)));
    }
    answered_base(alloc, answer, base)
}

/// Whether a text has more bytes than are read.
fn is_long(text: &[u8]) -> bool
    ensures { result ≡ is_long text.now }
{
    text.len() > MOST_BYTES
}

/// The same, where the answer can be read.
#[tactic(auto, using(crate::proofs::LateErrors::late_error))]
fn answered_base<A: Allocator + Copy>(
    alloc: A,
    answer: &[u8],
    base: &[u8],
) -> Result<Answered<A>, AnswerError>
    requires { IsReadable answer.now }
    ensures text { IfOk result (λ answered.
        IsAnswered answer.now base.now answered.text.items answered.warnings.items) }
    ensures err { IfErr result (IsAnswerError answer.now base.now) }
{
    match Profile::read(alloc, base) {
        Ok(profile) => answered_profile(alloc, answer, &profile, base),
        Err(ProfileFault::Memory) => Err(AnswerError::Memory),
        Err(fault) => Err(AnswerError::Base(fault)),
    }
}

/// The same, where the answer can be read and the profile was.
fn answered_profile<A: Allocator + Copy>(
    alloc: A,
    answer: &[u8],
    profile: &Profile<A>,
    base: &[u8],
) -> Result<Answered<A>, AnswerError>
    ensures text { IfOk result (λ answered.
        IsDescribed profile.now answer.now base.now answered.text.items answered.warnings.items) }
    ensures err { IfErr result (IsLate profile.now answer.now base.now) }
{
    let all = warnings(alloc, profile, answer)?;
    let text = text_with(alloc, profile, answer, &all, base)?;
    if is_long(&text) {
        return Err(AnswerError::LongText);
    }
    if !is_that(alloc, &text, profile, answer, base)? {
        return Err(AnswerError::Mismatch);
    }
    let warnings = lines_of(alloc, answer, &all)?;
    Ok(Answered { text, warnings })
}

/// Whether a text describes the printer of a profile with what an answer tells, under the name that
/// it has in the profile's text.
fn is_that<A: Allocator + Copy>(
    alloc: A,
    text: &[u8],
    profile: &Profile<A>,
    answer: &[u8],
    base: &[u8],
) -> Result<bool, AllocError>
    ensures { IfOk result (λ is. IsTrue is → IsOfText profile.now answer.now base.now text.now) }
{
    let is_read = describes(alloc, text, profile, answer)?;
    Ok(is_read && has_same_name(text, base))
}

/// Whether two texts name their printers alike.
fn has_same_name(a: &[u8], b: &[u8]) -> bool
    ensures { IsTrue result → printer_name a.now ≡ printer_name b.now }
{
    is_same_text(printer_name(a), printer_name(b))
}

/// Whether the bytes are the same, one by one.
fn is_same_text(a: &[u8], b: &[u8]) -> bool
    ensures { IsTrue result → a.now ≡ b.now }
{
    a == b
}

/// The lines of warnings.
fn lines_of<A: Allocator>(
    alloc: A,
    answer: &[u8],
    all: &[Warning],
) -> Result<Vec<u8, A>, AllocError>
    ensures { IfOk result (λ lines. lines.items ≡ warning_lines [] answer.now all.now) }
{
    let mut lines = Vec::new(alloc);
    push_warning_lines(&mut lines, b"", answer, all)?;
    Ok(lines)
}
