//! The command `profile from-pjl`.
ghost use Rattle.std.specs.Prelude.{◌≡◌, ◌≢◌, ◌++◌, IfOk, IfErr, IsFalse, OnOk, map, option_map};
ghost use Rattle.streams.specs.Writing.{Writes};
ghost use Rattle.pjl_answer.specs.Answered.{IsAnswered, IsAnswerError};
ghost use Rattle.printer_models.specs.Paper.{word_of};
ghost use Rattle.profile_commands.specs.ProfileFromPjl.{AsksBase, AsksBaseIfAny, IsBase};
ghost use Rattle.profile_commands.specs.ProfileFromPjl.{IsGenericFor, LeavesAnswered};
ghost use Rattle.profile_commands.specs.ProfileFromPjl.{LeavesOfAnswer, TellsNoBase, odd_answer};
ghost use Rattle.profile_commands.specs.ProfileFromPjl.{refusal, trouble_of};
ghost use Rattle.profile_commands.specs.ProfileNew.{mismatch_line};
ghost use Rattle.profile_commands.specs.WholeText.{WritesWhole};
ghost use Rattle.shown_bytes.specs.Shown.{shown};
ghost use Rattle.job_reports.specs.Refusals.{TellsLine};

use crate::new::tell_mismatch;
use crate::profile_reading::read_text;
use crate::whole_text::write_whole;
use job_reports::tell_unread;
use named_inputs::{ProfileTexts, read_front};
use pjl_answer::{AnswerError, Answered, MOST_BYTES, answered_text, asked_papers};
use printer_models::{NewError, PanelLists, Paper, new_text};
use profile_lint::faults_text;
use requests::{Status, Trouble};
use shown_bytes::{push_number, push_shown};
use std::alloc::{AllocError, Allocator};
use streams::{Error, Outlet, Source, write_text};

/// The command `profile from-pjl`: on standard output the text of a profile with what a printer's
/// answer tells, and the warnings on standard error. The answer, which a word names, is read first;
/// it is put into the profile that another word names, or without one into that of the model
/// `generic` for the papers that the answer asks for. Of what cannot be read or is refused standard
/// error tells.
pub fn profile_from_pjl<S: Source, T: ProfileTexts, O: Outlet, E: Outlet, A: Allocator + Copy>(
    alloc: A,
    source: &mut S,
    word: &str,
    texts: &mut T,
    base: Option<&str>,
    stdout: &mut O,
    stderr: &mut E,
) -> Status
    requires source { IsFalse (S.state source.old).failed }
    requires texts { IsFalse (T.failed texts.old) }
    requires stdout { IsFalse (O.state stdout.old).failed }
    requires stderr { IsFalse (E.state stderr.old).failed }
    ensures left { LeavesAnswered (S.state source.old) (S.state source.new) (T.text_of texts.old)
        word.now (option_map (λ word. word.now) base.entry) (T.given texts.old) (T.given texts.new)
        (T.failed texts.new) result (O.state stdout.old) (O.state stdout.new)
        (E.state stderr.old) (E.state stderr.new) }
    ensures named { AsksBaseIfAny (option_map (λ word. word.now) base.entry)
        (T.named texts.old) (T.named texts.new) }
{
    match read_front(alloc, source, MOST_BYTES + 1) {
        Ok(answer) => put_answer(alloc, word, answer.as_slice(), texts, base, stdout, stderr),
        Err(Error::Read) => {
            tell_unread(alloc, b"ERROR read answer ", word, source.error(), stderr)
        }
        Err(error) => Status::Stopped(error),
    }
}

/// The same for an answer that was read.
fn put_answer<T: ProfileTexts, O: Outlet, E: Outlet, A: Allocator + Copy>(
    alloc: A,
    word: &str,
    answer: &[u8],
    texts: &mut T,
    base: Option<&str>,
    stdout: &mut O,
    stderr: &mut E,
) -> Status
    requires texts { IsFalse (T.failed texts.old) }
    requires stdout { IsFalse (O.state stdout.old).failed }
    requires stderr { IsFalse (E.state stderr.old).failed }
    ensures left { LeavesOfAnswer (T.text_of texts.old) word.now
        (option_map (λ word. word.now) base.entry)
        (T.given texts.old) (T.given texts.new) (T.failed texts.new) answer.now result
        (O.state stdout.old) (O.state stdout.new) (E.state stderr.old) (E.state stderr.new) }
    ensures named { AsksBase (option_map (λ word. word.now) base.entry)
        (T.named texts.old) (T.named texts.new) }
{
    let text = match base_text(alloc, answer, texts, base, stderr) {
        Ok(text) => text,
        Err(status) => return status,
    };
    let text = text.as_slice();
    match answered_text(alloc, answer, text) {
        Ok(answered) => write_answered(&answered, stdout, stderr),
        Err(error) => refuse(alloc, word, base.unwrap_or("generic"), text, error, stderr),
    }
}

/// The text that an answer is put into.
fn base_text<T: ProfileTexts, E: Outlet, A: Allocator + Copy>(
    alloc: A,
    answer: &[u8],
    texts: &mut T,
    base: Option<&str>,
    stderr: &mut E,
) -> Result<Vec<u8, A>, Status>
    requires texts { IsFalse (T.failed texts.old) }
    requires stderr { IsFalse (E.state stderr.old).failed }
    ensures text { IfOk result (λ text. IsBase (T.text_of texts.old)
        (option_map (λ word. word.now) base.entry) (T.given texts.old) (T.given texts.new)
        answer.now text.items) }
    ensures named { AsksBase (option_map (λ word. word.now) base.entry)
        (T.named texts.old) (T.named texts.new) }
    ensures quiet { OnOk result (stderr.new ≡ stderr.old) }
    ensures none { IfErr result (λ status. TellsNoBase (option_map (λ word. word.now) base.entry)
        (T.given texts.old) (T.given texts.new) (T.failed texts.new) status
        (E.state stderr.old) (E.state stderr.new)) }
{
    match base {
        Some(word) => read_text(alloc, texts, word, stderr),
        None => generic_text(alloc, answer, stderr),
    }
}

/// The text of the model `generic` with the papers that an answer asks for.
fn generic_text<E: Outlet, A: Allocator + Copy>(
    alloc: A,
    answer: &[u8],
    stderr: &mut E,
) -> Result<Vec<u8, A>, Status>
    requires { IsFalse (E.state stderr.old).failed }
    ensures text { IfOk result (λ text. IsGenericFor answer.now text.items) }
    ensures quiet { OnOk result (stderr.new ≡ stderr.old) }
    ensures none { IfErr result (λ status. TellsLine status Trouble.Mismatch mismatch_line
        (E.state stderr.old) (E.state stderr.new)) }
{
    let Ok(papers) = asked_papers(alloc, answer) else {
        return Err(Status::Stopped(Error::Memory));
    };
    let Ok(names) = names_of(alloc, papers.as_slice()) else {
        return Err(Status::Stopped(Error::Memory));
    };
    match new_text(alloc, "generic", names.as_slice(), PanelLists::Fixed) {
        Ok(text) => Ok(text),
        Err(NewError::Memory) => Err(Status::Stopped(Error::Memory)),
        Err(_) => Err(tell_mismatch(stderr)),
    }
}

/// The names of papers.
fn names_of<A: Allocator>(alloc: A, papers: &[Paper]) -> Result<Vec<&'static str, A>, AllocError>
    ensures { IfOk result (λ names.
        map (λ name. name.now) names.items ≡ map word_of papers.now) }
{
    let mut names = Vec::new(alloc);
    for paper in papers {
        names.push(paper.word())?;
    }
    Ok(names)
}

/// Writes a text that has what an answer tells, and its warnings.
fn write_answered<O: Outlet, E: Outlet, A: Allocator>(
    answered: &Answered<A>,
    stdout: &mut O,
    stderr: &mut E,
) -> Status
    requires stdout { IsFalse (O.state stdout.old).failed }
    requires stderr { IsFalse (E.state stderr.old).failed }
    ensures text { WritesWhole answered.now.text.items result
        (O.state stdout.old) (O.state stdout.new) }
    ensures warnings { Writes (E.state stderr.old) (E.state stderr.new)
        answered.now.warnings.items }
{
    // Where standard error takes nothing, the text has the warnings in its comments.
    let _ = write_text(stderr, answered.warnings.as_slice());
    write_whole(stdout, answered.text.as_slice())
}

/// Tells why an answer cannot be put into a text.
fn refuse<E: Outlet, A: Allocator + Copy>(
    alloc: A,
    word: &str,
    base: &str,
    text: &[u8],
    error: AnswerError,
    stderr: &mut E,
) -> Status
    requires { IsFalse (E.state stderr.old).failed }
    ensures { TellsLine result (trouble_of error) (refusal word.now base.now text.now error)
        (E.state stderr.old) (E.state stderr.new) }
{
    match error {
        AnswerError::Memory => Status::Stopped(Error::Memory),
        AnswerError::Mismatch => tell_mismatch(stderr),
        error => match refusal(alloc, word, base, text, error) {
            Ok(lines) => {
                // Where standard error takes nothing, the status alone is left to tell.
                let _ = write_text(stderr, lines.as_slice());
                Status::Told(Trouble::Refused)
            }
            Err(_) => Status::Stopped(Error::Memory),
        },
    }
}

/// What is told of an answer that is refused, but for a mistake of the program.
fn refusal<A: Allocator + Copy>(
    alloc: A,
    word: &str,
    base: &str,
    text: &[u8],
    error: AnswerError,
) -> Result<Vec<u8, A>, AllocError>
    requires { error ≢ AnswerError.Mismatch }
    ensures { IfOk result (λ lines. lines.items ≡ refusal word.now base.now text.now error) }
{
    match error {
        AnswerError::LongAnswer => {
            let behind = b"' has more than 65536 bytes, which no answer has\n";
            quoted(alloc, b"error: '", word, behind)
        }
        AnswerError::NoAnswer(line) => no_answer(alloc, word, line),
        AnswerError::Base(_) => faults_text(alloc, base.as_bytes(), text),
        AnswerError::LongText => {
            let behind = b"' would have more than 65536 bytes\n";
            quoted(alloc, b"error: with the answer '", base, behind)
        }
        AnswerError::Mismatch | AnswerError::Memory => Ok(Vec::new(alloc)),
    }
}

/// A word between these bytes.
fn quoted<A: Allocator>(
    alloc: A,
    before: &[u8],
    word: &str,
    behind: &[u8],
) -> Result<Vec<u8, A>, AllocError>
    ensures { IfOk result (λ line. line.items ≡ before.now ++ (shown word.now ++ behind.now)) }
{
    let mut line = Vec::new(alloc);
    line.extend_from_slice(before)?;
    push_shown(&mut line, word.as_bytes())?;
    line.extend_from_slice(behind)?;
    Ok(line)
}

/// That at this line of an answer stands what no printer answers.
fn no_answer<A: Allocator>(alloc: A, word: &str, line: u64) -> Result<Vec<u8, A>, AllocError>
    ensures { IfOk result (λ lines. lines.items ≡ odd_answer word.now line) }
{
    let mut lines = Vec::new(alloc);
    push_shown(&mut lines, word.as_bytes())?;
    lines.extend_from_slice(b":")?;
    push_number(&mut lines, line)?;
    lines.extend_from_slice(b": this is not a printer's answer to '@PJL INFO VARIABLES'\n")?;
    Ok(lines)
}
