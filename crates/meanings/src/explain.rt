//! The program's command `explain`.
ghost use Rattle.std.specs.Prelude.{◌≡◌, decimal, map, option_map, is_err, IfErr, IsFalse, IsTrue};
ghost use Rattle.std.specs.List.{list_any};
ghost use Rattle.streams.specs.Writing.{Writes};
ghost use Rattle.command_names.specs.CommandNames.{table, texts_in};
ghost use Rattle.meanings.specs.CommandsTold.{is_code_unheard, is_unheard, told, told_of_code};
ghost use Rattle.meanings.specs.Explanations.{complaint, complaint_of_code, end_of_explain};
ghost use Rattle.meanings.specs.Explanations.{explained_by, explanation, is_about, is_asked};
ghost use Rattle.meanings.specs.Explanations.{is_unknown};

use crate::asked_code::{code_of_word, cut};
use crate::commands_told::{asks_of_commands, tell_commands};
use crate::explanations::EXPLANATIONS;
use command_names::{CHAPTERS, Chapter};
use itoa::Buffer;
use requests::{Status, write_pieces};
use streams::{Error, Outlet, write_text};

/// The command `explain`: on standard output what the faults, findings and notes mean that have
/// this number or name, or what all mean; or what is known of the commands of printers that have
/// this key, spelling or name, or a list of them. The code may stand as people copy it, from a line
/// or from a job. One that none has is a usage error, of which standard error tells.
pub fn explain<O: Outlet, E: Outlet>(code: Option<&str>, stdout: &mut O, stderr: &mut E) -> Status
    requires stdout { IsFalse (O.state stdout.old).failed }
    requires stderr { IsFalse (E.state stderr.old).failed }
    ensures text { IsFalse (is_unheard (map (λ text. text.now) EXPLANATIONS) table
        (option_map (λ word. word.now) code.entry)) →
        Writes (O.state stdout.old) (O.state stdout.new)
        (told (map (λ text. text.now) EXPLANATIONS) table
        (option_map (λ word. word.now) code.entry)) }
    ensures untouched { IsTrue (is_unheard (map (λ text. text.now) EXPLANATIONS) table
        (option_map (λ word. word.now) code.entry)) → stdout.new ≡ stdout.old }
    ensures status { result ≡ end_of_explain
        (is_unheard (map (λ text. text.now) EXPLANATIONS) table
        (option_map (λ word. word.now) code.entry)) (O.state stdout.new).failed }
    ensures complaint { IsTrue (is_unheard (map (λ text. text.now) EXPLANATIONS) table
        (option_map (λ word. word.now) code.entry)) →
        Writes (E.state stderr.old) (E.state stderr.new)
        (complaint (option_map (λ word. word.now) code.entry)) }
    ensures quiet { IsFalse (is_unheard (map (λ text. text.now) EXPLANATIONS) table
        (option_map (λ word. word.now) code.entry)) → stderr.new ≡ stderr.old }
{
    explain_of(&EXPLANATIONS, &CHAPTERS, code_of_word(code), stdout, stderr)
}

/// Writes what is known of a code out of these texts, where the commands of these chapters have
/// the first word.
fn explain_of<O: Outlet, E: Outlet>(
    texts: &[&str],
    chapters: &[Chapter],
    code: Option<&str>,
    stdout: &mut O,
    stderr: &mut E,
) -> Status
    requires stdout { IsFalse (O.state stdout.old).failed }
    requires stderr { IsFalse (E.state stderr.old).failed }
    ensures text { IsFalse (is_code_unheard (map (λ text. text.now) texts.now)
        (texts_in chapters.now) (option_map (λ word. word.now) code.entry)) →
        Writes (O.state stdout.old) (O.state stdout.new)
        (told_of_code (map (λ text. text.now) texts.now) (texts_in chapters.now)
        (option_map (λ word. word.now) code.entry)) }
    ensures untouched { IsTrue (is_code_unheard (map (λ text. text.now) texts.now)
        (texts_in chapters.now) (option_map (λ word. word.now) code.entry)) →
        stdout.new ≡ stdout.old }
    ensures status { result ≡ end_of_explain (is_code_unheard (map (λ text. text.now) texts.now)
        (texts_in chapters.now) (option_map (λ word. word.now) code.entry))
        (O.state stdout.new).failed }
    ensures complaint { IsTrue (is_code_unheard (map (λ text. text.now) texts.now)
        (texts_in chapters.now) (option_map (λ word. word.now) code.entry)) →
        Writes (E.state stderr.old) (E.state stderr.new)
        (complaint_of_code (option_map (λ word. word.now) code.entry)) }
    ensures quiet { IsFalse (is_code_unheard (map (λ text. text.now) texts.now)
        (texts_in chapters.now) (option_map (λ word. word.now) code.entry)) →
        stderr.new ≡ stderr.old }
{
    if asks_of_commands(chapters, code) {
        return tell_commands(chapters, code, stdout);
    }
    explain_from(texts, code, stdout, stderr)
}

/// Writes the explanation of a code, or of all, out of these.
fn explain_from<O: Outlet, E: Outlet>(
    explanations: &[&str],
    code: Option<&str>,
    stdout: &mut O,
    stderr: &mut E,
) -> Status
    requires stdout { IsFalse (O.state stdout.old).failed }
    requires stderr { IsFalse (E.state stderr.old).failed }
    ensures text { IsFalse (is_unknown (map (λ text. text.now) explanations.now)
        (option_map (λ word. word.now) code.entry)) →
        Writes (O.state stdout.old) (O.state stdout.new)
        (explanation (map (λ text. text.now) explanations.now)
        (option_map (λ word. word.now) code.entry)) }
    ensures untouched { IsTrue (is_unknown (map (λ text. text.now) explanations.now)
        (option_map (λ word. word.now) code.entry)) → stdout.new ≡ stdout.old }
    ensures status { result ≡ end_of_explain
        (is_unknown (map (λ text. text.now) explanations.now)
        (option_map (λ word. word.now) code.entry)) (O.state stdout.new).failed }
    ensures complaint { IsTrue (is_unknown (map (λ text. text.now) explanations.now)
        (option_map (λ word. word.now) code.entry)) →
        Writes (E.state stderr.old) (E.state stderr.new)
        (complaint_of_code (option_map (λ word. word.now) code.entry)) }
    ensures quiet { IsFalse (is_unknown (map (λ text. text.now) explanations.now)
        (option_map (λ word. word.now) code.entry)) → stderr.new ≡ stderr.old }
{
    if let Some(word) = code {
        if !is_known(explanations, word) {
            return refuse(word, stderr);
        }
    }
    match write_asked(explanations, code, stdout) {
        Ok(()) => Status::Help,
        Err(error) => Status::Stopped(error),
    }
}

/// Whether an explanation is about a code.
fn is_known(texts: &[&str], code: &str) -> bool
    ensures { result ≡ list_any (is_about code.now) (map (λ text. text.now) texts.now) }
{
    for text in texts {
        if is_about(code, text) {
            return true;
        }
    }
    false
}

/// Writes the explanations that are asked for, one behind another.
fn write_asked<O: Outlet>(texts: &[&str], code: Option<&str>, stdout: &mut O) -> Result<(), Error>
    requires { IsFalse (O.state stdout.old).failed }
    ensures text { Writes (O.state stdout.old) (O.state stdout.new)
        (explanation (map (λ text. text.now) texts.now)
        (option_map (λ word. word.now) code.entry)) }
    ensures err { IfErr result (λ error. error ≡ Error.Write) }
    ensures status { (O.state stdout.new).failed ≡ is_err result }
{
    for text in texts {
        if is_asked(code, text) {
            write_text(stdout, text.as_bytes())?;
        }
    }
    Ok(())
}

/// What the first of these explanations says that is about the fault or finding of a number, and
/// nothing where none is.
pub fn explained_by<'t>(number: u8, texts: &[&'t str]) -> &'t str
    ensures { result.now ≡ explained_by (decimal number) (map (λ text. text.now) texts.now) }
{
    let mut digits = Buffer::new();
    let code = digits.format(number);
    for text in texts {
        if is_about(code, text) {
            return text;
        }
    }
    ""
}

/// Whether an explanation is asked for: without a code each is.
fn is_asked(code: Option<&str>, text: &str) -> bool
    ensures { result ≡ is_asked (option_map (λ word. word.now) code.entry) text.now }
{
    match code {
        Some(code) => is_about(code, text),
        None => true,
    }
}

/// Whether a code is the number of an explanation, or its name in any letter case.
fn is_about(code: &str, text: &str) -> bool
    ensures { result ≡ is_about code.now text.now }
{
    let (number, rest) = cut(text, ' ');
    let (name, _) = cut(rest, '\n');
    number == code || name.eq_ignore_ascii_case(code)
}

/// Tells that no explanation is about a code.
fn refuse<E: Outlet>(code: &str, stderr: &mut E) -> Status
    requires { IsFalse (E.state stderr.old).failed }
    ensures status { result ≡ Status.Usage }
    ensures line { Writes (E.state stderr.old) (E.state stderr.new)
        (complaint_of_code (Some code.now)) }
{
    let pieces: [&[u8]; 3] = [
        b"error: no fault, finding, note or command has the number or the name '",
        code.as_bytes(),
        b"'; 'pclcheck explain' writes all, 'pclcheck explain commands' lists the commands\n",
    ];
    // Where standard error takes nothing, the status alone is left to tell.
    let _ = write_pieces(stderr, &pieces);
    Status::Usage
}
