//! What the command `explain` writes of commands of printers.
ghost use Rattle.std.specs.Prelude.{◌≡◌, IfErr, IsFalse, false, filter, is_err, map, option_map};
ghost use Rattle.std.specs.List.{concat, list_any};
ghost use Rattle.streams.specs.Writing.{Writes};
ghost use Rattle.command_names.specs.CommandNames.{texts_in};
ghost use Rattle.meanings.specs.CommandsTold.{asks_for_list, asks_of, asks_of_commands, list_line};
ghost use Rattle.meanings.specs.CommandsTold.{told_of_commands};
ghost use Rattle.meanings.specs.Explanations.{end_of_explain};

use command_names::{Chapter, head_of, is_of_command};
use requests::Status;
use streams::{Error, Outlet, write_text};

/// Whether a code asks for the list of commands, or a text on a command of these chapters is about
/// it.
pub(crate) fn asks_of_commands(chapters: &[Chapter], code: Option<&str>) -> bool
    ensures { result ≡ asks_of_commands (texts_in chapters.now)
        (option_map (λ word. word.now) code.entry) }
{
    asks_for_list(code) || asks_of_chapters(chapters, code)
}

/// Whether a code asks for the list of commands.
fn asks_for_list(code: Option<&str>) -> bool
    ensures { result ≡ asks_for_list (option_map (λ word. word.now) code.entry) }
{
    match code {
        Some(code) => code == "commands",
        None => false,
    }
}

/// Whether a text of one of these chapters is about a code.
fn asks_of_chapters(chapters: &[Chapter], code: Option<&str>) -> bool
    ensures { result ≡ list_any (asks_of (option_map (λ word. word.now) code.entry))
        (texts_in chapters.now) }
{
    for chapter in chapters {
        if asks_of_some(chapter.texts(), code) {
            return true;
        }
    }
    false
}

/// Whether one of these texts is about a code.
fn asks_of_some(commands: &[&str], code: Option<&str>) -> bool
    ensures { result ≡ list_any (asks_of (option_map (λ word. word.now) code.entry))
        (map (λ text. text.now) commands.now) }
{
    for text in commands {
        if asks_of(code, text) {
            return true;
        }
    }
    false
}

/// Whether a code asks for what this text tells of a command.
fn asks_of(code: Option<&str>, text: &str) -> bool
    ensures { result ≡ asks_of (option_map (λ word. word.now) code.entry) text.now }
{
    match code {
        Some(code) => is_of_command(code, text),
        None => false,
    }
}

/// Writes what is known of the commands of these chapters.
pub(crate) fn tell_commands<O: Outlet>(
    chapters: &[Chapter],
    code: Option<&str>,
    stdout: &mut O,
) -> Status
    requires { IsFalse (O.state stdout.old).failed }
    ensures text { Writes (O.state stdout.old) (O.state stdout.new)
        (told_of_commands (texts_in chapters.now)
        (option_map (λ word. word.now) code.entry)) }
    ensures status { result ≡ end_of_explain false (O.state stdout.new).failed }
{
    match write_commands(chapters, code, stdout) {
        Ok(()) => Status::Help,
        Err(error) => Status::Stopped(error),
    }
}

/// Writes the list of commands, or the texts that are asked for.
fn write_commands<O: Outlet>(
    chapters: &[Chapter],
    code: Option<&str>,
    stdout: &mut O,
) -> Result<(), Error>
    requires { IsFalse (O.state stdout.old).failed }
    ensures text { Writes (O.state stdout.old) (O.state stdout.new)
        (told_of_commands (texts_in chapters.now)
        (option_map (λ word. word.now) code.entry)) }
    ensures err { IfErr result (λ error. error ≡ Error.Write) }
    ensures status { (O.state stdout.new).failed ≡ is_err result }
{
    if asks_for_list(code) {
        return write_lists(chapters, stdout);
    }
    write_asked_of_chapters(chapters, code, stdout)
}

/// Writes a line for each command of these chapters.
fn write_lists<O: Outlet>(chapters: &[Chapter], stdout: &mut O) -> Result<(), Error>
    requires { IsFalse (O.state stdout.old).failed }
    ensures text { Writes (O.state stdout.old) (O.state stdout.new)
        (concat (map list_line (texts_in chapters.now))) }
    ensures err { IfErr result (λ error. error ≡ Error.Write) }
    ensures status { (O.state stdout.new).failed ≡ is_err result }
{
    for chapter in chapters {
        write_list(chapter.texts(), stdout)?;
    }
    Ok(())
}

/// Writes a line for each command.
fn write_list<O: Outlet>(commands: &[&str], stdout: &mut O) -> Result<(), Error>
    requires { IsFalse (O.state stdout.old).failed }
    ensures text { Writes (O.state stdout.old) (O.state stdout.new)
        (concat (map list_line (map (λ text. text.now) commands.now))) }
    ensures err { IfErr result (λ error. error ≡ Error.Write) }
    ensures status { (O.state stdout.new).failed ≡ is_err result }
{
    for text in commands {
        write_text(stdout, list_line(text))?;
    }
    Ok(())
}

/// The line of a command: the first one of its text, with its end.
fn list_line(text: &str) -> &[u8]
    ensures { result.now ≡ list_line text.now }
{
    let bytes = text.as_bytes();
    let end = head_of(text).len() + 1;
    if bytes.len() <= end {
        return bytes;
    }
    &bytes[..end]
}

/// Writes the texts of these chapters that are asked for, one behind another.
fn write_asked_of_chapters<O: Outlet>(
    chapters: &[Chapter],
    code: Option<&str>,
    stdout: &mut O,
) -> Result<(), Error>
    requires { IsFalse (O.state stdout.old).failed }
    ensures text { Writes (O.state stdout.old) (O.state stdout.new)
        (concat (filter (asks_of (option_map (λ word. word.now) code.entry))
        (texts_in chapters.now))) }
    ensures err { IfErr result (λ error. error ≡ Error.Write) }
    ensures status { (O.state stdout.new).failed ≡ is_err result }
{
    for chapter in chapters {
        write_asked_commands(chapter.texts(), code, stdout)?;
    }
    Ok(())
}

/// Writes the texts that are asked for, one behind another.
fn write_asked_commands<O: Outlet>(
    commands: &[&str],
    code: Option<&str>,
    stdout: &mut O,
) -> Result<(), Error>
    requires { IsFalse (O.state stdout.old).failed }
    ensures text { Writes (O.state stdout.old) (O.state stdout.new)
        (concat (filter (asks_of (option_map (λ word. word.now) code.entry))
        (map (λ text. text.now) commands.now))) }
    ensures err { IfErr result (λ error. error ≡ Error.Write) }
    ensures status { (O.state stdout.new).failed ≡ is_err result }
{
    for text in commands {
        if asks_of(code, text) {
            write_text(stdout, text.as_bytes())?;
        }
    }
    Ok(())
}
