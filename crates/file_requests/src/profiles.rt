//! What the program does on profiles by request, on files.
ghost use Rattle.std.specs.Prelude.{IsFalse, IsTrue, map, option_map};
ghost use Rattle.file_requests.specs.ProfileRequests.{LeavesAnsweredFor, LeavesLintFor};
ghost use Rattle.file_requests.specs.ProfileRequests.{LeavesSheetFor, LeavesShownFor};
ghost use Rattle.named_inputs.specs.FileJobs.{is_input};

use crate::outs::end_out;
use named_inputs::{FileJobs, FileTexts, Jobs, is_input};
use profile_commands::from_pjl::profile_from_pjl;
use profile_commands::lint::profile_lint;
use profile_commands::sheet::profile_sheet;
use profile_commands::show::profile_show;
use requests::Status;
use std::io::{Input, Print};
use std::rt::Files;
use streams::{FilesUsed, Outlet, OutletAt, SourceAt};

/// Tells what is found in profiles.
pub fn lint<R: Files + AllocGlobal, O: Outlet, E: Outlet>(
    rt: &R,
    words: &[&str],
    used: &mut FilesUsed,
    stdout: &mut O,
    stderr: &mut E,
) -> Status
    requires stdout { IsFalse (O.state stdout.old).failed }
    requires stderr { IsFalse (E.state stderr.old).failed }
    ensures { LeavesLintFor (map (λ word. word.now) words.now) result used.old used.new
        (O.state stdout.old) (O.state stdout.new) (E.state stderr.old) (E.state stderr.new) }
{
    let mut texts = FileTexts::new(rt);
    let status = profile_lint(rt.alloc(), &mut texts, words, stdout, stderr);
    texts.end(used);
    status
}

/// Shows a profile.
pub fn show<R: Files + AllocGlobal, O: Outlet, E: Outlet>(
    rt: &R,
    word: &str,
    used: &mut FilesUsed,
    stdout: &mut O,
    stderr: &mut E,
) -> Status
    requires stdout { IsFalse (O.state stdout.old).failed }
    requires stderr { IsFalse (E.state stderr.old).failed }
    ensures { LeavesShownFor word.now result used.old used.new
        (O.state stdout.old) (O.state stdout.new) (E.state stderr.old) (E.state stderr.new) }
{
    let mut texts = FileTexts::new(rt);
    let status = profile_show(rt.alloc(), &mut texts, word, stdout, stderr);
    texts.end(used);
    status
}

/// Writes the sheet of a profile in the place of the file at a path.
pub fn sheet<R: Files + Print + AllocGlobal, E: Outlet>(
    rt: &R,
    word: &str,
    out: &str,
    used: &mut FilesUsed,
    stderr: &mut E,
) -> Status
    requires { IsFalse (E.state stderr.old).failed }
    ensures { LeavesSheetFor word.now out.now result
        used.old used.new (E.state stderr.old) (E.state stderr.new) }
{
    let mut texts = FileTexts::new(rt);
    let mut outlet = OutletAt::new(rt, out);
    let answer = profile_sheet(rt.alloc(), &mut texts, word, &mut outlet.file, stderr);
    let status = end_out(answer, &mut outlet.file);
    texts.end(used);
    used.written(outlet);
    status
}

/// Writes a profile with what a printer's answer tells, which is read at a path, or with `-` from
/// standard input.
pub fn from_pjl<R: Files + Input + AllocGlobal, O: Outlet, E: Outlet>(
    rt: &R,
    answer: &str,
    base: Option<&str>,
    used: &mut FilesUsed,
    stdout: &mut O,
    stderr: &mut E,
) -> Status
    requires stdout { IsFalse (O.state stdout.old).failed }
    requires stderr { IsFalse (E.state stderr.old).failed }
    ensures { LeavesAnsweredFor answer.now (option_map (λ word. word.now) base.entry) result
        used.old used.new
        (O.state stdout.old) (O.state stdout.new) (E.state stderr.old) (E.state stderr.new) }
{
    if is_input(answer.as_bytes()) {
        return from_input(rt, answer, base, used, stdout, stderr);
    }
    let mut source = SourceAt::new(rt, answer);
    let mut texts = FileTexts::new(rt);
    let status = profile_from_pjl(
        rt.alloc(),
        &mut source.file,
        answer,
        &mut texts,
        base,
        stdout,
        stderr,
    );
    texts.end(used);
    used.read(source);
    status
}

/// The same for the answer on standard input.
fn from_input<R: Files + Input + AllocGlobal, O: Outlet, E: Outlet>(
    rt: &R,
    answer: &str,
    base: Option<&str>,
    used: &mut FilesUsed,
    stdout: &mut O,
    stderr: &mut E,
) -> Status
    requires stdout { IsFalse (O.state stdout.old).failed }
    requires stderr { IsFalse (E.state stderr.old).failed }
    requires input { IsTrue (is_input answer.now) }
    ensures { LeavesAnsweredFor answer.now (option_map (λ word. word.now) base.entry) result
        used.old used.new
        (O.state stdout.old) (O.state stdout.new) (E.state stderr.old) (E.state stderr.new) }
{
    let mut input = FileJobs::new(rt).job(answer.as_bytes());
    let mut texts = FileTexts::new(rt);
    let status = profile_from_pjl(
        rt.alloc(),
        &mut input,
        answer,
        &mut texts,
        base,
        stdout,
        stderr,
    );
    texts.end(used);
    status
}
