//! The command `profile lint`.
ghost use Rattle.std.specs.Prelude.{◌≡◌, ◌++◌, ◌∷◌, [], IfErr, IfOk, IsFalse, OnOk, map};
ghost use Rattle.profile_commands.specs.ProfileLint.{AreRead, LeavesLint, StopsReading};
ghost use Rattle.profile_commands.specs.ProfileLint.{WritesFindings};
ghost use Rattle.profile_lint.specs.Lint.{have_faults, lint_text};
ghost use Rattle.named_inputs.specs.Texts.{AsksInOrder};

use crate::profile_reading::read_text;
use named_inputs::ProfileTexts;
use profile_lint::{NamedText, lint_texts};
use requests::{Status, Trouble};
use std::alloc::{AllocError, Allocator};
use streams::{Error, Outlet, write_text};

/// The command `profile lint`: on standard output all that is found in the texts of profiles. All
/// are read before anything is written; of one that cannot be read standard error tells.
pub fn profile_lint<T: ProfileTexts, O: Outlet, E: Outlet, A: Allocator + Copy>(
    alloc: A,
    texts: &mut T,
    words: &[&str],
    stdout: &mut O,
    stderr: &mut E,
) -> Status
    requires texts { IsFalse (T.failed texts.old) }
    requires stdout { IsFalse (O.state stdout.old).failed }
    requires stderr { IsFalse (E.state stderr.old).failed }
    ensures left { LeavesLint (T.text_of texts.old) (map (λ word. word.now) words.now)
        (T.given texts.old) (T.given texts.new) (T.failed texts.new) result
        (O.state stdout.old) (O.state stdout.new) (E.state stderr.old) (E.state stderr.new) }
    ensures named { AsksInOrder (map (λ word. word.now) words.now)
        (T.named texts.old) (T.named texts.new) }
{
    match read_all(alloc, texts, words, stderr) {
        Ok(all) => write_findings(alloc, all.as_slice(), stdout),
        Err(status) => status,
    }
}

/// The texts that words name.
fn read_all<'w, T: ProfileTexts, E: Outlet, A: Allocator + Copy>(
    alloc: A,
    texts: &mut T,
    words: &[&'w str],
    stderr: &mut E,
) -> Result<Vec<NamedText<'w, A>, A>, Status>
    requires texts { IsFalse (T.failed texts.old) }
    requires stderr { IsFalse (E.state stderr.old).failed }
    ensures texts { IfOk result (λ all. AreRead (T.text_of texts.old)
        (map (λ word. word.now) words.now) (T.given texts.old) (T.given texts.new) all.items) }
    ensures named { AsksInOrder (map (λ word. word.now) words.now)
        (T.named texts.old) (T.named texts.new) }
    ensures quiet { OnOk result (stderr.new ≡ stderr.old) }
    ensures none { IfErr result (λ status. StopsReading (T.text_of texts.old)
        (map (λ word. word.now) words.now) (T.given texts.old) (T.given texts.new)
        (T.failed texts.new) status (E.state stderr.old) (E.state stderr.new)) }
{
    let mut all = Vec::new(alloc);
    for word in words {
        let text = match read_text(alloc, texts, word, stderr) {
            Ok(text) => text,
            Err(status) => return Err(status),
        };
        let Ok(()) = push_text(&mut all, NamedText { word, text }) else {
            return Err(Status::Stopped(Error::Memory));
        };
    }
    Ok(all)
}

/// Appends a text to others.
fn push_text<'w, A: Allocator>(
    all: &mut Vec<NamedText<'w, A>, A>,
    named: NamedText<'w, A>,
) -> Result<(), AllocError>
    ensures { OnOk result (all.new.items ≡ all.old.items ++ named.entry ∷ []) }
{
    all.push(named)?;
    Ok(())
}

/// Writes what is found in texts.
fn write_findings<O: Outlet, A: Allocator + Copy>(
    alloc: A,
    texts: &[NamedText<'_, A>],
    stdout: &mut O,
) -> Status
    requires { IsFalse (O.state stdout.old).failed }
    ensures { WritesFindings (lint_text texts.now) (have_faults texts.now) result
        (O.state stdout.old) (O.state stdout.new) }
{
    let Ok(found) = lint_texts(alloc, texts) else {
        return Status::Stopped(Error::Memory);
    };
    if write_text(stdout, found.lines.as_slice()).is_err() {
        return Status::Stopped(Error::Write);
    }
    if found.has_faults {
        Status::Told(Trouble::Refused)
    } else {
        Status::Help
    }
}
