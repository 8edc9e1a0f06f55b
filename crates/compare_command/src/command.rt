//! The command `compare` for two jobs.

ghost use Rattle.std.specs.Prelude.{◌≡◌, ◌≢◌, [], IfErr, IfOk, IsFalse, OnOk, map};
ghost use Rattle.compare_command.specs.Compare.{AreOfTexts, LeavesCompared, LeavesFound};
ghost use Rattle.compare_command.specs.Compare.{RefusesPrinter, WritesFound, asked_for, format_of};
ghost use Rattle.compare_command.specs.Compare.{telling_of};
ghost use Rattle.compare_command.specs.Outcomes.{same_counts, status_by};
ghost use Rattle.compare_command.specs.Telling.{found_text, told_by};
ghost use Rattle.named_inputs.specs.Texts.{AsksInOrder};

use crate::asked::CompareAsked;
use crate::finding::find;
use crate::found::{Found, manner_of, status_by};
use crate::stops::tell_stop;
use crate::telling::{Telling, found_text};
use device_profile::Profile;
use many_jobs::{Format, ManyJobs, Telling as ManyTelling, printer_names, tell_refusal, word_of};
use named_inputs::system_words::system_words;
use named_inputs::{Jobs, ProfileTexts, read_kept_fleet};
use requests::{Form, Status};
use sinks::Counts;
use std::alloc::Global;
use streams::{Error, Outlet, write_text};

/// Printers, and their names in the same order.
#[derive(Drop)]
pub(crate) struct Printers {
    pub fleet: Vec<Profile>,
    pub names: Vec<Vec<u8>>,
}

/// The command `compare`: on standard output whether two jobs print the same on each of some
/// printers, from its first panel, or how they differ on the first one on which they do.
///
/// All profiles are read and judged before a job is read, and both jobs are read once for each
/// printer. Standard error tells of a printer that is refused and of a job that cannot be read.
pub fn compare<'n, J: Jobs<'n>, T: ProfileTexts, O: Outlet, E: Outlet>(
    alloc: Global,
    jobs: &mut J,
    texts: &mut T,
    asked: &CompareAsked<'_, 'n>,
    stdout: &mut O,
    stderr: &mut E,
) -> Status
    requires texts { IsFalse (T.failed texts.old) }
    requires stdout { IsFalse (O.state stdout.old).failed }
    requires stderr { IsFalse (E.state stderr.old).failed }
    requires some { asked.now.printers.now ≢ [] }
    ensures left { LeavesCompared
        (map (λ word. T.text_of texts.old word.now) asked.now.printers.now)
        (T.given texts.old) (T.given texts.new) (asked_for asked.now) (J.start jobs.old) result
        (J.ended jobs.old) (J.ended jobs.new)
        (O.state stdout.old) (O.state stdout.new) (E.state stderr.old) (E.state stderr.new) }
    ensures named { AsksInOrder (map (λ word. word.now) asked.now.printers.now)
        (T.named texts.old) (T.named texts.new) }
{
    match read_printers(alloc, texts, asked.printers, asked.form, stderr) {
        Ok(printers) => compare_on_printers(alloc, jobs, asked, &printers, stdout, stderr),
        Err(status) => status,
    }
}

/// The printers that words name. Of one that is refused standard error is told.
pub(crate) fn read_printers<T: ProfileTexts, E: Outlet>(
    alloc: Global,
    texts: &mut T,
    words: &[&str],
    form: Form,
    stderr: &mut E,
) -> Result<Printers, Status>
    requires texts { IsFalse (T.failed texts.old) }
    requires stderr { IsFalse (E.state stderr.old).failed }
    ensures printers { IfOk result (λ printers. AreOfTexts
        (map (λ word. T.text_of texts.old word.now) words.now)
        (T.given texts.old) (T.given texts.new) printers.fleet.items
        (map (λ name. name.items) printers.names.items)) }
    ensures quiet { OnOk result (stderr.new ≡ stderr.old) }
    ensures refused { IfErr result (λ status. RefusesPrinter
        (map (λ word. T.text_of texts.old word.now) words.now)
        (T.given texts.old) (T.given texts.new) form (map (λ word. word.now) words.now) status
        (E.state stderr.old) (E.state stderr.new)) }
    ensures named { AsksInOrder (map (λ word. word.now) words.now)
        (T.named texts.old) (T.named texts.new) }
{
    let mut kept = Vec::new(alloc);
    let fleet = match read_kept_fleet(alloc, texts, words, &mut kept) {
        Ok(fleet) => fleet,
        Err(status) => {
            let told = system_words(alloc, texts.error());
            let word = word_of(words, (kept.len() as u64).saturating_add(1));
            let many = many_of(words, form);
            return Err(tell_refusal(alloc, &many, word, told, status, stderr));
        }
    };
    let Ok(names) = printer_names(alloc, kept.as_slice()) else {
        return Err(Status::Stopped(Error::Memory));
    };
    Ok(Printers { fleet, names })
}

/// A check of no job for the same printers, by whose form a refusal is told.
fn many_of<'a>(words: &'a [&'a str], form: Form) -> ManyJobs<'a, 'static>
    ensures printers { map (λ word. word.now) result.printers.now
        ≡ map (λ word. word.now) words.now }
    ensures format { result.telling.format ≡ format_of form }
{
    ManyJobs {
        jobs: &[],
        printers: words,
        most_items: None,
        is_each: false,
        tells_notes: false,
        telling: ManyTelling {
            format: format_of(form),
            explanations: &[],
            exit_zero: false,
            passes_unchecked: false,
            read_once: &[],
            documents: None,
        },
    }
}

/// The form in which it is told of a printer that is refused.
fn format_of(form: Form) -> Format
    ensures { result ≡ format_of form }
{
    match form {
        Form::Line => Format::Line,
        Form::Words => Format::Words,
        Form::Json => Format::Line,
        Form::Html => Format::Line,
    }
}

/// Compares the jobs on these printers, and writes what is found.
fn compare_on_printers<'n, J: Jobs<'n>, O: Outlet, E: Outlet>(
    alloc: Global,
    jobs: &mut J,
    asked: &CompareAsked<'_, 'n>,
    printers: &Printers,
    stdout: &mut O,
    stderr: &mut E,
) -> Status
    requires stdout { IsFalse (O.state stdout.old).failed }
    requires stderr { IsFalse (E.state stderr.old).failed }
    ensures { LeavesFound (asked_for asked.now) printers.now.fleet.items
        (map (λ name. name.items) printers.now.names.items)
        (J.start jobs.old) result (J.ended jobs.old) (J.ended jobs.new)
        (O.state stdout.old) (O.state stdout.new) (E.state stderr.old) (E.state stderr.new) }
{
    let manner = manner_of(asked.nearness, asked.extent);
    let fleet = printers.fleet.as_slice();
    let names = printers.names.as_slice();
    match find(alloc, jobs, asked, manner, fleet) {
        Ok(found) => write_found(alloc, asked, names, &found, stdout),
        Err(stop) => tell_stop(alloc, asked, manner, &stop, stderr),
    }
}

/// Writes what was found on printers of these names.
pub(crate) fn write_found<O: Outlet>(
    alloc: Global,
    asked: &CompareAsked<'_, '_>,
    names: &[Vec<u8>],
    found: &Found,
    stdout: &mut O,
) -> Status
    requires { IsFalse (O.state stdout.old).failed }
    ensures { WritesFound (found_text
        (telling_of (asked_for asked.now) (map (λ name. name.items) names.now))
        found.now.number found.now.outcome)
        (status_by (same_counts found.now.outcome)) result
        (O.state stdout.old) (O.state stdout.new) }
{
    let telling = asked.telling(names);
    write_told(alloc, &telling, found, stdout)
}

/// Writes what was found.
fn write_told<O: Outlet>(
    alloc: Global,
    telling: &Telling<'_, '_>,
    found: &Found,
    stdout: &mut O,
) -> Status
    requires { IsFalse (O.state stdout.old).failed }
    ensures { WritesFound (found_text (told_by telling.now) found.now.number found.now.outcome)
        (status_by (same_counts found.now.outcome)) result
        (O.state stdout.old) (O.state stdout.new) }
{
    let Ok(text) = found_text(alloc, telling, found) else {
        return Status::Stopped(Error::Memory);
    };
    write_whole(text.as_slice(), found.outcome.same_counts(), stdout)
}

/// Writes the text of an outcome by which both jobs print the same so much, or are not the same.
fn write_whole<O: Outlet>(text: &[u8], same: Option<Counts>, stdout: &mut O) -> Status
    requires { IsFalse (O.state stdout.old).failed }
    ensures { WritesFound text.now (status_by same) result
        (O.state stdout.old) (O.state stdout.new) }
{
    match write_text(stdout, text) {
        Ok(()) => status_by(same),
        Err(_) => Status::Stopped(Error::Write),
    }
}
