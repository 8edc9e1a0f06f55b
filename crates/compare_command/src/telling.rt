//! What is told of two jobs, in one of three forms.

ghost use Rattle.std.specs.Prelude.{◌≡◌, ◌++◌, IfOk, OnOk, flat_map, map, option_map};
ghost use Rattle.compare_command.specs.Lines.{name_of};
ghost use Rattle.compare_command.specs.Telling.{change_of, comparison_text, difference_of};
ghost use Rattle.compare_command.specs.Telling.{difference_text, differences_text};
ghost use Rattle.compare_command.specs.Telling.{failed, failure_text, found_text, is_memory};
ghost use Rattle.compare_command.specs.Telling.{is_unheld, is_words, judged, listed_text};
ghost use Rattle.compare_command.specs.Telling.{more_part, more_text, pages_text, same_text};
ghost use Rattle.compare_command.specs.Telling.{stop_told, tells_more, told_by, unread};

use crate::found::{Found, Outcome};
use crate::lines::{push_difference_line, push_more_line, push_same_line};
use crate::objects::{push_difference_object, push_more_object, push_same_object};
use crate::sentences::{
    push_difference_sentence, push_more_sentence, push_same_sentence, push_unheld_sentence,
};
use comparison::{Change, Comparison, Difference};
use job_reports::{PrinterGroup, Report, push_job_line, push_job_sentence};
use judgement::Judgement;
use many_jobs::push_job_object;
use page_comparison::{Differences, PageChange, PageComparison, PageDifference};
use requests::Form;
use sinks::Counts;
use std::alloc::{AllocError, Global};
use streams::Error;
use verdict::Failure;

/// The names of both jobs and of the printers, and the form in which it is told.
#[derive(Clone, Copy)]
pub(crate) struct Telling<'n, 't> {
    pub old_name: &'n str,
    pub new_name: &'n str,
    pub printers: &'t [Vec<u8>],
    pub form: Form,
    /// A line ends with the name of NEW, which is one of many.
    pub is_named: bool,
    /// All differences are told, and so is that some are left out.
    pub is_all: bool,
}

/// The text of what was found.
pub(crate) fn found_text(
    alloc: Global,
    telling: &Telling<'_, '_>,
    found: &Found,
) -> Result<Vec<u8>, AllocError>
    ensures { IfOk result (λ text. text.items
        ≡ found_text (told_by telling.now) found.now.number found.now.outcome) }
{
    let mut text = Vec::new(alloc);
    push_found(alloc, &mut text, telling, found)?;
    Ok(text)
}

/// Appends what was found.
fn push_found(
    alloc: Global,
    text: &mut Vec<u8>,
    telling: &Telling<'_, '_>,
    found: &Found,
) -> Result<(), AllocError>
    ensures { OnOk result (text.new.items ≡ text.old.items
        ++ found_text (told_by telling.now) found.now.number found.now.outcome) }
{
    match &found.outcome {
        Outcome::OfEvents(comparison) => {
            push_comparison(alloc, text, telling, found.number, *comparison)
        }
        Outcome::OfPages(comparison) => {
            push_pages(alloc, text, telling, found.number, comparison)
        }
    }
}

/// Appends what came of two jobs on the printer of this number.
fn push_comparison(
    alloc: Global,
    text: &mut Vec<u8>,
    telling: &Telling<'_, '_>,
    number: u64,
    comparison: Comparison,
) -> Result<(), AllocError>
    ensures { OnOk result (text.new.items ≡ text.old.items
        ++ comparison_text (told_by telling.now) number comparison) }
{
    let (form, names) = (telling.form, telling.printers);
    match comparison {
        Comparison::Same(counts) => push_same(alloc, text, telling, counts),
        Comparison::Differs(difference) => {
            push_difference(alloc, text, telling, number, difference_of(difference))
        }
        Comparison::OldFails(failure) => {
            push_failure(alloc, text, form, names, telling.old_name, failure)
        }
        Comparison::NewFails(failure) => {
            push_failure(alloc, text, form, names, telling.new_name, failure)
        }
    }
}

/// The first difference of two jobs, as one of all: up to there their marks have the same numbers.
fn difference_of(difference: Difference) -> PageDifference
    ensures { result ≡ difference_of difference }
{
    PageDifference {
        page: difference.page,
        old_mark: difference.mark,
        new_mark: difference.mark,
        old_place: difference.old_place,
        new_place: difference.new_place,
        change: change_of(difference.change),
    }
}

fn change_of(change: Change) -> PageChange
    ensures { result ≡ change_of change }
{
    match change {
        Change::Moved => PageChange::Moved,
        Change::Changed => PageChange::Changed,
        Change::OnlyInOld => PageChange::OnlyInOld,
        Change::OnlyInNew => PageChange::OnlyInNew,
        Change::PageEnds => PageChange::PageEnds,
        Change::PageOnlyInOld => PageChange::PageOnlyInOld,
        Change::PageOnlyInNew => PageChange::PageOnlyInNew,
    }
}

/// Appends what came of two jobs on the printer of this number, page by page.
fn push_pages(
    alloc: Global,
    text: &mut Vec<u8>,
    telling: &Telling<'_, '_>,
    number: u64,
    comparison: &PageComparison<Global>,
) -> Result<(), AllocError>
    ensures { OnOk result (text.new.items ≡ text.old.items
        ++ pages_text (told_by telling.now) number comparison.now) }
{
    let (form, names) = (telling.form, telling.printers);
    match comparison {
        PageComparison::Same(counts) => push_same(alloc, text, telling, *counts),
        PageComparison::Differs(differences) => {
            push_differences(alloc, text, telling, number, differences)
        }
        PageComparison::OldFails(failure) => {
            push_failure(alloc, text, form, names, telling.old_name, *failure)
        }
        PageComparison::NewFails(failure) => {
            push_failure(alloc, text, form, names, telling.new_name, *failure)
        }
    }
}

/// Appends the differences on the printer of this number.
fn push_differences(
    alloc: Global,
    text: &mut Vec<u8>,
    telling: &Telling<'_, '_>,
    number: u64,
    differences: &Differences<Global>,
) -> Result<(), AllocError>
    ensures { OnOk result (text.new.items ≡ text.old.items
        ++ differences_text (told_by telling.now) number differences.now) }
{
    let listed = differences.listed.as_slice();
    push_listed(alloc, text, telling, number, listed)?;
    push_more_part(alloc, text, telling, differences)
}

/// Appends differences on the printer of this number, one behind another.
fn push_listed(
    alloc: Global,
    text: &mut Vec<u8>,
    telling: &Telling<'_, '_>,
    number: u64,
    listed: &[PageDifference],
) -> Result<(), AllocError>
    ensures { OnOk result (text.new.items ≡ text.old.items
        ++ flat_map (listed_text (told_by telling.now) number) listed.now) }
{
    for difference in listed {
        push_difference(alloc, text, telling, number, *difference)?;
    }
    Ok(())
}

/// Appends that differences are left out, where all are told and some are.
fn push_more_part(
    alloc: Global,
    text: &mut Vec<u8>,
    telling: &Telling<'_, '_>,
    differences: &Differences<Global>,
) -> Result<(), AllocError>
    ensures { OnOk result (text.new.items ≡ text.old.items
        ++ more_part (told_by telling.now) differences.now) }
{
    if !tells_more(telling, differences) {
        return Ok(());
    }
    push_more(alloc, text, telling, differences.pages)
}

/// Whether all differences are told, and some are left out.
fn tells_more(telling: &Telling<'_, '_>, differences: &Differences<Global>) -> bool
    ensures { result ≡ tells_more (told_by telling.now) differences.now }
{
    telling.is_all && differences.more
}

/// Appends that differences are left out, and that so many pages differ.
fn push_more(
    alloc: Global,
    text: &mut Vec<u8>,
    telling: &Telling<'_, '_>,
    pages: u64,
) -> Result<(), AllocError>
    ensures { OnOk result (text.new.items ≡ text.old.items
        ++ more_text telling.now.form telling.now.is_named telling.now.old_name.now
        telling.now.new_name.now pages) }
{
    let (old_name, new_name) = (telling.old_name, telling.new_name);
    let is_named = telling.is_named;
    match telling.form {
        Form::Line => push_more_line(text, is_named, new_name, pages),
        Form::Words => push_more_sentence(alloc, text, old_name, new_name, pages),
        Form::Json => push_more_object(alloc, text, old_name, new_name, pages),
        Form::Html => push_more_line(text, is_named, new_name, pages),
    }
}

/// Appends that the jobs print the same.
fn push_same(
    alloc: Global,
    text: &mut Vec<u8>,
    telling: &Telling<'_, '_>,
    counts: Counts,
) -> Result<(), AllocError>
    ensures { OnOk result (text.new.items ≡ text.old.items
        ++ same_text telling.now.form telling.now.is_named telling.now.old_name.now
        telling.now.new_name.now counts) }
{
    let (old_name, new_name) = (telling.old_name, telling.new_name);
    let is_named = telling.is_named;
    match telling.form {
        Form::Line => push_same_line(text, is_named, new_name, counts),
        Form::Words => push_same_sentence(alloc, text, old_name, new_name, counts),
        Form::Json => push_same_object(alloc, text, old_name, new_name, counts),
        Form::Html => push_same_line(text, is_named, new_name, counts),
    }
}

/// Appends that they differ so on the printer of this number.
fn push_difference(
    alloc: Global,
    text: &mut Vec<u8>,
    telling: &Telling<'_, '_>,
    number: u64,
    difference: PageDifference,
) -> Result<(), AllocError>
    ensures { OnOk result (text.new.items ≡ text.old.items
        ++ listed_text (told_by telling.now) number difference) }
{
    let printer = name_of(telling.printers, number);
    push_difference_for(alloc, text, telling, printer, difference)
}

/// Appends that they differ so on the printer of this name.
fn push_difference_for(
    alloc: Global,
    text: &mut Vec<u8>,
    telling: &Telling<'_, '_>,
    printer: &[u8],
    difference: PageDifference,
) -> Result<(), AllocError>
    ensures { OnOk result (text.new.items ≡ text.old.items
        ++ difference_text telling.now.form telling.now.is_named telling.now.old_name.now
        telling.now.new_name.now printer.now difference) }
{
    let (old_name, new_name) = (telling.old_name, telling.new_name);
    let is_named = telling.is_named;
    match telling.form {
        Form::Line => push_difference_line(text, is_named, new_name, printer, difference),
        Form::Words => {
            push_difference_sentence(alloc, text, old_name, new_name, printer, difference)
        }
        Form::Json => push_difference_object(alloc, text, old_name, new_name, printer, difference),
        Form::Html => push_difference_line(text, is_named, new_name, printer, difference),
    }
}

/// The name of the printer of this number, from 1.
pub(crate) fn name_of(names: &[Vec<u8>], number: u64) -> &[u8]
    ensures { result.now ≡ name_of (map (λ name. name.items) names.now) number }
{
    match names.get(number.saturating_sub(1) as usize) {
        Some(name) => name.as_slice(),
        None => &[],
    }
}

/// Appends that the job of this name fails on one of the printers of these names, as a check of
/// many jobs tells it.
fn push_failure(
    alloc: Global,
    text: &mut Vec<u8>,
    form: Form,
    names: &[Vec<u8>],
    job: &str,
    failure: Failure,
) -> Result<(), AllocError>
    ensures { OnOk result (text.new.items ≡ text.old.items
        ++ failure_text form (failed (map (λ name. name.items) names.now) job.now failure)) }
{
    let printers = PrinterGroup::new(&[], &[], names, false);
    let report = Report {
        printers: &printers,
        job: job.as_bytes(),
        answer: Ok(judged(failure)),
        cause: None,
    };
    push_report(alloc, text, form, &report)
}

/// Appends why the job of this name is not compared for printers of these names.
pub(crate) fn push_stop(
    alloc: Global,
    text: &mut Vec<u8>,
    form: Form,
    names: &[Vec<u8>],
    job: &str,
    error: Error,
    cause: Option<&[u8]>,
) -> Result<(), AllocError>
    ensures { OnOk result (text.new.items ≡ text.old.items
        ++ stop_told form (map (λ name. name.items) names.now) job.now error
        (option_map (λ words. words.now) cause.entry)) }
{
    if is_unheld(form, error) {
        return push_unheld_sentence(alloc, text, job, cause);
    }
    push_unread(alloc, text, form, names, job, error, cause)
}

/// Whether a sentence tells that there is no memory for a job, or for a page of it.
fn is_unheld(form: Form, error: Error) -> bool
    ensures { result ≡ is_unheld form error }
{
    is_words(form) && is_memory(error)
}

fn is_words(form: Form) -> bool
    ensures { result ≡ is_words form }
{
    match form {
        Form::Line => false,
        Form::Words => true,
        Form::Json => false,
        Form::Html => false,
    }
}

fn is_memory(error: Error) -> bool
    ensures { result ≡ is_memory error }
{
    match error {
        Error::Memory => true,
        Error::Read => false,
        Error::Write => false,
        Error::Turns => false,
        Error::NoProfile => false,
        Error::Items => false,
    }
}

/// Appends that the job of this name has no verdict for printers of these names, as a check of many
/// jobs tells it.
fn push_unread(
    alloc: Global,
    text: &mut Vec<u8>,
    form: Form,
    names: &[Vec<u8>],
    job: &str,
    error: Error,
    cause: Option<&[u8]>,
) -> Result<(), AllocError>
    ensures { OnOk result (text.new.items ≡ text.old.items
        ++ failure_text form (unread (map (λ name. name.items) names.now) job.now error
        (option_map (λ words. words.now) cause.entry))) }
{
    let printers = PrinterGroup::new(&[], &[], names, false);
    let report = Report {
        printers: &printers,
        job: job.as_bytes(),
        answer: Err(error),
        cause,
    };
    push_report(alloc, text, form, &report)
}

/// Appends what came of a job.
fn push_report(
    alloc: Global,
    text: &mut Vec<u8>,
    form: Form,
    report: &Report<'_, '_, Global>,
) -> Result<(), AllocError>
    ensures { OnOk result (text.new.items ≡ text.old.items ++ failure_text form report.now) }
{
    match form {
        Form::Line => push_job_line(text, report),
        Form::Words => push_job_sentence(alloc, text, report),
        Form::Json => push_job_object(alloc, alloc, text, report, ""),
        Form::Html => push_job_line(text, report),
    }
}

/// What is known of a failure that was found by no check.
fn judged(failure: Failure) -> Judgement
    ensures { result ≡ judged failure }
{
    Judgement {
        verdict: failure.verdict(),
        failing_item: None,
        page: None,
        cursor: None,
        font: None,
    }
}
