//! The texts of a job on one printer, which the text of its profile describes.
ghost use Rattle.std.specs.Prelude.{◌≡◌, ◌++◌, IfErr, IfOk, Ok, OnOk};
ghost use Rattle.device_profile.specs.Printer.{IsAllowed, first_panel};
ghost use Rattle.device_profile.specs.Text.{printer_of_text};
ghost use Rattle.job_reports.specs.Lines.{verdict_line};
ghost use Rattle.notes.specs.Note.{note_line};
ghost use Rattle.renderings.specs.Expected.{pages_rendering};
ghost use Rattle.renderings.specs.Pins.{pinned_rendering};
ghost use Rattle.subcommands.specs.JobNotes.{noted, outcome_line};
ghost use Rattle.verdict.specs.Failing.{failing};
ghost use Rattle.foreign_calls.specs.Answers.{IsStop, IsWhyOf, outcome_row};
ghost use Rattle.foreign_calls.specs.Limits.{IsPrinterOf, limited};
ghost use Rattle.foreign_calls.specs.Texts.{IsNoted, IsPaged, IsPinned, IsWritten, MayPin};
ghost use Rattle.foreign_calls.specs.Texts.{IsWrittenWithLine};

use crate::panel_values::{are_fields, choices_of};
use crate::rows::{PanelValue, outcome_row};
use crate::told::Told;
use crate::why::Why;
use device_profile::{Panel, Profile};
use job_reports::line_of_failure;
use named_inputs::{KeptText, chosen_panel, kept_error};
use notes::{MOST_ITEMS, NoteLine, notes_of};
use renderings::{Outcome, pages_of, pin_job};
use std::alloc::{AllocError, Allocator};
use streams::{Error, Latched};
use verdict::Failure;

/// The printer that a text describes.
pub fn read_printer<A: Allocator + Copy>(
    alloc: A,
    text: &[u8],
    number: u64,
) -> Result<Profile<A>, Why>
    ensures printer { IfOk result (λ printer. printer_of_text text.now ≡ Ok printer) }
    ensures refused { IfErr result (IsWhyOf number text.now) }
{
    match Profile::read(alloc, text) {
        Ok(profile) => Ok(profile),
        Err(fault) => Err(Why::of_fault(number, fault)),
    }
}

/// The same, where macros may carry out so many items of a job.
pub fn read_limited<A: Allocator + Copy>(
    alloc: A,
    text: &[u8],
    number: u64,
    most: Option<u64>,
) -> Result<Profile<A>, Why>
    ensures printer { IfOk result (IsPrinterOf most text.now) }
    ensures refused { IfErr result (IsWhyOf number text.now) }
{
    match read_printer(alloc, text, number) {
        Ok(printer) => Ok(limited(printer, most)),
        Err(why) => Err(why),
    }
}

/// A printer on which macros may carry out so many items of a job.
fn limited<A: Allocator + Copy>(mut printer: Profile<A>, most: Option<u64>) -> Profile<A>
    ensures { result ≡ limited most printer }
{
    match most {
        None => printer,
        Some(count) => {
            printer.limit_items(Some(count));
            printer
        }
    }
}

// ---- notes and pages, with the line of a failure behind them

/// What a job leaves to a printer, from its first panel.
pub fn noted<A: Allocator + Copy>(alloc: A, profile: &[u8], job: &[u8]) -> Result<Told<A>, Why>
    ensures noted { IfOk result (IsNoted profile.now job.now) }
    ensures why { IfErr result (IsWhyOf 1 profile.now) }
{
    match read_printer(alloc, profile, 1) {
        Ok(printer) => noted_for(alloc, printer, job),
        Err(why) => Err(why),
    }
}

fn noted_for<A: Allocator + Copy>(
    alloc: A,
    mut printer: Profile<A>,
    job: &[u8],
) -> Result<Told<A>, Why>
    ensures noted { IfOk result (IsWrittenWithLine (noted note_line printer) job.now) }
    ensures stops { IfErr result IsStop }
{
    printer.limit_items(Some(MOST_ITEMS));
    let panel = printer.first_panel();
    let mut source = Latched::new(job);
    let mut text = KeptText::new(alloc);
    match notes_of(alloc, &NoteLine, &mut source, &printer, &panel, &mut text) {
        Ok(outcome) => with_line(alloc, outcome, text.into_bytes()),
        Err(error) => Err(Why::Stopped(kept_error(error))),
    }
}

/// The pages of a job on a printer, from its first panel.
pub fn paged<A: Allocator + Copy>(alloc: A, profile: &[u8], job: &[u8]) -> Result<Told<A>, Why>
    ensures paged { IfOk result (IsPaged profile.now job.now) }
    ensures why { IfErr result (IsWhyOf 1 profile.now) }
{
    match read_printer(alloc, profile, 1) {
        Ok(printer) => paged_for(alloc, &printer, job),
        Err(why) => Err(why),
    }
}

fn paged_for<A: Allocator + Copy>(
    alloc: A,
    printer: &Profile<A>,
    job: &[u8],
) -> Result<Told<A>, Why>
    ensures paged { IfOk result (IsWrittenWithLine
        (pages_rendering printer.now (first_panel printer.now)) job.now) }
    ensures stops { IfErr result IsStop }
{
    let panel = printer.first_panel();
    let mut source = Latched::new(job);
    let mut text = KeptText::new(alloc);
    match pages_of(alloc, &mut source, printer, &panel, &mut text) {
        Ok(outcome) => with_line(alloc, outcome, text.into_bytes()),
        Err(error) => Err(Why::Stopped(kept_error(error))),
    }
}

/// A text, and behind it the line of the failure, where there is one.
fn with_line<A: Allocator + Copy>(
    alloc: A,
    outcome: Outcome,
    mut text: Vec<u8, A>,
) -> Result<Told<A>, Why>
    ensures told { IfOk result (λ told. (told.row ≡ outcome_row outcome)
        × (told.text ≡ text.items ++ outcome_line outcome)) }
    ensures stops { IfErr result IsStop }
{
    match push_outcome(alloc, &mut text, outcome) {
        Ok(()) => Ok(Told {
            row: outcome_row(outcome),
            text,
        }),
        Err(error) => Err(Why::from(error)),
    }
}

/// Appends the line of a failure. Of a job that was gone through to its end there is none.
fn push_outcome<A: Allocator + Copy>(
    alloc: A,
    text: &mut Vec<u8, A>,
    outcome: Outcome,
) -> Result<(), AllocError>
    ensures { OnOk result (text.new.items ≡ text.old.items ++ outcome_line outcome) }
{
    match outcome.failure() {
        None => Ok(()),
        Some(failure) => push_failure(alloc, text, failure),
    }
}

fn push_failure<A: Allocator + Copy>(
    alloc: A,
    text: &mut Vec<u8, A>,
    failure: Failure,
) -> Result<(), AllocError>
    ensures { OnOk result (text.new.items ≡ text.old.items ++ verdict_line (failing failure)) }
{
    let line = line_of_failure(alloc, failure)?;
    text.extend_from_slice(line.as_slice())
}

// ---- a pinned job

/// A job pinned to the panel of a printer that is chosen.
pub fn pinned<A: Allocator + Copy>(
    alloc: A,
    profile: &[u8],
    values: &[PanelValue],
    job: &[u8],
) -> Result<Told<A>, Why>
    ensures pinned { IfOk result (IsPinned profile.now values.now job.now) }
    ensures why { IfErr result (MayPin profile.now values.now) }
{
    if !are_fields(values) {
        return Err(Why::NoField);
    }
    let Ok(choices) = choices_of(alloc, values) else {
        return Err(Why::Stopped(Error::Memory));
    };
    let printer = match read_printer(alloc, profile, 1) {
        Ok(printer) => printer,
        Err(why) => return Err(why),
    };
    match chosen_panel(&printer, choices.as_slice()) {
        Ok(panel) => pinned_to(alloc, &printer, &panel, job),
        Err(_) => Err(Why::NotAllowed),
    }
}

fn pinned_to<A: Allocator + Copy>(
    alloc: A,
    printer: &Profile<A>,
    panel: &Panel,
    job: &[u8],
) -> Result<Told<A>, Why>
    requires { IsAllowed printer.now panel.now }
    ensures pinned { IfOk result (IsWritten (pinned_rendering printer.now panel.now) job.now) }
    ensures stops { IfErr result IsStop }
{
    let mut source = Latched::new(job);
    let mut text = KeptText::new(alloc);
    match pin_job(alloc, &mut source, printer, panel, &mut text) {
        Ok(outcome) => Ok(Told {
            row: outcome_row(outcome),
            text: text.into_bytes(),
        }),
        Err(error) => Err(Why::Stopped(kept_error(error))),
    }
}
