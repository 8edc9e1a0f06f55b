//! pclcheck for a page in a browser: functions that a built module exports.
//!
//! A call works in the memory that it is given, and keeps none of it, prints nothing and ends
//! nothing; the caller gives each call other memory. Nothing is kept between calls. What a call
//! reads and writes is as for the calls of C: a text goes into the room at `text`, and its length
//! into `needed`. Where the room is too short the answer is `ROOM`: nothing is written into it, and
//! `needed` says how long it has to be. After any other answer than `DONE` and `ROOM` the room,
//! `needed` and the rows are as they were, but `refusal` where the answer is `REFUSED`.
#![tactic(auto)]

ghost use Rattle.std.specs.Prelude.{◌≡◌, length, map};
ghost use Rattle.command_names.specs.CommandNames.{table};
ghost use Rattle.device_profile.specs.Name.{printer_name};
ghost use Rattle.foreign_calls.specs.Answers.{IsHanded, IsStop, IsWhyOf, Tells, filled, refusal_by};
ghost use Rattle.foreign_calls.specs.Answers.{room_number, row_by};
ghost use Rattle.foreign_calls.specs.Drawn.{IsPicture, MayDraw};
ghost use Rattle.foreign_calls.specs.Explained.{IsExplained, IsUnheard, code_asked};
ghost use Rattle.foreign_calls.specs.Texts.{IsNoted, IsPinned, IsWritten, MayPin};
ghost use Rattle.printer_models.specs.Listing.{models_text};
ghost use Rattle.renderings.specs.Expected.{plain_rendering};
ghost use Rattle.web_module.specs.Judgements.{IsHandedWith, IsJudgedOf, IsUnjudgedOf, Judges};
ghost use Rattle.web_module.specs.Judgements.{row_left};
ghost use Rattle.web_module.specs.Nearby.{IsNearby};
ghost use Rattle.web_module.specs.PageCounts.{IsPageCount, MayCount};
ghost use Rattle.web_module.specs.Printers.{texts_of};
ghost use Rattle.web_module.specs.ProfileTexts.{IsNew, IsNoNew, Lints, Refuses};

mod judging;
mod nearby;
mod page_counts;
mod printers;
mod profile_texts;
mod rows;

use crate::judging::{judge_job, tell_judged};
use crate::nearby::near;
use crate::page_counts::page_count;
use crate::profile_texts::{lint, models, new_profile, tell_findings, tell_refusal};
use device_profile::printer_name;
pub use foreign_calls::VERSION;
use foreign_calls::{
    PanelValue, Refusal, VerdictRow, drawn, explained, hand_out, leave_refusal, leave_row, noted,
    pinned, plain, put,
};
use given_memory::{GivenMemory, heap_over};
use meanings::EXPLANATIONS;
pub use rows::JudgementRow;

/// Puts the version, as `0.1.0`.
///
/// The answer is `DONE` or `ROOM`.
#[unsafe(no_mangle)]
pub extern "C" fn web_version(text: &mut [u8], needed: &mut usize) -> u32
    ensures number { result ≡ room_number VERSION.now text.old }
    ensures text { text.new ≡ filled VERSION.now text.old }
    ensures needed { needed.new ≡ length VERSION.now }
{
    put(VERSION.as_bytes(), text, needed)
}

/// Puts the name that the text of a profile gives its printer; nothing where it gives none.
///
/// The answer is `DONE` or `ROOM`.
#[unsafe(no_mangle)]
pub extern "C" fn web_printer_name(profile: &[u8], text: &mut [u8], needed: &mut usize) -> u32
    ensures number { result ≡ room_number (printer_name profile.now) text.old }
    ensures text { text.new ≡ filled (printer_name profile.now) text.old }
    ensures needed { needed.new ≡ length (printer_name profile.now) }
{
    put(printer_name(profile), text, needed)
}

/// Puts what is known of a code, as `pclcheck explain CODE` writes it; of an empty code all
/// explanations.
///
/// The answer is `DONE`, `ROOM`, `MEMORY`, or `UNKNOWN` where nothing has this number or name.
#[unsafe(no_mangle)]
pub extern "C" fn web_explain(
    memory: GivenMemory,
    code: &[u8],
    text: &mut [u8],
    needed: &mut usize,
) -> u32
    ensures { Tells (IsExplained (map (λ text. text.now) EXPLANATIONS) table
        (code_asked code.now))
        (IsUnheard (map (λ text. text.now) EXPLANATIONS) table (code_asked code.now))
        (λ told. IsHanded told result text.old text.new needed.old needed.new) }
{
    let heap = heap_over(memory);
    let told = explained(&heap, code);
    hand_out(&told, text, needed)
}

// ---- profiles

/// Puts a line for each model of which there is a profile, as `pclcheck profile list` writes them.
///
/// The answer is `DONE`, `ROOM` or `MEMORY`.
#[unsafe(no_mangle)]
pub extern "C" fn web_models(memory: GivenMemory, text: &mut [u8], needed: &mut usize) -> u32
    ensures { Tells (λ told. told.text ≡ models_text) IsStop
        (λ told. IsHanded told result text.old text.new needed.old needed.new) }
{
    let heap = heap_over(memory);
    let told = models(&heap);
    hand_out(&told, text, needed)
}

/// Puts the text of a profile of a model, as `pclcheck profile new MODEL` writes it.
///
/// The answer is `DONE`, `ROOM`, `MEMORY`, or `UNKNOWN` where no model has this name.
#[unsafe(no_mangle)]
pub extern "C" fn web_new_profile(
    memory: GivenMemory,
    model: &[u8],
    text: &mut [u8],
    needed: &mut usize,
) -> u32
    ensures { Tells (λ told. IsNew model.now told.text) (IsNoNew model.now)
        (λ told. IsHanded told result text.old text.new needed.old needed.new) }
{
    let heap = heap_over(memory);
    let told = new_profile(&heap, model);
    hand_out(&told, text, needed)
}

/// Tells what is wrong with the text of a profile.
///
/// The answer is `DONE` where nothing is, `REFUSED` or `MEMORY`.
#[unsafe(no_mangle)]
pub extern "C" fn web_refusal(memory: GivenMemory, profile: &[u8], refusal: &mut Refusal) -> u32
    ensures { Refuses profile.now result refusal.old refusal.new }
{
    let heap = heap_over(memory);
    tell_refusal(&heap, profile, refusal)
}

/// Puts all that is wrong with the text of a profile, or hints, as `pclcheck profile lint` writes
/// them of a text of this name; `faults` is 1 where something is wrong, else 0.
///
/// The answer is `DONE`, `ROOM`, `MEMORY`, or `UNKNOWN` where the name is no UTF-8.
#[unsafe(no_mangle)]
pub extern "C" fn web_lint(
    memory: GivenMemory,
    name: &[u8],
    profile: &[u8],
    faults: &mut u64,
    text: &mut [u8],
    needed: &mut usize,
) -> u32
    ensures { Lints name.now profile.now result faults.old faults.new text.old text.new
        needed.old needed.new }
{
    let heap = heap_over(memory);
    let told = lint(&heap, name, profile);
    tell_findings(&told, faults, text, needed)
}

// ---- checks

/// Checks a job for printers, the texts of whose profiles have these lengths and stand one behind
/// another, and puts the sentence of `pclcheck check --format words` on it, which begins with this
/// name of the job. Where `is_each` is set there is one printer, and the sentence is that of
/// `pclcheck check --each`.
///
/// The answer is `DONE`, `ROOM`, `REFUSED`, `MEMORY`, `NO_PRINTER` or `LONG`.
#[unsafe(no_mangle)]
pub extern "C" fn web_check(
    memory: GivenMemory,
    profiles: &[u8],
    lengths: &[usize],
    is_each: bool,
    name: &[u8],
    job: &[u8],
    refusal: &mut Refusal,
    judgement: &mut JudgementRow,
    text: &mut [u8],
    needed: &mut usize,
) -> u32
    ensures { Judges (IsJudgedOf (texts_of lengths.now profiles.now) is_each name.now job.now)
        (IsUnjudgedOf (texts_of lengths.now profiles.now))
        (λ judged. IsHandedWith judged result text.old text.new needed.old needed.new
        × (judgement.new ≡ row_left judgement.old judged)
        × (refusal.new ≡ refusal_by refusal.old judged)) }
{
    let heap = heap_over(memory);
    let told = judge_job(&heap, profiles, lengths, is_each, name, job);
    tell_judged(&told, judgement, refusal, text, needed)
}

// ---- texts of a job

/// Puts a line for each item of a job near a place, as `pclcheck list` writes it.
///
/// The answer is `DONE`, `ROOM`, `MEMORY` or `LONG`.
#[unsafe(no_mangle)]
pub extern "C" fn web_list_around(
    memory: GivenMemory,
    job: &[u8],
    place: u64,
    text: &mut [u8],
    needed: &mut usize,
) -> u32
    ensures { Tells (λ told. IsNearby place job.now told.text) IsStop
        (λ told. IsHanded told result text.old text.new needed.old needed.new) }
{
    let heap = heap_over(memory);
    let told = near(&heap, job, place);
    hand_out(&told, text, needed)
}

/// Puts the items of a job, each in its canonical spelling, as `pclcheck plain` writes it into OUT.
/// `verdict` tells the fault by which they end.
///
/// The answer is `DONE`, `ROOM`, `MEMORY` or `LONG`.
#[unsafe(no_mangle)]
pub extern "C" fn web_plain(
    memory: GivenMemory,
    job: &[u8],
    verdict: &mut VerdictRow,
    text: &mut [u8],
    needed: &mut usize,
) -> u32
    ensures { Tells (IsWritten plain_rendering job.now) IsStop
        (λ told. IsHanded told result text.old text.new needed.old needed.new
        × (verdict.new ≡ row_by verdict.old told)) }
{
    let heap = heap_over(memory);
    let told = plain(&heap, job);
    leave_row(&told, verdict);
    hand_out(&told, text, needed)
}

/// Puts what a job leaves to the printer of a profile, as `pclcheck notes` writes it.
///
/// The answer is `DONE`, `ROOM`, `REFUSED`, `MEMORY` or `LONG`.
#[unsafe(no_mangle)]
pub extern "C" fn web_notes(
    memory: GivenMemory,
    profile: &[u8],
    job: &[u8],
    refusal: &mut Refusal,
    verdict: &mut VerdictRow,
    text: &mut [u8],
    needed: &mut usize,
) -> u32
    ensures { Tells (IsNoted profile.now job.now) (IsWhyOf 1 profile.now)
        (λ told. IsHanded told result text.old text.new needed.old needed.new
        × (verdict.new ≡ row_by verdict.old told)
        × (refusal.new ≡ refusal_by refusal.old told)) }
{
    let heap = heap_over(memory);
    let told = noted(&heap, profile, job);
    leave_refusal(&told, refusal);
    leave_row(&told, verdict);
    hand_out(&told, text, needed)
}

/// Puts how many pages a job has on the printer of a profile, from its first panel: what
/// `pclcheck picture` tells of a page that no job has, and, where it fails, by what.
///
/// The answer is `DONE`, `ROOM`, `REFUSED`, `MEMORY` or `LONG`.
#[unsafe(no_mangle)]
pub extern "C" fn web_page_count(
    memory: GivenMemory,
    profile: &[u8],
    job: &[u8],
    refusal: &mut Refusal,
    text: &mut [u8],
    needed: &mut usize,
) -> u32
    ensures { Tells (λ told. IsPageCount profile.now job.now told.text) (MayCount profile.now)
        (λ told. IsHanded told result text.old text.new needed.old needed.new
        × (refusal.new ≡ refusal_by refusal.old told)) }
{
    let heap = heap_over(memory);
    let told = page_count(&heap, profile, job);
    leave_refusal(&told, refusal);
    hand_out(&told, text, needed)
}

/// Puts the picture of the page of this number, from 1, of a job on the printer of a profile, as
/// SVG; or for 0 all pages in a document of HTML: what `pclcheck picture` writes. Sentences in it
/// have this name of the job, which is UTF-8.
///
/// The answer is `DONE`, `ROOM`, `REFUSED`, `NO_PAGE`, `MEMORY`, `LONG`, or `UNKNOWN` where the
/// name is no UTF-8.
#[unsafe(no_mangle)]
pub extern "C" fn web_picture(
    memory: GivenMemory,
    profile: &[u8],
    name: &[u8],
    page: u64,
    job: &[u8],
    refusal: &mut Refusal,
    text: &mut [u8],
    needed: &mut usize,
) -> u32
    ensures { Tells
        (λ told. IsPicture profile.now name.now job.now page told.text)
        (MayDraw profile.now name.now job.now page)
        (λ told. IsHanded told result text.old text.new needed.old needed.new
        × (refusal.new ≡ refusal_by refusal.old told)) }
{
    let heap = heap_over(memory);
    let told = drawn(&heap, profile, name, page, job);
    leave_refusal(&told, refusal);
    hand_out(&told, text, needed)
}

/// Puts a job pinned to the panel of the printer of a profile, as `pclcheck pin` writes it into
/// OUT: from its first panel, but for the values that are chosen. `verdict` tells by what it ends
/// too early.
///
/// The answer is `DONE`, `ROOM`, `REFUSED`, `NO_FIELD`, `NOT_ALLOWED`, `MEMORY` or `LONG`.
#[unsafe(no_mangle)]
pub extern "C" fn web_pin(
    memory: GivenMemory,
    profile: &[u8],
    values: &[PanelValue],
    job: &[u8],
    refusal: &mut Refusal,
    verdict: &mut VerdictRow,
    text: &mut [u8],
    needed: &mut usize,
) -> u32
    ensures { Tells (IsPinned profile.now values.now job.now) (MayPin profile.now values.now)
        (λ told. IsHanded told result text.old text.new needed.old needed.new
        × (verdict.new ≡ row_by verdict.old told)
        × (refusal.new ≡ refusal_by refusal.old told)) }
{
    let heap = heap_over(memory);
    let told = pinned(&heap, profile, values, job);
    leave_refusal(&told, refusal);
    leave_row(&told, verdict);
    hand_out(&told, text, needed)
}
