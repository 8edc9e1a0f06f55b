//! Texts of profiles, and what is wrong with them.
ghost use Rattle.std.specs.Prelude.{◌≡◌, ◌∷◌, [], IfErr, IfOk};
ghost use Rattle.foreign_calls.specs.Answers.{IsStop, refusal_by, work_number};
ghost use Rattle.printer_models.specs.Listing.{models_text};
ghost use Rattle.web_module.specs.ProfileTexts.{IsFound, IsLeft, IsNew, IsNoNew, IsUntold};
ghost use Rattle.web_module.specs.ProfileTexts.{Refuses, why_no_new};

use device_profile::Profile;
use foreign_calls::{DONE, Refusal, Told, Why, put, read_printer};
use printer_models::{NewError, PanelLists, models_text, new_text};
use profile_lint::{Findings, NamedText, lint_texts};
use std::alloc::{AllocError, Allocator};
use std::marker::Model;
use streams::Error;

// ---- new texts

/// A line for each model.
pub(crate) fn models<A: Allocator + Copy>(alloc: A) -> Result<Told<A>, Why>
    ensures models { IfOk result (λ told. told.text ≡ models_text) }
    ensures stops { IfErr result IsStop }
{
    match models_text(alloc) {
        Ok(text) => Ok(Told::of_text(text)),
        Err(error) => Err(Why::from(error)),
    }
}

/// The text of a profile of a model, with the usual papers and a panel that nobody uses.
pub(crate) fn new_profile<A: Allocator + Copy>(alloc: A, model: &[u8]) -> Result<Told<A>, Why>
    ensures made { IfOk result (λ told. IsNew model.now told.text) }
    ensures why { IfErr result (IsNoNew model.now) }
{
    match str::from_utf8(model) {
        Ok(word) => new_profile_of(alloc, word),
        Err(_) => Err(Why::NotText),
    }
}

/// The same, where the name is UTF-8.
fn new_profile_of<A: Allocator + Copy>(alloc: A, word: &str) -> Result<Told<A>, Why>
    ensures made { IfOk result (λ told. IsNew word.now told.text) }
    ensures why { IfErr result (IsNoNew word.now) }
{
    match new_text(alloc, word, &[], PanelLists::Fixed) {
        Ok(text) => Ok(Told::of_text(text)),
        Err(error) => Err(why_no_new(error)),
    }
}

/// Why there is no text of a model. No paper is named, and the tables agree.
fn why_no_new(error: NewError) -> Why
    ensures { result ≡ why_no_new error }
{
    match error {
        NewError::UnknownModel => Why::Unheard,
        NewError::Paper(_) => Why::Stopped(Error::Write),
        NewError::Mismatch => Why::Stopped(Error::Write),
        NewError::Memory => Why::Stopped(Error::Memory),
    }
}

// ---- faults

/// What is found in a text.
#[derive(Drop)]
pub(crate) struct Found<A: Allocator> {
    lines: Vec<u8, A>,
    has_faults: bool,
}

impl<A: Allocator> Model for Found<A> {
    ghost use Rattle.web_module.specs.ProfileTexts.{Found};

    ghost Value = { Found };

    ghost view = { λ found. record {
      lines = found.lines.items;
      has_faults = found.has_faults;
    } };
}

/// What is found in the text of a profile under this name.
pub(crate) fn lint<A: Allocator + Copy>(
    alloc: A,
    name: &[u8],
    profile: &[u8],
) -> Result<Found<A>, Why>
    ensures found { IfOk result
        (λ found. IsFound name.now profile.now found.lines found.has_faults) }
    ensures untold { IfErr result IsUntold }
{
    match str::from_utf8(name) {
        Ok(word) => lint_under(alloc, word, profile),
        Err(_) => Err(Why::NotText),
    }
}

/// The same, where the name is UTF-8.
fn lint_under<A: Allocator + Copy>(alloc: A, word: &str, profile: &[u8]) -> Result<Found<A>, Why>
    ensures found { IfOk result
        (λ found. IsFound word.now profile.now found.lines found.has_faults) }
    ensures stops { IfErr result IsStop }
{
    match findings_in(alloc, word, profile) {
        Ok(found) => Ok(found),
        Err(error) => Err(Why::from(error)),
    }
}

fn findings_in<A: Allocator + Copy>(
    alloc: A,
    word: &str,
    profile: &[u8],
) -> Result<Found<A>, AllocError>
    ensures { IfOk result
        (λ found. IsFound word.now profile.now found.lines found.has_faults) }
{
    let text = Vec::from_slice(alloc, profile)?;
    let texts = alone(alloc, NamedText { word, text })?;
    match lint_texts(alloc, texts.as_slice()) {
        Ok(Findings { lines, has_faults }) => Ok(Found { lines, has_faults }),
        Err(error) => Err(error),
    }
}

/// A text by itself.
fn alone<'w, A: Allocator>(
    alloc: A,
    named: NamedText<'w, A>,
) -> Result<Vec<NamedText<'w, A>, A>, AllocError>
    ensures { IfOk result (λ all. all.items ≡ named.entry ∷ []) }
{
    let mut all = Vec::new(alloc);
    all.push(named)?;
    Ok(all)
}

/// Puts what is found into a room, where it is known, and answers the number of the call.
pub(crate) fn tell_findings<A: Allocator>(
    found: &Result<Found<A>, Why>,
    faults: &mut u64,
    room: &mut [u8],
    needed: &mut usize,
) -> u32
    ensures { IsLeft found.now result faults.old faults.new room.old room.new
        needed.old needed.new }
{
    match found {
        Ok(found) => {
            *faults = if found.has_faults { 1 } else { 0 };
            put(found.lines.as_slice(), room, needed)
        }
        Err(why) => why.number(),
    }
}

// ---- why a text is refused

/// Tells why a text describes no printer, where it does not, and answers the number of the call.
pub(crate) fn tell_refusal<A: Allocator + Copy>(
    alloc: A,
    profile: &[u8],
    refusal: &mut Refusal,
) -> u32
    ensures { Refuses profile.now result refusal.old refusal.new }
{
    let work = read_printer(alloc, profile, 1);
    leave(&work, refusal)
}

fn leave<A: Allocator>(work: &Result<Profile<A>, Why>, refusal: &mut Refusal) -> u32
    ensures number { result ≡ work_number work.now }
    ensures refusal { refusal.new ≡ refusal_by refusal.old work.now }
{
    match work {
        Ok(_) => DONE,
        Err(why) => {
            why.tell(refusal);
            why.number()
        }
    }
}
