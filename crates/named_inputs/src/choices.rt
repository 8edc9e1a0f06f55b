//! What is chosen at the panel of a printer, in place of the first value of a field.
ghost use Rattle.std.specs.Prelude.{◌≡◌, ◌++◌, IfOk, IsFalse, OnOk, flat_map};
ghost use Rattle.device_profile.specs.Printer.{IsAllowed};
ghost use Rattle.named_inputs.specs.Choices.{TellsOfChoice, choice_line, choice_word, chosen_panel};
ghost use Rattle.named_inputs.specs.Choices.{is_choice, with_choice};
ghost use Rattle.requests.specs.Status.{is_refused_choice};

use device_profile::{Field, Panel, Profile};
use line_words::{push_number_word, push_value_word};
use requests::{Choice, Status};
use std::alloc::{AllocError, Allocator};
use streams::{Error, Outlet, write_text};

/// The panel has this value in its field.
fn choose(panel: &mut Panel, choice: Choice)
    ensures { panel.new ≡ with_choice panel.old choice }
{
    match choice.field {
        Field::Size => panel.size = choice.value,
        Field::Orientation => panel.orientation = choice.value,
        Field::Vmi => panel.vmi = choice.value,
        Field::Font => panel.font = choice.value,
        Field::Copies => panel.copies = choice.value,
        Field::Sides => panel.sides = choice.value,
        Field::Tray => panel.tray = choice.value,
        Field::LineTerm => panel.line_termination = choice.value,
    }
}

/// Whether the printer's panel may have this value.
fn is_choice<A: Allocator>(profile: &Profile<A>, choice: Choice) -> bool
    ensures { result ≡ is_choice profile.now choice }
{
    profile.allowed(choice.field).contains(&choice.value)
}

/// The first panel with each chosen value in its field, or the first choice that the panel may not
/// have.
pub fn chosen_panel<A: Allocator>(profile: &Profile<A>, choices: &[Choice]) -> Result<Panel, Choice>
    ensures value { result ≡ chosen_panel profile.now choices.now }
    ensures allowed { IfOk result (IsAllowed profile.now) }
{
    let mut panel = profile.first_panel();
    for choice in choices {
        if !is_choice(profile, *choice) {
            return Err(*choice);
        }
        choose(&mut panel, *choice);
    }
    Ok(panel)
}

/// Appends a space and a value of a field, as a profile's text has it.
fn push_choice_word<A: Allocator>(
    line: &mut Vec<u8, A>,
    field: Field,
    value: u32,
) -> Result<(), AllocError>
    ensures { OnOk result (line.new.items ≡ line.old.items ++ choice_word field value) }
{
    if field.has_decimals() {
        push_value_word(line, value)
    } else {
        push_number_word(line, u64::from(value))
    }
}

/// Appends values of a field, each behind a space.
fn push_choice_words<A: Allocator>(
    line: &mut Vec<u8, A>,
    field: Field,
    values: &[u32],
) -> Result<(), AllocError>
    ensures { OnOk result (line.new.items ≡ line.old.items ++ flat_map
        (choice_word field) values.now) }
{
    for value in values {
        push_choice_word(line, field, *value)?;
    }
    Ok(())
}

/// The line that tells which choice the panel may not have, and which values its field has.
fn choice_line<A: Allocator, P: Allocator>(
    alloc: A,
    profile: &Profile<P>,
    choice: Choice,
) -> Result<Vec<u8, A>, AllocError>
    ensures { IfOk result (λ line. line.items ≡ choice_line profile.now choice) }
{
    let mut line = Vec::new(alloc);
    line.extend_from_slice(b"error: --panel: PROFILE does not allow ")?;
    line.extend_from_slice(choice.field.key())?;
    push_choice_word(&mut line, choice.field, choice.value)?;
    line.extend_from_slice(b"; it allows")?;
    push_choice_words(&mut line, choice.field, profile.allowed(choice.field))?;
    line.push(b'\n')?;
    Ok(line)
}

/// Tells which choice the panel may not have, and which values its field has.
pub fn refuse_choice<E: Outlet, A: Allocator, P: Allocator>(
    alloc: A,
    profile: &Profile<P>,
    choice: Choice,
    stderr: &mut E,
) -> Status
    requires { IsFalse (E.state stderr.old).failed }
    ensures choice { TellsOfChoice result profile.now choice
        (E.state stderr.old) (E.state stderr.new) }
    ensures quiet { IsFalse (is_refused_choice result) → stderr.new ≡ stderr.old }
{
    let Ok(line) = choice_line(alloc, profile, choice) else {
        return Status::Stopped(Error::Memory);
    };
    // Where standard error takes nothing, the status alone is left to tell.
    let _ = write_text(stderr, line.as_slice());
    Status::NotAllowed(choice)
}
