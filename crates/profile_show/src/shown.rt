//! What is shown of a profile.
ghost use Rattle.std.specs.Prelude.{◌≡◌, ◌++◌, IfOk, OnOk};
ghost use Rattle.profile_show.specs.Shown.{
  device_lines,
  macros_line,
  name_line,
  shown_profile,
  sides_held,
  sides_line,
  tray_words,
  trays_line,
};

use crate::faces::push_faces;
use crate::figures::push_counted;
use crate::pages::push_pages;
use crate::panel::push_panel;
use device_profile::Profile;
use shown_bytes::push_number;
use std::alloc::{AllocError, Allocator};

/// A text of lines that tells people what a profile says: its name; what the panel may have in each
/// field; what the device has; the pages in millimetres, inches and dots of 1/300 inch; and the
/// faces by typeface and symbol set.
///
/// The name is given apart, since a profile does not keep it. An error means that the allocator
/// refused a request.
#[tactic(auto, unfolding(crate::specs::Shown::shown_profile))]
pub fn profile_text<A: Allocator, P: Allocator>(
    alloc: A,
    name: &[u8],
    profile: &Profile<P>,
) -> Result<Vec<u8, A>, AllocError>
    ensures { IfOk result (λ text. text.items ≡ shown_profile name.now profile.now) }
{
    let mut text = Vec::new(alloc);
    push_name(&mut text, name)?;
    push_panel(&mut text, profile)?;
    push_device(&mut text, profile)?;
    push_pages(&mut text, profile)?;
    push_faces(&mut text, profile)?;
    Ok(text)
}

/// Appends the line of the name.
#[tactic(auto, unfolding(crate::specs::Shown::name_line))]
fn push_name<A: Allocator>(text: &mut Vec<u8, A>, name: &[u8]) -> Result<(), AllocError>
    ensures { OnOk result (text.new.items ≡ text.old.items ++ name_line name.now) }
{
    text.extend_from_slice(b"name: ")?;
    text.extend_from_slice(name)?;
    text.extend_from_slice(b"\n")
}

/// Appends what the device has.
#[tactic(auto, unfolding(crate::specs::Shown::device_lines))]
fn push_device<A: Allocator, P: Allocator>(
    text: &mut Vec<u8, A>,
    profile: &Profile<P>,
) -> Result<(), AllocError>
    ensures { OnOk result (text.new.items ≡ text.old.items ++ device_lines profile.now) }
{
    text.extend_from_slice(b"device:\n")?;
    push_trays_line(text, profile.device_trays())?;
    push_sides_line(text, profile.has_duplex())?;
    push_macros_line(text, profile.depth(), profile.memory())
}

/// Appends the line of the trays.
#[tactic(auto, unfolding(crate::specs::Shown::trays_line))]
fn push_trays_line<A: Allocator>(text: &mut Vec<u8, A>, trays: &[u32]) -> Result<(), AllocError>
    ensures { OnOk result (text.new.items ≡ text.old.items ++ trays_line trays.now) }
{
    text.extend_from_slice(b"  trays:")?;
    push_trays(text, trays)?;
    text.extend_from_slice(b"\n")
}

/// Appends trays, each behind a space.
fn push_trays<A: Allocator>(text: &mut Vec<u8, A>, trays: &[u32]) -> Result<(), AllocError>
    ensures { OnOk result (text.new.items ≡ text.old.items ++ tray_words trays.now) }
{
    for tray in trays {
        text.extend_from_slice(b" ")?;
        push_number(text, u64::from(*tray))?;
    }
    Ok(())
}

/// Appends the line of the sides that can be printed on.
#[tactic(auto, unfolding(crate::specs::Shown::sides_line))]
fn push_sides_line<A: Allocator>(text: &mut Vec<u8, A>, has_duplex: bool) -> Result<(), AllocError>
    ensures { OnOk result (text.new.items ≡ text.old.items ++ sides_line has_duplex) }
{
    text.extend_from_slice(b"  sides: ")?;
    text.extend_from_slice(sides_held(has_duplex))?;
    text.extend_from_slice(b"\n")
}

/// Whether the device prints on one side or on both.
fn sides_held(has_duplex: bool) -> &'static [u8]
    ensures { result.now ≡ sides_held has_duplex }
{
    if has_duplex { b"both" } else { b"one" }
}

/// Appends how many levels of macros may run, and how much memory they may take, in bytes.
#[tactic(auto, unfolding(crate::specs::Shown::macros_line))]
fn push_macros_line<A: Allocator>(
    text: &mut Vec<u8, A>,
    depth: u32,
    memory: u32,
) -> Result<(), AllocError>
    ensures { OnOk result (text.new.items ≡ text.old.items ++ macros_line depth memory) }
{
    text.extend_from_slice(b"  macros: ")?;
    push_counted(text, u64::from(depth), b"level")?;
    text.extend_from_slice(b", ")?;
    push_counted(text, u64::from(memory), b"byte")?;
    text.extend_from_slice(b"\n")
}
