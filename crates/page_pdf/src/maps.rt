//! Which characters the codes of a symbol set are, as a reader is told it.
ghost use Rattle.std.specs.Prelude.{◌≡◌, ◌≤◌, ◌++◌, OnOk};
ghost use Rattle.page_pdf.specs.Maps.{
  character_digits,
  character_number,
  entries_to,
  map_entry,
  map_object,
};

use crate::figures::push_code;
use crate::object_parts::ObjectPart;
use page_picture::{Repertoire, character_in};
use std::alloc::{AllocError, Allocator};

/// What a code stands for, or that it is not known.
fn character_number(repertoire: Repertoire, code: u8) -> u16
    ensures { result ≡ character_number repertoire code }
{
    character_in(Some(repertoire), code).unwrap_or(65_533)
}

/// Appends a character by four digits.
#[tactic(auto, unfolding(crate::specs::Maps::character_digits))]
fn push_digits<A: Allocator>(text: &mut Vec<u8, A>, character: u16) -> Result<(), AllocError>
    ensures { OnOk result (text.new.items ≡ text.old.items ++ character_digits character) }
{
    text.push(b'<')?;
    push_code(text, (character / 256) as u8)?;
    push_code(text, (character % 256) as u8)?;
    text.push(b'>')?;
    Ok(())
}

/// Appends what a code stands for.
#[tactic(auto, unfolding(crate::specs::Maps::map_entry))]
fn push_entry<A: Allocator>(
    text: &mut Vec<u8, A>,
    repertoire: Repertoire,
    code: u32,
) -> Result<(), AllocError>
    requires { code ≤ 255 }
    ensures { OnOk result (text.new.items ≡ text.old.items ++ map_entry repertoire code) }
{
    push_digits(text, character_number(repertoire, code as u8))
}

/// Appends what each of the first codes stands for.
#[tactic(auto, unfolding(crate::specs::Maps::entries_to), using(crate::proofs::Loops::entries_more))]
fn push_entries<A: Allocator>(
    text: &mut Vec<u8, A>,
    repertoire: Repertoire,
    count: u32,
) -> Result<(), AllocError>
    requires { count ≤ 256 }
    ensures { OnOk result (text.new.items ≡ text.old.items ++ entries_to repertoire count) }
{
    for code in 0..count {
        push_entry(text, repertoire, code)?;
    }
    Ok(())
}

/// Appends the map of a symbol set.
#[tactic(auto, unfolding(crate::specs::Maps::map_object))]
pub(crate) fn push_map<A: Allocator>(
    text: &mut Vec<u8, A>,
    repertoire: Repertoire,
) -> Result<(), AllocError>
    ensures { OnOk result (text.new.items ≡ text.old.items ++ map_object repertoire) }
{
    text.extend_from_slice(ObjectPart::MapStart.bytes())?;
    push_entries(text, repertoire, 256)?;
    text.extend_from_slice(ObjectPart::MapEnd.bytes())
}
