//! The rules of a profile's lines, in words.
ghost use Rattle.std.specs.Prelude.{◌≡◌, ◌++◌, OnOk};
ghost use Rattle.profile_lint.specs.Rules.{broken_rule, command_of, command_words, field_like};
ghost use Rattle.profile_lint.specs.Rules.{key_rule, kinds_of_values, meaning_of, once_rule};
ghost use Rattle.profile_lint.specs.Rules.{value_rule};

use device_profile::{Cause, Field, Key};
use std::alloc::{AllocError, Allocator};

/// Appends the rule that a line breaks.
pub(crate) fn push_broken_rule<A: Allocator>(
    out: &mut Vec<u8, A>,
    key: Option<Key>,
    cause: Cause,
) -> Result<(), AllocError>
    ensures { OnOk result (out.new.items ≡ out.old.items ++ broken_rule key cause) }
{
    match (key, cause) {
        (None, _) => out.extend_from_slice(KEY_RULE),
        (Some(key), Cause::Repeated) => out.extend_from_slice(once_rule(key)),
        (Some(key), _) => push_value_rule(out, key),
    }
}

/// Which keys there are.
const KEY_RULE: &[u8] = b"\
its first word is no key; the keys are name, size, orientation, vmi, font, copies, \
sides, tray, trays, duplex, depth, memory, geometry and face, and lineterm in \
version 2";

/// What a key tells.
pub(crate) fn meaning_of(key: Key) -> &'static [u8]
    ensures { result.now ≡ meaning_of key }
{
    match key {
        Key::Name => b"the printer's name",
        Key::Choice(field) => meaning_of_field(field),
        Key::Trays => b"the trays that the device has",
        Key::Duplex => b"whether the device prints on both sides",
        Key::Depth => b"how many levels of macros may run",
        Key::Memory => b"how many bytes the macros may have together",
        Key::Page => b"the pages",
        Key::Face => b"the resident faces",
    }
}

/// What the key of a field tells.
fn meaning_of_field(field: Field) -> &'static [u8]
    ensures { result.now ≡ meaning_of (Key.Choice field) }
{
    match field {
        Field::Size => b"the page sizes that the panel may have",
        Field::Orientation => b"the orientations that the panel may have",
        Field::Vmi => b"the vertical motion indexes that the panel may have",
        Field::Font => b"the ids of the faces that the panel may have",
        Field::Copies => b"the numbers of copies that the panel may have",
        Field::Sides => b"the sides that the panel may have",
        Field::Tray => b"the trays from which the panel may take paper",
        Field::LineTerm => b"the line terminations that the panel may have",
    }
}

/// The command by which a job sets a field.
pub(crate) fn command_of(field: Field) -> &'static [u8]
    ensures { result.now ≡ command_of field }
{
    match field {
        Field::Size => b"ESC &l#A",
        Field::Orientation => b"ESC &l#O",
        Field::Vmi => b"ESC &l#C",
        Field::Font => b"ESC (#X",
        Field::Copies => b"ESC &l#X",
        Field::Sides => b"ESC &l#S",
        Field::Tray => b"ESC &l#H",
        Field::LineTerm => b"ESC &k#G",
    }
}

/// Appends what the words behind a key are.
fn push_value_rule<A: Allocator>(out: &mut Vec<u8, A>, key: Key) -> Result<(), AllocError>
    ensures { OnOk result (out.new.items ≡ out.old.items ++ value_rule key) }
{
    out.extend_from_slice(kinds_of_values(key))?;
    push_command_words(out, field_like(key))
}

/// Appends that the command of a field has the same values, where there is such a field.
#[tactic(auto, unfolding(crate::specs::Rules::command_words))]
fn push_command_words<A: Allocator>(
    out: &mut Vec<u8, A>,
    field: Option<Field>,
) -> Result<(), AllocError>
    ensures { OnOk result (out.new.items ≡ out.old.items ++ command_words field) }
{
    match field {
        None => Ok(()),
        Some(field) => {
            out.extend_from_slice(b", as ")?;
            out.extend_from_slice(command_of(field))?;
            out.extend_from_slice(b" has them")
        }
    }
}

/// The field whose command has the values of a key as they stand in its line.
#[tactic(auto, unfolding(crate::specs::Rules::field_like))]
fn field_like(key: Key) -> Option<Field>
    ensures { result ≡ field_like key }
{
    match key {
        Key::Choice(field) => own_field(field),
        Key::Trays => Some(Field::Tray),
        _ => None,
    }
}

/// The field itself, where its command has its values as they stand in its line.
#[tactic(auto, unfolding(crate::specs::Rules::field_like))]
fn own_field(field: Field) -> Option<Field>
    ensures { result ≡ field_like (Key.Choice field) }
{
    match field {
        Field::Vmi | Field::Font | Field::Copies => None,
        _ => Some(field),
    }
}

/// What values the words behind a key are.
#[tactic(auto, unfolding(crate::specs::Rules::kinds_of_values))]
fn kinds_of_values(key: Key) -> &'static [u8]
    ensures { result.now ≡ kinds_of_values key }
{
    match key {
        Key::Name => b"a name is one word of 1 to 32 bytes, each from ! to ~",
        Key::Choice(field) => kinds_of_field(field),
        Key::Trays => b"trays are 1 to 16 whole numbers from 1 to 255",
        Key::Duplex => b"duplex is 0, or 1 where the device prints on both sides",
        Key::Depth => b"the depth is one whole number from 0 to 8",
        Key::Memory => b"the memory is one whole number of bytes from 0 to 1048576",
        Key::Page => b"\
            a page has 12 numbers: its size from 1 to 999, its orientation from 0 to 3 and, in \
            1/7200 inch up to 720000, its width and height, the logical page's left, top, width \
            and height, and the printable area's left, top, right and bottom; both areas lie in \
            the page, the logical page is 7200 high or more, the printable area is not empty, \
            and there are at most 64 pages",
        Key::Face => b"\
            a face has 11 words: its id from 1 to 255, symbol set, pitch, height, style, weight \
            and typeface, advance from 1 to 50400, ascent and descent up to 720000 in 1/7200 \
            inch, and ranges of codes that rise, as 33-126,161-254; there are at most 64 faces",
    }
}

/// What values a field has.
#[tactic(auto, unfolding(crate::specs::Rules::kinds_of_values))]
fn kinds_of_field(field: Field) -> &'static [u8]
    ensures { result.now ≡ kinds_of_values (Key.Choice field) }
{
    match field {
        Field::Size => b"sizes are 1 to 16 whole numbers from 1 to 999",
        Field::Orientation => b"orientations are whole numbers from 0 to 3",
        Field::Vmi => b"\
            vertical motion indexes are 1 to 16 numbers from 0 to 335 in 1/48 inch, with at most \
            four decimals",
        Field::Font => b"fonts are 1 to 16 ids of faces, each from 1 to 255",
        Field::Copies => b"copies are 1 to 16 whole numbers from 1 to 32767",
        Field::Sides => b"sides are whole numbers from 0 to 2",
        Field::Tray => b"trays are 1 to 16 whole numbers from 1 to 255",
        Field::LineTerm => b"line terminations are whole numbers from 0 to 3",
    }
}

/// What comes once.
fn once_rule(key: Key) -> &'static [u8]
    ensures { result.now ≡ once_rule key }
{
    match key {
        Key::Name | Key::Duplex | Key::Depth | Key::Memory => b"the key comes once",
        Key::Choice(_) | Key::Trays => b"the key comes once, and each of its values once",
        Key::Page => b"this pair of size and orientation came before",
        Key::Face => b"\
            this id, or all of symbol set, pitch, height, style, weight and typeface, came \
            before",
    }
}
