//! The item that a job fails at, in words.
ghost use Rattle.std.specs.Prelude.{◌≡◌, ◌++◌, OnOk, flat_map};
ghost use Rattle.pcl_items.specs.Spellings.Canon.{canon};
ghost use Rattle.pcl_items.specs.Items.{simple_view};
ghost use Rattle.judgement.specs.declared.failing_item.FailingItem.TheVariants.{WithData};
ghost use Rattle.job_reports.specs.CommandWords.{
  code_words,
  command_words,
  font_commands,
  look_words,
  setting_words,
  weight_words,
};

use device_profile::FontRequest;
use judgement::FailingItem;
use line_words::push_escaped;
use pcl_items::{DataCommand, Item, SimpleItem};
use pcl_spelling::spell;
use shown_bytes::{push_amount, push_lettered, push_minus, push_number};
use std::alloc::{AllocError, Allocator};

/// Appends an item in its canonical spelling, but without data; of a line of the job language only
/// how it begins. ESC and the control codes stand by their names.
pub fn push_command_words<A: Allocator + Copy>(
    alloc: A,
    words: &mut Vec<u8, A>,
    failing_item: FailingItem,
) -> Result<(), AllocError>
    ensures { OnOk result (words.new.items ≡ words.old.items ++ command_words failing_item) }
{
    match failing_item {
        FailingItem::Text(code) => {
            words.extend_from_slice(b"character ")?;
            push_escaped(words, &[code])
        }
        FailingItem::Simple(item) => push_simple(alloc, words, item),
        FailingItem::WithData(command, count) => push_counting(words, command, count),
        FailingItem::Line => words.extend_from_slice(b"@PJL"),
    }
}

/// Appends an item that has no data.
fn push_simple<A: Allocator + Copy>(
    alloc: A,
    words: &mut Vec<u8, A>,
    item: SimpleItem,
) -> Result<(), AllocError>
    ensures { OnOk result (words.new.items ≡ words.old.items ++
        flat_map code_words (canon (simple_view item))) }
{
    let mut spelling = Vec::new(alloc);
    spell(&Item::Simple(item), &mut spelling)?;
    push_codes(words, spelling.as_slice())
}

/// Appends a command that counts its data, without these.
fn push_counting<A: Allocator>(
    words: &mut Vec<u8, A>,
    command: DataCommand,
    count: usize,
) -> Result<(), AllocError>
    ensures { OnOk result (words.new.items ≡ words.old.items ++
        command_words (WithData command count)) }
{
    let group = command.group();
    words.extend_from_slice(b"ESC ")?;
    words.extend_from_slice(&[group.introducer(), group.character()])?;
    push_number(words, count as u64)?;
    words.extend_from_slice(&[command.letter()])
}

/// Appends the bytes of a spelling.
fn push_codes<A: Allocator>(words: &mut Vec<u8, A>, bytes: &[u8]) -> Result<(), AllocError>
    ensures { OnOk result (words.new.items ≡ words.old.items ++ flat_map code_words bytes.now) }
{
    for byte in bytes {
        push_code(words, *byte)?;
    }
    Ok(())
}

/// Appends a byte of a spelling: a control code by its name.
fn push_code<A: Allocator>(words: &mut Vec<u8, A>, byte: u8) -> Result<(), AllocError>
    ensures { OnOk result (words.new.items ≡ words.old.items ++ code_words byte) }
{
    match byte {
        b'\x1b' => words.extend_from_slice(b"ESC "),
        b'\r' => words.extend_from_slice(b"CR"),
        b'\n' => words.extend_from_slice(b"LF"),
        b'\x0c' => words.extend_from_slice(b"FF"),
        _ => push_escaped(words, &[byte]),
    }
}

// ---- the commands that ask for a font

/// Appends the commands that ask for a font, in all seven parts.
#[tactic(auto, unfolding(crate::specs::CommandWords::font_commands))]
pub fn push_font_commands<A: Allocator>(
    words: &mut Vec<u8, A>,
    font: &FontRequest,
) -> Result<(), AllocError>
    ensures { OnOk result (words.new.items ≡ words.old.items ++ font_commands font.now) }
{
    words.extend_from_slice(b"ESC (")?;
    push_lettered(words, font.symbol_set.number, font.symbol_set.letter)?;
    words.extend_from_slice(b" ESC (s")?;
    push_setting(words, font)?;
    push_look(words, font)
}

/// Appends how a font is set: its spacing, pitch and height.
#[tactic(auto, unfolding(crate::specs::CommandWords::setting_words))]
fn push_setting<A: Allocator>(words: &mut Vec<u8, A>, font: &FontRequest) -> Result<(), AllocError>
    ensures { OnOk result (words.new.items ≡ words.old.items ++ setting_words font.now) }
{
    push_amount(words, u64::from(font.spacing))?;
    words.extend_from_slice(b"p")?;
    push_amount(words, u64::from(font.pitch))?;
    words.extend_from_slice(b"h")?;
    push_amount(words, u64::from(font.height))?;
    words.extend_from_slice(b"v")
}

/// Appends a stroke weight.
#[tactic(auto, unfolding(crate::specs::CommandWords::weight_words))]
fn push_weight<A: Allocator>(words: &mut Vec<u8, A>, weight: i32) -> Result<(), AllocError>
    ensures { OnOk result (words.new.items ≡ words.old.items ++ weight_words weight) }
{
    push_minus(words, weight)?;
    push_amount(words, u64::from(weight.unsigned_abs()))?;
    words.extend_from_slice(b"b")
}

/// Appends how a font looks: its style, stroke weight and typeface.
#[tactic(auto, unfolding(crate::specs::CommandWords::look_words))]
fn push_look<A: Allocator>(words: &mut Vec<u8, A>, font: &FontRequest) -> Result<(), AllocError>
    ensures { OnOk result (words.new.items ≡ words.old.items ++ look_words font.now) }
{
    push_amount(words, u64::from(font.style))?;
    words.extend_from_slice(b"s")?;
    push_weight(words, font.weight)?;
    push_amount(words, u64::from(font.typeface))?;
    words.extend_from_slice(b"T")
}
