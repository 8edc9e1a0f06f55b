//! Control codes, and escape sequences of two characters.

ghost use Rattle.std.specs.Prelude.{◌≡◌};
ghost use Rattle.std.specs.Option.{option_map};
ghost use Rattle.pcl_items.specs.Escapes.Codes.{control_at, sequence_at};
ghost use Rattle.pcl_items.specs.Items.{simple_view};

use crate::item::SimpleItem;

/// The item of a control code.
#[inline(always)]
pub fn control_at(code: u8) -> Option<SimpleItem>
    ensures { option_map simple_view result ≡ control_at code }
{
    match code {
        b'\n' => Some(SimpleItem::LineFeed),
        b'\x0c' => Some(SimpleItem::FormFeed),
        b'\r' => Some(SimpleItem::CarriageReturn),
        _ => None,
    }
}

/// The item of ESC and a character.
#[inline(always)]
pub fn sequence_at(character: u8) -> Option<SimpleItem>
    ensures { option_map simple_view result ≡ sequence_at character }
{
    match character {
        b'9' => Some(SimpleItem::ClearMargins),
        b'=' => Some(SimpleItem::HalfLineFeed),
        b'E' => Some(SimpleItem::Reset),
        _ => None,
    }
}
