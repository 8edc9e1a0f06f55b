//! The bytes with which files of other languages begin.
ghost use Rattle.std.specs.Prelude.{◌≡◌};
ghost use Rattle.notes.specs.Carriers.Past.{ends_document_word, ends_image_word, ends_other_word};
ghost use Rattle.notes.specs.Carriers.Past.{ends_photo_word, is_three, spells};
ghost use Rattle.notes.specs.ItemNotes.{is_byte};
ghost use Rattle.pcl_items.specs.Items.{view};

use crate::past::TextPrefix;
use pcl_items::Item;

/// Whether an item is this byte of text.
fn is_byte(item: &Item<'_>, code: u8) -> bool
    ensures { result ≡ is_byte code (view item.now) }
{
    match item {
        Item::Text(byte) => byte.code == code,
        _ => false,
    }
}

/// Whether the bytes of text before an item are these three.
fn is_three(front: TextPrefix, first: u8, second: u8, third: u8) -> bool
    ensures { result ≡ is_three first second third front }
{
    match front {
        TextPrefix::Three(a, b, c) => c == third && (b == second && a == first),
        _ => false,
    }
}

/// Whether an item is the last of these four bytes, and the others are the text before it.
fn spells(front: TextPrefix, item: &Item<'_>, first: u8, second: u8, third: u8, fourth: u8) -> bool
    ensures { result ≡ spells front (view item.now) first second third fourth }
{
    is_byte(item, fourth) && is_three(front, first, second, third)
}

/// Whether an item ends the word of PostScript, of PDF or of PCL XL.
fn ends_document_word(front: TextPrefix, item: &Item<'_>) -> bool
    ensures { result ≡ ends_document_word front (view item.now) }
{
    spells(front, item, b'%', b'!', b'P', b'S')
        || (spells(front, item, b'%', b'P', b'D', b'F')
            || spells(front, item, b')', b' ', b'H', b'P'))
}

/// Whether an item ends a word of JPEG: that of JFIF, of Exif, of Adobe, or of a table.
fn ends_photo_word(front: TextPrefix, item: &Item<'_>) -> bool
    ensures { result ≡ ends_photo_word front (view item.now) }
{
    spells(front, item, 0xFF, 0xD8, 0xFF, 0xE0)
        || (spells(front, item, 0xFF, 0xD8, 0xFF, 0xE1)
            || (spells(front, item, 0xFF, 0xD8, 0xFF, 0xEE)
                || spells(front, item, 0xFF, 0xD8, 0xFF, 0xDB)))
}

/// Whether an item ends the word of GIF, of PNG or of JPEG.
fn ends_image_word(front: TextPrefix, item: &Item<'_>) -> bool
    ensures { result ≡ ends_image_word front (view item.now) }
{
    spells(front, item, b'G', b'I', b'F', b'8')
        || (spells(front, item, 0x89, b'P', b'N', b'G') || ends_photo_word(front, item))
}

/// Whether an item ends a word with which files of another language begin.
pub(crate) fn ends_other_word(front: TextPrefix, item: &Item<'_>) -> bool
    ensures { result ≡ ends_other_word front (view item.now) }
{
    ends_document_word(front, item) || ends_image_word(front, item)
}
