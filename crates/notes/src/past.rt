//! What is kept of the items before an item.
ghost use Rattle.std.specs.Prelude.{◌≡◌};
ghost use Rattle.notes.specs.Carriers.Past.{front_behind, front_with, no_past, past_behind};
ghost use Rattle.notes.specs.Carriers.Past.{spelled_behind, spelled_with};
ghost use Rattle.notes.specs.ItemNotes.{acts};
ghost use Rattle.page_env.specs.JobControl.{is_reset};
ghost use Rattle.pcl_items.specs.Items.{view};

use pcl_items::{Item, SimpleItem};

/// How much of `@PJL` the text before an item is, from where it begins.
#[derive(Clone, Copy, PartialEq, Eq)]
pub enum Spelled {
    /// No text stands next.
    Nothing,
    /// `@`
    At,
    /// `@P`
    AtP,
    /// `@PJ`
    AtPj,
    /// Other text, or more of it.
    Other,
}

/// The bytes of text before an item, from where text begins behind a reset, the universal exit or a
/// line of the job language, or at the beginning of the job.
#[derive(Clone, Copy, PartialEq, Eq)]
pub enum TextPrefix {
    /// Nothing stands there.
    NoText,
    One(u8),
    Two(u8, u8),
    Three(u8, u8, u8),
    /// More text, or something else that prints, moves or sets.
    More,
}

/// What is kept of the items before an item.
#[derive(Clone, Copy, PartialEq, Eq)]
pub struct Past {
    /// One is a reset, or the universal exit.
    pub has_reset: bool,
    /// Behind the last of these one prints, moves or sets.
    pub is_open: bool,
    pub spelled: Spelled,
    pub front: TextPrefix,
}

/// Whether an item is a reset: the universal exit is one, too.
fn is_reset(item: &Item<'_>) -> bool
    ensures { result ≡ is_reset (view item.now) }
{
    matches!(
        item,
        Item::Simple(SimpleItem::Reset | SimpleItem::ExitLanguage)
    )
}

/// Whether an item prints, moves or sets.
pub(crate) fn acts(item: &Item<'_>) -> bool
    ensures { result ≡ acts (view item.now) }
{
    !matches!(item, Item::PjlLine(_)) && !is_reset(item)
}

/// How much of `@PJL` stands behind a byte of text.
fn spelled_with(spelled: Spelled, code: u8) -> Spelled
    ensures { result ≡ spelled_with spelled code }
{
    match spelled {
        Spelled::Nothing if code == b'@' => Spelled::At,
        Spelled::At if code == b'P' => Spelled::AtP,
        Spelled::AtP if code == b'J' => Spelled::AtPj,
        _ => Spelled::Other,
    }
}

/// How much of `@PJL` stands behind an item.
fn spelled_behind(spelled: Spelled, item: &Item<'_>) -> Spelled
    ensures { result ≡ spelled_behind spelled (view item.now) }
{
    match item {
        Item::Text(byte) => spelled_with(spelled, byte.code),
        _ => Spelled::Nothing,
    }
}

/// The bytes of text behind one more.
fn front_with(front: TextPrefix, code: u8) -> TextPrefix
    ensures { result ≡ front_with front code }
{
    match front {
        TextPrefix::NoText => TextPrefix::One(code),
        TextPrefix::One(first) => TextPrefix::Two(first, code),
        TextPrefix::Two(first, second) => TextPrefix::Three(first, second, code),
        TextPrefix::Three(_, _, _) | TextPrefix::More => TextPrefix::More,
    }
}

/// The bytes of text behind an item.
fn front_behind(front: TextPrefix, item: &Item<'_>) -> TextPrefix
    ensures { result ≡ front_behind front (view item.now) }
{
    match item {
        Item::Text(byte) => front_with(front, byte.code),
        Item::Simple(SimpleItem::Reset | SimpleItem::ExitLanguage) => TextPrefix::NoText,
        Item::PjlLine(_) => TextPrefix::NoText,
        _ => TextPrefix::More,
    }
}

impl Past {
    /// Before the first item.
    pub(crate) fn none() -> Past
        ensures { result ≡ no_past }
    {
        Past {
            has_reset: false,
            is_open: false,
            spelled: Spelled::Nothing,
            front: TextPrefix::NoText,
        }
    }

    /// Behind one more item.
    pub(crate) fn behind(self, item: &Item<'_>) -> Past
        ensures { result ≡ past_behind self (view item.now) }
    {
        let resets = is_reset(item);
        Past {
            has_reset: resets || self.has_reset,
            is_open: !resets && (self.is_open || acts(item)),
            spelled: spelled_behind(self.spelled, item),
            front: front_behind(self.front, item),
        }
    }
}
