//! The keys of a profile's text.
ghost use Rattle.std.specs.Prelude.{◌≡◌, find};
ghost use Rattle.std.specs.Str.{bytes_eq};
ghost use Rattle.device_profile.specs.Key.{key_word};

use crate::field::Field;
use crate::format::Format;

/// What a line of a profile's text tells of.
#[derive(Clone, Copy, PartialEq, Eq)]
pub enum Key {
    /// The printer's name.
    Name,
    /// The values that the panel may have in a field.
    Choice(Field),
    /// The trays that the device has.
    Trays,
    /// Whether the device prints on both sides.
    Duplex,
    /// How many levels of macros may run.
    Depth,
    /// How many bytes the macros may have together.
    Memory,
    /// A page.
    Page,
    /// A resident face.
    Face,
}

impl Key {
    ghost use Rattle.device_profile.specs.Draft.{is_key_in, key_of};

    /// All keys, in the order in which those that no line gives are told.
    pub const ALL: [Key; 15] = [
        Key::Name,
        Key::Choice(Field::Size),
        Key::Choice(Field::Orientation),
        Key::Choice(Field::Vmi),
        Key::Choice(Field::Font),
        Key::Choice(Field::Copies),
        Key::Choice(Field::Sides),
        Key::Choice(Field::Tray),
        Key::Choice(Field::LineTerm),
        Key::Trays,
        Key::Duplex,
        Key::Depth,
        Key::Memory,
        Key::Page,
        Key::Face,
    ];

    /// The word that a line of this key begins with.
    pub fn word(self) -> &'static [u8]
        ensures { result.now ≡ key_word self }
    {
        match self {
            Key::Name => b"name",
            Key::Choice(field) => field.key(),
            Key::Trays => b"trays",
            Key::Duplex => b"duplex",
            Key::Depth => b"depth",
            Key::Memory => b"memory",
            Key::Page => b"geometry",
            Key::Face => b"face",
        }
    }

    /// Whether texts of this version have the key.
    fn is_in(self, format: Format) -> bool
        ensures { result ≡ is_key_in format self }
    {
        format == Format::Two || self != Key::Choice(Field::LineTerm)
    }

    /// The key that a word is in texts of this version.
    #[tactic(auto, unfolding(crate::specs::Draft::key_of))]
    pub fn of(format: Format, word: &[u8]) -> Option<Key>
        ensures { result ≡ key_of format word.now }
    {
        match first_key(&Key::ALL, word) {
            Some(key) if key.is_in(format) => Some(key),
            _ => None,
        }
    }
}

/// The first of these keys whose word this is.
fn first_key(keys: &[Key], word: &[u8]) -> Option<Key>
    ensures { result ≡ find (λ key. bytes_eq (key_word key) word.now) keys.now }
{
    keys.iter().copied().find(|key| key.word() == word)
}
