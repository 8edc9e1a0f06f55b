//! The parts of a text on a command, and the name of a command by its key.
ghost use Rattle.std.specs.Prelude.{◌≡◌, ◌==◌, ◌<◌, map, option_map};
ghost use Rattle.std.specs.List.{after_first, before_first};
ghost use Rattle.std.specs.Str.{bytes_eq};
ghost use Rattle.command_names.specs.CommandNames.{
  begins_before_bracket,
  command_name,
  head_of,
  is_of_command,
  key_of,
  name_of,
  named_by,
  text_by,
  texts_in,
};

use crate::chapters::{CHAPTERS, Chapter};

/// The name of a command by its key, as a fault names it in brackets; nothing where the manual has
/// none: `page length (&l#P)` of `&lP`.
#[tactic(auto, unfolding(crate::specs::CommandNames::table))]
pub fn command_name(key: &[u8]) -> &'static str
    ensures { result.now ≡ command_name key.now }
{
    named_in(key, &CHAPTERS)
}

/// The name of the first command in these chapters that has a key, and nothing where none has it.
fn named_in(key: &[u8], chapters: &[Chapter]) -> &'static str
    ensures { result.now ≡ named_by key.now (texts_in chapters.now) }
{
    for chapter in chapters {
        if let Some(text) = text_by(key, chapter.texts()) {
            return name_of(text);
        }
    }
    ""
}

/// The first of these texts that is on the command of a key.
fn text_by<'t>(key: &[u8], texts: &[&'t str]) -> Option<&'t str>
    ensures { option_map (λ text. text.now) result
        ≡ text_by key.now (map (λ text. text.now) texts.now) }
{
    for text in texts {
        if has_key(key, text) {
            return Some(text);
        }
    }
    None
}

/// Whether a text is on the command of a key.
fn has_key(key: &[u8], text: &str) -> bool
    ensures { result ≡ bytes_eq (key_of text.now) key.now }
{
    let (own, _) = cut(text, ' ');
    own.as_bytes() == key
}

/// The name of the command that a text is on, with its spelling in brackets.
pub fn name_of(text: &str) -> &str
    ensures { result.now ≡ name_of text.now }
{
    let (_, rest) = cut(text, ' ');
    let (name, _) = cut(rest, ':');
    name
}

/// The first line of a text, without its end.
pub fn head_of(text: &str) -> &str
    ensures { result.now ≡ head_of text.now }
{
    let (head, _) = cut(text, '\n');
    head
}

/// Whether a code is the key of the command that a text is on, its spelling, or its name in any
/// letter case.
pub fn is_of_command(code: &str, text: &str) -> bool
    ensures { result ≡ is_of_command code.now text.now }
{
    let (key, _) = cut(text, ' ');
    let name = name_of(text);
    let (_, spelling) = cut(name, '(');
    key == code || begins_before_bracket(spelling, code) || name.eq_ignore_ascii_case(code)
}

/// Whether a code is what stands before the bracket that ends a spelling.
fn begins_before_bracket(spelling: &str, code: &str) -> bool
    ensures { result ≡ begins_before_bracket spelling.now code.now }
{
    spelling.len() == code.len() + 1 && spelling.as_bytes().starts_with(code.as_bytes())
}

/// What stands before the first such character, and behind it; where there is none, all and
/// nothing.
fn cut(text: &str, character: char) -> (&str, &str)
    requires { character < 128 }
    ensures before { result.0.now ≡ before_first (λ byte. byte == character) text.now }
    ensures after { result.1.now ≡ after_first (λ byte. byte == character) text.now }
{
    text.split_once(character).unwrap_or((text, ""))
}
