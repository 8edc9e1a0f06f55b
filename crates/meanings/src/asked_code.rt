//! The code that the command `explain` is asked for, as people copy it.
ghost use Rattle.std.specs.Prelude.{◌≡◌, ◌==◌, ◌<◌, option_map};
ghost use Rattle.std.specs.Char.{is_ascii_alphabetic, is_ascii_digit};
ghost use Rattle.std.specs.List.{after_first, before_first, list_all};
ghost use Rattle.meanings.specs.AskedCode.{behind_escape, code_meant, is_group, is_introducer};
ghost use Rattle.meanings.specs.AskedCode.{is_letter, is_of_number, name_by_group, name_in_group};
ghost use Rattle.meanings.specs.AskedCode.{name_in_job, name_or, name_with_value};
ghost use Rattle.meanings.specs.AskedCode.{name_without_group, without_brackets, without_number};

use command_names::command_name;

/// The code that a word is, where there is one.
pub(crate) fn code_of_word(word: Option<&str>) -> Option<&str>
    ensures { option_map (λ code. code.now) result
        ≡ option_map code_meant (option_map (λ word. word.now) word.entry) }
{
    word.map(code_meant)
}

/// The code of a word, which may be copied from a line of a check: of `ERROR items` it is a number.
/// Of a command as it stands in a job, or in a survey, it is the name.
#[tactic(auto, unfolding(crate::specs::AskedCode::code_meant))]
fn code_meant(word: &str) -> &str
    ensures { result.now ≡ code_meant word.now }
{
    if word == "items" {
        return "36";
    }
    let name = name_in_job(behind_escape(word.as_bytes()));
    name_or(name, without_brackets(without_number(word)))
}

/// The name of a finding without the number that a line of a check has before it; other words as
/// they are.
fn without_number(word: &str) -> &str
    ensures { result.now ≡ without_number word.now }
{
    let (number, name) = cut(word, ' ');
    if !number.is_empty() && are_digits(number.as_bytes()) && number.len() < word.len() {
        name
    } else {
        word
    }
}

/// Whether a text has nothing but digits.
fn are_digits(text: &[u8]) -> bool
    ensures { result ≡ list_all is_ascii_digit text.now }
{
    text.iter().all(|byte| byte.is_ascii_digit())
}

/// The name of a finding without what a line of a check has behind it in brackets; other words as
/// they are.
fn without_brackets(word: &str) -> &str
    ensures { result.now ≡ without_brackets word.now }
{
    let (name, rest) = cut(word, '(');
    if !name.is_empty() && are_letters(name.as_bytes()) && rest.as_bytes().ends_with(b")") {
        name
    } else {
        word
    }
}

/// Whether a text has nothing but letters.
fn are_letters(text: &[u8]) -> bool
    ensures { result ≡ list_all is_ascii_alphabetic text.now }
{
    text.iter().all(|byte| byte.is_ascii_alphabetic())
}

/// What stands before the first such character, and behind it; where there is none, all and
/// nothing.
pub(crate) fn cut(text: &str, character: char) -> (&str, &str)
    requires { character < 128 }
    ensures before { result.0.now ≡ before_first (λ byte. byte == character) text.now }
    ensures after { result.1.now ≡ after_first (λ byte. byte == character) text.now }
{
    text.split_once(character).unwrap_or((text, ""))
}

// ---- commands as they stand in jobs

/// Bytes behind ESC, as a survey and a list spell it; others as they are.
fn behind_escape(word: &[u8]) -> &[u8]
    ensures { result.now ≡ behind_escape word.now }
{
    if word.starts_with(b"ESC ") || word.starts_with(b"\\x1b") {
        &word[4..]
    } else {
        word
    }
}

/// The name of the command that bytes of a job spell behind ESC, its letter in either case, or
/// that of its group; nothing where they spell none. `#` may stand for the number.
fn name_in_job(bytes: &[u8]) -> &'static str
    ensures { result.now ≡ name_in_job bytes.now }
{
    let [introducer, behind @ ..] = bytes else {
        return "";
    };
    let [field @ .., letter] = behind else {
        return "";
    };
    if !is_introducer(*introducer) || !is_letter(*letter) {
        return "";
    }
    let letter = letter.to_ascii_uppercase();
    let own = name_with_value(*introducer, field, letter);
    name_or(own, name_by_group(*introducer, field, letter))
}

/// The name that a command has with a value of one figure, or of two.
fn name_with_value(introducer: u8, field: &[u8], letter: u8) -> &'static str
    ensures { result.now ≡ name_with_value introducer field.now letter }
{
    match field {
        [group, figure] => command_name(&[introducer, *group, *figure, letter]),
        [group, first, second] => { command_name(&[introducer, *group, *first, *second, letter]) }
        _ => "",
    }
}

/// The name of a command by whether what stands between its introducer and its letter begins with
/// a group character.
fn name_by_group(introducer: u8, field: &[u8], letter: u8) -> &'static str
    ensures { result.now ≡ name_by_group introducer field.now letter }
{
    match field {
        [group, value @ ..] if is_group(*group) => {
            name_in_group(introducer, *group, value, letter)
        }
        _ => name_without_group(introducer, field, letter),
    }
}

fn name_in_group(introducer: u8, group: u8, value: &[u8], letter: u8) -> &'static str
    ensures { result.now ≡ name_in_group introducer group value.now letter }
{
    if !is_number(value) {
        return "";
    }
    let of_introducer = command_name(&[introducer]);
    let of_group = name_or(command_name(&[introducer, group]), of_introducer);
    name_or(command_name(&[introducer, group, letter]), of_group)
}

/// The same without a group character: of a value and a letter that have no name a symbol set is
/// meant, or what the introducer is of.
fn name_without_group(introducer: u8, value: &[u8], letter: u8) -> &'static str
    ensures { result.now ≡ name_without_group introducer value.now letter }
{
    if !is_number(value) {
        return "";
    }
    let own = command_name(&[introducer, letter]);
    if value.is_empty() {
        return own;
    }
    let of_introducer = command_name(&[introducer]);
    name_or(
        own,
        name_or(command_name(&[introducer, b'#']), of_introducer),
    )
}

/// A name, or another where that is empty.
fn name_or<'a>(name: &'a str, other: &'a str) -> &'a str
    ensures { result.now ≡ name_or name.now other.now }
{
    if name.is_empty() { other } else { name }
}

fn is_introducer(byte: u8) -> bool
    ensures { result ≡ is_introducer byte }
{
    matches!(byte, b'!'..=b'/')
}

fn is_group(byte: u8) -> bool
    ensures { result ≡ is_group byte }
{
    matches!(byte, b'`'..=b'~')
}

fn is_letter(byte: u8) -> bool
    ensures { result ≡ is_letter byte }
{
    matches!(byte, b'@'..=b'^' | b'`'..=b'~')
}

/// Whether bytes are those of a number, or stand for one.
fn is_number(bytes: &[u8]) -> bool
    ensures { result ≡ list_all is_of_number bytes.now }
{
    bytes.iter().all(|byte| is_of_number(*byte))
}

fn is_of_number(byte: u8) -> bool
    ensures { result ≡ is_of_number byte }
{
    matches!(byte, b'0'..=b'9' | b'+' | b'-' | b'.' | b'#')
}
