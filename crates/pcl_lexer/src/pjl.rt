//! The printer job language: the lines of mode PJL, read.
//!
//! A line is `@PJL`, a command and its options, in the words of HP's Printer Job Language Technical
//! Reference Manual.

ghost use Rattle.std.specs.Prelude.{◌≡◌, ◌≤◌, length, Some};
ghost use Rattle.std.specs.List.{prefix_len};
ghost use Rattle.std.specs.Option.{option_map};
ghost use Rattle.pcl_items.specs.PjlLines.Text.{is_blank, is_solid, is_name_byte, is_quotable};
ghost use Rattle.pcl_items.specs.PjlLines.Text.{language, pcl};
ghost use Rattle.pcl_items.specs.PjlLines.Reader.{front, past, trimmed, is_word, past_byte};
ghost use Rattle.pcl_items.specs.PjlLines.Reader.{past_equals, past_value, is_name, past_part};
ghost use Rattle.pcl_items.specs.PjlLines.Reader.{parts_behind, are_parts, is_language, word_at};
ghost use Rattle.pcl_items.specs.PjlLines.Reader.{with_text, in_words, pjl_command_of};
ghost use Rattle.pcl_items.specs.PjlLines.View.{pjl_view};

pub(crate) mod first;

use pcl_items::{PjlCommand, Word, capital};

/// Whether the byte is a blank: a tab, a carriage return or a space.
fn is_blank(byte: u8) -> bool
    ensures { result ≡ is_blank byte }
{
    byte == b'\t' || byte == b'\r' || byte == b' '
}

/// How many bytes in front are no blanks.
fn solid_len(bytes: &[u8]) -> usize
    ensures length { result ≡ prefix_len is_solid bytes.now }
    ensures within { result ≤ length bytes.now }
{
    bytes.iter().take_while(|b| !is_blank(**b)).count()
}

/// Whether the byte may stand in the name of an option, which a blank or `=` ends.
fn is_name_byte(byte: u8) -> bool
    ensures { result ≡ is_name_byte byte }
{
    !(is_blank(byte) || byte == b'=')
}

/// How many bytes in front may stand in the name of an option.
fn name_len(bytes: &[u8]) -> usize
    ensures length { result ≡ prefix_len is_name_byte bytes.now }
    ensures within { result ≤ length bytes.now }
{
    bytes.iter().take_while(|b| is_name_byte(**b)).count()
}

/// How many bytes in front may stand between quotation marks.
fn quotable_len(bytes: &[u8]) -> usize
    ensures length { result ≡ prefix_len is_quotable bytes.now }
    ensures within { result ≤ length bytes.now }
{
    bytes.iter().take_while(|b| **b != b'"').count()
}

/// How many bytes in front are blanks.
fn blanks_len(bytes: &[u8]) -> usize
    ensures length { result ≡ prefix_len is_blank bytes.now }
    ensures within { result ≤ length bytes.now }
{
    bytes.iter().take_while(|b| is_blank(**b)).count()
}

/// The bytes behind the blanks in front.
fn past_blanks(bytes: &[u8]) -> &[u8]
    ensures { result.now ≡ past is_blank bytes.now }
{
    &bytes[blanks_len(bytes)..]
}

/// The bytes without the blanks at their end.
#[tactic(auto, using(crate::proofs::PjlLines::Trims::blank_last, crate::proofs::PjlLines::Trims::solid_last))]
fn trimmed(bytes: &[u8]) -> &[u8]
    ensures { result.now ≡ trimmed bytes.now }
{
    let mut len = bytes.len();
    while len > 0 && is_blank(bytes[len - 1]) {
        len -= 1;
    }
    &bytes[..len]
}

/// Whether this is the word, in either case.
#[tactic(auto, unfolding(pcl_items::specs::PjlLines::Reader::is_word))]
fn is_word(text: &[u8], capitals: &[u8]) -> bool
    ensures { result ≡ is_word text.now capitals.now }
{
    match text {
        [] => capitals.is_empty(),
        [b, text @ ..] => match capitals {
            [] => false,
            [c, capitals @ ..] => capital(*b) == *c && is_word(text, capitals),
        },
    }
}

/// The bytes behind this one, where it stands in front.
fn past_byte(byte: u8, bytes: &[u8]) -> Option<&[u8]>
    ensures { option_map (λ b. b.now) result ≡ past_byte byte bytes.now }
{
    match bytes {
        [first, rest @ ..] if *first == byte => Some(rest),
        _ => None,
    }
}

/// The bytes behind the `=` of an option of a PJL command, with blanks about it or none.
fn past_equals(bytes: &[u8]) -> Option<&[u8]>
    ensures { option_map (λ b. b.now) result ≡ past_equals bytes.now }
{
    let rest = past_byte(b'=', past_blanks(bytes))?;
    Some(past_blanks(rest))
}

/// The bytes behind the value of an option, a text between quotation marks.
fn past_value(bytes: &[u8]) -> Option<&[u8]>
    ensures { option_map (λ b. b.now) result ≡ past_value (Some bytes.now) }
{
    let rest = past_byte(b'"', bytes)?;
    past_byte(b'"', &rest[quotable_len(rest)..])
}

/// Whether the text names an option of `@PJL JOB`, or else of `@PJL EOJ`.
fn is_name(job: bool, text: &[u8]) -> bool
    ensures { result ≡ is_name job text.now }
{
    is_word(text, b"NAME") || (job && is_word(text, b"DISPLAY"))
}

/// The bytes behind an option of `@PJL JOB`, or else of `@PJL EOJ`: its name and its value.
#[tactic(auto, unfolding(pcl_items::specs::PjlLines::Reader::past_part))]
fn past_part(job: bool, bytes: &[u8]) -> Option<&[u8]>
    ensures { option_map (λ b. b.now) result ≡ past_part job bytes.now }
{
    let len = name_len(bytes);
    if !is_name(job, &bytes[..len]) {
        return None;
    }
    match past_equals(&bytes[len..]) {
        Some(rest) => past_value(rest),
        None => None,
    }
}

/// Whether behind an option come at most so many further ones, and nothing else.
#[tactic(auto, unfolding(pcl_items::specs::PjlLines::Reader::parts_behind))]
fn parts_behind(job: bool, most: usize, rest: Option<&[u8]>) -> bool
    ensures { result ≡ parts_behind job most (option_map (λ b. b.now) rest.entry) }
{
    match rest {
        None => false,
        Some([]) => true,
        Some([byte, rest @ ..]) => {
            most > 0
                && is_blank(*byte)
                && parts_behind(job, most - 1, past_part(job, past_blanks(rest)))
        }
    }
}

/// Whether the text is nothing, or one option and at most so many further ones.
fn are_parts(job: bool, most: usize, text: &[u8]) -> bool
    ensures { result ≡ are_parts job most text.now }
{
    text.is_empty() || parts_behind(job, most, past_part(job, text))
}

/// Whether the text is the option of `@PJL ENTER` that enters PCL.
#[tactic(auto, unfolding(pcl_items::specs::PjlLines::Reader::is_language))]
fn is_language(text: &[u8]) -> bool
    ensures { result ≡ is_language text.now }
{
    let len = name_len(text);
    if !is_word(&text[..len], b"LANGUAGE") {
        return false;
    }
    match past_equals(&text[len..]) {
        Some(rest) => is_word(rest, b"PCL"),
        None => false,
    }
}

/// The command that this word names.
fn word_at(text: &[u8]) -> Option<Word>
    ensures { result ≡ word_at text.now }
{
    if is_word(text, b"COMMENT") {
        Some(Word::Comment)
    } else if is_word(text, b"JOB") {
        Some(Word::Job)
    } else if is_word(text, b"EOJ") {
        Some(Word::EndOfJob)
    } else if is_word(text, b"ENTER") {
        Some(Word::Enter)
    } else {
        None
    }
}

/// The command of this word, where it may have the text behind it.
fn with_text(word: Word, text: &[u8]) -> Option<PjlCommand<'_>>
    ensures { option_map pjl_view result ≡ with_text (Some word) text.now }
{
    match word {
        Word::Comment => Some(PjlCommand::Remark(text)),
        Word::Job if are_parts(true, text.len(), text) => Some(PjlCommand::JobBegins(text)),
        Word::EndOfJob if are_parts(false, 0, text) => Some(PjlCommand::JobEnds(text)),
        Word::Enter if is_language(text) => Some(PjlCommand::EnterPcl),
        _ => None,
    }
}

/// The command whose word stands first, without blanks at both ends.
#[tactic(auto, unfolding(pcl_items::specs::PjlLines::Reader::in_words))]
fn in_words(words: &[u8]) -> Option<PjlCommand<'_>>
    ensures { option_map pjl_view result ≡ in_words words.now }
{
    let len = solid_len(words);
    let word = word_at(&words[..len])?;
    with_text(word, past_blanks(&words[len..]))
}

/// The command of a line without its newline.
#[tactic(auto, unfolding(pcl_items::specs::PjlLines::Reader::pjl_command_of))]
pub fn pjl_command_of(bytes: &[u8]) -> Option<PjlCommand<'_>>
    ensures { option_map pjl_view result ≡ pjl_command_of bytes.now }
{
    let [b'@', b'P', b'J', b'L', rest @ ..] = bytes else {
        return None;
    };
    match trimmed(rest) {
        [] => Some(PjlCommand::Bare),
        [byte, words @ ..] if is_blank(*byte) => in_words(past_blanks(words)),
        _ => None,
    }
}
