//! Lines, words and numbers of a profile's text.
ghost use Rattle.std.specs.Prelude.{◌≡◌, ◌≢◌, ◌<◌, ◌≤◌, ◌==◌, ◌^◌, ◌∷◌, [], Bool, false};
ghost use Rattle.std.specs.Prelude.{MatchOption, IfSome, length, take, slice_index};
ghost use Rattle.std.specs.List.{All};
ghost use Rattle.std.specs.Str.Lines.{lines, strip_carriage_return};
ghost use Rattle.device_profile.specs.Words.{words_of, number_of, decimals_of, amount_of};

/// The place of the first such byte, or the length where there is none.
pub(crate) fn place_of(text: &[u8], byte: u8) -> usize
    ensures within { result ≤ length text.now }
    ensures before { All (λ b. (b == byte) ≡ false) (take result text.now) }
    ensures found { result < length text.now → slice_index text.now result ≡ byte }
{
    for (i, b) in text.iter().enumerate() {
        if *b == byte {
            return i;
        }
    }
    text.len()
}

/// The first line, without its end, and the text after it.
pub fn next_line(text: &[u8]) -> Option<(&[u8], &[u8])>
    ensures line { MatchOption result (lines text.now ≡ [])
        (λ cut. lines text.now ≡ cut.0.now ∷ lines cut.1.now) }
    ensures shorter { IfSome result (λ cut. length cut.1.now < length text.now) }
{
    if text.is_empty() {
        return None;
    }
    let end = place_of(text, b'\n');
    if end == text.len() {
        return Some((text, &[]));
    }
    Some((without_return(&text[..end]), &text[end + 1..]))
}

/// A line that a line feed ended, without a carriage return before that.
fn without_return(line: &[u8]) -> &[u8]
    ensures { result.now ≡ strip_carriage_return line.now }
{
    match line {
        [front @ .., b'\r'] => front,
        _ => line,
    }
}

/// A line from its first byte that is no space.
fn without_spaces(line: &[u8]) -> &[u8]
    ensures words { words_of result.now ≡ words_of line.now }
    ensures start { 0 < length result.now → slice_index result.now 0 ≢ 32 }
    ensures shorter { length result.now ≤ length line.now }
{
    for (i, byte) in line.iter().enumerate() {
        if *byte != b' ' {
            return &line[i..];
        }
    }
    &[]
}

/// The first word of a line, and the line after it.
pub fn next_word(line: &[u8]) -> Option<(&[u8], &[u8])>
    ensures word { MatchOption result (words_of line.now ≡ [])
        (λ cut. words_of line.now ≡ cut.0.now ∷ words_of cut.1.now) }
    ensures shorter { IfSome result (λ cut. length cut.1.now < length line.now) }
{
    let rest = without_spaces(line);
    if rest.is_empty() {
        return None;
    }
    let end = place_of(rest, b' ');
    Some((&rest[..end], &rest[end..]))
}

const MOST_DIGITS: usize = 16;

/// The number that a word is: 1 to 16 decimal digits.
#[tactic(auto, unfolding(crate::specs::Words::number_of))]
pub fn number(word: &[u8]) -> Option<u64>
    ensures { result ≡ number_of word.now }
{
    if word.is_empty() || word.len() > MOST_DIGITS {
        return None;
    }
    let mut value = 0;
    for byte in word {
        if !byte.is_ascii_digit() {
            return None;
        }
        value = 10 * value + u64::from(*byte - b'0');
    }
    Some(value)
}

/// The ten-thousandths that one to four decimals are.
fn decimals(word: &[u8]) -> Option<u128>
    ensures value { result ≡ decimals_of word.now }
    // They are added to a whole amount.
    ensures small { IfSome result (λ n. n < 2 ^ 74) }
{
    let unit = match word.len() {
        1 => 1_000,
        2 => 100,
        3 => 10,
        4 => 1,
        _ => return None,
    };
    Some(u128::from(number(word)?) * unit)
}

const UNIT: u128 = 10_000;

/// The ten-thousandths of an amount: a number, and perhaps a point and one to four decimals.
pub fn amount(word: &[u8]) -> Option<u128>
    ensures { result ≡ amount_of word.now }
{
    let point = place_of(word, b'.');
    let whole = u128::from(number(&word[..point])?) * UNIT;
    if point == word.len() {
        return Some(whole);
    }
    Some(whole + decimals(&word[point + 1..])?)
}
