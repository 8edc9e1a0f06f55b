//! A line with a face.
ghost use Rattle.std.specs.Prelude.{◌≡◌, ◌≤◌, ◌*◌, Ok, IfOk, IfSome, MatchResult};
ghost use Rattle.device_profile.specs.FaceLine.{length_between, measure_of, request_of};
ghost use Rattle.device_profile.specs.FaceLine.{symbol_set_of, weight_of, whole_of, face_of_words};
ghost use Rattle.device_profile.specs.FaceLine.{face_on_line, face_with_codes, repeats_face};
ghost use Rattle.device_profile.specs.FaceLine.{repeats_id, repeats_request};
ghost use Rattle.device_profile.specs.Faces.{has_request, is_set_letter};
ghost use Rattle.device_profile.specs.LineFault.{IsCauseOf};
ghost use Rattle.device_profile.specs.Words.{words_of};

use crate::code_ranges::code_ranges;
use crate::fault::{Cause, LineFault};
use crate::font::{CodeRange, FontRequest, FontRow, SymbolSet, codes_in, is_same_request, text_in};
use crate::rows::has_face;
use crate::scan::{amount, number};
use crate::values::count_words;
use crate::words::{after_word, nth_word, number_between};
use std::alloc::{AllocError, Allocator};
use tick_length::Length;

const MOST_ROWS: usize = 64;

/// The face that the words behind `face` give, beside the faces that were given before.
#[tactic(auto, unfolding(crate::specs::FaceLine::face_on_line))]
pub(crate) fn face_on_line<A: Allocator>(
    alloc: A,
    faces: &[FontRow<A>],
    words: &[u8],
) -> Result<FontRow<A>, LineFault>
    ensures { MatchResult result (λ face. face_on_line faces.now (words_of words.now) ≡ Ok face)
        (IsCauseOf (face_on_line faces.now (words_of words.now))) }
{
    if repeats_face(faces, words) {
        return Err(LineFault::Wrong(Cause::Repeated));
    }
    match face_of_words(alloc, words)? {
        Some(face) if faces.len() < MOST_ROWS => Ok(face),
        _ => Err(LineFault::Wrong(Cause::Range)),
    }
}

/// Whether a line begins with the id of a face, or has the request of one behind its first word.
fn repeats_face<A: Allocator>(faces: &[FontRow<A>], words: &[u8]) -> bool
    ensures { result ≡ repeats_face faces.now (words_of words.now) }
{
    repeats_id(faces, words) || repeats_request(faces, words)
}

fn repeats_id<A: Allocator>(faces: &[FontRow<A>], words: &[u8]) -> bool
    ensures { result ≡ repeats_id faces.now (words_of words.now) }
{
    match number(nth_word(words, 0)) {
        Some(id) => has_face(faces, id),
        None => false,
    }
}

fn repeats_request<A: Allocator>(faces: &[FontRow<A>], words: &[u8]) -> bool
    ensures { result ≡ repeats_request faces.now (words_of words.now) }
{
    match request(after_word(words)) {
        Some(request) => has_request(faces, &request),
        None => false,
    }
}

#[tactic(auto, unfolding(crate::specs::Faces::has_request))]
fn has_request<A: Allocator>(faces: &[FontRow<A>], request: &FontRequest) -> bool
    ensures { result ≡ has_request faces.now request.now }
{
    faces
        .iter()
        .any(|face| is_same_request(&face.request(), request))
}

const WORDS_OF_A_FACE: usize = 11;

#[tactic(auto, unfolding(crate::specs::FaceLine::face_of_words))]
fn face_of_words<A: Allocator>(alloc: A, words: &[u8]) -> Result<Option<FontRow<A>>, AllocError>
    ensures { IfOk result (λ face. face ≡ face_of_words (words_of words.now)) }
{
    if count_words(words) != WORDS_OF_A_FACE {
        return Ok(None);
    }
    match code_ranges(alloc, nth_word(words, 10))? {
        Some(codes) => Ok(face_with_codes(words, codes)),
        None => Ok(None),
    }
}

const MOST_ID: u32 = 255;

/// Seven inches, in 7200ths of an inch.
const MOST_ADVANCE: u32 = 50_400;

/// 100 inches, in 7200ths of an inch.
const MOST_HEIGHT: u32 = 720_000;

/// The face of these codes that eleven words give.
#[tactic(auto, unfolding(crate::specs::FaceLine::face_with_codes))]
fn face_with_codes<A: Allocator>(words: &[u8], codes: Vec<CodeRange, A>) -> Option<FontRow<A>>
    ensures { result ≡ face_with_codes (words_of words.now) codes.items }
{
    Some(FontRow {
        id: number_between(nth_word(words, 0), 1, MOST_ID)?,
        request: request(after_word(words))?,
        advance: length_between(nth_word(words, 7), 1, MOST_ADVANCE)?,
        ascent: length_between(nth_word(words, 8), 0, MOST_HEIGHT)?,
        descent: length_between(nth_word(words, 9), 0, MOST_HEIGHT)?,
        prints: codes_in(&codes),
        text: text_in(&codes),
        codes,
    })
}

/// The length of so many 7200ths of an inch, from the least to the most.
fn length_between(word: &[u8], least: u32, most: u32) -> Option<Length>
    ensures { result ≡ length_between least most word.now }
{
    Some(Length::of_7200ths(number_between(word, least, most)?))
}

/// The request of six words: symbol set, pitch, height, style, weight and typeface. Spacing is
/// fixed.
#[tactic(auto, unfolding(crate::specs::FaceLine::request_of))]
fn request(words: &[u8]) -> Option<FontRequest>
    ensures { result ≡ request_of (words_of words.now) }
{
    Some(FontRequest {
        symbol_set: symbol_set(nth_word(words, 0))?,
        spacing: 0,
        pitch: measure(nth_word(words, 1))?,
        height: measure(nth_word(words, 2))?,
        style: whole(nth_word(words, 3), u16::MAX)?,
        weight: weight(nth_word(words, 4))?,
        typeface: whole(nth_word(words, 5), u16::MAX)?,
    })
}

/// A number of at most 65535, and behind it the letter of the set.
#[tactic(auto, unfolding(crate::specs::FaceLine::symbol_set_of))]
fn symbol_set(word: &[u8]) -> Option<SymbolSet>
    ensures { result ≡ symbol_set_of word.now }
{
    let [digits @ .., letter] = word else {
        return None;
    };
    let number = whole(digits, u16::MAX)?;
    if is_set_letter(*letter) {
        Some(SymbolSet {
            number,
            letter: *letter,
        })
    } else {
        None
    }
}

/// Whether a byte is a capital letter but X.
fn is_set_letter(byte: u8) -> bool
    ensures { result ≡ is_set_letter byte }
{
    matches!(byte, b'A'..=b'W' | b'Y'..=b'Z')
}

const MOST_WEIGHT: u16 = 7;

/// One, in ten-thousandths.
const UNIT: u32 = 10_000;

/// A number of at most 7, perhaps with a minus before it, in ten-thousandths.
#[tactic(auto, unfolding(crate::specs::FaceLine::weight_of))]
fn weight(word: &[u8]) -> Option<i32>
    ensures { result ≡ weight_of word.now }
{
    match word {
        [b'-', digits @ ..] => Some(-(whole(digits, MOST_WEIGHT)? as i32)),
        _ => Some(whole(word, MOST_WEIGHT)? as i32),
    }
}

/// The ten-thousandths of a whole number up to the most.
fn whole(word: &[u8], most: u16) -> Option<u32>
    ensures value { result ≡ whole_of most word.now }
    ensures bound { IfSome result (λ n. n ≤ most * 10_000) }
{
    Some(number_between(word, 0, u32::from(most))? * UNIT)
}

/// 65535, in ten-thousandths.
const MOST_MEASURE: u128 = 655_350_000;

/// The ten-thousandths of an amount up to 65535.
fn measure(word: &[u8]) -> Option<u32>
    ensures { result ≡ measure_of word.now }
{
    match amount(word) {
        Some(n) if n <= MOST_MEASURE => Some(n as u32),
        _ => None,
    }
}
