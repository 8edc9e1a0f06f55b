//! The text of all that is found in the texts of profiles.
ghost use Rattle.std.specs.Prelude.{◌≡◌, ◌++◌, ◌∷◌, [], flat_map, map, IfOk, OnOk};
ghost use Rattle.profile_lint.specs.FaultLines.{fault_line};
ghost use Rattle.profile_lint.specs.HintLines.{hint_line};
ghost use Rattle.profile_lint.specs.Lint.{difference_text, faults_text, findings_text, have_faults};
ghost use Rattle.profile_lint.specs.Lint.{hints_text, lint_text, sound_printers, sound_words};
ghost use Rattle.profile_lint.specs.Lint.{word_at};

use crate::difference::{first_difference, push_difference};
use crate::fault::TextFault;
use crate::fault_line::push_fault;
use crate::hint::Hint;
use crate::hint_line::push_hint;
use crate::profile_hints::hints;
use crate::text_faults::faults;
use device_profile::{Profile, ProfileFault};
use std::alloc::{AllocError, Allocator};
use std::marker::Model;

/// The text of a profile under the word that names it.
#[derive(Drop)]
pub struct NamedText<'w, A: Allocator> {
    pub word: &'w str,
    pub text: Vec<u8, A>,
}

impl<'w, A: Allocator> Model for NamedText<'w, A> {
    ghost use Rattle.profile_lint.specs.Lint.{Named};

    ghost Value = { Named };

    ghost view = { λ named. record { word = named.word.now; text = named.text.items } };
}

/// What is found in texts.
#[derive(Drop)]
pub struct Findings<A: Allocator> {
    /// A line for each thing.
    pub lines: Vec<u8, A>,
    pub has_faults: bool,
}

/// A line for each fault of a text.
///
/// An error means that the allocator refused a request.
pub fn faults_text<A: Allocator + Copy>(
    alloc: A,
    word: &[u8],
    text: &[u8],
) -> Result<Vec<u8, A>, AllocError>
    ensures { IfOk result (λ lines. lines.items ≡ faults_text word.now text.now) }
{
    let mut lines = Vec::new(alloc);
    push_faults_text(&mut lines, alloc, word, text)?;
    Ok(lines)
}

/// Appends a line for each fault of a text.
fn push_faults_text<A: Allocator + Copy>(
    lines: &mut Vec<u8, A>,
    alloc: A,
    word: &[u8],
    text: &[u8],
) -> Result<(), AllocError>
    ensures { OnOk result
        (lines.new.items ≡ lines.old.items ++ faults_text word.now text.now) }
{
    let found = faults(alloc, text)?;
    push_faults(lines, word, text, &found)
}

/// Appends a line for each of these faults of a text.
fn push_faults<A: Allocator>(
    lines: &mut Vec<u8, A>,
    word: &[u8],
    text: &[u8],
    found: &[TextFault],
) -> Result<(), AllocError>
    ensures { OnOk result (lines.new.items ≡
        lines.old.items ++ flat_map (fault_line word.now text.now) found.now) }
{
    for fault in found {
        push_fault(lines, word, text, *fault)?;
    }
    Ok(())
}

/// Appends a line for each of these hints.
fn push_hints<A: Allocator>(
    lines: &mut Vec<u8, A>,
    word: &[u8],
    found: &[Hint],
) -> Result<(), AllocError>
    ensures { OnOk result (lines.new.items ≡
        lines.old.items ++ flat_map (hint_line word.now) found.now) }
{
    for hint in found {
        push_hint(lines, word, *hint)?;
    }
    Ok(())
}

/// Appends a line for each hint on a profile.
fn push_hints_text<A: Allocator + Copy>(
    lines: &mut Vec<u8, A>,
    alloc: A,
    word: &[u8],
    profile: &Profile<A>,
) -> Result<(), AllocError>
    ensures { OnOk result
        (lines.new.items ≡ lines.old.items ++ hints_text word.now profile.now) }
{
    let found = hints(alloc, profile)?;
    push_hints(lines, word, &found)
}

/// Appends the hints on a profile, and its word and itself behind others.
fn take_sound<'w, A: Allocator + Copy>(
    alloc: A,
    lines: &mut Vec<u8, A>,
    words: &mut Vec<&'w str, A>,
    profiles: &mut Vec<Profile<A>, A>,
    word: &'w str,
    profile: Profile<A>,
) -> Result<(), AllocError>
    ensures lines { OnOk result
        (lines.new.items ≡ lines.old.items ++ hints_text word.now profile) }
    ensures words { OnOk result (map (λ word. word.now) words.new.items ≡
        map (λ word. word.now) words.old.items ++ word.now ∷ []) }
    ensures profiles { OnOk result
        (profiles.new.items ≡ profiles.old.items ++ profile ∷ []) }
{
    push_hints_text(lines, alloc, word.as_bytes(), &profile)?;
    words.push(word)?;
    profiles.push(profile)?;
    Ok(())
}

/// Appends what is found in a text; and where it has no fault, its word and its profile behind
/// others.
#[tactic(auto, unfolding(crate::specs::Lint::findings_text, crate::specs::Lint::sound_printers, crate::specs::Lint::sound_words))]
fn take_findings<'w, A: Allocator + Copy>(
    alloc: A,
    lines: &mut Vec<u8, A>,
    words: &mut Vec<&'w str, A>,
    profiles: &mut Vec<Profile<A>, A>,
    named: &NamedText<'w, A>,
) -> Result<(), AllocError>
    ensures lines { OnOk result
        (lines.new.items ≡ lines.old.items ++ findings_text named.now) }
    ensures words { OnOk result (map (λ word. word.now) words.new.items ≡
        map (λ word. word.now) words.old.items ++ sound_words named.now) }
    ensures profiles { OnOk result
        (profiles.new.items ≡ profiles.old.items ++ sound_printers named.now) }
{
    let (word, text) = (named.word, named.text.as_slice());
    match Profile::read(alloc, text) {
        Ok(profile) => take_sound(alloc, lines, words, profiles, word, profile),
        Err(ProfileFault::Fault { .. }) => push_faults_text(lines, alloc, word.as_bytes(), text),
        Err(ProfileFault::Memory) => Err(AllocError),
    }
}

/// The word at a place among others, or none.
#[tactic(auto, using(crate::proofs::WordsAt::word_at_is))]
fn word_at<'w>(words: &[&'w str], place: usize) -> &'w str
    ensures { result.now ≡ word_at (map (λ word. word.now) words.now) place }
{
    match words.get(place) {
        Some(word) => word,
        None => "",
    }
}

/// Appends in what two profiles differ first, which stand under these words.
fn push_first_difference<A: Allocator>(
    lines: &mut Vec<u8, A>,
    words: &[&str],
    profiles: &[Profile<A>],
) -> Result<(), AllocError>
    ensures { OnOk result (lines.new.items ≡
        lines.old.items ++ difference_text (map (λ word. word.now) words.now) profiles.now) }
{
    let Some(found) = first_difference(profiles) else {
        return Ok(());
    };
    let (first, other) = (word_at(words, 0), word_at(words, found.other));
    push_difference(lines, first.as_bytes(), other.as_bytes(), found.difference)
}

/// What is found in texts: the faults of each, or where it has none the hints on it; and then in
/// what two of those without faults differ first.
///
/// An error means that the allocator refused a request.
pub fn lint_texts<A: Allocator + Copy>(
    alloc: A,
    texts: &[NamedText<'_, A>],
) -> Result<Findings<A>, AllocError>
    ensures lines { IfOk result (λ found. found.lines.items ≡ lint_text texts.now) }
    ensures faults { IfOk result (λ found. found.has_faults ≡ have_faults texts.now) }
{
    let mut lines = Vec::new(alloc);
    let mut words = Vec::new(alloc);
    let mut profiles = Vec::new(alloc);
    for named in texts {
        take_findings(alloc, &mut lines, &mut words, &mut profiles, named)?;
    }
    let has_faults = profiles.len() < texts.len();
    push_first_difference(&mut lines, &words, &profiles)?;
    Ok(Findings { lines, has_faults })
}
