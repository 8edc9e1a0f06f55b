//! The fleet that the words name.
ghost use Rattle.std.specs.Prelude.{◌≡◌, ◌+◌, ◌<◌, ◌^◌, [], ◌∷◌, ◌++◌, map, length, IfSome};
ghost use Rattle.std.specs.Prelude.{IfOk, IsFalse, MatchResult};
ghost use Rattle.named_inputs.specs.Fleet.{DescribeBy, DescribeFleet, Describes, IsEndOfFleet};
ghost use Rattle.named_inputs.specs.Fleet.{IsEndOfProfile, RefusesBy, RefusesRead};
ghost use Rattle.named_inputs.specs.Texts.{AsksInOrder};
ghost use Rattle.requests.specs.Status.{is_err_at_read, refusal_of};

use crate::texts::ProfileTexts;
use device_profile::{Profile, ProfileFault};
use requests::Status;
use std::alloc::Allocator;
use streams::Error;

/// The profiles that words name, in their order. Each is read and judged before the next one.
///
/// An error is the first refusal, or why the work stopped: `Memory`, or `Read` where a text could
/// not be read.
pub fn read_fleet<T: ProfileTexts, A: Allocator + Copy>(
    alloc: A,
    texts: &mut T,
    words: &[&str],
) -> Result<Vec<Profile<A>, A>, Status>
    requires { IsFalse (T.failed texts.old) }
    ensures fleet { MatchResult result
        (λ fleet. DescribeFleet (map (λ word. T.text_of texts.old word.now) words.now) fleet.items)
        (IsEndOfFleet (map (λ word. T.text_of texts.old word.now) words.now)) }
    ensures given { MatchResult result
        (λ fleet. DescribeBy (T.given texts.old) (T.given texts.new) fleet.items)
        (RefusesBy (T.given texts.old) (T.given texts.new)) }
    ensures named { AsksInOrder (map (λ word. word.now) words.now)
        (T.named texts.old) (T.named texts.new) }
    ensures read { T.failed texts.new ≡ is_err_at_read result }
{
    let mut kept = Vec::new(alloc);
    read_kept_fleet(alloc, texts, words, &mut kept)
}

/// The profiles that words name, in their order, of each of which the text is kept.
/// Each is read and judged before the next one.
///
/// An error is the first refusal, or why the work stopped: `Memory`, or `Read` where a text could
/// not be read.
pub fn read_kept_fleet<T: ProfileTexts, A: Allocator + Copy>(
    alloc: A,
    texts: &mut T,
    words: &[&str],
    kept: &mut Vec<Vec<u8, A>, A>,
) -> Result<Vec<Profile<A>, A>, Status>
    requires { IsFalse (T.failed texts.old) }
    ensures fleet { MatchResult result
        (λ fleet. DescribeFleet (map (λ word. T.text_of texts.old word.now) words.now) fleet.items)
        (IsEndOfFleet (map (λ word. T.text_of texts.old word.now) words.now)) }
    ensures given { MatchResult result
        (λ fleet. DescribeBy (T.given texts.old) (T.given texts.new) fleet.items)
        (RefusesBy (T.given texts.old) (T.given texts.new)) }
    ensures named { AsksInOrder (map (λ word. word.now) words.now)
        (T.named texts.old) (T.named texts.new) }
    ensures kept { IfOk result (λ fleet. DescribeBy (map (λ text. text.items) kept.old.items)
        (map (λ text. text.items) kept.new.items) fleet.items) }
    ensures read { T.failed texts.new ≡ is_err_at_read result }
{
    let mut fleet = Vec::new(alloc);
    for (i, word) in words.iter().enumerate() {
        let profile = read_kept(alloc, texts, word, i as u64 + 1, kept)?;
        fleet.push(profile)?;
    }
    Ok(fleet)
}

/// The profile that a word names, the one of this number among the words.
pub fn read_profile<T: ProfileTexts, A: Allocator + Copy>(
    alloc: A,
    texts: &mut T,
    word: &str,
    number: u64,
) -> Result<Profile<A>, Status>
    requires { IsFalse (T.failed texts.old) }
    ensures profile { MatchResult result (Describes (T.text_of texts.old word.now))
        (IsEndOfProfile number (T.text_of texts.old word.now)) }
    ensures given { MatchResult result
        (λ profile. DescribeBy (T.given texts.old) (T.given texts.new) (profile ∷ []))
        (RefusesRead (T.given texts.old) (T.given texts.new) number) }
    ensures named { T.named texts.new ≡ T.named texts.old ++ word.now ∷ [] }
    ensures same { T.text_of texts.new ≡ T.text_of texts.old }
    ensures read { T.failed texts.new ≡ is_err_at_read result }
{
    let text = texts.read_text(alloc, word)?;
    match Profile::read(alloc, text.as_slice()) {
        Ok(profile) => Ok(profile),
        Err(fault) => Err(refusal(number, fault)),
    }
}

/// The profile that a word names, the one of this number among the words, of which the text is
/// kept.
fn read_kept<T: ProfileTexts, A: Allocator + Copy>(
    alloc: A,
    texts: &mut T,
    word: &str,
    number: u64,
    kept: &mut Vec<Vec<u8, A>, A>,
) -> Result<Profile<A>, Status>
    requires { IsFalse (T.failed texts.old) }
    ensures profile { MatchResult result (Describes (T.text_of texts.old word.now))
        (IsEndOfProfile number (T.text_of texts.old word.now)) }
    ensures given { MatchResult result
        (λ profile. DescribeBy (T.given texts.old) (T.given texts.new) (profile ∷ []))
        (RefusesRead (T.given texts.old) (T.given texts.new) number) }
    ensures kept { IfOk result (λ profile. DescribeBy (map (λ text. text.items) kept.old.items)
        (map (λ text. text.items) kept.new.items) (profile ∷ [])) }
    ensures named { T.named texts.new ≡ T.named texts.old ++ word.now ∷ [] }
    ensures same { T.text_of texts.new ≡ T.text_of texts.old }
    ensures read { T.failed texts.new ≡ is_err_at_read result }
{
    let text = texts.read_text(alloc, word)?;
    let profile = match Profile::read(alloc, text.as_slice()) {
        Ok(profile) => profile,
        Err(fault) => return Err(refusal(number, fault)),
    };
    kept.push(text)?;
    Ok(profile)
}

/// How a text that gives no profile ends the program, the one of this number among those that it
/// reads.
pub fn refusal(number: u64, fault: ProfileFault) -> Status
    ensures { result ≡ refusal_of number fault }
{
    match fault {
        ProfileFault::Fault { line, cause } => Status::Profile {
            number,
            line,
            cause,
        },
        ProfileFault::Memory => Status::Stopped(Error::Memory),
    }
}
