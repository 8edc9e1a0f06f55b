//! A printer with the name that its text gives it.
ghost use Rattle.std.specs.Prelude.{◌≡◌, ℕ, List, [], ◌∷◌, ◌++◌, map, IfErr, IfOk, IsFalse};
ghost use Rattle.std.specs.Prelude.{MatchResult};
ghost use Rattle.device_profile.specs.Name.{printer_name};
ghost use Rattle.picture_command.specs.Picture.{IsNamedBy};
ghost use Rattle.named_inputs.specs.Fleet.{IsEndOfProfile, RefusesRead, IsNamed};
ghost use Rattle.requests.specs.Status.{is_err_at_read};

use device_profile::{Profile, printer_name};
use named_inputs::{ProfileTexts, refusal};
use requests::Status;
use std::alloc::Allocator;
use streams::Error;

/// A printer, and the name by which sentences name it, alone in a list.
#[derive(Drop)]
pub struct NamedPrinter<A: Allocator> {
    pub profile: Profile<A>,
    pub names: Vec<Vec<u8, A>, A>,
}

/// The printer that a word names.
pub fn read_printer<T: ProfileTexts, A: Allocator + Copy>(
    alloc: A,
    texts: &mut T,
    word: &str,
) -> Result<NamedPrinter<A>, Status>
    requires { IsFalse (T.failed texts.old) }
    ensures printer { MatchResult result
        (λ printer. (name : List ℕ)
        × (map (λ text. text.items) printer.names.items ≡ name ∷ [])
        × IsNamedBy (T.given texts.old) (T.given texts.new)
        (IsNamed (T.text_of texts.old word.now) (T.given texts.old) (T.given texts.new))
        printer.profile name)
        (IsEndOfProfile 1 (T.text_of texts.old word.now)) }
    ensures named { T.named texts.new ≡ T.named texts.old ++ word.now ∷ [] }
    ensures refused { IfErr result (RefusesRead (T.given texts.old) (T.given texts.new) 1) }
    ensures read { T.failed texts.new ≡ is_err_at_read result }
{
    let text = texts.read_text(alloc, word)?;
    match Profile::read(alloc, text.as_slice()) {
        Ok(profile) => {
            let names = names_in(alloc, text.as_slice())?;
            Ok(NamedPrinter { profile, names })
        }
        Err(fault) => Err(refusal(1, fault)),
    }
}

/// The name that a text gives its printer, alone in a list.
///
/// An error is `Memory`.
fn names_in<A: Allocator + Copy>(alloc: A, text: &[u8]) -> Result<Vec<Vec<u8, A>, A>, Error>
    ensures names { IfOk result (λ names.
        map (λ name. name.items) names.items ≡ printer_name text.now ∷ []) }
    ensures err { IfErr result (λ error. error ≡ Error.Memory) }
{
    let mut name = Vec::new(alloc);
    name.extend_from_slice(printer_name(text))?;
    let mut names = Vec::new(alloc);
    names.push(name)?;
    Ok(names)
}
