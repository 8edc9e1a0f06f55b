//! What is wrong with the text of a profile.
ghost use Rattle.std.specs.Prelude.{◌≡◌, IfErr, IfOk};
ghost use Rattle.foreign_calls.specs.Answers.{IsStop};
ghost use Rattle.profile_lint.specs.Lint.{faults_text};

use crate::told::Told;
use crate::why::Why;
use profile_lint::faults_text;
use std::alloc::Allocator;

/// A line for each fault of a text, which begins with this name; of a profile there is none.
pub fn faults<A: Allocator + Copy>(alloc: A, name: &[u8], profile: &[u8]) -> Result<Told<A>, Why>
    ensures faults { IfOk result (λ told. told.text ≡ faults_text name.now profile.now) }
    ensures stops { IfErr result IsStop }
{
    match faults_text(alloc, name, profile) {
        Ok(text) => Ok(Told::of_text(text)),
        Err(error) => Err(Why::from(error)),
    }
}
