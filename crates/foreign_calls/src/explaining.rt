//! What is known of a code.
ghost use Rattle.std.specs.Prelude.{◌≡◌, IfErr, IfOk, map, option_map};
ghost use Rattle.command_names.specs.CommandNames.{table};
ghost use Rattle.foreign_calls.specs.Explained.{IsExplained, IsUnheard, code_asked};

use crate::rows::outcome_row;
use crate::told::Told;
use crate::why::Why;
use meanings::EXPLANATIONS;
use meanings::explain::explain;
use named_inputs::KeptText;
use renderings::Outcome;
use requests::Status;
use std::alloc::Allocator;
use streams::Error;

/// What is known of a code, or of no bytes all explanations.
pub fn explained<A: Allocator + Copy>(alloc: A, code: &[u8]) -> Result<Told<A>, Why>
    ensures explained { IfOk result (IsExplained (map (λ text. text.now) EXPLANATIONS) table
        (code_asked code.now)) }
    ensures why { IfErr result (IsUnheard (map (λ text. text.now) EXPLANATIONS) table
        (code_asked code.now)) }
{
    if code.is_empty() {
        return explained_of(alloc, None);
    }
    match str::from_utf8(code) {
        Ok(word) => explained_of(alloc, Some(word)),
        Err(_) => Err(Why::NotText),
    }
}

/// What the command `explain` writes of a word, or of none.
fn explained_of<A: Allocator + Copy>(alloc: A, word: Option<&str>) -> Result<Told<A>, Why>
    ensures explained { IfOk result (IsExplained (map (λ text. text.now) EXPLANATIONS) table
        (option_map (λ word. word.now) word.entry)) }
    ensures why { IfErr result (IsUnheard (map (λ text. text.now) EXPLANATIONS) table
        (option_map (λ word. word.now) word.entry)) }
{
    let mut text = KeptText::new(alloc);
    let mut complaint = KeptText::new(alloc);
    match explain(word, &mut text, &mut complaint) {
        Status::Help => Ok(Told {
            row: outcome_row(Outcome::Done),
            text: text.into_bytes(),
        }),
        Status::Usage => Err(Why::Unheard),
        // A write into memory fails for want of memory alone.
        _ => Err(Why::Stopped(Error::Memory)),
    }
}
