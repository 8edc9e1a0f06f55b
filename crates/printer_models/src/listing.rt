//! What is written of all models.
ghost use Rattle.std.specs.Prelude.{◌≡◌, ◌++◌, flat_map, IfOk, OnOk};
ghost use Rattle.printer_models.specs.Listing.{model_line, model_words, models_text, paper_words};

use crate::model::{MODELS, Model};
use crate::paper::Paper;
use std::alloc::{AllocError, Allocator};

/// A line for each model: the word by which it is asked for, what it is, and the names of the
/// papers that it can have.
#[tactic(auto, unfolding(crate::specs::Listing::models_text))]
pub fn models_text<A: Allocator>(alloc: A) -> Result<Vec<u8, A>, AllocError>
    ensures { IfOk result (λ text. text.items ≡ models_text) }
{
    let mut text = Vec::new(alloc);
    push_models(&mut text, &MODELS)?;
    Ok(text)
}

/// Appends the lines of models.
fn push_models<A: Allocator>(text: &mut Vec<u8, A>, models: &[Model]) -> Result<(), AllocError>
    ensures { OnOk result (text.new.items ≡ text.old.items ++ flat_map model_line models.now) }
{
    for model in models {
        push_model(text, *model)?;
    }
    Ok(())
}

/// Appends the line of a model.
#[tactic(auto, unfolding(crate::specs::Listing::model_line))]
fn push_model<A: Allocator>(text: &mut Vec<u8, A>, model: Model) -> Result<(), AllocError>
    ensures { OnOk result (text.new.items ≡ text.old.items ++ model_line model) }
{
    push_model_words(text, model)?;
    text.extend_from_slice(b"; papers:")?;
    push_papers(text, model.row().papers)?;
    text.extend_from_slice(b"\n")
}

/// Appends the word of a model, and what it is.
#[tactic(auto, unfolding(crate::specs::Listing::model_words))]
fn push_model_words<A: Allocator>(text: &mut Vec<u8, A>, model: Model) -> Result<(), AllocError>
    ensures { OnOk result (text.new.items ≡ text.old.items ++ model_words model) }
{
    let row = model.row();
    text.extend_from_slice(row.word.as_bytes())?;
    text.extend_from_slice(b": ")?;
    text.extend_from_slice(row.title.as_bytes())
}

/// Appends the names of papers, each behind a space.
fn push_papers<A: Allocator>(text: &mut Vec<u8, A>, papers: &[Paper]) -> Result<(), AllocError>
    ensures { OnOk result (text.new.items ≡ text.old.items ++ paper_words papers.now) }
{
    for paper in papers {
        text.push(b' ')?;
        text.extend_from_slice(paper.word().as_bytes())?;
    }
    Ok(())
}
