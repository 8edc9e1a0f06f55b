//! The text of a new profile.
ghost use Rattle.std.specs.Prelude.{◌≡◌, ◌↔◌, map, IfOk, IfErr, IsNone, IsTrue};
ghost use Rattle.printer_models.specs.Describes.{DescribesModel};
ghost use Rattle.printer_models.specs.Model.{model_named};
ghost use Rattle.printer_models.specs.NewText.{DescribesAsked, IsNewError, is_late};

use crate::asked::{AskedError, WordFault, papers_asked};
use crate::comparison::describes_model;
use crate::model::Model;
use crate::panel_lists::PanelLists;
use crate::paper::Paper;
use crate::text::profile_text;
use std::alloc::{AllocError, Allocator};
use thiserror::Error;

/// Why there is no text.
#[derive(Clone, Copy, Debug, PartialEq, Eq, Error)]
pub enum NewError {
    /// No model has this word.
    #[error("no model has this name")]
    UnknownModel,
    /// A word for a paper is wrong.
    #[error("a paper is wrong: {0:?}")]
    Paper(WordFault),
    /// The text that was made is not that of the tables, which is a mistake in this program.
    #[error("the text is not that of the tables")]
    Mismatch,
    /// The allocator refused a request.
    #[error("out of memory")]
    Memory,
}

impl From<AllocError> for NewError {
    ghost use Rattle.std.specs.Prelude.{◌≡◌};
    ghost use Rattle.printer_models.specs.declared.new_profile.NewError.TheVariants.{Memory};

    ghost from_gives = { λ _ error. error ≡ Memory };

    fn from(_: AllocError) -> NewError {
        NewError::Memory
    }
}

impl From<AskedError> for NewError {
    ghost use Rattle.std.specs.Prelude.{◌≡◌};
    ghost use Rattle.printer_models.specs.NewText.{error_of};

    ghost from_gives = { λ asked error. error ≡ error_of asked };

    fn from(error: AskedError) -> NewError {
        match error {
            AskedError::Wrong(fault) => NewError::Paper(fault),
            AskedError::Memory => NewError::Memory,
        }
    }
}

/// The text of a profile: of the model of a word, with the papers of these names, which without a
/// name are letter and A4, and with a panel of these lists.
///
/// An error is, of these the first: that no model has the word; the first name of a paper that is
/// wrong; that the text is not that of the tables, with which it is compared; or, in place of any
/// but the first, that the allocator refused a request.
pub fn new_text<A: Allocator + Copy>(
    alloc: A,
    word: &str,
    names: &[&str],
    lists: PanelLists,
) -> Result<Vec<u8, A>, NewError>
    ensures text { IfOk result (λ text.
        DescribesAsked (model_named word.now) (map (λ name. name.now) names.now)
        lists text.items) }
    ensures err { IfErr result
        (IsNewError (model_named word.now) (map (λ name. name.now) names.now)) }
    ensures unknown { (result ≡ Err NewError.UnknownModel) ↔ IsNone (model_named word.now) }
{
    let Some(model) = Model::named(word) else {
        return Err(NewError::UnknownModel);
    };
    let papers = papers_asked(alloc, model, names)?;
    model_text(alloc, model, &papers, lists)
}

/// The text for a model with these papers.
fn model_text<A: Allocator + Copy>(
    alloc: A,
    model: Model,
    papers: &[Paper],
    lists: PanelLists,
) -> Result<Vec<u8, A>, NewError>
    ensures text { IfOk result (λ text. DescribesModel model papers.now lists text.items) }
    ensures err { IfErr result (λ error. IsTrue (is_late error)) }
{
    let text = profile_text(alloc, model, papers, lists)?;
    if describes_model(alloc, text.as_slice(), model, papers, lists)? {
        Ok(text)
    } else {
        Err(NewError::Mismatch)
    }
}
