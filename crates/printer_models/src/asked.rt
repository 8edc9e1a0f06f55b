//! The papers that a user asks for, by their names.
ghost use Rattle.std.specs.Prelude.{◌≡◌, [], map, Ok, Err, MatchResult};
ghost use Rattle.printer_models.specs.Asked.{held_paper, is_among, paper_asked, papers_asked};
ghost use Rattle.printer_models.specs.Asked.{papers_from, IsWordFault};

use crate::model::Model;
use crate::paper::Paper;
use std::alloc::{AllocError, AllocFailed, Allocator};

/// What is wrong with the name of a paper.
#[derive(Clone, Copy, Debug, PartialEq, Eq)]
pub enum PaperFault {
    /// No paper has this name.
    Unknown,
    /// The model cannot have this paper.
    NotHeld,
    /// The paper came before.
    Repeated,
}

/// The first word that is wrong.
#[derive(Clone, Copy, Debug, PartialEq, Eq)]
pub struct WordFault {
    /// How many words stand before it.
    pub index: usize,
    pub fault: PaperFault,
}

/// Why there are no papers.
#[derive(Clone, Copy)]
pub(crate) enum AskedError {
    Wrong(WordFault),
    Memory,
}

impl From<AllocError> for AskedError {
    ghost use Rattle.std.specs.Prelude.{◌≡◌};
    ghost use Rattle.printer_models.specs.declared.asked.AskedError.TheVariants.{Memory};

    ghost from_gives = { λ _ error. error ≡ Memory };

    fn from(_: AllocError) -> AskedError {
        AskedError::Memory
    }
}

/// The papers of these words, or letter and A4 where there are none; or the first word that is
/// wrong.
pub(crate) fn papers_asked<A: Allocator>(
    alloc: A,
    model: Model,
    words: &[&str],
) -> Result<Vec<Paper, A>, AskedError>
    ensures { MatchResult result
        (λ papers. papers_asked model (map (λ word. word.now) words.now) ≡ Ok papers.items)
        (IsWordFault (papers_asked model (map (λ word. word.now) words.now))) }
{
    if words.is_empty() {
        return Ok(Vec::from_slice(alloc, &[Paper::Letter, Paper::A4])?);
    }
    papers_named(alloc, model, words)
}

/// The papers of these words, or the first word that is wrong.
fn papers_named<A: Allocator>(
    alloc: A,
    model: Model,
    words: &[&str],
) -> Result<Vec<Paper, A>, AskedError>
    ensures { MatchResult result
        (λ papers. papers_from model [] (map (λ word. word.now) words.now) ≡ Ok papers.items)
        (IsWordFault (papers_from model [] (map (λ word. word.now) words.now))) }
{
    let mut papers = Vec::new(alloc);
    for (index, word) in words.iter().enumerate() {
        match paper_asked(model, &papers, word) {
            Ok(paper) => papers.push(paper).map_err(AllocError::from)?,
            Err(fault) => return Err(AskedError::Wrong(WordFault { index, fault })),
        }
    }
    Ok(papers)
}

/// The paper of a word, behind others, or what is wrong with the word.
fn paper_asked(model: Model, papers_before: &[Paper], word: &str) -> Result<Paper, PaperFault>
    ensures { result ≡ paper_asked model papers_before.now word.now }
{
    match Paper::named(word) {
        Some(paper) => held_paper(model, papers_before, paper),
        None => Err(PaperFault::Unknown),
    }
}

/// A paper that the model can have and that did not come before, or what is wrong with it.
fn held_paper(model: Model, papers_before: &[Paper], paper: Paper) -> Result<Paper, PaperFault>
    ensures { result ≡ held_paper model papers_before.now paper }
{
    if !is_among(model.row().papers, paper) {
        Err(PaperFault::NotHeld)
    } else if is_among(papers_before, paper) {
        Err(PaperFault::Repeated)
    } else {
        Ok(paper)
    }
}

/// Whether a paper is one of these.
fn is_among(papers: &[Paper], paper: Paper) -> bool
    ensures { result ≡ is_among papers.now paper }
{
    papers.iter().any(|held| held.code() == paper.code())
}
