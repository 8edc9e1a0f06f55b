//! The picture of what differs between two jobs.

ghost use Rattle.std.specs.Prelude.{◌≡◌, ◌-◌, IfOk, length, map, option_map};
ghost use Rattle.std.specs.List.{slice_get};
ghost use Rattle.comparison_picture.specs.Document.{difference_document};
ghost use Rattle.comparison_picture.specs.DrawnPages.{compared_page, compared_pages};
ghost use Rattle.comparison_picture.specs.Picture.{difference_picture};
ghost use Rattle.compare_command.specs.Pictures.{
  drawn_page,
  drawn_pages,
  pages_picture,
  picture_by,
  picture_for,
  picture_of_pages,
  picture_on,
  sentence_on,
  without_line_end,
};
ghost use Rattle.compare_command.specs.Lines.{name_of};
ghost use Rattle.compare_command.specs.Sentences.{difference_sentence};
ghost use Rattle.compare_command.specs.Telling.{told_by};
ghost use Rattle.page_comparison.specs.Comparison.{told_differences};
ghost use Rattle.page_comparison.specs.Pages.{made_pair};

use crate::found::{Found, Outcome};
use crate::sentences::push_difference_sentence;
use crate::telling::{Telling, name_of};
use comparison_picture::{DrawnPage, paper_of, push_document, push_picture};
use device_profile::Profile;
use page_comparison::{
    Differences, Nearness, PageComparison, PageDifference, PagePair, PagesError, differences_of,
};
use std::alloc::{AllocError, Global};

/// The picture of what was found on one of these printers, where pages are kept that differ: of the
/// first one an SVG, or where all differences are told a document of all that are kept.
pub(crate) fn picture_of(
    alloc: Global,
    telling: &Telling<'_, '_>,
    nearness: Nearness,
    fleet: &[Profile],
    found: &Found,
) -> Result<Option<Vec<u8>>, PagesError>
    ensures { IfOk result (λ picture. option_map (λ text. text.items) picture
        ≡ picture_by (told_by telling.now) nearness fleet.now found.now.number found.now.outcome) }
{
    match &found.outcome {
        Outcome::OfEvents(_) => Ok(None),
        Outcome::OfPages(comparison) => {
            picture_of_pages(alloc, telling, nearness, fleet, found.number, comparison)
        }
    }
}

/// The picture of what came of two jobs on the printer of this number.
fn picture_of_pages(
    alloc: Global,
    telling: &Telling<'_, '_>,
    nearness: Nearness,
    fleet: &[Profile],
    number: u64,
    comparison: &PageComparison<Global>,
) -> Result<Option<Vec<u8>>, PagesError>
    ensures { IfOk result (λ picture. option_map (λ text. text.items) picture
        ≡ picture_of_pages (told_by telling.now) nearness fleet.now number comparison.now) }
{
    match comparison {
        PageComparison::Same(_) => Ok(None),
        PageComparison::Differs(differences) => {
            picture_on(alloc, telling, nearness, fleet, number, differences)
        }
        PageComparison::OldFails(_) => Ok(None),
        PageComparison::NewFails(_) => Ok(None),
    }
}

/// The picture of what differs on the printer of this number, of these printers.
fn picture_on(
    alloc: Global,
    telling: &Telling<'_, '_>,
    nearness: Nearness,
    fleet: &[Profile],
    number: u64,
    differences: &Differences<Global>,
) -> Result<Option<Vec<u8>>, PagesError>
    ensures { IfOk result (λ picture. option_map (λ text. text.items) picture
        ≡ picture_on (told_by telling.now) nearness (slice_get fleet.now (number - 1)) number
        (told_differences differences.now)) }
{
    match fleet.get(number.saturating_sub(1) as usize) {
        Some(profile) => picture_for(alloc, telling, nearness, profile, number, differences),
        None => Ok(None),
    }
}

/// The picture of what differs on this printer.
fn picture_for(
    alloc: Global,
    telling: &Telling<'_, '_>,
    nearness: Nearness,
    profile: &Profile,
    number: u64,
    differences: &Differences<Global>,
) -> Result<Option<Vec<u8>>, PagesError>
    ensures { IfOk result (λ picture. option_map (λ text. text.items) picture
        ≡ picture_for (told_by telling.now) nearness profile.now number
        (told_differences differences.now)) }
{
    let pages = drawn_pages(alloc, nearness, profile, differences.pairs.as_slice())?;
    let sentence = sentence_on(alloc, telling, number, differences.listed.as_slice())?;
    let (is_all, count) = (telling.is_all, differences.pages);
    Ok(pages_picture(alloc, is_all, pages.as_slice(), count, sentence.as_slice())?)
}

/// The picture of pages, of which so many differ.
fn pages_picture(
    alloc: Global,
    is_all: bool,
    pages: &[DrawnPage<'_, Global>],
    count: u64,
    sentence: &[u8],
) -> Result<Option<Vec<u8>>, AllocError>
    ensures { IfOk result (λ picture. option_map (λ text. text.items) picture
        ≡ pages_picture is_all (compared_pages pages.now) count sentence.now) }
{
    let [first, ..] = pages else {
        return Ok(None);
    };
    if is_all {
        return document_of(alloc, pages, count, sentence);
    }
    first_picture(alloc, first, sentence)
}

/// The document of pages, of which so many differ.
fn document_of(
    alloc: Global,
    pages: &[DrawnPage<'_, Global>],
    count: u64,
    sentence: &[u8],
) -> Result<Option<Vec<u8>>, AllocError>
    ensures { IfOk result (λ picture. option_map (λ text. text.items) picture
        ≡ Some (difference_document (compared_pages pages.now)
        (count - length (compared_pages pages.now)) sentence.now)) }
{
    let undrawn = count.saturating_sub(pages.len() as u64);
    let mut text = Vec::new(alloc);
    push_document(alloc, &mut text, pages, undrawn, sentence)?;
    Ok(Some(text))
}

/// The SVG of the first page.
fn first_picture(
    alloc: Global,
    page: &DrawnPage<'_, Global>,
    sentence: &[u8],
) -> Result<Option<Vec<u8>>, AllocError>
    ensures { IfOk result (λ picture. option_map (λ text. text.items) picture
        ≡ Some (difference_picture (compared_page page.now) sentence.now)) }
{
    let mut text = Vec::new(alloc);
    push_picture(alloc, &mut text, page, sentence)?;
    Ok(Some(text))
}

// ---- pages

/// Pages that are kept, as they are drawn.
fn drawn_pages<'p>(
    alloc: Global,
    nearness: Nearness,
    profile: &Profile,
    pairs: &'p [PagePair<Global>],
) -> Result<Vec<DrawnPage<'p, Global>>, PagesError>
    ensures { IfOk result (λ pages. compared_pages pages.items
        ≡ drawn_pages nearness profile.now (map made_pair pairs.now)) }
{
    let mut pages = Vec::new(alloc);
    for pair in pairs {
        let page = drawn_page(alloc, nearness, profile, pair)?;
        pages.push(page).map_err(AllocError::from)?;
    }
    Ok(pages)
}

/// A page that is kept, as it is drawn.
fn drawn_page<'p>(
    alloc: Global,
    nearness: Nearness,
    profile: &Profile,
    pair: &'p PagePair<Global>,
) -> Result<DrawnPage<'p, Global>, PagesError>
    ensures { IfOk result (λ page.
        compared_page page ≡ drawn_page nearness profile.now (made_pair pair.now)) }
{
    let differences = differences_of(alloc, nearness, pair)?;
    Ok(DrawnPage {
        number: pair.number,
        paper: paper_of(profile, pair.old.end, pair.new.end),
        old: &pair.old,
        new: &pair.new,
        differences,
    })
}

// ---- the sentence

/// The sentence on the first of these differences, without the end of its line.
fn sentence_on(
    alloc: Global,
    telling: &Telling<'_, '_>,
    number: u64,
    listed: &[PageDifference],
) -> Result<Vec<u8>, AllocError>
    ensures { IfOk result (λ sentence. sentence.items
        ≡ sentence_on (told_by telling.now) number listed.now) }
{
    let mut sentence = Vec::new(alloc);
    let [first, ..] = listed else {
        return Ok(sentence);
    };
    let line = line_on(alloc, telling, number, *first)?;
    sentence.extend_from_slice(without_line_end(line.as_slice()))?;
    Ok(sentence)
}

/// The line of that sentence.
fn line_on(
    alloc: Global,
    telling: &Telling<'_, '_>,
    number: u64,
    difference: PageDifference,
) -> Result<Vec<u8>, AllocError>
    ensures { IfOk result (λ line. line.items ≡ difference_sentence
        telling.now.old_name.now telling.now.new_name.now
        (name_of (map (λ name. name.items) telling.now.printers.now) number) difference) }
{
    let mut line = Vec::new(alloc);
    let printer = name_of(telling.printers, number);
    let (old_name, new_name) = (telling.old_name, telling.new_name);
    push_difference_sentence(alloc, &mut line, old_name, new_name, printer, difference)?;
    Ok(line)
}

/// A line without its end.
fn without_line_end(line: &[u8]) -> &[u8]
    ensures { result.now ≡ without_line_end line.now }
{
    match line {
        [front @ .., b'\n'] => front,
        _ => line,
    }
}
