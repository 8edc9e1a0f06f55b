//! The objects of a document.
ghost use Rattle.std.specs.Prelude.{◌≡◌, ◌+◌, ◌*◌, ◌≤◌, ◌^◌, ◌++◌, OnOk};
ghost use Rattle.page_pdf.specs.Objects.{
  catalog_body,
  content_start,
  end_words,
  information_body,
  label_body,
  label_reference,
  label_references,
  object_start,
  object_text,
  page_body,
  page_reference,
  page_references,
  pages_body,
  verdict_body,
  verdict_length,
};

use crate::figures::{push_count, push_points};
use crate::hexes::push_letters;
use crate::object_parts::ObjectPart;
use crate::titles::push_title;
use device_profile::Geometry;
use page_env::PageEnd;
use shown_bytes::push_number;
use std::alloc::{AllocError, Allocator};

// ---- an object

#[tactic(auto, unfolding(crate::specs::Objects::object_start))]
fn push_object_start<A: Allocator>(text: &mut Vec<u8, A>, number: u64) -> Result<(), AllocError>
    ensures { OnOk result (text.new.items ≡ text.old.items ++ object_start number) }
{
    push_number(text, number)?;
    text.extend_from_slice(ObjectPart::ObjectStart.bytes())
}

/// Appends an object of this number.
#[tactic(auto, unfolding(crate::specs::Objects::object_text))]
pub(crate) fn push_object_text<A: Allocator>(
    text: &mut Vec<u8, A>,
    number: u64,
    body: &[u8],
) -> Result<(), AllocError>
    ensures { OnOk result (text.new.items ≡ text.old.items ++ object_text number body.now) }
{
    push_object_start(text, number)?;
    text.extend_from_slice(body)?;
    text.extend_from_slice(ObjectPart::ObjectEnd.bytes())
}

// ---- of a page

/// Appends how what marks a page begins, of which the next object tells how long it is.
#[tactic(auto, unfolding(crate::specs::Objects::content_start))]
pub(crate) fn push_content_start<A: Allocator>(
    text: &mut Vec<u8, A>,
    number: u64,
) -> Result<(), AllocError>
    requires { number ≤ 2 ^ 63 + 4 }
    ensures { OnOk result (text.new.items ≡ text.old.items ++ content_start number) }
{
    push_object_start(text, number)?;
    text.extend_from_slice(ObjectPart::ContentStart.bytes())?;
    push_number(text, number + 1)?;
    text.extend_from_slice(ObjectPart::ContentStream.bytes())
}

/// Appends a page that the object of this number marks.
#[tactic(auto, unfolding(crate::specs::Objects::page_body))]
pub(crate) fn push_page_body<A: Allocator>(
    text: &mut Vec<u8, A>,
    page: &Geometry,
    content: u64,
) -> Result<(), AllocError>
    ensures { OnOk result (text.new.items ≡ text.old.items ++ page_body page.now content) }
{
    text.extend_from_slice(ObjectPart::Page.bytes())?;
    push_points(text, page.page_height)?;
    text.extend_from_slice(ObjectPart::PageWidth.bytes())?;
    push_points(text, page.page_width)?;
    text.extend_from_slice(ObjectPart::PageContent.bytes())?;
    push_number(text, content)?;
    text.extend_from_slice(ObjectPart::PageEnd.bytes())
}

/// Appends how a page is printed.
#[tactic(auto, unfolding(crate::specs::Objects::end_words))]
pub(crate) fn push_end_words<A: Allocator>(
    text: &mut Vec<u8, A>,
    end: PageEnd,
) -> Result<(), AllocError>
    ensures { OnOk result (text.new.items ≡ text.old.items ++ end_words end) }
{
    text.extend_from_slice(ObjectPart::LabelCopies.bytes())?;
    push_number(text, u64::from(end.copies))?;
    text.extend_from_slice(ObjectPart::LabelSides.bytes())?;
    push_number(text, u64::from(end.sides))?;
    text.extend_from_slice(ObjectPart::LabelTray.bytes())?;
    push_number(text, u64::from(end.tray))
}

/// Appends the label of the page of this number, with these words.
#[tactic(auto, unfolding(crate::specs::Objects::label_body))]
pub(crate) fn push_label_body<A: Allocator>(
    text: &mut Vec<u8, A>,
    number: u64,
    words: &[u8],
) -> Result<(), AllocError>
    ensures { OnOk result (text.new.items ≡ text.old.items ++ label_body number words.now) }
{
    text.extend_from_slice(ObjectPart::Label.bytes())?;
    push_number(text, number)?;
    text.extend_from_slice(words)?;
    text.extend_from_slice(ObjectPart::LabelEnd.bytes())
}

// ---- of the document

/// Appends the number of the page that comes behind so many others.
#[tactic(auto, unfolding(crate::specs::Objects::page_reference))]
fn push_page_reference<A: Allocator>(text: &mut Vec<u8, A>, index: u64) -> Result<(), AllocError>
    requires { index ≤ 2 ^ 61 }
    ensures { OnOk result (text.new.items ≡ text.old.items ++ page_reference index) }
{
    push_number(text, 25 + 4 * index)?;
    text.extend_from_slice(ObjectPart::Reference.bytes())
}

/// Appends that of its label.
#[tactic(auto, unfolding(crate::specs::Objects::label_reference))]
fn push_label_reference<A: Allocator>(text: &mut Vec<u8, A>, index: u64) -> Result<(), AllocError>
    requires { index ≤ 2 ^ 61 }
    ensures { OnOk result (text.new.items ≡ text.old.items ++ label_reference index) }
{
    push_number(text, index)?;
    text.extend_from_slice(ObjectPart::Between.bytes())?;
    push_number(text, 26 + 4 * index)?;
    text.extend_from_slice(ObjectPart::Reference.bytes())
}

#[tactic(auto, using(crate::proofs::Loops::entries_more))]
fn push_page_references<A: Allocator>(text: &mut Vec<u8, A>, count: u64) -> Result<(), AllocError>
    requires { count ≤ 2 ^ 61 }
    ensures { OnOk result (text.new.items ≡ text.old.items ++ page_references count) }
{
    for index in 0..count {
        push_page_reference(text, index)?;
    }
    Ok(())
}

#[tactic(auto, using(crate::proofs::Loops::entries_more))]
fn push_label_references<A: Allocator>(text: &mut Vec<u8, A>, count: u64) -> Result<(), AllocError>
    requires { count ≤ 2 ^ 61 }
    ensures { OnOk result (text.new.items ≡ text.old.items ++ label_references count) }
{
    for index in 0..count {
        push_label_reference(text, index)?;
    }
    Ok(())
}

/// Appends the catalog, with the labels of so many pages.
#[tactic(auto, unfolding(crate::specs::Objects::catalog_body))]
pub(crate) fn push_catalog_body<A: Allocator>(
    text: &mut Vec<u8, A>,
    count: u64,
) -> Result<(), AllocError>
    requires { count ≤ 2 ^ 61 }
    ensures { OnOk result (text.new.items ≡ text.old.items ++ catalog_body count) }
{
    text.extend_from_slice(ObjectPart::Catalog.bytes())?;
    push_label_references(text, count)?;
    text.extend_from_slice(ObjectPart::CatalogEnd.bytes())
}

/// Appends that there are so many pages, and which they are.
#[tactic(auto, unfolding(crate::specs::Objects::pages_body))]
pub(crate) fn push_pages_body<A: Allocator>(
    text: &mut Vec<u8, A>,
    count: u64,
) -> Result<(), AllocError>
    requires { count ≤ 2 ^ 61 }
    ensures { OnOk result (text.new.items ≡ text.old.items ++ pages_body count) }
{
    text.extend_from_slice(ObjectPart::Pages.bytes())?;
    push_number(text, count)?;
    text.extend_from_slice(ObjectPart::PagesKids.bytes())?;
    push_page_references(text, count)?;
    text.extend_from_slice(ObjectPart::PagesEnd.bytes())
}

/// Appends the names of the job and of the printer.
#[tactic(auto, unfolding(crate::specs::Objects::information_body))]
pub(crate) fn push_information_body<A: Allocator>(
    text: &mut Vec<u8, A>,
    job: &[u8],
    printer: &[u8],
) -> Result<(), AllocError>
    ensures { OnOk result
        (text.new.items ≡ text.old.items ++ information_body job.now printer.now) }
{
    text.extend_from_slice(ObjectPart::Title.bytes())?;
    push_title(text, job)?;
    text.extend_from_slice(ObjectPart::Subject.bytes())?;
    push_title(text, printer)?;
    text.extend_from_slice(ObjectPart::InformationEnd.bytes())
}

/// How long the verdict is, with what stands round it.
fn verdict_length(sentence: &[u8]) -> u128
    ensures { result ≡ verdict_length sentence.now }
{
    29 + 2 * sentence.len() as u128
}

/// Appends the verdict, as it stands at the foot of each page.
#[tactic(auto, unfolding(crate::specs::Objects::verdict_body))]
pub(crate) fn push_verdict_body<A: Allocator>(
    text: &mut Vec<u8, A>,
    sentence: &[u8],
) -> Result<(), AllocError>
    ensures { OnOk result (text.new.items ≡ text.old.items ++ verdict_body sentence.now) }
{
    text.extend_from_slice(ObjectPart::Verdict.bytes())?;
    push_count(text, verdict_length(sentence))?;
    text.extend_from_slice(ObjectPart::VerdictStream.bytes())?;
    push_letters(text, sentence)?;
    text.extend_from_slice(ObjectPart::VerdictEnd.bytes())
}
