//! The picture of a page, in a job's row.
ghost use Rattle.std.specs.Prelude.{◌≡◌, ◌++◌, IfOk, OnOk, string_bytes};
ghost use Rattle.job_rows.specs.Pictures.{address_text, caption, failing_caption, figure};
ghost use Rattle.job_rows.specs.Pictures.{picture_part, too_large};

use base64::engine::general_purpose::STANDARD;
use job_reports::{Kind, kind_of};
use std::alloc::{AllocError, Allocator};
use streams::Error;
use verdict::Verdict;

/// Appends a picture, unless it is empty, since the job has no such page.
pub(crate) fn push_picture<A: Allocator + Copy>(
    alloc: A,
    text: &mut Vec<u8, A>,
    answer: Result<Verdict, Error>,
    picture: &[u8],
) -> Result<(), AllocError>
    ensures { OnOk result (text.new.items ≡ text.old.items ++ picture_part answer picture.now) }
{
    if picture.is_empty() {
        return Ok(());
    }
    push_figure(alloc, text, answer, picture)
}

/// Appends that a picture is left to the command that draws it.
#[tactic(auto, unfolding(crate::specs::Pictures::too_large))]
pub(crate) fn push_too_large<A: Allocator>(text: &mut Vec<u8, A>) -> Result<(), AllocError>
    ensures { OnOk result (text.new.items ≡ text.old.items ++ too_large) }
{
    text.extend_from_slice(
        b"<p>The picture of the page is too large for this document; \
        the command picture of pclcheck draws it.</p>\n",
    )
}

/// Appends a picture with its caption. It is a picture of its own, so that nothing in it reaches
/// the document, and that a browser takes it apart only once it is looked at.
#[tactic(auto, unfolding(crate::specs::Pictures::figure))]
fn push_figure<A: Allocator + Copy>(
    alloc: A,
    text: &mut Vec<u8, A>,
    answer: Result<Verdict, Error>,
    picture: &[u8],
) -> Result<(), AllocError>
    ensures { OnOk result (text.new.items ≡ text.old.items ++ figure answer picture.now) }
{
    text.extend_from_slice(b"<figure>\n<figcaption>")?;
    text.extend_from_slice(caption(answer))?;
    text.extend_from_slice(
        b"</figcaption>\n\
        <img loading=\"lazy\" alt=\"The page\" src=\"data:image/svg+xml;base64,",
    )?;
    push_address(alloc, text, picture)?;
    text.extend_from_slice(b"\">\n</figure>\n")
}

/// Appends the bytes of a picture as its address has them.
fn push_address<A: Allocator + Copy>(
    alloc: A,
    text: &mut Vec<u8, A>,
    picture: &[u8],
) -> Result<(), AllocError>
    ensures { OnOk result (text.new.items ≡ text.old.items ++ address_text picture.now) }
{
    let address = address_of(alloc, picture)?;
    text.extend_from_slice(address.as_bytes())
}

/// The bytes of a picture as its address has them.
#[tactic(auto, unfolding(crate::specs::Pictures::address_text))]
fn address_of<A: Allocator>(alloc: A, picture: &[u8]) -> Result<String<A>, AllocError>
    ensures { IfOk result (λ address. string_bytes address ≡ address_text picture.now) }
{
    let mut address = String::new(alloc);
    STANDARD.encode_string(picture, &mut address)?;
    Ok(address)
}

/// Which page it is, and what is seen of it.
fn caption(answer: Result<Verdict, Error>) -> &'static [u8]
    ensures { result.now ≡ caption answer }
{
    match answer {
        Ok(Verdict::Pass { .. }) => b"The first page, from the first settings of the panel",
        // What a caption tells apart is known without the item.
        Ok(Verdict::Fail { finding, .. }) => failing_caption(kind_of(finding, None)),
        Err(_) => b"",
    }
}

/// What is seen of the page at which a job fails by this kind.
fn failing_caption(kind: Kind) -> &'static [u8]
    ensures { result.now ≡ failing_caption kind }
{
    match kind {
        Kind::Unchecked | Kind::Wrong | Kind::Printer => {
            b"The page at which the job fails, from the first settings of the panel"
        }
        Kind::Panel => {
            b"The page as it prints from the first settings of the panel; \
            others may print it otherwise"
        }
        Kind::Differs => {
            b"The page as it prints on this printer; the first one prints it otherwise"
        }
    }
}
