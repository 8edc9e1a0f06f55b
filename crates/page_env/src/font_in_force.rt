//! The font in force.

ghost use Rattle.std.specs.Prelude.{◌≡◌};
ghost use Rattle.page_env.specs.Settings.{state_at};
ghost use Rattle.page_env.specs.Effect.{ReadsFields};
ghost use Rattle.page_env.specs.FontInForce.{are_set, no_request, request_at, with_parts};
ghost use Rattle.page_env.specs.FontInForce.{request_of, font_reads};

use crate::page::{FontParts, Page};
use device_profile::{Field, FontRequest, Panel, Profile, SymbolSet};
use std::alloc::Allocator;

/// Whether the job has set every part.
fn are_set(parts: &FontParts) -> bool
    ensures { result ≡ are_set parts.now }
{
    parts.symbol_set.is_some()
        && parts.spacing.is_some()
        && parts.pitch.is_some()
        && parts.height.is_some()
        && parts.style.is_some()
        && parts.weight.is_some()
        && parts.typeface.is_some()
}

/// A request that no face answers.
fn no_request() -> FontRequest
    ensures { result ≡ no_request }
{
    FontRequest {
        symbol_set: SymbolSet {
            number: 0,
            letter: 0,
        },
        spacing: 1,
        pitch: 0,
        height: 0,
        style: 0,
        weight: 0,
        typeface: 0,
    }
}

/// A request with the parts that are set in place of its own.
fn with_parts(parts: &FontParts, request: FontRequest) -> FontRequest
    ensures { result ≡ with_parts parts.now request }
{
    FontRequest {
        symbol_set: parts.symbol_set.unwrap_or(request.symbol_set),
        spacing: parts.spacing.unwrap_or(request.spacing),
        pitch: parts.pitch.unwrap_or(request.pitch),
        height: parts.height.unwrap_or(request.height),
        style: parts.style.unwrap_or(request.style),
        weight: parts.weight.unwrap_or(request.weight),
        typeface: parts.typeface.unwrap_or(request.typeface),
    }
}

/// What the face with this id answers.
fn request_at<A: Allocator>(profile: &Profile<A>, id: u32) -> FontRequest
    ensures { result ≡ request_at profile.now.faces id }
{
    match profile.face(id) {
        Some(face) => face.request(),
        None => no_request(),
    }
}

/// The request in force, if it is known whatever the panel.
#[inline(always)]
pub fn font_request<A: Allocator>(profile: &Profile<A>, page: &Page) -> Result<FontRequest, Field>
    ensures { ReadsFields page.now.env (font_reads page.now.env.job.font)
        (λ panel. request_of profile.now (state_at panel page.now)) result }
{
    let parts = &page.env.job.font;
    if are_set(parts) {
        return Ok(with_parts(parts, no_request()));
    }
    let font = page.env.fields.font.known(Field::Font)?;
    Ok(with_parts(parts, request_at(profile, font)))
}

/// The request in force where the panel is this one.
pub fn request_under<A: Allocator>(profile: &Profile<A>, page: &Page, panel: &Panel) -> FontRequest
    ensures { result ≡ request_of profile.now (state_at panel.now page.now) }
{
    let font = page.env.fields.font.under(panel.font);
    with_parts(&page.env.job.font, request_at(profile, font))
}
