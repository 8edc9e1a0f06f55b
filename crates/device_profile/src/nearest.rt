//! Which resident face is nearest to a font that is asked for.
ghost use Rattle.std.specs.Prelude.{◌≡◌, ◌≤◌};
ghost use Rattle.std.specs.Ordering.{int_eq};
ghost use Rattle.device_profile.specs.Nearest.{
  is_same_set,
  nearer,
  nearest_request,
  part,
  parts_met,
};

use crate::font::{FontRequest, FontRow};
use std::alloc::Allocator;

fn part(met: bool) -> u64
    ensures value { result ≡ part met }
    ensures small { result ≤ 1 }
{
    if met { 1 } else { 0 }
}

fn is_same_set(a: &FontRequest, b: &FontRequest) -> bool
    ensures { result ≡ is_same_set a.now b.now }
{
    a.symbol_set.number == b.symbol_set.number && a.symbol_set.letter == b.symbol_set.letter
}

fn is_same_weight(a: &FontRequest, b: &FontRequest) -> bool
    ensures { result ≡ int_eq a.now.weight b.now.weight }
{
    a.weight == b.weight
}

/// In how many of the seven parts the two are the same.
#[tactic(auto, unfolding(crate::specs::Nearest::parts_met))]
fn parts_met(a: &FontRequest, b: &FontRequest) -> u64
    ensures { result ≡ parts_met a.now b.now }
{
    part(is_same_set(a, b))
        + part(a.spacing == b.spacing)
        + part(a.pitch == b.pitch)
        + part(a.height == b.height)
        + part(a.style == b.style)
        + part(is_same_weight(a, b))
        + part(a.typeface == b.typeface)
}

/// What is nearer to a request: this, unless the other is the same in more parts.
fn nearer(request: &FontRequest, this: Option<FontRequest>, other: FontRequest) -> FontRequest
    ensures { result ≡ nearer request.now this other }
{
    match this {
        None => other,
        Some(this) => {
            if parts_met(&this, request) < parts_met(&other, request) {
                other
            } else {
                this
            }
        }
    }
}

/// The request of the face that meets most of the seven parts of a request, of several such the
/// first, if there is a face.
pub fn nearest_request<A: Allocator>(
    faces: &[FontRow<A>],
    request: &FontRequest,
) -> Option<FontRequest>
    ensures { result ≡ nearest_request faces.now request.now }
{
    let mut nearest = None;
    for face in faces {
        nearest = Some(nearer(request, nearest, face.request()));
    }
    nearest
}
