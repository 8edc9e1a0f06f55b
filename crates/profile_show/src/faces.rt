//! What is shown of the resident faces.
ghost use Rattle.std.specs.Prelude.{◌≡◌, ◌++◌, OnOk, None, flat_map};
ghost use Rattle.std.specs.Option.{option_copied};
ghost use Rattle.profile_show.specs.Faces.{
  face_lines,
  face_words,
  faces_lines,
  heading_behind,
  heading_lines,
  is_alike,
  is_same_cut,
  lines_behind,
  metric,
  metrics_line,
  other_range,
  range_words,
  ranges_words,
  set_line,
};

use crate::figures::push_7200ths;
use crate::label::Label;
use crate::words::{push_cut, push_set};
use device_profile::{CodeRange, FontRequest, FontRow, Profile};
use shown_bytes::push_number;
use std::alloc::{AllocError, Allocator};
use tick_length::Length;

/// Appends the faces.
#[tactic(auto, unfolding(crate::specs::Faces::faces_lines))]
pub(crate) fn push_faces<A: Allocator, P: Allocator>(
    text: &mut Vec<u8, A>,
    profile: &Profile<P>,
) -> Result<(), AllocError>
    ensures { OnOk result (text.new.items ≡ text.old.items ++ faces_lines profile.now.faces) }
{
    text.extend_from_slice(b"faces:\n")?;
    push_each(text, profile.faces())
}

/// Appends faces.
fn push_each<A: Allocator, P: Allocator>(
    text: &mut Vec<u8, A>,
    faces: &[FontRow<P>],
) -> Result<(), AllocError>
    ensures { OnOk result (text.new.items ≡ text.old.items ++ lines_behind None faces.now) }
{
    let mut last_face = None;
    for face in faces {
        push_face(text, last_face, face)?;
        last_face = Some(face);
    }
    Ok(())
}

/// Appends a face behind another.
#[tactic(auto, unfolding(crate::specs::Faces::face_lines))]
fn push_face<A: Allocator, P: Allocator>(
    text: &mut Vec<u8, A>,
    last_face: Option<&FontRow<P>>,
    face: &FontRow<P>,
) -> Result<(), AllocError>
    ensures { OnOk result (text.new.items ≡
        text.old.items ++ face_lines (option_copied last_face.entry) face.now) }
{
    push_heading_behind(text, last_face, face)?;
    push_set_line(text, face)
}

/// Appends the heading of a face, unless it is like the one before.
#[tactic(auto, unfolding(crate::specs::Faces::heading_behind))]
fn push_heading_behind<A: Allocator, P: Allocator>(
    text: &mut Vec<u8, A>,
    last_face: Option<&FontRow<P>>,
    face: &FontRow<P>,
) -> Result<(), AllocError>
    ensures { OnOk result (text.new.items ≡
        text.old.items ++ heading_behind (option_copied last_face.entry) face.now) }
{
    match last_face {
        Some(last_face) if is_alike(face, last_face) => Ok(()),
        _ => push_heading(text, face),
    }
}

/// Whether two requests are alike in all that selects a font but the symbol set.
fn is_same_cut(a: &FontRequest, b: &FontRequest) -> bool
    ensures { result ≡ is_same_cut a.now b.now }
{
    a.typeface == b.typeface
        && a.style == b.style
        && a.weight == b.weight
        && a.pitch == b.pitch
        && a.height == b.height
}

/// Whether two faces share a heading: they are of one cut, and their characters lie alike.
#[tactic(auto, unfolding(crate::specs::Faces::is_alike))]
fn is_alike<P: Allocator>(a: &FontRow<P>, b: &FontRow<P>) -> bool
    ensures { result ≡ is_alike a.now b.now }
{
    is_same_cut(&a.request(), &b.request())
        && a.advance() == b.advance()
        && a.ascent() == b.ascent()
        && a.descent() == b.descent()
}

/// Appends what faces that are alike share.
#[tactic(auto, unfolding(crate::specs::Faces::heading_lines))]
fn push_heading<A: Allocator, P: Allocator>(
    text: &mut Vec<u8, A>,
    face: &FontRow<P>,
) -> Result<(), AllocError>
    ensures { OnOk result (text.new.items ≡ text.old.items ++ heading_lines face.now) }
{
    text.extend_from_slice(b"  ")?;
    push_cut(text, &face.request())?;
    text.extend_from_slice(b"\n")?;
    push_metrics(text, face)
}

/// Appends how far a character moves the cursor, and how far it reaches up and down.
#[tactic(auto, unfolding(crate::specs::Faces::metrics_line))]
fn push_metrics<A: Allocator, P: Allocator>(
    text: &mut Vec<u8, A>,
    face: &FontRow<P>,
) -> Result<(), AllocError>
    ensures { OnOk result (text.new.items ≡ text.old.items ++ metrics_line face.now) }
{
    push_metric(text, Label::Advance, face.advance())?;
    push_metric(text, Label::Ascent, face.ascent())?;
    push_metric(text, Label::Descent, face.descent())?;
    text.extend_from_slice(Label::Per7200.words())
}

/// Appends a length of a character.
#[tactic(auto, unfolding(crate::specs::Faces::metric))]
fn push_metric<A: Allocator>(
    text: &mut Vec<u8, A>,
    name: Label,
    length: Length,
) -> Result<(), AllocError>
    ensures { OnOk result (text.new.items ≡ text.old.items ++ metric name length) }
{
    text.extend_from_slice(name.words())?;
    push_7200ths(text, length)
}

/// Appends the id of a face, and its symbol set.
#[tactic(auto, unfolding(crate::specs::Faces::face_words))]
fn push_face_words<A: Allocator, P: Allocator>(
    text: &mut Vec<u8, A>,
    face: &FontRow<P>,
) -> Result<(), AllocError>
    ensures { OnOk result (text.new.items ≡ text.old.items ++ face_words face.now) }
{
    text.extend_from_slice(b"    face ")?;
    push_number(text, u64::from(face.id()))?;
    text.extend_from_slice(b", ")?;
    push_set(text, face.request().symbol_set)
}

/// Appends the id of a face, its symbol set, and the codes that print.
#[tactic(auto, unfolding(crate::specs::Faces::set_line))]
fn push_set_line<A: Allocator, P: Allocator>(
    text: &mut Vec<u8, A>,
    face: &FontRow<P>,
) -> Result<(), AllocError>
    ensures { OnOk result (text.new.items ≡ text.old.items ++ set_line face.now) }
{
    push_face_words(text, face)?;
    text.extend_from_slice(b": ")?;
    push_ranges(text, face.codes())?;
    text.extend_from_slice(b"\n")
}

/// Appends ranges of codes.
fn push_ranges<A: Allocator>(text: &mut Vec<u8, A>, ranges: &[CodeRange]) -> Result<(), AllocError>
    ensures { OnOk result (text.new.items ≡ text.old.items ++ ranges_words ranges.now) }
{
    let [first, more @ ..] = ranges else {
        return text.extend_from_slice(b"none");
    };
    push_range(text, *first)?;
    push_other_ranges(text, more)
}

/// Appends ranges of codes behind another.
fn push_other_ranges<A: Allocator>(
    text: &mut Vec<u8, A>,
    ranges: &[CodeRange],
) -> Result<(), AllocError>
    ensures { OnOk result (text.new.items ≡ text.old.items ++ flat_map other_range ranges.now) }
{
    for range in ranges {
        push_other_range(text, *range)?;
    }
    Ok(())
}

/// Appends a range of codes behind another.
#[tactic(auto, unfolding(crate::specs::Faces::other_range))]
fn push_other_range<A: Allocator>(text: &mut Vec<u8, A>, range: CodeRange) -> Result<(), AllocError>
    ensures { OnOk result (text.new.items ≡ text.old.items ++ other_range range) }
{
    text.extend_from_slice(b",")?;
    push_range(text, range)
}

/// Appends codes from the first to the last.
#[tactic(auto, unfolding(crate::specs::Faces::range_words))]
fn push_range<A: Allocator>(text: &mut Vec<u8, A>, range: CodeRange) -> Result<(), AllocError>
    ensures { OnOk result (text.new.items ≡ text.old.items ++ range_words range) }
{
    push_number(text, u64::from(range.first))?;
    text.extend_from_slice(b"-")?;
    push_number(text, u64::from(range.last))
}
