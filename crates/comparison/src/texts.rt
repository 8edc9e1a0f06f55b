//! Lines of text that stand next in both jobs: where they print the same in both, they are carried
//! out at once, and no mark is kept.

ghost use Rattle.std.specs.Prelude.{◌≡◌, ◌<◌, ◌≤◌, [], IfSome, IsFalse, IsTrue, None, length, take};
ghost use Rattle.std.specs.Prelude.{true};
ghost use Rattle.page_env.specs.declared.text_lines.TextAppearance.{TextAppearance};
ghost use Rattle.page_env.specs.TextMeasure.{AreLinesFrom};
ghost use Rattle.comparison.specs.Comparing.{StepCompares};
ghost use Rattle.comparison.specs.Running.{is_open, work};
ghost use Rattle.comparison.specs.Texts.{AreLinesOfBoth, GoInBoth, GoNext};
ghost use Rattle.comparison.specs.Together.{CountsOn};
ghost use Rattle.streams.specs.Source.{SourceState};

use crate::difference::Spot;
use crate::follower::Follower;
use crate::running_job::RunningJob;
use page_env::{TextLines, TextMeasure, TextPlace};
use std::alloc::Allocator;

/// Has a job that is carried out for both carry out the lines of text that stand next, and tells
/// whether some do.
pub(crate) fn count_lines<A: Allocator + Copy, P: Allocator>(
    job: &mut RunningJob<'_, A, P>,
    spot: &mut Spot,
) -> bool
    requires { is_open job.old.progress ≡ true }
    ensures counted { IsTrue result → CountsOn job.old job.new spot.old spot.new }
    ensures less { IsTrue result → work job.new < work job.old }
    ensures none { IsTrue result → job.new.events ≡ [] }
    ensures same { IsFalse result → job.new ≡ job.old }
    ensures spot_same { IsFalse result → spot.new ≡ spot.old }
    ensures number { job.new.number ≡ job.old.number }
{
    let Some(text) = lines_next(job) else {
        return false;
    };
    job.pass_lines(&text);
    spot.count_marks(text.glyphs);
    true
}

/// The lines of text that stand next in a job.
fn lines_next<A: Allocator + Copy, P: Allocator>(job: &RunningJob<'_, A, P>) -> Option<TextLines>
    ensures { IfSome result (λ lines. (look : TextAppearance) × (from : TextPlace) ×
        GoNext look from lines job.now) }
{
    if !job.has_text_next() {
        return None;
    }
    let (measure, from) = job.text_measure()?;
    let lines = measure.lines_ahead(from, job.ahead());
    if lines.count == 0 {
        return None;
    }
    Some(lines)
}

/// Has both jobs carry out the lines of text that stand next in both, where these print the same in
/// both, and tells whether they did.
pub(crate) fn pass_same_lines<A: Allocator + Copy, P: Allocator>(
    first: &mut RunningJob<'_, A, P>,
    second: &mut Follower<'_, A, P>,
    spot: &mut Spot,
) -> bool
    requires { is_open first.old.progress ≡ true }
    ensures compared { IsTrue result → (old_now new_now : SourceState) →
        StepCompares old_now old_now new_now new_now first.old first.new spot.old spot.new
        second.old second.new None }
    ensures less { IsTrue result → work first.new < work first.old }
    ensures first_same { IsFalse result → first.new ≡ first.old }
    ensures second_same { IsFalse result → second.new ≡ second.old }
    ensures spot_same { IsFalse result → spot.new ≡ spot.old }
    ensures old_number { first.new.number ≡ first.old.number }
    ensures new_number { second.new.run.number ≡ second.old.run.number }
{
    let Some(lines) = same_lines(first, second) else {
        return false;
    };
    first.pass_lines(&lines);
    second.pass_lines(&lines);
    spot.count_marks(lines.glyphs);
    true
}

/// The lines of text that stand next in both jobs and print the same in both, where the one that
/// follows has nothing left to compare.
fn same_lines<A: Allocator + Copy, P: Allocator>(
    first: &RunningJob<'_, A, P>,
    second: &Follower<'_, A, P>,
) -> Option<TextLines>
    ensures { IfSome result (λ lines. GoInBoth lines first.now second.now) }
{
    if !first.has_text_next() {
        return None;
    }
    if !second.lacks_next() {
        return None;
    }
    let other = second.job();
    let (measure, from) = first.text_measure()?;
    let (own, at) = other.text_measure()?;
    if at != from {
        return None;
    }
    lines_of_both(&measure, &own, &from, first.ahead(), other.ahead())
}

/// The first bytes of both that are the same, and go from a place by both measures with one look.
fn lines_of_both<P: Allocator>(
    one: &TextMeasure<'_, P>,
    other: &TextMeasure<'_, P>,
    from: &TextPlace,
    bytes: &[u8],
    others: &[u8],
) -> Option<TextLines>
    ensures { IfSome result (λ lines. AreLinesOfBoth one.now other.now from.now
        bytes.now others.now lines) }
{
    let most = one.lines_ahead(*from, bytes);
    let same = same_count(&bytes[..most.count], others);
    let count = other.alike(one, *from, &bytes[..same])?;
    let lines = lines_up_to(one, from, bytes, &most, count);
    if lines.count == 0 {
        return None;
    }
    Some(lines)
}

/// The lines of so many of the first bytes, of which more go.
fn lines_up_to<P: Allocator>(
    measure: &TextMeasure<'_, P>,
    from: &TextPlace,
    bytes: &[u8],
    most: &TextLines,
    count: usize,
) -> TextLines
    requires lines { AreLinesFrom measure.now from.now bytes.now most.now }
    requires few { count ≤ most.now.count }
    ensures lines { AreLinesFrom measure.now from.now bytes.now result }
    ensures few { result.count ≤ count }
{
    if count == most.count {
        return *most;
    }
    measure.lines_ahead(*from, &bytes[..count])
}

/// How many of the first bytes are the same.
fn same_count(one: &[u8], other: &[u8]) -> usize
    ensures one { result ≤ length one.now }
    ensures other { result ≤ length other.now }
    ensures same { take result one.now ≡ take result other.now }
{
    let most = one.len().min(other.len());
    if one[..most] == other[..most] {
        return most;
    }
    let mut count = 0;
    'bytes: while count < most {
        if one[count] != other[count] {
            return count;
        }
        count += 1;
    }
    count
}
