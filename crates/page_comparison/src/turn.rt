//! How two pages go on together, in their order.

ghost use Rattle.std.specs.Prelude.{◌≡◌, ◌<◌, ◌≤◌, ◌∷◌, IfSome, IsTrue, find, length};
ghost use Rattle.std.specs.Prelude.{slice_index_or, true, unwrap_or};
ghost use Rattle.std.specs.Prelude.{if◌then◌else◌};
ghost use Rattle.page_comparison.specs.InOrder.{
  go_alike,
  is_resumed,
  leaving,
  leavings,
  nearest,
  next_near,
  run_of,
  runs,
  splits,
  turn_of,
};
ghost use Rattle.page_comparison.specs.Marks.{is_near_mark};
ghost use Rattle.page_comparison.specs.Pages.{made_mark, made_marks};

use crate::nearness::is_near;
use crate::page::PlacedMark;
use std::alloc::Allocator;

/// At most so many marks of both pages are left out together before both go on alike.
const MOST_LEFT_OUT: usize = 64;
/// So many lengths of runs of one page alone are tried behind these.
const RUNS: usize = 4032;

/// So many marks of both pages that come next are the same, or are left out.
#[derive(Clone, Copy)]
pub(crate) struct Turn {
    pub(crate) old: usize,
    pub(crate) new: usize,
    pub(crate) same: bool,
}

/// The next turn of the rests of two pages.
pub(crate) fn next_turn<A: Allocator>(
    old: &[PlacedMark<A>],
    new: &[PlacedMark<A>],
    within: u64,
) -> Turn
    ensures turn { result ≡ turn_of within (made_marks old.now) (made_marks new.now) }
    ensures old { result.old ≤ length old.now }
    ensures new { result.new ≤ length new.now }
{
    match old {
        [] => leaving(0, new.len()),
        [one, ..] => turn_from(one, old, new, within),
    }
}

/// The next turn where this is OLD's next mark.
fn turn_from<A: Allocator>(
    one: &PlacedMark<A>,
    old: &[PlacedMark<A>],
    new: &[PlacedMark<A>],
    within: u64,
) -> Turn
    requires some { 0 < length old.now }
    requires first { one.now ≡ slice_index_or old.now 0 one.now }
    ensures turn { result ≡ turn_of within (made_marks old.now) (made_marks new.now) }
    ensures old { result.old ≤ length old.now }
    ensures new { result.new ≤ length new.now }
{
    match new {
        [] => leaving(old.len(), 0),
        [other, ..] => turn_at(one, other, old, new, within),
    }
}

/// The next turn where these are the next marks.
fn turn_at<A: Allocator>(
    one: &PlacedMark<A>,
    other: &PlacedMark<A>,
    old: &[PlacedMark<A>],
    new: &[PlacedMark<A>],
    within: u64,
) -> Turn
    requires old { 0 < length old.now }
    requires new { 0 < length new.now }
    ensures turn { result ≡ (if is_near_mark within (made_mark one.now) (made_mark other.now)
        then record { old = 1; new = 1; same = true }
        else nearest within (made_marks old.now) (made_marks new.now)) }
    ensures old { result.old ≤ length old.now }
    ensures new { result.new ≤ length new.now }
{
    if is_near(&one.mark, &other.mark, within) {
        return Turn {
            old: 1,
            new: 1,
            same: true,
        };
    }
    nearest(old, new, within)
}

/// So many marks are left out.
fn leaving(old: usize, new: usize) -> Turn
    ensures { result ≡ leaving old new }
{
    Turn {
        old,
        new,
        same: false,
    }
}

/// The nearest way to go on alike, or else the next two marks are a pair.
#[tactic(auto, unfolding(crate::specs::InOrder::nearest))]
fn nearest<A: Allocator>(old: &[PlacedMark<A>], new: &[PlacedMark<A>], within: u64) -> Turn
    requires old { 0 < length old.now }
    requires new { 0 < length new.now }
    ensures turn { result ≡ nearest within (made_marks old.now) (made_marks new.now) }
    ensures old { result.old ≤ length old.now }
    ensures new { result.new ≤ length new.now }
{
    match first_resumed(old, new, within, MOST_LEFT_OUT) {
        Some(turn) => turn,
        None => nearest_run(old, new, within),
    }
}

/// The nearest way that leaves out marks of one page alone, more than `MOST_LEFT_OUT`, or else the
/// next two marks are a pair.
fn nearest_run<A: Allocator>(old: &[PlacedMark<A>], new: &[PlacedMark<A>], within: u64) -> Turn
    requires old { 0 < length old.now }
    requires new { 0 < length new.now }
    ensures turn { result ≡ unwrap_or
        (find (is_resumed within (made_marks old.now) (made_marks new.now)) (runs 65 4032))
        (leaving 1 1) }
    ensures old { result.old ≤ length old.now }
    ensures new { result.new ≤ length new.now }
{
    match first_run(old, new, within, RUNS) {
        Some(turn) => turn,
        None => leaving(1, 1),
    }
}

/// The first of so many ways that leave out more than `MOST_LEFT_OUT` marks of one page alone.
fn first_run<A: Allocator>(
    old: &[PlacedMark<A>],
    new: &[PlacedMark<A>],
    within: u64,
    most: usize,
) -> Option<Turn>
    requires { most < 10000 }
    ensures found { result ≡ find (is_resumed within (made_marks old.now) (made_marks new.now))
        (runs 65 most) }
    ensures fits { IfSome result (λ turn.
        (turn.old ≤ length old.now) × (turn.new ≤ length new.now)) }
{
    for before in 0..most {
        let found = run_by(old, new, within, before + 65);
        match found {
            None => {}
            Some(turn) => return Some(turn),
        }
    }
    None
}

/// The first way to go on alike by so many marks of one page alone.
fn run_by<A: Allocator>(
    old: &[PlacedMark<A>],
    new: &[PlacedMark<A>],
    within: u64,
    many: usize,
) -> Option<Turn>
    ensures found { result ≡ find (is_resumed within (made_marks old.now) (made_marks new.now))
        (run_of many) }
    ensures fits { IfSome result (λ turn.
        (turn.old ≤ length old.now) × (turn.new ≤ length new.now)) }
{
    let turn = leaving(0, many);
    if is_resumed(old, new, turn, within) {
        return Some(turn);
    }
    last_way(old, new, within, many)
}

/// The first way to go on alike, by at most so many marks that are left out together.
fn first_resumed<A: Allocator>(
    old: &[PlacedMark<A>],
    new: &[PlacedMark<A>],
    within: u64,
    most: usize,
) -> Option<Turn>
    requires { most < 1000 }
    ensures found { result ≡ find (is_resumed within (made_marks old.now) (made_marks new.now))
        (leavings 1 most) }
    ensures fits { IfSome result (λ turn.
        (turn.old ≤ length old.now) × (turn.new ≤ length new.now)) }
{
    for before in 0..most {
        let found = resumed_by(old, new, within, before + 1);
        match found {
            None => {}
            Some(turn) => return Some(turn),
        }
    }
    None
}

/// The first way to go on alike by so many marks that are left out together.
fn resumed_by<A: Allocator>(
    old: &[PlacedMark<A>],
    new: &[PlacedMark<A>],
    within: u64,
    together: usize,
) -> Option<Turn>
    ensures found { result ≡ find (is_resumed within (made_marks old.now) (made_marks new.now))
        (splits 0 together) }
    ensures fits { IfSome result (λ turn.
        (turn.old ≤ length old.now) × (turn.new ≤ length new.now)) }
{
    for count in 0..together {
        let turn = leaving(count, together - count);
        if is_resumed(old, new, turn, within) {
            return Some(turn);
        }
    }
    last_way(old, new, within, together)
}

/// The way that leaves so many marks of OLD out and none of NEW.
fn last_way<A: Allocator>(
    old: &[PlacedMark<A>],
    new: &[PlacedMark<A>],
    within: u64,
    together: usize,
) -> Option<Turn>
    ensures found { result ≡ (if is_resumed within (made_marks old.now) (made_marks new.now)
        (leaving together 0) then Some (leaving together 0) else None) }
    ensures fits { IfSome result (λ turn.
        (turn.old ≤ length old.now) × (turn.new ≤ length new.now)) }
{
    let turn = leaving(together, 0);
    if is_resumed(old, new, turn, within) {
        Some(turn)
    } else {
        None
    }
}

/// Whether there are so many marks to be left out, and both pages go on alike behind them.
fn is_resumed<A: Allocator>(
    old: &[PlacedMark<A>],
    new: &[PlacedMark<A>],
    turn: Turn,
    within: u64,
) -> bool
    ensures value { result ≡ is_resumed within (made_marks old.now) (made_marks new.now) turn }
    ensures fits { IsTrue result → (turn.old ≤ length old.now) × (turn.new ≤ length new.now) }
{
    if old.len() < turn.old {
        return false;
    }
    if new.len() < turn.new {
        return false;
    }
    go_alike(&old[turn.old..], &new[turn.new..], within)
}

/// Whether the next two marks of both are near, as far as both have them.
fn go_alike<A: Allocator>(old: &[PlacedMark<A>], new: &[PlacedMark<A>], within: u64) -> bool
    ensures { result ≡ go_alike within (made_marks old.now) (made_marks new.now) }
{
    match old {
        [] => new.is_empty(),
        [one, rest @ ..] => alike_from(one, rest, new, within),
    }
}

/// The same where OLD has this mark before the others.
fn alike_from<A: Allocator>(
    one: &PlacedMark<A>,
    old: &[PlacedMark<A>],
    new: &[PlacedMark<A>],
    within: u64,
) -> bool
    ensures { result ≡ go_alike within (made_mark one.now ∷ made_marks old.now)
        (made_marks new.now) }
{
    match new {
        [] => false,
        [other, rest @ ..] => {
            is_near(&one.mark, &other.mark, within) && next_near(old, rest, within)
        }
    }
}

/// Whether the next marks are near, where both have one.
fn next_near<A: Allocator>(old: &[PlacedMark<A>], new: &[PlacedMark<A>], within: u64) -> bool
    ensures { result ≡ next_near within (made_marks old.now) (made_marks new.now) }
{
    match old {
        [] => true,
        [one, ..] => near_from(one, old, new, within),
    }
}

/// The same where this is OLD's next mark.
fn near_from<A: Allocator>(
    one: &PlacedMark<A>,
    old: &[PlacedMark<A>],
    new: &[PlacedMark<A>],
    within: u64,
) -> bool
    requires some { 0 < length old.now }
    requires first { one.now ≡ slice_index_or old.now 0 one.now }
    ensures { result ≡ next_near within (made_marks old.now) (made_marks new.now) }
{
    match new {
        [] => true,
        [other, ..] => is_near(&one.mark, &other.mark, within),
    }
}
