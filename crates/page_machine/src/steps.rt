//! Steps: what carries out an item or a part of one without the closing of a page and without a
//! macro.

ghost use Rattle.std.specs.Prelude.{ℤ, List, Option, Ok, ◌≡◌, ◌≤◌, length};
ghost use Rattle.device_profile.specs.declared.panel.Panel.{Panel};
ghost use Rattle.page_env.specs.Answers.{marked_at};
ghost use Rattle.page_env.specs.Effect.{Effect, Goes};
ghost use Rattle.page_env.specs.Mark.{Shape, areas_of, characters_of, lines_of, shapes_of};
ghost use Rattle.page_env.specs.Settings.{state_at};
ghost use Rattle.page_env.specs.declared.page.Page.{Page};
ghost use Rattle.page_env.specs.Table.{page_end_of};
ghost use Rattle.pcl_items.specs.declared.pcl.command.DataCommand.TheVariants.{
  RasterRow as RasterRowCommand,
};
ghost use Rattle.pcl_items.specs.declared.pcl.command.Command.TheVariants.{FillRectangle};
ghost use Rattle.pcl_items.specs.Items.{Move, Parameterized, Text, WithData, amount, pair, view};
ghost use Rattle.page_machine.specs.Run.{unmoved, effect_run, Conditions, byte_run, printing};
ghost use Rattle.page_machine.specs.Run.{move_run, own_run, begun_run};
ghost use Rattle.page_machine.specs.Macros.{ended};
ghost use Rattle.page_machine.specs.Follows.{Follows};
ghost use Rattle.page_machine.specs.Still.{FoundBy, NeverFinds, StillFound};
ghost use Rattle.page_machine.specs.Machine.{RunsAtOnce};

use crate::sink::MarkSink;
use device_profile::Profile;
use page_env::{
    Action, Area, CommandAction, Finding, Glyph, Mark, Page, PageEnd, PageItem, PenLine,
    begin_command, begin_item, carry_out, carry_out_motion, carry_out_usual_command,
    fill_rectangle, move_pen, print_byte, print_row, print_transparent,
};
use pcl_items::{Command, Coordinates, Data, DataCommand, Item, Motion, Number};
use std::alloc::Allocator;

/// Why an item was not carried out to its end.
#[derive(Drop)]
pub enum Interruption<F> {
    Found(Finding),
    Refused(F),
}

/// Hands over the end of the page; the next page is unmarked, and the cursor is at home.
pub(crate) fn end_page<S: MarkSink>(
    page: &mut Page,
    end: PageEnd,
    sink: &mut S,
) -> Result<(), Interruption<S::Fault>>
    requires { (panel : Panel) → page_end_of (state_at panel page.old) ≡ end }
    ensures { Follows S.takes S.refuses (λ panel. ended (state_at panel page.old))
        sink.old sink.new page.new result }
{
    match sink.page(end) {
        Err(fault) => Err(Interruption::Refused(fault)),
        Ok(()) => {
            page.cursor.y = None;
            page.marked = false;
            page.raster = None;
            Ok(())
        }
    }
}

/// What a step answers that may mark, but for a row, which is a mark itself.
trait Marking<'a> {
    /// Its marks, at most one.
    ghost shapes: { Self → List Shape };

    /// The mark, if there is one.
    fn mark(self) -> Option<Mark<'a>>
        ensures { shapes_of result ≡ shapes self };
}

impl<'a> Marking<'a> for Option<Glyph> {
    ghost shapes = { characters_of };

    #[inline(always)]
    fn mark(self) -> Option<Mark<'a>> {
        match self {
            None => None,
            Some(glyph) => Some(Mark::Glyph(glyph)),
        }
    }
}

impl<'a> Marking<'a> for Option<PenLine> {
    ghost shapes = { lines_of };

    #[inline(always)]
    fn mark(self) -> Option<Mark<'a>> {
        match self {
            None => None,
            Some(line) => Some(Mark::Line(line)),
        }
    }
}

impl<'a> Marking<'a> for Area {
    ghost shapes = { areas_of };

    #[inline(always)]
    fn mark(self) -> Option<Mark<'a>> {
        Some(Mark::Rect(self))
    }
}

/// The mark of an answer.
#[inline(always)]
fn marked<'a, T: Marking<'a>>(answer: Result<T, Finding>) -> Result<Option<Mark<'a>>, Finding>
    ensures { (panel : Panel) (page : Page) → marked_at T.shapes panel page answer ≡
        marked_at shapes_of panel page result }
{
    match answer {
        Err(finding) => Err(finding),
        Ok(answer) => Ok(answer.mark()),
    }
}

/// Hands over a mark, if there is one.
#[inline(always)]
fn hand_over_mark<S: MarkSink>(
    mark: &Option<Mark<'_>>,
    page: &Page,
    sink: &mut S,
) -> Result<(), Interruption<S::Fault>>
    ensures run { (conditions : Panel → Conditions) (effect : Panel → Effect) →
        ((panel : Panel) → effect panel ≡ Goes (state_at panel page.now) (shapes_of mark.now)) →
        Follows S.takes S.refuses (λ panel. effect_run (conditions panel) (effect panel))
        sink.old sink.new page.now result }
    ensures never { NeverFinds result }
{
    match mark {
        None => Ok(()),
        Some(mark) => match sink.mark(mark) {
            Err(fault) => Err(Interruption::Refused(fault)),
            Ok(()) => Ok(()),
        },
    }
}

/// Hands over what a step marked.
// Inlined, so that no mark is put together for a sink that only counts.
#[inline(always)]
fn hand_over<S: MarkSink>(
    marked: &Result<Option<Mark<'_>>, Finding>,
    page: &Page,
    sink: &mut S,
) -> Result<(), Interruption<S::Fault>>
    ensures run { (conditions : Panel → Conditions) (effect : Panel → Effect) →
        ((panel : Panel) → effect panel ≡ marked_at shapes_of panel page.now marked.now) →
        Follows S.takes S.refuses (λ panel. effect_run (conditions panel) (effect panel))
        sink.old sink.new page.now result }
    ensures found { FoundBy marked.now result }
{
    match marked {
        Err(finding) => Err(Interruption::Found(*finding)),
        Ok(mark) => hand_over_mark(mark, page, sink),
    }
}

/// Prints a byte of text.
// A call of its own: most text goes in runs, and other items pay for what is put together here.
#[inline(never)]
fn run_text<S: MarkSink, A: Allocator>(
    profile: &Profile<A>,
    code: u8,
    page: &mut Page,
    sink: &mut S,
) -> Result<(), Interruption<S::Fault>>
    ensures run { (conditions : Panel → Conditions) → Follows S.takes S.refuses
        (λ panel. begun_run profile.now (conditions panel) (Text code) (state_at panel page.old))
        sink.old sink.new page.new result }
    ensures still { StillFound page.old page.new result }
{
    let printed = marked(print_byte(profile, page, code));
    hand_over(&printed, page, sink)
}

/// Prints a byte of transparent print data.
fn run_byte<S: MarkSink, A: Allocator>(
    profile: &Profile<A>,
    code: u8,
    page: &mut Page,
    sink: &mut S,
) -> Result<(), Interruption<S::Fault>>
    ensures { (conditions : Panel → Conditions) → Follows S.takes S.refuses
        (λ panel. byte_run profile.now (conditions panel) code (state_at panel page.old))
        sink.old sink.new page.new result }
{
    let printed = marked(print_transparent(profile, page, code));
    hand_over(&printed, page, sink)
}

/// Prints bytes of transparent print data one after another.
#[inline(never)]
fn run_bytes<S: MarkSink, A: Allocator>(
    profile: &Profile<A>,
    bytes: &[u8],
    page: &mut Page,
    sink: &mut S,
) -> Result<(), Interruption<S::Fault>>
    ensures { (conditions : Panel → Conditions) → Follows S.takes S.refuses
        (λ panel. printing profile.now (conditions panel) (unmoved (state_at panel page.old))
        bytes.now)
        sink.old sink.new page.new result }
{
    for code in bytes {
        run_byte(profile, *code, page, sink)?;
    }
    Ok(())
}

/// Prints a row of a raster.
// A call of its own, as `run_text` is.
#[inline(never)]
fn run_row<S: MarkSink, A: Allocator>(
    profile: &Profile<A>,
    bytes: &[u8],
    page: &mut Page,
    sink: &mut S,
) -> Result<(), Interruption<S::Fault>>
    requires { length bytes.now ≤ 32767 }
    ensures run { (conditions : Panel → Conditions) → Follows S.takes S.refuses
        (λ panel. begun_run profile.now (conditions panel) (WithData RasterRowCommand bytes.now)
        (state_at panel page.old))
        sink.old sink.new page.new result }
    ensures still { StillFound page.old page.new result }
{
    let printed = print_row(profile, page, bytes);
    hand_over(&printed, page, sink)
}

/// Prints the data of a command.
// It matches the answers of its calls, and is inlined: so other items clear no room for one.
#[inline(always)]
fn run_data<S: MarkSink, A: Allocator>(
    profile: &Profile<A>,
    command: DataCommand,
    lent: Data<'_>,
    page: &mut Page,
    sink: &mut S,
) -> Result<(), Interruption<S::Fault>>
    ensures run { (conditions : Panel → Conditions) → Follows S.takes S.refuses
        (λ panel. begun_run profile.now (conditions panel) (WithData command lent.entry.bytes.now)
        (state_at panel page.old))
        sink.old sink.new page.new result }
    ensures still { command ≡ RasterRowCommand → StillFound page.old page.new result }
{
    match command {
        DataCommand::TransparentText => {
            run_bytes(profile, lent.bytes, page, sink)?;
            Ok(())
        }
        DataCommand::RasterRow => {
            run_row(profile, lent.bytes, page, sink)?;
            Ok(())
        }
    }
}

/// Carries out the own step of a command that moves the pen.
fn run_own_motion<S: MarkSink, A: Allocator>(
    profile: &Profile<A>,
    motion: Motion,
    page: &mut Page,
    sink: &mut S,
) -> Result<(), Interruption<S::Fault>>
    ensures { (to : Option (ℤ × ℤ)) (conditions : Panel → Conditions) → Follows S.takes S.refuses
        (λ panel. own_run profile.now (conditions panel) (Move motion to) (state_at panel page.old))
        sink.old sink.new page.new result }
{
    let drawn = marked(carry_out_motion(profile, page, motion));
    hand_over(&drawn, page, sink)
}

/// Moves the pen to a pair of coordinates.
fn run_move<S: MarkSink, A: Allocator>(
    profile: &Profile<A>,
    to: Coordinates,
    page: &mut Page,
    sink: &mut S,
) -> Result<(), Interruption<S::Fault>>
    ensures { (conditions : Panel → Conditions) → Follows S.takes S.refuses
        (λ panel. move_run profile.now (conditions panel) (to.x.units, to.y.units)
        (state_at panel page.old))
        sink.old sink.new page.new result }
{
    let drawn = marked(move_pen(profile, page, to));
    hand_over(&drawn, page, sink)
}

/// Carries out a command that moves the pen: its own step, and then the move to its coordinates.
// A call of its own, as `run_text` is.
#[inline(never)]
fn move_and_draw<S: MarkSink, A: Allocator>(
    profile: &Profile<A>,
    motion: Motion,
    to: Option<Coordinates>,
    page: &mut Page,
    sink: &mut S,
) -> Result<(), Interruption<S::Fault>>
    ensures { (conditions : Panel → Conditions) → Follows S.takes S.refuses
        (λ panel. begun_run profile.now (conditions panel) (Move motion (pair to))
        (state_at panel page.old))
        sink.old sink.new page.new result }
{
    run_own_motion(profile, motion, page, sink)?;
    match to {
        None => Ok(()),
        Some(to) => run_move(profile, to, page, sink),
    }
}

/// Carries out a command that moves the pen.
// It matches the answer of a call, as `run_data` does.
#[inline(always)]
fn run_motion<S: MarkSink, A: Allocator>(
    profile: &Profile<A>,
    motion: Motion,
    to: Option<Coordinates>,
    page: &mut Page,
    sink: &mut S,
) -> Result<(), Interruption<S::Fault>>
    ensures { (conditions : Panel → Conditions) → Follows S.takes S.refuses
        (λ panel. begun_run profile.now (conditions panel) (Move motion (pair to))
        (state_at panel page.old))
        sink.old sink.new page.new result }
{
    match move_and_draw(profile, motion, to, page, sink) {
        Ok(()) => Ok(()),
        Err(halt) => Err(halt),
    }
}

/// Fills a rectangle, and hands over its mark.
// Inlined, so that a sink that only counts has no mark put together.
#[inline(always)]
fn run_fill<S: MarkSink, A: Allocator>(
    profile: &Profile<A>,
    n: Number,
    page: &mut Page,
    sink: &mut S,
) -> Result<(), Interruption<S::Fault>>
    ensures run { (conditions : Panel → Conditions) → Follows S.takes S.refuses
        (λ panel. begun_run profile.now (conditions panel) (Parameterized FillRectangle (amount n))
        (state_at panel page.old))
        sink.old sink.new page.new result }
    ensures still { StillFound page.old page.new result }
{
    let filled = marked(fill_rectangle(profile, page, n));
    hand_over(&filled, page, sink)
}

/// Why a step that found something was not carried out.
// The call is rare, and keeps LLVM from choosing an answer for each step that found nothing.
#[inline(never)]
fn halted<F>(finding: Finding) -> Interruption<F>
    ensures { result ≡ Interruption.Found finding }
{
    Interruption::Found(finding)
}

/// How far an item was carried out at once.
pub(crate) enum Ran<F> {
    /// To its end.
    Ended(Result<(), Interruption<F>>),
    /// It has begun. It may close the page, and nothing of it is done.
    Left(PageItem),
}

/// Carries out a command to its end, unless it may close the page.
#[inline(always)]
pub(crate) fn run_command<S: MarkSink, A: Allocator>(
    profile: &Profile<A>,
    command: Command,
    n: Number,
    page: &mut Page,
    sink: &mut S,
) -> Ran<S::Fault>
    ensures { RunsAtOnce S.takes S.refuses profile.now (Parameterized command (amount n))
        sink.old sink.new page.old page.new result }
{
    begin_command(page, command);
    match carry_out_usual_command(profile, page, command, n) {
        Err(finding) => Ran::Ended(Err(halted(finding))),
        Ok(CommandAction::Stepped) => Ran::Ended(Ok(())),
        Ok(CommandAction::Fill) => Ran::Ended(run_fill(profile, n, page, sink)),
        Ok(CommandAction::Page(command)) => Ran::Left(PageItem::Command(command, n)),
    }
}

/// Carries out an item to its end, unless it may close the page.
// Most items are one step, of which nothing is left but a finding, so nothing is put together for
// them that only others need.
#[inline(always)]
pub(crate) fn run_at_once<S: MarkSink, A: Allocator>(
    profile: &Profile<A>,
    item: &Item<'_>,
    page: &mut Page,
    sink: &mut S,
) -> Ran<S::Fault>
    ensures { RunsAtOnce S.takes S.refuses profile.now (view item.now) sink.old sink.new page.old
        page.new result }
{
    begin_item(page, item);
    match item {
        Item::Text(byte) => Ran::Ended(run_text(profile, byte.code, page, sink)),
        Item::WithData(command, data) => {
            Ran::Ended(run_data(profile, *command, *data, page, sink))
        }
        Item::PjlLine(_) => Ran::Ended(Ok(())),
        Item::Simple(item) => match carry_out(profile, page, item) {
            Err(finding) => Ran::Ended(Err(halted(finding))),
            Ok(Action::Stepped) => Ran::Ended(Ok(())),
            Ok(Action::Fill(n)) => Ran::Ended(run_fill(profile, n, page, sink)),
            Ok(Action::Move(motion, to)) => {
                Ran::Ended(run_motion(profile, motion, to, page, sink))
            }
            Ok(Action::Page(item)) => Ran::Left(item),
        },
    }
}
