//! One step of a job that is carried out: its next item, or its end.

ghost use Rattle.std.specs.Prelude.{◌≡◌, ◌+◌, IfNone, IfSome, Some, false, length};
ghost use Rattle.pcl_items.specs.declared.item.Mode.{Mode};
ghost use Rattle.pcl_items.specs.Items.{at, view};
ghost use Rattle.pcl_items.specs.Modes.{follows};
ghost use Rattle.pcl_lexer.specs.Lexing.Meaning.{IsNext, answer_of};
ghost use Rattle.pcl_lexer.specs.Modes.{mode_of};
ghost use Rattle.comparison.specs.Running.{CarriesTo, EndsBy, StepsBy};

use page_machine::{Machine, MarkSink, Stop};
use pcl_items::{DataCommand, Item, Place};
use pcl_lexer::{Lexed, Lexer, PlacedItem};
use std::alloc::Allocator;
use verdict::Failure;

/// What a step comes to.
#[derive(Clone, Copy)]
pub(crate) enum Stepped {
    /// The item at this place was carried out.
    On(Place),
    /// The bytes that were fed decide nothing more.
    More,
    /// The end of the job was carried out.
    AtEnd,
    /// The job fails.
    FailsBy(Failure),
    /// Memory was refused.
    Refused,
}

/// Carries out the next item that the bytes decide, or the end of all `total` bytes, on the printer
/// of this number. The sink is handed what that makes.
pub(crate) fn step<K: MarkSink, A: Allocator + Copy, P: Allocator>(
    lexer: &mut Lexer<A>,
    machine: &mut Machine<'_, P, A>,
    sink: &mut K,
    number: u64,
    total: u64,
) -> Stepped
where
    K::Fault: Drop,
    requires running { machine.old.stopped ≡ false }
    requires mode { machine.old.mode ≡ mode_of lexer.old.context }
    ensures came { StepsBy K.takes number total lexer.old machine.old result
        lexer.new machine.new sink.old sink.new }
    ensures ended { lexer.new.ended ≡ lexer.old.ended }
    ensures place { lexer.new.place + length lexer.new.rest ≡
        lexer.old.place + length lexer.old.rest }
{
    // What carries these out knows their kind.
    match next_known(lexer) {
        Some(read) => carry_out(machine, sink, number, read.place, &Item::Simple(read.item)),
        None => step_row(lexer, machine, sink, number, total),
    }
}

/// Does so where no command and no pair of coordinates is known to stand next: a row of a raster
/// mostly does.
// A call of its own: what carries out a row keeps nothing else.
#[inline(never)]
fn step_row<K: MarkSink, A: Allocator + Copy, P: Allocator>(
    lexer: &mut Lexer<A>,
    machine: &mut Machine<'_, P, A>,
    sink: &mut K,
    number: u64,
    total: u64,
) -> Stepped
where
    K::Fault: Drop,
    requires running { machine.old.stopped ≡ false }
    requires mode { machine.old.mode ≡ mode_of lexer.old.context }
    ensures came { StepsBy K.takes number total lexer.old machine.old result
        lexer.new machine.new sink.old sink.new }
    ensures ended { lexer.new.ended ≡ lexer.old.ended }
    ensures place { lexer.new.place + length lexer.new.rest ≡
        lexer.old.place + length lexer.old.rest }
{
    match lexer.next_row() {
        Some(row) => {
            let item = Item::WithData(DataCommand::RasterRow, row.lent);
            carry_out(machine, sink, number, row.place, &item)
        }
        None => step_other(lexer, machine, sink, number, total),
    }
}

/// Does so whatever stands next.
// A call of its own, which clears room for each answer of the lexer.
#[inline(never)]
fn step_other<K: MarkSink, A: Allocator + Copy, P: Allocator>(
    lexer: &mut Lexer<A>,
    machine: &mut Machine<'_, P, A>,
    sink: &mut K,
    number: u64,
    total: u64,
) -> Stepped
where
    K::Fault: Drop,
    requires running { machine.old.stopped ≡ false }
    requires mode { machine.old.mode ≡ mode_of lexer.old.context }
    ensures came { StepsBy K.takes number total lexer.old machine.old result
        lexer.new machine.new sink.old sink.new }
    ensures ended { lexer.new.ended ≡ lexer.old.ended }
    ensures place { lexer.new.place + length lexer.new.rest ≡
        lexer.old.place + length lexer.old.rest }
{
    match lexer.next() {
        Ok(Lexed::Item(place, item)) => carry_out_other(machine, sink, number, place, &item),
        Ok(Lexed::NeedMore) => Stepped::More,
        Ok(Lexed::End) => carry_out_end(machine, sink, number, total),
        Err(fault) => Stepped::FailsBy(Failure::of_fault(fault)),
    }
}

/// The command, or the pair of coordinates, that stands next, where it is known that one does.
#[inline(always)]
fn next_known<A: Allocator>(lexer: &mut Lexer<A>) -> Option<PlacedItem>
    ensures some { IfSome result (λ read. IsNext lexer.old (answer_of read) lexer.new) }
    ensures none { IfNone result (lexer.new ≡ lexer.old) }
{
    // Most items are commands.
    match lexer.next_command() {
        Some(read) => Some(read),
        None => lexer.next_pair(),
    }
}

/// Carries out an item of any kind, at a place.
// A call of its own, which has all kinds of items.
#[inline(never)]
fn carry_out_other<K: MarkSink, A: Allocator + Copy, P: Allocator>(
    machine: &mut Machine<'_, P, A>,
    sink: &mut K,
    number: u64,
    place: Place,
    item: &Item<'_>,
) -> Stepped
where
    K::Fault: Drop,
    requires running { machine.old.stopped ≡ false }
    requires admitted { (next : Mode) × (follows machine.old.mode (view item.now) ≡ Some next) }
    ensures { CarriesTo K.takes result number (at place (view item.now))
        machine.old machine.new sink.old sink.new }
{
    carry_out(machine, sink, number, place, item)
}

/// Carries out the item at a place.
#[inline(always)]
fn carry_out<K: MarkSink, A: Allocator + Copy, P: Allocator>(
    machine: &mut Machine<'_, P, A>,
    sink: &mut K,
    number: u64,
    place: Place,
    item: &Item<'_>,
) -> Stepped
where
    K::Fault: Drop,
    requires running { machine.old.stopped ≡ false }
    requires admitted { (next : Mode) × (follows machine.old.mode (view item.now) ≡ Some next) }
    ensures { CarriesTo K.takes result number (at place (view item.now))
        machine.old machine.new sink.old sink.new }
{
    match machine.step(item, sink) {
        Ok(()) => Stepped::On(place),
        Err(Stop::Found(finding)) => {
            Stepped::FailsBy(Failure::of_finding(place, number, finding))
        }
        Err(Stop::Refused(_)) => Stepped::Refused,
        Err(Stop::Memory(_)) => Stepped::Refused,
        Err(Stop::Stopped) => unreachable!(),
    }
}

/// Carries out the end of the bytes, of which there are so many.
fn carry_out_end<K: MarkSink, A: Allocator + Copy, P: Allocator>(
    machine: &mut Machine<'_, P, A>,
    sink: &mut K,
    number: u64,
    total: u64,
) -> Stepped
where
    K::Fault: Drop,
    requires running { machine.old.stopped ≡ false }
    ensures { EndsBy K.takes result number total machine.old sink.old sink.new }
{
    match machine.finish(sink) {
        Ok(()) => Stepped::AtEnd,
        Err(Stop::Found(finding)) => {
            Stepped::FailsBy(Failure::of_finding(total, number, finding))
        }
        Err(Stop::Refused(_)) => Stepped::Refused,
        Err(Stop::Memory(_)) => Stepped::Refused,
        Err(Stop::Stopped) => unreachable!(),
    }
}
