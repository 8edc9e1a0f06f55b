//! The lexer.

ghost use Rattle.std.specs.Prelude.{◌≡◌, ◌⊎◌, ◌≤◌, ◌-◌, ◌+◌, ◌^◌, ◌++◌, ℕ, List, [], length};
ghost use Rattle.std.specs.Prelude.{take, drop, false, true, vec_len, vec_capacity, IfNone};
ghost use Rattle.std.specs.Prelude.{IfOk, IfSome, IsTrue, OnOk, OnErr};
ghost use Rattle.std.specs.Borrow.{sem};
ghost use Rattle.pcl_lexer.specs.declared.lexer.first.Context.TheVariants.{Pcl, Sequence};

pub(crate) mod ahead;
pub(crate) mod first;
pub(crate) mod lexed;

use crate::frame::Gap;
use crate::frame::pair::{bare_motion_in, is_behind_down, pair_in};
use crate::lexer::ahead::{
    Ahead, byte_in, data_before, line_end_in, next_ahead, sequence_in, text_in, undecided,
    with_its_data,
};
use crate::lexer::first::{Context, First, Numbers};
use crate::lexer::lexed::Lexed;
use crate::pcl::command_with_data::row_in;
use crate::pcl::parameterized::{further_in, parameterized_in, short_in};
use pcl_items::{Data, Group, Item, LexFault, LineEnd, Motion, Place, SimpleItem};
use std::alloc::{AllocError, Allocator, Global};
use std::marker::Model;

/// An item that is neither text nor has data, and where it stands.
#[derive(Clone, Copy)]
pub struct PlacedItem {
    pub place: Place,
    pub item: SimpleItem,
}

/// A line end, and where it stands.
#[derive(Clone, Copy)]
pub struct PlacedLineEnd {
    pub place: Place,
    pub line_end: LineEnd,
}

/// The data of a row of a raster, and where its item stands.
#[derive(Clone, Copy)]
pub struct PlacedRow<'a> {
    pub place: Place,
    pub lent: Data<'a>,
}

/// Reads the items of a job that is fed in pieces, over a bounded window.
///
/// The window holds the bytes that are not read yet, behind some that are. Each piece pushes those
/// out.
#[derive(Drop)]
pub struct Lexer<A: Allocator = Global> {
    window: Vec<u8, A>,
    // How many bytes of the window are read, and how many of the job stood before the window.
    at: usize,
    dropped: u64,
    context: Context,
    ended: bool,
}

impl<A: Allocator> Model for Lexer<A> {
    ghost use Rattle.std.specs.Prelude.{drop, vec_len, ◌+◌, ◌≤◌, ◌^◌};
    ghost use Rattle.pcl_lexer.specs.Lexing.Contexts.{counted};
    ghost use Rattle.pcl_lexer.specs.Lexing.FirstView.{context_view};
    ghost use Rattle.pcl_lexer.specs.Lexing.State.{LexerState, most_held};

    ghost Value = { LexerState };

    ghost view = { λ l. record {
      rest = drop l.at l.window.items;
      place = l.dropped + l.at;
      context = context_view l.context;
      ended = l.ended;
      held = vec_len l.window;
    } };

    ghost invariant = { λ l. (l.at ≤ vec_len l.window) × (vec_len l.window ≤ most_held) ×
        (l.dropped + vec_len l.window ≤ 2 ^ 62) ×
        (counted (context_view l.context) ≤ l.dropped + l.at) };
}

impl<A: Allocator> Lexer<A> {
    ghost use Rattle.pcl_items.specs.Items.{Placed};
    ghost use Rattle.pcl_lexer.specs.Lexing.State.{at_start, WantsMore, most_held};
    ghost use Rattle.pcl_lexer.specs.Lexing.Meaning.{HasRead, IsNext, answer_of, answer_of_end};
    ghost use Rattle.pcl_lexer.specs.Lexing.Lending.{Leaves, LeavesAtRow, Steps};
    ghost use Rattle.pcl_lexer.specs.Lexing.GroupAhead.{group_ahead};
    ghost use Rattle.pcl_lexer.specs.Lexing.Passing.{ahead_of, ReadsLines};
    ghost use Rattle.pcl_lexer.specs.Lexing.Contexts.{Numbered, Even};
    ghost use Rattle.pcl_lexer.specs.declared.frame.Gap.TheVariants.{Straight};
    ghost use Rattle.pcl_items.specs.declared.frame.Motion.TheVariants.{Down};
    ghost use Rattle.pcl_items.specs.Lines.{AreLines};

    /// A lexer to which nothing was fed.
    #[tactic(auto, using(crate::proofs::Lexing::Steps::starts, crate::proofs::Lexing::Steps::start_wants_more))]
    pub fn new(alloc: A) -> Self
        ensures start { result ≡ at_start }
        ensures reads { HasRead result [] [] }
        ensures wants_more { WantsMore result }
    {
        Lexer {
            window: Vec::new(alloc),
            at: 0,
            dropped: 0,
            context: Context::Pcl,
            ended: false,
        }
    }

    /// Takes the next piece of the job, of at most 4096 bytes, and keeps no byte that was read.
    ///
    /// An error means that memory was refused; the lexer then stands as before.
    pub fn feed(&mut self, piece: &[u8]) -> Result<(), AllocError>
        requires open { self.old.ended ≡ false }
        requires wants_more { WantsMore self.old }
        requires piece { length piece.now ≤ 4096 }
        requires total { self.old.place + length self.old.rest + length piece.now ≤ 2 ^ 62 }
        ensures ok { OnOk result (self.new ≡ record self.old {
          rest = self.old.rest ++ piece.now;
          held = length self.old.rest + length piece.now;
        }) }
        ensures reads { OnOk result ((bytes : List ℕ) (items : List Placed) →
            HasRead self.old bytes items → HasRead self.new (bytes ++ piece.now) items) }
        ensures err { OnErr result (self.new ≡ self.old) }
    {
        slide_in(&mut self.window, self.at, piece)?;
        self.dropped += self.at as u64;
        self.at = 0;
        Ok(())
    }

    /// A lexer that stands where this one stands, over a window of its own.
    ///
    /// An error means that memory was refused.
    pub fn copied(&self, alloc: A) -> Result<Lexer<A>, AllocError>
        ensures { IfOk result (λ copy. copy ≡ self.now) }
    {
        let mut window = Vec::new(alloc);
        window.extend_from_slice(self.window.as_slice())?;
        Ok(Lexer {
            window,
            at: self.at,
            dropped: self.dropped,
            context: self.context,
            ended: self.ended,
        })
    }

    /// No piece follows.
    #[tactic(auto, using(crate::proofs::Lexing::Steps::at_end))]
    pub fn end_input(&mut self)
        ensures ended { self.new ≡ record self.old { ended = true } }
        ensures reads { (bytes : List ℕ) (items : List Placed) → HasRead self.old bytes items →
            HasRead self.new bytes items }
    {
        self.ended = true;
    }

    /// How many bytes are kept.
    pub fn held(&self) -> usize
        ensures exact { result ≡ self.now.held }
        ensures bounded { result ≤ most_held }
    {
        self.window.len()
    }

    /// The parameterized command that stands next, where it is known that one does: the item that
    /// `next` would give.
    ///
    /// A job is mostly these, and this answer stays in registers. It tells nothing of what else may
    /// stand next.
    #[inline(always)]
    #[tactic(auto, using(crate::proofs::Lexing::Steps::is_next))]
    pub fn next_command(&mut self) -> Option<PlacedItem>
        ensures command { IfSome result (λ read. IsNext self.old (answer_of read) self.new) }
        ensures none { IfNone result (self.new ≡ self.old) }
    {
        let Some(read) = parameterized_in(self.context, self.unread()) else {
            return None;
        };
        let place = self.place();
        self.at += read.len;
        self.context = read.next;
        Some(PlacedItem {
            place,
            item: SimpleItem::Parameterized(read.command, read.number),
        })
    }

    /// The parameterized command of this group that stands next with a short number, as most have,
    /// where it is known that one does: the item that `next` would give.
    ///
    /// It tells nothing of what else may stand next. Where the group is written in the call, what
    /// executes the command needs no table, since a group has few.
    #[inline(always)]
    pub fn next_short(&mut self, group: Group) -> Option<PlacedItem>
        ensures command { IfSome result (λ read. IsNext self.old (answer_of read) self.new) }
        ensures none { IfNone result (self.new ≡ self.old) }
    {
        if let Context::Pcl = self.context {
            self.begin(group)
        } else {
            self.go_on(group)
        }
    }

    /// The escape sequence that stands next, of two characters or a parameterized command, where it
    /// is known that one does: the item that `next` would give.
    ///
    /// It is asked where `next_short` gave nothing. It tells nothing of what else may stand next.
    #[inline(always)]
    pub fn next_escape(&mut self) -> Option<PlacedItem>
        ensures command { IfSome result (λ read. IsNext self.old (answer_of read) self.new) }
        ensures none { IfNone result (self.new ≡ self.old) }
    {
        if let Some(read) = self.next_sequence() {
            return Some(read);
        }
        self.next_command()
    }

    /// The group of the command that stands next, if one may.
    #[inline(always)]
    pub fn group_ahead(&self) -> Option<Group>
        ensures { result ≡ group_ahead self.now }
    {
        match self.context {
            Context::Sequence(group) => return Some(group),
            Context::Pcl => {}
            _ => return None,
        }
        let [b'\x1b', introducer, character, ..] = self.unread() else {
            return None;
        };
        Group::of(*introducer, *character)
    }

    /// The escape sequence of two characters that stands next, where it is known that one does.
    #[inline(always)]
    #[tactic(auto, using(crate::proofs::Lexing::Steps::is_next))]
    fn next_sequence(&mut self) -> Option<PlacedItem>
        ensures sequence { IfSome result (λ read. IsNext self.old (answer_of read) self.new) }
        ensures none { IfNone result (self.new ≡ self.old) }
    {
        let Context::Pcl = self.context else {
            return None;
        };
        let item = sequence_in(self.unread())?;
        let place = self.place();
        self.at += 2;
        Some(PlacedItem { place, item })
    }

    /// The carriage return or line feed that stands next, where it is known that one does: the item
    /// that `next` would give.
    ///
    /// It tells nothing of what else may stand next.
    #[inline(always)]
    #[tactic(auto, using(crate::proofs::Lexing::Steps::is_next))]
    pub fn next_line_end(&mut self) -> Option<PlacedLineEnd>
        ensures line_end { IfSome result (λ read. IsNext self.old (answer_of_end read) self.new) }
        ensures none { IfNone result (self.new ≡ self.old) }
    {
        let Context::Pcl = self.context else {
            return None;
        };
        let line_end = line_end_in(self.unread())?;
        let place = self.place();
        self.at += 1;
        Some(PlacedLineEnd { place, line_end })
    }

    /// The pair of coordinates that stands next in a frame, where it is known that one does: the
    /// item that `next` would give.
    ///
    /// It tells nothing of what else may stand next.
    #[inline(always)]
    #[tactic(auto, using(crate::proofs::Lexing::Steps::is_next))]
    pub fn next_pair(&mut self) -> Option<PlacedItem>
        ensures pair { IfSome result (λ read. IsNext self.old (answer_of read) self.new) }
        ensures none { IfNone result (self.new ≡ self.old) }
    {
        // It is asked in mode PCL, too, where no pair stands.
        if let Context::Pcl = self.context {
            return None;
        }
        let Some(read) = pair_in(self.context, self.place(), self.unread()) else {
            return None;
        };
        self.at += read.len;
        // Most pairs stand behind a comma, and leave the context as it was.
        if !read.is_further {
            self.context = Context::Numbered(Numbers::Even(read.motion), Gap::Straight, 0);
        }
        Some(PlacedItem {
            place: read.place,
            item: SimpleItem::Move(read.motion, Some(read.to)),
        })
    }

    /// Whether whole pairs of a command that lowers the pen stand before and a comma next, so that
    /// a further pair of it may stand there.
    #[inline(always)]
    pub fn goes_on_down(&self) -> bool
        ensures { IsTrue result → self.now.context ≡ Numbered (Even Down) Straight 0 }
    {
        is_behind_down(self.context) && self.is_before_comma()
    }

    /// The further pair of such a command that stands next, where it is known that one does: the
    /// item that `next` would give. The command stays as it is.
    ///
    /// It tells nothing of what else may stand next.
    // What stands before is not looked at, so that a loop over such pairs does so once.
    #[inline(always)]
    pub fn next_further(&mut self) -> Option<PlacedItem>
        requires { self.old.context ≡ Numbered (Even Down) Straight 0 }
        ensures pair { IfSome result (λ read. IsNext self.old (answer_of read) self.new) }
        ensures none { IfNone result (self.new ≡ self.old) }
        ensures context { self.new.context ≡ self.old.context }
    {
        if !self.is_before_comma() {
            return None;
        }
        let behind = Context::Numbered(Numbers::Even(Motion::Down), Gap::Straight, 0);
        let Some(read) = pair_in(behind, self.place(), self.unread()) else {
            return None;
        };
        if !read.is_further {
            return None;
        }
        self.at += read.len;
        Some(PlacedItem {
            place: read.place,
            item: SimpleItem::Move(read.motion, Some(read.to)),
        })
    }

    /// The command of a frame that moves the pen and has no coordinates, that stands next, where it
    /// is known that one does: the item that `next` would give.
    ///
    /// It tells nothing of what else may stand next.
    #[inline(always)]
    #[tactic(auto, using(crate::proofs::Lexing::Steps::is_next))]
    pub fn next_motion(&mut self) -> Option<PlacedItem>
        ensures motion { IfSome result (λ read. IsNext self.old (answer_of read) self.new) }
        ensures none { IfNone result (self.new ≡ self.old) }
    {
        let Some(read) = bare_motion_in(self.context, self.place(), self.unread()) else {
            return None;
        };
        self.at += read.len;
        self.context = Context::Frame;
        Some(PlacedItem {
            place: read.place,
            item: SimpleItem::Move(read.motion, None),
        })
    }

    /// The command of a frame that moves the pen, or the further pair of one, that stands next,
    /// where it is known that one does: the item that `next` would give.
    ///
    /// It tells nothing of what else may stand next.
    #[inline(always)]
    pub fn next_pen_move(&mut self) -> Option<PlacedItem>
        ensures moves { IfSome result (λ read. IsNext self.old (answer_of read) self.new) }
        ensures none { IfNone result (self.new ≡ self.old) }
    {
        if let Some(read) = self.next_pair() {
            return Some(read);
        }
        self.next_motion()
    }

    /// The row of a raster that stands next, where it is known that one does with all of its data:
    /// the item that `next` would give. Its data are lent from the window.
    ///
    /// It tells nothing of what else may stand next.
    #[inline(always)]
    pub fn next_row(&mut self) -> Option<PlacedRow<'_>>
        ensures* { sem 𝓛 (LeavesAtRow A.row A.Allocator self.entry result) }
    {
        let Context::Pcl = self.context else {
            return None;
        };
        let Some(read) = row_in(self.unread()) else {
            return None;
        };
        let place = self.place();
        // Mode PCL goes on, so nothing is written of it.
        self.at += read.len;
        let lent = data_before(read.count, self.at, &self.window);
        Some(PlacedRow { place, lent })
    }

    /// The next item, or why none comes. Its data are lent from the window.
    ///
    /// Bytes of a frame that end no item are passed over before any answer. A fault and the end
    /// stand where the lexer then stands, so a second call answers the same. Where more bytes are
    /// wanted, none that was fed is lost.
    #[inline(always)]
    pub fn next(&mut self) -> Result<Lexed<'_>, LexFault>
        ensures* { sem 𝓛 (Leaves A.row A.Allocator self.entry result) }
    {
        // Most items are single bytes, parameterized commands or pairs of coordinates, and these
        // need none of the rest.
        if let Context::Pcl = self.context {
            if let Some(item) = byte_in(self.unread()) {
                let place = self.place();
                self.at += 1;
                return Ok(Lexed::Item(place, item));
            }
        }
        if let Some(read) = self.next_command() {
            return Ok(Lexed::Item(read.place, Item::Simple(read.item)));
        }
        if let Some(read) = self.next_pair() {
            return Ok(Lexed::Item(read.place, Item::Simple(read.item)));
        }
        self.step()
    }

    /// The next item, or why none comes, as `next` gives it. It is the way to what no call for a
    /// command, a line end or a pair has just given: it does not look for these first.
    #[inline(always)]
    #[tactic(auto, using(crate::proofs::Lexing::Steps::is_next))]
    pub fn next_other(&mut self) -> Result<Lexed<'_>, LexFault>
        ensures* { sem 𝓛 (Leaves A.row A.Allocator self.entry result) }
    {
        // A byte of text needs none of the rest, nor does an escape sequence of two characters.
        if let Context::Pcl = self.context {
            if let Some(byte) = text_in(self.unread()) {
                let place = self.place();
                self.at += 1;
                return Ok(Lexed::Item(place, Item::Text(byte)));
            }
            if let Some(item) = sequence_in(self.unread()) {
                let place = self.place();
                self.at += 2;
                return Ok(Lexed::Item(place, Item::Simple(item)));
            }
        }
        self.step()
    }

    /// The bytes that were fed and are not read, where an item may begin between units; else none.
    #[inline]
    pub fn ahead(&self) -> &[u8]
        ensures { result.now ≡ ahead_of self.now }
    {
        match self.context {
            Context::Pcl => self.unread(),
            _ => &[],
        }
    }

    /// Reads the first bytes ahead, at least one, which are text, carriage returns and line feeds:
    /// an item each.
    #[inline]
    pub fn pass_lines(&mut self, count: usize)
        requires some { 1 ≤ count }
        requires ahead { count ≤ length (ahead_of self.old) }
        requires lines { AreLines (take count (ahead_of self.old)) }
        ensures { ReadsLines self.old (take count (ahead_of self.old)) self.new }
    {
        self.at += count;
    }

    /// The command of this group that stands next between units with a short number.
    #[inline(always)]
    #[tactic(auto, using(crate::proofs::Lexing::Steps::is_next))]
    fn begin(&mut self, group: Group) -> Option<PlacedItem>
        ensures command { IfSome result (λ read. IsNext self.old (answer_of read) self.new) }
        ensures none { IfNone result (self.new ≡ self.old) }
    {
        let Context::Pcl = self.context else {
            return None;
        };
        let Some(read) = short_in(group, self.unread()) else {
            return None;
        };
        let place = self.place();
        self.at += read.len;
        begin_with(&mut self.context, read.next);
        Some(PlacedItem {
            place,
            item: SimpleItem::Parameterized(read.command, read.number),
        })
    }

    /// The one that stands next behind another of the group.
    #[inline(always)]
    #[tactic(auto, using(crate::proofs::Lexing::Steps::is_next))]
    fn go_on(&mut self, group: Group) -> Option<PlacedItem>
        ensures command { IfSome result (λ read. IsNext self.old (answer_of read) self.new) }
        ensures none { IfNone result (self.new ≡ self.old) }
    {
        let Context::Sequence(begun) = self.context else {
            return None;
        };
        if begun != group {
            return None;
        }
        let Some(read) = further_in(begun, self.unread()) else {
            return None;
        };
        let place = self.place();
        self.at += read.len;
        go_on_with(&mut self.context, begun, read.next);
        Some(PlacedItem {
            place,
            item: SimpleItem::Parameterized(read.command, read.number),
        })
    }

    /// Whether a comma stands next.
    #[inline(always)]
    fn is_before_comma(&self) -> bool {
        matches!(self.unread(), [b',', ..])
    }

    /// The bytes that were fed and are not read.
    #[inline(always)]
    fn unread(&self) -> &[u8]
        ensures { result.now ≡ self.now.rest }
    {
        &self.window[self.at..]
    }

    /// The number of bytes before these.
    #[inline(always)]
    fn place(&self) -> Place
        ensures { result ≡ self.now.place }
    {
        self.dropped + self.at as u64
    }

    /// What stands next, by all the rules.
    // It is asked where no usual item stands, and is not to crowd the code of those that do.
    #[inline(never)]
    fn step(&mut self) -> Result<Lexed<'_>, LexFault>
        ensures* { sem 𝓛 (Steps A.row A.Allocator self.entry result) }
    {
        let Ahead {
            start,
            context,
            first,
        } = next_ahead(self.ended, self.context, self.at, &self.window);
        let place = context.item_place(self.dropped + start as u64);
        match first {
            First::Begins(len, head, next) => {
                self.at = start + len;
                self.context = next;
                let item = with_its_data(head, len, &self.window[start..]);
                Ok(Lexed::Item(place, item))
            }
            First::Faulty(cause) => {
                self.at = start;
                self.context = context;
                Err(LexFault { place, cause })
            }
            First::Open | First::Passes(_, _) => {
                self.at = start;
                self.context = context;
                undecided(self.ended, context, place, start, &self.window)
            }
        }
    }
}

// Of what stands before, these two write only what changes.

/// Sets what stands before the bytes behind a command that stands between units.
#[inline(always)]
fn begin_with(context: &mut Context, next: Context)
    requires { context.old ≡ Pcl }
    ensures { context.new ≡ next }
{
    if let Context::Pcl = next {
        return;
    }
    *context = next;
}

/// Sets what stands before the bytes behind a further command of a group.
#[inline(always)]
fn go_on_with(context: &mut Context, group: Group, next: Context)
    requires begun { context.old ≡ Sequence group }
    requires goes_on { (next ≡ Pcl) ⊎ (next ≡ Sequence group) }
    ensures { context.new ≡ next }
{
    if let Context::Pcl = next {
        *context = Context::Pcl;
    }
}

/// Drops the first bytes of the window, and puts the piece behind the others.
///
/// Room is made first, so that an error leaves the window as it was.
fn slide_in<A: Allocator>(
    window: &mut Vec<u8, A>,
    read: usize,
    piece: &[u8],
) -> Result<(), AllocError>
    requires { read ≤ vec_len window.old }
    ensures ok { OnOk result (window.new.items ≡ drop read window.old.items ++ piece.now) }
    ensures len { OnOk result (vec_len window.new ≡
        length (drop read window.old.items) + length piece.now) }
    ensures err { OnErr result (window.new.items ≡ window.old.items) }
{
    window.reserve(piece.len().saturating_sub(read))?;
    // While an item is not whole nothing is read, and its bytes need not move.
    if read > 0 {
        remove_front(window, read);
    }
    let Ok(()) = window.extend_from_slice(piece) else {
        unreachable!()
    };
    Ok(())
}

fn remove_front<A: Allocator>(bytes: &mut Vec<u8, A>, n: usize)
    requires { n ≤ vec_len bytes.old }
    ensures items { bytes.new.items ≡ drop n bytes.old.items }
    ensures len { vec_len bytes.new ≡ vec_len bytes.old - n }
    ensures capacity { vec_capacity bytes.new ≡ vec_capacity bytes.old }
{
    let len = bytes.len();
    bytes.as_mut_slice().copy_within(n..len, 0);
    bytes.truncate(len - n);
}
