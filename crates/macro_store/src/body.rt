//! The items of a body.

ghost use Rattle.std.specs.Prelude.{◌≡◌, ◌∷◌, [], IfNone, IfSome, IsTrue, MatchOption};
ghost use Rattle.pcl_items.specs.Items.{simple_view, view as entry_of};

use crate::commands::StoredCommand;
use pcl_items::{Item, Mode, SimpleItem};
use pcl_spelling::first_spelled;
use std::marker::Model;

/// The items of a body that are still to come, in order.
#[derive(Drop)]
pub struct Body<'a> {
    pub(crate) rest: &'a [u8],
    /// The mode in which they stand.
    pub(crate) mode: Mode,
    /// Where they stand in the pool.
    pub(crate) at: usize,
    /// Commands of the pool that are kept, in the order of their places: those that stand there
    /// or behind.
    pub(crate) commands: &'a [StoredCommand],
}

impl<'a> Model for Body<'a> {
    ghost use Rattle.std.specs.Prelude.{List};
    ghost use Rattle.pcl_items.specs.Items.{Entry};
    ghost use Rattle.pcl_spelling.specs.Spellings.Spelled.{IsSpelled, items_in};
    ghost use Rattle.macro_store.specs.Commands.{LiesInPool};

    ghost Value = { List Entry };

    ghost view = { λ body. items_in body.mode body.rest.now };

    ghost invariant = { λ body. IsSpelled body.mode body.rest.now ×
        LiesInPool body.at body.rest.now body.commands.now };
}

impl<'a> Body<'a> {
    /// The next item. Its data are lent from the store.
    pub fn next(&mut self) -> Option<Item<'a>>
        ensures { MatchOption result ((self.old ≡ []) × (self.new ≡ []))
            (λ item. self.old ≡ entry_of item ∷ self.new) }
    {
        match first_spelled(self.rest, self.mode) {
            None => None,
            Some((item, end, mode)) => {
                self.rest = &self.rest[end..];
                self.at += end;
                self.mode = mode;
                Some(item)
            }
        }
    }

    /// The next item, where it is a command that is kept. It may always answer none.
    // So what carries out the item knows which kind it has.
    #[inline(always)]
    pub fn next_command(&mut self) -> Option<SimpleItem>
        ensures some { IfSome result (λ item. self.old ≡ simple_view item ∷ self.new) }
        ensures none { IfNone result (self.new ≡ self.old) }
    {
        let (Mode::Pcl, [first, others @ ..]) = (self.mode, self.commands) else {
            return None;
        };
        if first.at as usize != self.at {
            return None;
        }
        let len = (first.end - first.at) as usize;
        if self.rest.len() < len {
            return None;
        }
        self.rest = &self.rest[len..];
        self.at += len;
        self.commands = others;
        Some(SimpleItem::Parameterized(first.command, first.number))
    }

    /// Whether another body has the same items still to come.
    pub fn is_same(&self, other: &Body<'_>) -> bool
        ensures { IsTrue result → self.now ≡ other.now }
    {
        self.mode == other.mode && self.rest == other.rest
    }
}
