//! The store.

ghost use Rattle.std.specs.Prelude.{◌≡◌, ◌+◌, ◌<◌, ◌≤◌, ◌↔◌, None, Some, Err, IsSome, is_some};
ghost use Rattle.std.specs.Prelude.{nat_eq, true, [], IfOk, IsTrue, OnOk, OnErr, length};
ghost use Rattle.std.specs.List.{remove_range};
ghost use Rattle.std.specs.Map.{lookup, remove_entry};
ghost use Rattle.indexmap.specs.IndexMap.{spare};
ghost use Rattle.pcl_items.specs.Items.{view as entry_of};
ghost use Rattle.pcl_items.specs.Spellings.Canon.{canon};
ghost use Rattle.macro_store.specs.Layout.{moved_down, down, bodies_in, IsLaidOut};
ghost use Rattle.macro_store.specs.Commands.{AreStored};
ghost use Rattle.macro_store.specs.Store.{no_macros, body_of, stored_bytes, Admits, began};
ghost use Rattle.macro_store.specs.Store.{appended, committed, deleted, cleared};

use crate::body::Body;
use crate::commands::{StoredCommand, commands_from, forget_from, spell_behind};
use crate::span::{Definition, Span, moved_down, part};
use indexmap::IndexMap;
use pcl_items::{Item, Mode};
use pcl_spelling::spelled_len;
use std::alloc::{AllocError, Allocator, Global};
use std::hash::{BuildHasherDefault, FoldHasher};
use std::marker::Model;

/// Where each body lies, by its id.
type Spans<A> = IndexMap<u16, Span, BuildHasherDefault<FoldHasher>, A>;

/// Takes the bytes of a span out of the pool.
fn cut<A: Allocator>(pool: &mut Vec<u8, A>, span: Span)
    requires forward { span.start ≤ span.end }
    requires within { span.end ≤ length pool.old.items }
    ensures { pool.new.items ≡ remove_range pool.old.items span.start span.end }
{
    pool.drain(span.start..span.end);
}

/// Moves the spans behind a place down.
fn move_down<A: Allocator + Copy>(spans: &mut Spans<A>, place: usize, by: usize)
    ensures moved { spans.new.entries ≡ down place by spans.old.entries }
    ensures room { spare spans.old ≤ spare spans.new }
{
    spans.retain(
        |_id: &u16, span: &mut Span| -> bool
            ensures { (result ≡ true) × (span.new ≡ moved_down place by span.old) }
        {
            *span = moved_down(place, by, *span);
            true
        },
    );
}

/// Takes a body out of the pool, and with it the commands that do not lie before it.
fn take_out<A: Allocator + Copy>(
    pool: &mut Vec<u8, A>,
    spans: &mut Spans<A>,
    commands: &mut Vec<StoredCommand, A>,
    id: u16,
)
    requires laid { IsLaidOut pool.old.items spans.old.entries None }
    requires stored { AreStored pool.old.items commands.old.items }
    ensures stored { AreStored pool.new.items commands.new.items }
    ensures laid { IsLaidOut pool.new.items spans.new.entries None }
    ensures bodies { bodies_in pool.new.items spans.new.entries ≡
        remove_entry (nat_eq id) (bodies_in pool.old.items spans.old.entries) }
    ensures fewer { length pool.new.items ≤ length pool.old.items }
    ensures gone { lookup (nat_eq id) spans.new.entries ≡ None }
    ensures room { spare spans.old ≤ spare spans.new }
{
    if let Some(span) = spans.shift_remove(&id) {
        cut(pool, span);
        move_down(spans, span.end, span.end - span.start);
        forget_from(commands, span.start);
    }
}

/// Why an item is not stored.
#[derive(Clone, Copy, Debug, PartialEq, Eq)]
pub enum Refusal {
    /// It would take the store past its limit.
    MacroMemory,
    /// Memory was refused.
    Memory(AllocError),
}

/// Macros by their ids, and at most one definition that is open.
#[derive(Drop)]
pub struct MacroStore<A: Allocator + Copy = Global> {
    limit: u32,
    /// The spellings of the bodies one behind another, and then of the open definition.
    pool: Vec<u8, A>,
    spans: Spans<A>,
    definition: Option<Definition>,
    /// Commands of the pool, in the order of their places, that are not read again.
    commands: Vec<StoredCommand, A>,
}

impl<A: Allocator + Copy> Model for MacroStore<A> {
    ghost use Rattle.std.specs.Prelude.{◌<◌, ◌≤◌, IsSome, length};
    ghost use Rattle.indexmap.specs.IndexMap.{spare};
    ghost use Rattle.macro_store.specs.Store.{Store};
    ghost use Rattle.macro_store.specs.Commands.{AreStored};
    ghost use Rattle.macro_store.specs.Layout.{bodies_in, definition_in, IsLaidOut};

    ghost Value = { Store };

    ghost view = { λ s. record {
      limit = s.limit;
      bodies = bodies_in s.pool.items s.spans.entries;
      definition = definition_in s.pool.items s.definition;
    } };

    ghost invariant = { λ s. IsLaidOut s.pool.items s.spans.entries s.definition ×
        (length s.pool.items ≤ s.limit) × (IsSome s.definition → 0 < spare s.spans) ×
        AreStored s.pool.items s.commands.items };
}

impl<A: Allocator + Copy> MacroStore<A> {
    /// A store of no macros. All items in it together, each in its one spelling, have at most
    /// `limit` bytes.
    pub fn new(alloc: A, limit: u32) -> Self
        ensures { result ≡ no_macros limit }
    {
        MacroStore {
            limit,
            pool: Vec::new(alloc),
            spans: IndexMap::new(alloc),
            definition: None,
            commands: Vec::new(alloc),
        }
    }

    /// A store that stands as this one does, in memory of its own.
    ///
    /// An error means that memory was refused.
    pub fn copied(&self, alloc: A) -> Result<Self, AllocError>
        ensures { IfOk result (λ copy. copy ≡ self.now) }
    {
        let mut pool = Vec::new(alloc);
        pool.extend_from_slice(self.pool.as_slice())?;
        let mut commands = Vec::new(alloc);
        commands.extend_from_slice(self.commands.as_slice())?;
        let mut spans = self.spans.clone()?;
        // The entry of a definition that is open has room.
        spans.reserve(1)?;
        Ok(MacroStore {
            limit: self.limit,
            pool,
            spans,
            definition: self.definition,
            commands,
        })
    }

    /// Whether no macro is stored.
    pub fn is_empty(&self) -> bool
        ensures { IsTrue result → self.now.bodies ≡ [] }
    {
        self.spans.is_empty()
    }

    /// Whether a definition is open.
    pub fn is_open(&self) -> bool
        ensures { result ≡ is_some self.now.definition }
    {
        self.definition.is_some()
    }

    /// The bytes of all items in the store, each in its one spelling, those of an open definition
    /// among them.
    pub fn bytes(&self) -> u64
        ensures bytes { result ≡ stored_bytes self.now }
        ensures within { result ≤ self.now.limit }
    {
        self.pool.len() as u64
    }

    /// Opens the definition of a macro, whose old body goes.
    ///
    /// An error means that memory was refused; the store then stands as before. Room for the body's
    /// entry is made here, so that the definition can always be ended.
    pub fn begin(&mut self, id: u16) -> Result<(), AllocError>
        requires { self.old.definition ≡ None }
        ensures ok { OnOk result (self.new ≡ began id self.old) }
        ensures err { OnErr result (self.new ≡ self.old) }
    {
        self.spans.reserve(1)?;
        take_out(&mut self.pool, &mut self.spans, &mut self.commands, id);
        self.definition = Some(Definition {
            id,
            start: self.pool.len(),
        });
        Ok(())
    }

    /// Adds an item to the open definition, in a mode that admits it, unless it would take the
    /// store past its limit.
    ///
    /// An error leaves the store as before.
    pub fn append(&mut self, item: &Item<'_>) -> Result<(), Refusal>
        requires { Admits self.old (entry_of item.now) }
        ensures full { (result ≡ Err Refusal.MacroMemory) ↔
            (self.old.limit < stored_bytes self.old + length (canon (entry_of item.now))) }
        ensures ok { OnOk result (self.new ≡ appended (entry_of item.now) self.old) }
        ensures err { OnErr result (self.new ≡ self.old) }
    {
        let room = u64::from(self.limit).saturating_sub(self.bytes());
        if spelled_len(item) > room {
            return Err(Refusal::MacroMemory);
        }
        match self.add(item) {
            Ok(()) => Ok(()),
            Err(error) => Err(Refusal::Memory(error)),
        }
    }

    // Adds an item that has room.
    fn add(&mut self, item: &Item<'_>) -> Result<(), AllocError>
        requires admitted { Admits self.old (entry_of item.now) }
        requires fits { stored_bytes self.old + length (canon (entry_of item.now)) ≤
            self.old.limit }
        ensures ok { OnOk result (self.new ≡ appended (entry_of item.now) self.old) }
        ensures err { OnErr result (self.new ≡ self.old) }
    {
        spell_behind(&mut self.pool, &mut self.commands, item)
    }

    /// Ends the open definition: it is the body of its macro.
    pub fn commit(&mut self)
        requires { IsSome self.old.definition }
        ensures { self.new ≡ committed self.old }
    {
        let Some(Definition { id, start }) = self.definition.take() else {
            unreachable!()
        };
        let span = Span {
            start,
            end: self.pool.len(),
        };
        let Ok(_) = self.spans.insert(id, span) else {
            unreachable!()
        };
    }

    /// Takes a macro out of the store.
    pub fn delete(&mut self, id: u16)
        requires { self.old.definition ≡ None }
        ensures deleted { self.new ≡ deleted id self.old }
        ensures gone { body_of self.new id ≡ None }
    {
        take_out(&mut self.pool, &mut self.spans, &mut self.commands, id);
    }

    /// Takes all macros out of the store.
    pub fn clear(&mut self)
        requires { self.old.definition ≡ None }
        ensures { self.new ≡ cleared self.old }
    {
        self.pool.clear();
        self.spans.clear();
        self.commands.clear();
    }

    /// The body of a macro, unless it has none.
    pub fn body(&self, id: u16) -> Option<Body<'_>>
        ensures { result ≡ body_of self.now id }
    {
        match self.spans.get(&id) {
            None => None,
            Some(span) => Some(Body {
                rest: part(&self.pool, *span),
                mode: Mode::Pcl,
                at: span.start,
                commands: commands_from(&self.commands, span.start),
            }),
        }
    }
}
