//! What the lines of a profile's text have given so far.
ghost use Rattle.std.specs.Prelude.{◌≡◌, IfOk};
ghost use Rattle.device_profile.specs.Draft.{line_terminations_of};

use crate::choices::Choices;
use crate::face_line::face_on_line;
use crate::fault::{Cause, LineFault};
use crate::field::Field;
use crate::font::FontRow;
use crate::format::Format;
use crate::geometry::Geometry;
use crate::geometry_line::geometry_on_line;
use crate::key::Key;
use crate::scan::next_word;
use crate::values::{is_name, number_on_line, values_on_line};
use std::alloc::{AllocError, Allocator};
use std::marker::Model;

/// What the lines of a profile's text have given so far. A list that is empty was not given.
#[derive(Drop)]
pub struct Draft<A: Allocator> {
    pub(crate) is_named: bool,
    pub(crate) choices: Choices<A>,
    pub(crate) device_trays: Vec<u32, A>,
    pub(crate) duplex: Option<u32>,
    pub(crate) depth: Option<u32>,
    pub(crate) memory: Option<u32>,
    pub(crate) geometries: Vec<Geometry, A>,
    pub(crate) faces: Vec<FontRow<A>, A>,
}

impl<A: Allocator> Model for Draft<A> {
    ghost use Rattle.device_profile.specs.Draft.{Draft};

    ghost Value = { Draft };

    ghost use Rattle.device_profile.specs.DraftFields.{draft_of_fields};

    ghost view = { draft_of_fields };
}

/// The line terminations that the panel may have before a line lists them.
fn line_terminations_of<A: Allocator>(alloc: A, format: Format) -> Result<Vec<u32, A>, AllocError>
    ensures { IfOk result (λ values. values.items ≡ line_terminations_of format) }
{
    let mut values = Vec::new(alloc);
    if format == Format::One {
        values.push(0)?;
    }
    Ok(values)
}

/// Macros may run at most so many levels deep.
const MOST_DEPTH: u32 = 8;

/// The macros of a printer have at most so many bytes together.
const MOST_MEMORY: u32 = 1_048_576;

impl<A: Allocator + Copy> Draft<A> {
    ghost use Rattle.std.specs.Prelude.{◌≡◌, IfOk};
    ghost use Rattle.device_profile.specs.declared.key.Key.TheVariants as keys;
    ghost use Rattle.device_profile.specs.Draft.{no_draft, draft_after_key, draft_after};
    ghost use Rattle.device_profile.specs.Words.{words_of};
    ghost use Rattle.device_profile.specs.Given.{Gives};

    /// Nothing was given yet.
    ///
    /// An error means that the allocator refused a request.
    pub fn new(alloc: A, format: Format) -> Result<Self, AllocError>
        ensures { IfOk result (λ draft. draft ≡ no_draft format) }
    {
        let line_terminations = line_terminations_of(alloc, format)?;
        let mut choices = Choices::empty(alloc);
        choices.set(Field::LineTerm, line_terminations);
        Ok(Draft {
            is_named: false,
            choices,
            device_trays: Vec::new(alloc),
            duplex: None,
            depth: None,
            memory: None,
            geometries: Vec::new(alloc),
            faces: Vec::new(alloc),
        })
    }

    /// Takes one more line of a text of this version, given by its words; a line without words
    /// gives nothing. An error leaves what was given before.
    pub fn take_line(&mut self, alloc: A, format: Format, line: &[u8]) -> Result<(), LineFault>
        ensures { Gives (draft_after format self.old (words_of line.now)) self.old result self.new }
    {
        let Some((word, words)) = next_word(line) else {
            return Ok(());
        };
        match Key::of(format, word) {
            Some(key) => self.take(alloc, key, words),
            None => Err(LineFault::Wrong(Cause::Unknown)),
        }
    }

    /// Takes a line of this key, given by the words behind it.
    fn take(&mut self, alloc: A, key: Key, words: &[u8]) -> Result<(), LineFault>
        ensures { Gives (draft_after_key self.old key (words_of words.now))
            self.old result self.new }
    {
        match key {
            Key::Name => self.take_name(words),
            Key::Choice(field) => self.take_choice(alloc, field, words),
            Key::Trays => self.take_trays(alloc, words),
            Key::Duplex => self.take_duplex(words),
            Key::Depth => self.take_depth(words),
            Key::Memory => self.take_memory(words),
            Key::Page => self.take_page(words),
            Key::Face => self.take_face(alloc, words),
        }
    }

    /// Takes a name.
    fn take_name(&mut self, words: &[u8]) -> Result<(), LineFault>
        ensures { Gives (draft_after_key self.old keys.Name (words_of words.now))
            self.old result self.new }
    {
        if self.is_named {
            return Err(LineFault::Wrong(Cause::Repeated));
        }
        if !is_name(words) {
            return Err(LineFault::Wrong(Cause::Range));
        }
        self.is_named = true;
        Ok(())
    }

    /// Takes the values that the panel may have in a field.
    fn take_choice(&mut self, alloc: A, field: Field, words: &[u8]) -> Result<(), LineFault>
        ensures { Gives (draft_after_key self.old (keys.Choice field) (words_of words.now))
            self.old result self.new }
    {
        if !self.choices.of(field).is_empty() {
            return Err(LineFault::Wrong(Cause::Repeated));
        }
        let values = values_on_line(alloc, field, words)?;
        self.choices.set(field, values);
        Ok(())
    }

    /// Takes the trays of the device.
    fn take_trays(&mut self, alloc: A, words: &[u8]) -> Result<(), LineFault>
        ensures { Gives (draft_after_key self.old keys.Trays (words_of words.now))
            self.old result self.new }
    {
        if !self.device_trays.is_empty() {
            return Err(LineFault::Wrong(Cause::Repeated));
        }
        self.device_trays = values_on_line(alloc, Field::Tray, words)?;
        Ok(())
    }

    /// Takes whether the device prints on both sides.
    fn take_duplex(&mut self, words: &[u8]) -> Result<(), LineFault>
        ensures { Gives (draft_after_key self.old keys.Duplex (words_of words.now))
            self.old result self.new }
    {
        if self.duplex.is_some() {
            return Err(LineFault::Wrong(Cause::Repeated));
        }
        let Some(n) = number_on_line(1, words) else {
            return Err(LineFault::Wrong(Cause::Range));
        };
        self.duplex = Some(n);
        Ok(())
    }

    /// Takes how many levels of macros may run.
    fn take_depth(&mut self, words: &[u8]) -> Result<(), LineFault>
        ensures { Gives (draft_after_key self.old keys.Depth (words_of words.now))
            self.old result self.new }
    {
        if self.depth.is_some() {
            return Err(LineFault::Wrong(Cause::Repeated));
        }
        let Some(n) = number_on_line(MOST_DEPTH, words) else {
            return Err(LineFault::Wrong(Cause::Range));
        };
        self.depth = Some(n);
        Ok(())
    }

    /// Takes how many bytes the macros may have together.
    fn take_memory(&mut self, words: &[u8]) -> Result<(), LineFault>
        ensures { Gives (draft_after_key self.old keys.Memory (words_of words.now))
            self.old result self.new }
    {
        if self.memory.is_some() {
            return Err(LineFault::Wrong(Cause::Repeated));
        }
        let Some(n) = number_on_line(MOST_MEMORY, words) else {
            return Err(LineFault::Wrong(Cause::Range));
        };
        self.memory = Some(n);
        Ok(())
    }

    /// Takes a page.
    fn take_page(&mut self, words: &[u8]) -> Result<(), LineFault>
        ensures { Gives (draft_after_key self.old keys.Page (words_of words.now))
            self.old result self.new }
    {
        let row = geometry_on_line(self.geometries.as_slice(), words)?;
        self.geometries.push(row)?;
        Ok(())
    }

    /// Takes a face.
    fn take_face(&mut self, alloc: A, words: &[u8]) -> Result<(), LineFault>
        ensures { Gives (draft_after_key self.old keys.Face (words_of words.now))
            self.old result self.new }
    {
        let face = face_on_line(alloc, self.faces.as_slice(), words)?;
        self.faces.push(face)?;
        Ok(())
    }
}
