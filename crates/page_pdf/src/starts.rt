//! What stands before the pages of a document.
ghost use Rattle.std.specs.Prelude.{OnOk};
ghost use Rattle.page_pdf.specs.Document.{
  HasWritten,
  faces_written,
  fixed_of,
  hidden_written,
  map_of,
  maps_written,
  patterns_written,
  start_written,
};

use crate::document::Document;
use crate::fixed_objects::FixedObject;
use crate::maps::push_map;
use page_picture::Repertoire;
use std::alloc::{AllocError, Allocator};

/// The first bytes, of which those of the second line say that it is no text.
const HEAD: &[u8] = b"%PDF-1.7\n%\xe2\xe3\xcf\xd3\n";

impl<A: Allocator + Copy> Document<A> {
    fn push_fixed<B: Allocator>(
        &mut self,
        text: &mut Vec<u8, B>,
        part: FixedObject,
    ) -> Result<(), AllocError>
        ensures { OnOk result
            (HasWritten (fixed_of part self.old) text.old.items text.new.items self.new) }
    {
        self.push_next(text, part.bytes())
    }

    /// Writes which characters the codes of a symbol set are.
    fn push_map_of<B: Allocator>(
        &mut self,
        text: &mut Vec<u8, B>,
        repertoire: Repertoire,
    ) -> Result<(), AllocError>
        ensures { OnOk result
            (HasWritten (map_of repertoire self.old) text.old.items text.new.items self.new) }
    {
        let mut body = Vec::new(self.alloc());
        push_map(&mut body, repertoire)?;
        self.push_next(text, body.as_slice())
    }

    /// Writes what pages use, and the faces.
    #[tactic(auto, unfolding(crate::specs::Document::faces_written))]
    fn push_faces<B: Allocator>(&mut self, text: &mut Vec<u8, B>) -> Result<(), AllocError>
        ensures { OnOk result
            (HasWritten (faces_written self.old) text.old.items text.new.items self.new) }
    {
        self.push_fixed(text, FixedObject::Resources)?;
        self.push_fixed(text, FixedObject::Upright)?;
        self.push_fixed(text, FixedObject::Bold)?;
        self.push_fixed(text, FixedObject::Italic)?;
        self.push_fixed(text, FixedObject::BoldItalic)
    }

    /// Writes the faces of characters that do not show, and the first pattern.
    #[tactic(auto, unfolding(crate::specs::Document::hidden_written))]
    fn push_hidden_faces<B: Allocator>(&mut self, text: &mut Vec<u8, B>) -> Result<(), AllocError>
        ensures { OnOk result
            (HasWritten (hidden_written self.old) text.old.items text.new.items self.new) }
    {
        self.push_fixed(text, FixedObject::HiddenPc8)?;
        self.push_fixed(text, FixedObject::HiddenPc850)?;
        self.push_fixed(text, FixedObject::HiddenRoman8)?;
        self.push_fixed(text, FixedObject::Horizontal)
    }

    /// Writes the other patterns.
    #[tactic(auto, unfolding(crate::specs::Document::patterns_written))]
    fn push_patterns<B: Allocator>(&mut self, text: &mut Vec<u8, B>) -> Result<(), AllocError>
        ensures { OnOk result
            (HasWritten (patterns_written self.old) text.old.items text.new.items self.new) }
    {
        self.push_fixed(text, FixedObject::Vertical)?;
        self.push_fixed(text, FixedObject::Rising)?;
        self.push_fixed(text, FixedObject::Falling)?;
        self.push_fixed(text, FixedObject::Cross)?;
        self.push_fixed(text, FixedObject::DiagonalCross)
    }

    /// Writes the maps of symbol sets.
    #[tactic(auto, unfolding(crate::specs::Document::maps_written))]
    fn push_maps<B: Allocator>(&mut self, text: &mut Vec<u8, B>) -> Result<(), AllocError>
        ensures { OnOk result
            (HasWritten (maps_written self.old) text.old.items text.new.items self.new) }
    {
        self.push_map_of(text, Repertoire::Windows)?;
        self.push_map_of(text, Repertoire::Pc8)?;
        self.push_map_of(text, Repertoire::Pc850)?;
        self.push_map_of(text, Repertoire::Roman8)
    }

    /// Writes what stands before the pages, as if nothing were written.
    #[tactic(auto, unfolding(crate::specs::Document::start_written))]
    pub fn push_start<B: Allocator>(&mut self, text: &mut Vec<u8, B>) -> Result<(), AllocError>
        ensures { OnOk result (HasWritten start_written text.old.items text.new.items self.new) }
    {
        self.clear();
        self.push_text(text, HEAD)?;
        self.push_faces(text)?;
        self.push_hidden_faces(text)?;
        self.push_patterns(text)?;
        self.push_maps(text)
    }
}
