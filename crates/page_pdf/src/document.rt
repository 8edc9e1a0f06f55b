//! A document as it is written, page by page: where its objects stand is kept for its end.
ghost use Rattle.std.specs.Prelude.{◌≡◌, ◌+◌, ◌-◌, ◌≤◌, ◌^◌, ◌++◌, OnOk, length, vec_len};
ghost use Rattle.page_env.specs.Mark.{row_of, shape_of};
ghost use Rattle.page_pdf.specs.Document.{
  HasWritten,
  begins_object,
  capped,
  content_begun,
  document_end,
  end_written,
  failure_written,
  glyph_kept,
  label_told,
  last_written,
  mark_written,
  marks_begun,
  marks_ended,
  marks_length,
  mark_kept,
  mark_put,
  next_object,
  next_of,
  no_pdf,
  object,
  opens_page,
  page_begun,
  page_behind,
  page_closed,
  page_count,
  page_due,
  page_ready,
  page_told,
  row_kept,
  settled,
  settled_before,
  sheet_told,
  table_of,
  without_pending,
  writes,
};
ghost use Rattle.page_pdf.specs.Objects.{catalog_body, information_body, pages_body};
ghost use Rattle.page_pdf.specs.Objects.{verdict_body};
ghost use Rattle.page_pdf.specs.Pages.{failed_text, page_end, page_start};

use crate::bands::{frame_width, push_framed};
use crate::counting::written_behind;
use crate::marks::push_mark;
use crate::object_parts::ObjectPart;
use crate::objects::{
    push_catalog_body, push_content_start, push_end_words, push_information_body, push_label_body,
    push_object_text, push_page_body, push_pages_body, push_verdict_body,
};
use crate::pages::{push_failed, push_page_end, push_page_start};
use crate::pending::{Pending, behind_glyph, goes_on, is_string, push_pending, with_row};
use crate::table::push_places_table;
use device_profile::Geometry;
use page_env::{Glyph, Mark, PageEnd, RasterRow, SheetPlace};
use shown_bytes::push_number;
use std::alloc::{AllocError, Allocator, Global};
use std::marker::Model;

/// The sheet of a page, and whether it is drawn with its outlines and its foot.
#[derive(Clone, Copy)]
pub struct PageSheet {
    pub paper: Geometry,
    pub is_proof: bool,
}

/// A document as it is written. Its counts stand still at 2^64 - 1.
#[derive(Drop)]
pub struct Document<A: Allocator + Copy = Global> {
    alloc: A,
    written: u64,
    /// How many bytes stood before what marks the page that is open.
    begun: u64,
    is_open: bool,
    /// The number of the page of the job that is open, from 1.
    page: u64,
    /// What is still to be written of it.
    pending: Pending,
    /// The pixels of rows that are kept.
    pixels: Vec<u8, A>,
    /// Where the objects from the fifth on stand.
    places: Vec<u64, A>,
}

impl<A: Allocator + Copy> Model for Document<A> {
    ghost use Rattle.page_pdf.specs.Document.{Pdf};

    ghost Value = { Pdf };

    ghost view = { λ document. record {
      written = document.written;
      begun = document.begun;
      is_open = document.is_open;
      page = document.page;
      pending = document.pending;
      pixels = document.pixels.items;
      places = document.places.items;
    } };
}

/// How many objects stand at these places.
fn object_count(places: &[u64]) -> u64
    ensures value { result ≡ length places.now }
    ensures few { result ≤ 2 ^ 63 - 1 }
{
    places.len() as u64
}

impl<A: Allocator + Copy> Document<A> {
    /// Of which nothing is written.
    pub fn new(alloc: A) -> Document<A>
        ensures { result ≡ no_pdf }
    {
        Document {
            alloc,
            written: 0,
            begun: 0,
            is_open: false,
            page: 1,
            pending: Pending::Nothing,
            pixels: Vec::new(alloc),
            places: Vec::new(alloc),
        }
    }

    /// As if nothing were written.
    pub(crate) fn clear(&mut self)
        ensures { self.new ≡ no_pdf }
    {
        self.written = 0;
        self.begun = 0;
        self.is_open = false;
        self.page = 1;
        self.pending = Pending::Nothing;
        self.pixels.clear();
        self.places.clear();
    }

    /// How many bytes are written.
    fn written(&self) -> u64
        ensures { result ≡ self.now.written }
    {
        self.written
    }

    /// What marks a page is being written.
    fn is_open(&self) -> bool
        ensures { result ≡ self.now.is_open }
    {
        self.is_open
    }

    /// The number of the page of the job that is open.
    pub fn page(&self) -> u64
        ensures { result ≡ self.now.page }
    {
        self.page
    }

    /// What is still to be written of it.
    fn pending(&self) -> Pending
        ensures { result ≡ self.now.pending }
    {
        self.pending
    }

    /// The pixels of rows that are kept.
    fn pixels(&self) -> &[u8]
        ensures { result.now ≡ self.now.pixels }
    {
        &self.pixels
    }

    /// Where the objects from the fifth on stand.
    fn places(&self) -> &[u64]
        ensures { result.now ≡ self.now.places }
    {
        &self.places
    }

    /// Whence texts that are put into the document come.
    pub(crate) fn alloc(&self) -> A {
        self.alloc
    }

    // ---- steps

    /// The number of the next object.
    pub(crate) fn next_object(&self) -> u64
        ensures value { result ≡ next_object self.now }
        ensures few { result ≤ 2 ^ 63 + 4 }
    {
        5 + object_count(self.places())
    }

    /// Counts what a text that was so long has more.
    fn count<B: Allocator>(&mut self, old_len: usize, text: &Vec<u8, B>)
        ensures { self.new ≡ record self.old {
          written = capped (self.old.written + (vec_len text.now - old_len));
        } }
    {
        self.written = written_behind(self.written, old_len, text.len());
    }

    /// An object begins here.
    fn begin_object(&mut self) -> Result<(), AllocError>
        ensures { OnOk result (self.new ≡ begins_object self.old) }
    {
        self.places.push(self.written)?;
        Ok(())
    }

    /// Writes a text.
    pub(crate) fn push_text<B: Allocator>(
        &mut self,
        text: &mut Vec<u8, B>,
        more: &[u8],
    ) -> Result<(), AllocError>
        ensures { OnOk result
            (HasWritten (writes more.now self.old) text.old.items text.new.items self.new) }
    {
        let old_len = text.len();
        text.extend_from_slice(more)?;
        self.count(old_len, text);
        Ok(())
    }

    /// Writes an object of this number.
    pub(crate) fn push_object<B: Allocator>(
        &mut self,
        text: &mut Vec<u8, B>,
        number: u64,
        body: &[u8],
    ) -> Result<(), AllocError>
        ensures { OnOk result
            (HasWritten (object number body.now self.old) text.old.items text.new.items self.new) }
    {
        self.begin_object()?;
        let old_len = text.len();
        push_object_text(text, number, body)?;
        self.count(old_len, text);
        Ok(())
    }

    /// Writes the next object.
    pub(crate) fn push_next<B: Allocator>(
        &mut self,
        text: &mut Vec<u8, B>,
        body: &[u8],
    ) -> Result<(), AllocError>
        ensures { OnOk result
            (HasWritten (next_of body.now self.old) text.old.items text.new.items self.new) }
    {
        let number = self.next_object();
        self.push_object(text, number, body)
    }

    // ---- a page

    /// Writes how the object begins that marks a page.
    fn begin_content<B: Allocator>(&mut self, text: &mut Vec<u8, B>) -> Result<(), AllocError>
        ensures { OnOk result
            (HasWritten (content_begun self.old) text.old.items text.new.items self.new) }
    {
        let number = self.next_object();
        self.begin_object()?;
        let old_len = text.len();
        push_content_start(text, number)?;
        self.count(old_len, text);
        Ok(())
    }

    /// What marks a page begins here.
    fn open_page(&mut self)
        ensures { self.new ≡ opens_page self.old }
    {
        self.begun = self.written;
        self.is_open = true;
    }

    /// Writes how what marks a page begins.
    fn begin_marks<B: Allocator>(&mut self, text: &mut Vec<u8, B>) -> Result<(), AllocError>
        ensures { OnOk result
            (HasWritten (marks_begun self.old) text.old.items text.new.items self.new) }
    {
        self.begin_content(text)?;
        self.open_page();
        Ok(())
    }

    /// Writes what stands before the marks of a page.
    fn push_setting<B: Allocator>(
        &mut self,
        text: &mut Vec<u8, B>,
        sheet: &PageSheet,
    ) -> Result<(), AllocError>
        ensures { OnOk result (HasWritten
            (writes (page_start sheet.now.paper sheet.now.is_proof) self.old)
            text.old.items text.new.items self.new) }
    {
        let old_len = text.len();
        push_page_start(text, &sheet.paper, sheet.is_proof)?;
        self.count(old_len, text);
        Ok(())
    }

    /// Begins a page.
    fn begin_page<B: Allocator>(
        &mut self,
        text: &mut Vec<u8, B>,
        sheet: &PageSheet,
    ) -> Result<(), AllocError>
        ensures { OnOk result
            (HasWritten (page_begun sheet.now self.old) text.old.items text.new.items self.new) }
    {
        self.begin_marks(text)?;
        self.push_setting(text, sheet)
    }

    /// Begins a page, unless it has begun.
    fn begin_if_due<B: Allocator>(
        &mut self,
        text: &mut Vec<u8, B>,
        sheet: &PageSheet,
    ) -> Result<(), AllocError>
        ensures { OnOk result
            (HasWritten (page_due sheet.now self.old) text.old.items text.new.items self.new) }
    {
        if self.is_open() {
            return Ok(());
        }
        self.begin_page(text, sheet)
    }

    /// Nothing is pending any more.
    fn drop_pending(&mut self)
        ensures { self.new ≡ without_pending self.old }
    {
        self.pending = Pending::Nothing;
        self.pixels.clear();
    }

    /// Writes what is pending.
    fn settle<B: Allocator>(&mut self, text: &mut Vec<u8, B>) -> Result<(), AllocError>
        ensures { OnOk result
            (HasWritten (settled self.old) text.old.items text.new.items self.new) }
    {
        let old_len = text.len();
        push_pending(text, &self.pending(), self.pixels())?;
        self.count(old_len, text);
        self.drop_pending();
        Ok(())
    }

    /// Writes what is pending, unless a mark goes on with it.
    fn settle_before<B: Allocator>(
        &mut self,
        text: &mut Vec<u8, B>,
        paper: &Geometry,
        mark: &Mark<'_>,
    ) -> Result<(), AllocError>
        ensures { OnOk result (HasWritten
            (settled_before paper.now (shape_of mark.now) self.old)
            text.old.items text.new.items self.new) }
    {
        let is_on = goes_on(paper, &self.pending(), self.pixels().len(), mark);
        if is_on {
            return Ok(());
        }
        self.settle(text)
    }

    /// Keeps a row.
    fn keep_row(&mut self, paper: &Geometry, row: &RasterRow<'_>) -> Result<(), AllocError>
        ensures { OnOk result (self.new ≡ row_kept paper.now (row_of row.now) self.old) }
    {
        push_framed(&mut self.pixels, frame_width(paper, row.resolution), row)?;
        self.pending = with_row(paper, &self.pending, row);
        Ok(())
    }

    /// Leaves the string of a letter open.
    fn keep_glyph(&mut self, glyph: &Glyph)
        ensures { self.new ≡ glyph_kept glyph.now self.old }
    {
        self.pending = behind_glyph(glyph);
    }

    /// Keeps what is not written yet of a mark.
    fn keep(&mut self, paper: &Geometry, mark: &Mark<'_>) -> Result<(), AllocError>
        ensures { OnOk result (self.new ≡ mark_kept paper.now (shape_of mark.now) self.old) }
    {
        match mark {
            Mark::Rect(_) => Ok(()),
            Mark::Glyph(glyph) => {
                self.keep_glyph(glyph);
                Ok(())
            }
            Mark::Row(row) => self.keep_row(paper, row),
            Mark::Line(_) => Ok(()),
        }
    }

    /// Writes or keeps a mark that goes on with what is pending, or has nothing before it.
    fn put_mark<B: Allocator>(
        &mut self,
        text: &mut Vec<u8, B>,
        paper: &Geometry,
        mark: &Mark<'_>,
    ) -> Result<(), AllocError>
        ensures { OnOk result (HasWritten (mark_put paper.now (shape_of mark.now) self.old)
            text.old.items text.new.items self.new) }
    {
        let is_on = is_string(&self.pending());
        self.keep(paper, mark)?;
        let old_len = text.len();
        push_mark(text, is_on, mark)?;
        self.count(old_len, text);
        Ok(())
    }

    /// Writes a mark on the page that is open.
    pub fn push_mark<B: Allocator>(
        &mut self,
        text: &mut Vec<u8, B>,
        sheet: &PageSheet,
        mark: &Mark<'_>,
    ) -> Result<(), AllocError>
        ensures { OnOk result (HasWritten (mark_written sheet.now (shape_of mark.now) self.old)
            text.old.items text.new.items self.new) }
    {
        self.begin_if_due(text, sheet)?;
        self.settle_before(text, &sheet.paper, mark)?;
        self.put_mark(text, &sheet.paper, mark)
    }

    /// Begins a page, unless it has begun, and writes what is pending on it.
    fn make_ready<B: Allocator>(
        &mut self,
        text: &mut Vec<u8, B>,
        sheet: &PageSheet,
    ) -> Result<(), AllocError>
        ensures { OnOk result
            (HasWritten (page_ready sheet.now self.old) text.old.items text.new.items self.new) }
    {
        self.begin_if_due(text, sheet)?;
        self.settle(text)
    }

    /// How long what marks the page is that is open.
    fn marks_length(&self) -> u64
        ensures { result ≡ marks_length self.now }
    {
        self.written.saturating_sub(self.begun)
    }

    /// Writes what stands behind the marks of a page, which may tell the verdict.
    fn push_end_of_marks<B: Allocator>(
        &mut self,
        text: &mut Vec<u8, B>,
        sheet: &PageSheet,
        is_told: bool,
    ) -> Result<(), AllocError>
        ensures { OnOk result (HasWritten
            (writes (page_end sheet.now.paper self.old.page sheet.now.is_proof is_told) self.old)
            text.old.items text.new.items self.new) }
    {
        let old_len = text.len();
        push_page_end(text, &sheet.paper, self.page(), sheet.is_proof, is_told)?;
        self.count(old_len, text);
        Ok(())
    }

    /// Ends what marks a page, and writes how long that is.
    fn end_marks<B: Allocator>(&mut self, text: &mut Vec<u8, B>) -> Result<(), AllocError>
        ensures { OnOk result
            (HasWritten (marks_ended self.old) text.old.items text.new.items self.new) }
    {
        let mut body = Vec::new(self.alloc());
        push_number(&mut body, self.marks_length())?;
        self.push_text(text, ObjectPart::ContentEnd.bytes())?;
        self.push_next(text, body.as_slice())
    }

    /// Writes a page.
    fn tell_sheet<B: Allocator>(
        &mut self,
        text: &mut Vec<u8, B>,
        sheet: &PageSheet,
    ) -> Result<(), AllocError>
        ensures { OnOk result
            (HasWritten (sheet_told sheet.now self.old) text.old.items text.new.items self.new) }
    {
        let mut body = Vec::new(self.alloc());
        push_page_body(&mut body, &sheet.paper, self.next_object() - 2)?;
        self.push_next(text, body.as_slice())
    }

    /// Writes the label of a page.
    fn tell_label<B: Allocator>(
        &mut self,
        text: &mut Vec<u8, B>,
        words: &[u8],
    ) -> Result<(), AllocError>
        ensures { OnOk result
            (HasWritten (label_told words.now self.old) text.old.items text.new.items self.new) }
    {
        let mut body = Vec::new(self.alloc());
        push_label_body(&mut body, self.page(), words)?;
        self.push_next(text, body.as_slice())
    }

    /// Writes a page and its label.
    fn tell_page<B: Allocator>(
        &mut self,
        text: &mut Vec<u8, B>,
        sheet: &PageSheet,
        words: &[u8],
    ) -> Result<(), AllocError>
        ensures { OnOk result (HasWritten (page_told sheet.now words.now self.old)
            text.old.items text.new.items self.new) }
    {
        self.tell_sheet(text, sheet)?;
        self.tell_label(text, words)
    }

    /// Ends a page, with these words of its label. The verdict may be told on it.
    fn close_page<B: Allocator>(
        &mut self,
        text: &mut Vec<u8, B>,
        sheet: &PageSheet,
        is_told: bool,
        words: &[u8],
    ) -> Result<(), AllocError>
        ensures { OnOk result (HasWritten (page_closed sheet.now is_told words.now self.old)
            text.old.items text.new.items self.new) }
    {
        self.push_end_of_marks(text, sheet, is_told)?;
        self.end_marks(text)?;
        self.tell_page(text, sheet, words)
    }

    /// Ends a page that is printed so.
    pub fn end_page<B: Allocator>(
        &mut self,
        text: &mut Vec<u8, B>,
        sheet: &PageSheet,
        end: PageEnd,
    ) -> Result<(), AllocError>
        ensures { OnOk result (HasWritten (end_written sheet.now end self.old)
            text.old.items text.new.items self.new) }
    {
        let mut words = Vec::new(self.alloc());
        push_end_words(&mut words, end)?;
        self.make_ready(text, sheet)?;
        self.close_page(text, sheet, false, words.as_slice())
    }

    /// Writes why a job fails.
    fn push_why<B: Allocator>(
        &mut self,
        text: &mut Vec<u8, B>,
        sheet: &PageSheet,
        spot: SheetPlace,
        sentence: &[u8],
    ) -> Result<(), AllocError>
        ensures { OnOk result (HasWritten
            (writes (failed_text sheet.now.paper spot.x spot.y sentence.now) self.old)
            text.old.items text.new.items self.new) }
    {
        let old_len = text.len();
        push_failed(text, &sheet.paper, spot, sentence)?;
        self.count(old_len, text);
        Ok(())
    }

    /// Ends a page on which the job fails: with a cross at a place, and a sentence.
    pub fn fail_page<B: Allocator>(
        &mut self,
        text: &mut Vec<u8, B>,
        sheet: &PageSheet,
        spot: SheetPlace,
        sentence: &[u8],
    ) -> Result<(), AllocError>
        ensures { OnOk result
            (HasWritten (failure_written sheet.now spot.x spot.y sentence.now self.old)
            text.old.items text.new.items self.new) }
    {
        self.make_ready(text, sheet)?;
        self.push_why(text, sheet, spot, sentence)?;
        self.close_page(text, sheet, true, ObjectPart::LabelFails.bytes())
    }

    /// Goes on to the next page of the job.
    pub fn pass_page(&mut self)
        ensures { self.new ≡ page_behind self.old }
    {
        self.page = self.page.saturating_add(1);
        self.is_open = false;
    }

    // ---- the end

    /// How many pages there are.
    fn page_count(&self) -> u64
        ensures value { result ≡ page_count self.now }
        ensures few { result ≤ 2 ^ 61 }
    {
        object_count(self.places()).saturating_sub(18) / 4
    }

    /// Writes the object that names the others, with the labels of so many pages.
    fn push_catalog<B: Allocator>(
        &mut self,
        text: &mut Vec<u8, B>,
        count: u64,
    ) -> Result<(), AllocError>
        requires { count ≤ 2 ^ 61 }
        ensures { OnOk result (HasWritten (object 1 (catalog_body count) self.old)
            text.old.items text.new.items self.new) }
    {
        let mut body = Vec::new(self.alloc());
        push_catalog_body(&mut body, count)?;
        self.push_object(text, 1, body.as_slice())
    }

    /// Writes which objects so many pages are.
    fn push_pages<B: Allocator>(
        &mut self,
        text: &mut Vec<u8, B>,
        count: u64,
    ) -> Result<(), AllocError>
        requires { count ≤ 2 ^ 61 }
        ensures { OnOk result (HasWritten (object 2 (pages_body count) self.old)
            text.old.items text.new.items self.new) }
    {
        let mut body = Vec::new(self.alloc());
        push_pages_body(&mut body, count)?;
        self.push_object(text, 2, body.as_slice())
    }

    /// Writes the names of the job and of the printer.
    fn push_information<B: Allocator>(
        &mut self,
        text: &mut Vec<u8, B>,
        job: &[u8],
        printer: &[u8],
    ) -> Result<(), AllocError>
        ensures { OnOk result (HasWritten (object 3 (information_body job.now printer.now) self.old)
            text.old.items text.new.items self.new) }
    {
        let mut body = Vec::new(self.alloc());
        push_information_body(&mut body, job, printer)?;
        self.push_object(text, 3, body.as_slice())
    }

    /// Writes the verdict, to which the feet of pages point.
    fn push_verdict<B: Allocator>(
        &mut self,
        text: &mut Vec<u8, B>,
        sentence: &[u8],
    ) -> Result<(), AllocError>
        ensures { OnOk result (HasWritten (object 4 (verdict_body sentence.now) self.old)
            text.old.items text.new.items self.new) }
    {
        let mut body = Vec::new(self.alloc());
        push_verdict_body(&mut body, sentence)?;
        self.push_object(text, 4, body.as_slice())
    }

    /// Writes the objects that say what the document is, of so many pages.
    fn push_last<B: Allocator>(
        &mut self,
        text: &mut Vec<u8, B>,
        count: u64,
        job: &[u8],
        printer: &[u8],
        sentence: &[u8],
    ) -> Result<(), AllocError>
        requires { count ≤ 2 ^ 61 }
        ensures { OnOk result
            (HasWritten (last_written count job.now printer.now sentence.now self.old)
            text.old.items text.new.items self.new) }
    {
        self.push_catalog(text, count)?;
        self.push_pages(text, count)?;
        self.push_information(text, job, printer)?;
        self.push_verdict(text, sentence)
    }

    /// Writes the table of where the objects stand.
    fn push_table<B: Allocator>(&self, text: &mut Vec<u8, B>) -> Result<(), AllocError>
        ensures { OnOk result (text.new.items ≡ text.old.items ++ table_of self.now) }
    {
        push_places_table(text, self.places(), self.written())
    }

    /// Writes the end of the document, with the names of the job and of the printer, and the
    /// verdict.
    pub fn push_end<B: Allocator>(
        &mut self,
        text: &mut Vec<u8, B>,
        job: &[u8],
        printer: &[u8],
        sentence: &[u8],
    ) -> Result<(), AllocError>
        ensures { OnOk result (text.new.items ≡ text.old.items
            ++ document_end job.now printer.now sentence.now self.old) }
    {
        let count = self.page_count();
        self.push_last(text, count, job, printer, sentence)?;
        self.push_table(text)
    }
}
