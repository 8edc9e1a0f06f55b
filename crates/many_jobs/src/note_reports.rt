//! How the notes of a job are told, in a check of many.
ghost use Rattle.std.specs.Prelude.{◌≡◌, ◌++◌, IfOk, OnOk, decimal, map};
ghost use Rattle.notes.specs.Note.{note_number};
ghost use Rattle.meanings.specs.Explanations.{explained_by};
ghost use Rattle.job_rows.specs.Heads.{note_part};
ghost use Rattle.many_jobs.specs.JsonObject.{members_of};
ghost use Rattle.many_jobs.specs.NoteReports.{note_phrase, note_words, told_in, told_line};
ghost use Rattle.many_jobs.specs.NoteReports.{told_members, told_object, told_sentence};

use crate::job_objects::put_explanation;
use crate::json_object::Object;
use crate::telling::Format;
use job_reports::push_named_first;
use job_rows::push_note;
use line_words::push_named;
use meanings::explain::explained_by;
use notes::{Note, NoteText, note_name, short_note};
use pcl_items::Place;
use shown_bytes::{push_number, push_shown};
use std::alloc::{AllocError, Allocator, Global};

/// Tells the notes of a job on a printer, each with its explanation.
#[derive(Drop)]
pub struct NoteReport<'t, B: Allocator + Copy> {
    pub alloc: B,
    pub job: &'t [u8],
    /// The name of the printer.
    pub printer: &'t [u8],
    pub format: Format,
    /// The explanations of which a note gets its own.
    pub explanations: &'t [&'t str],
}

impl<B: Allocator + Copy> NoteText for NoteReport<'_, B> {
    ghost note_text = { λ report told. told_in report.format
        (explained_by (decimal (note_number told.note))
        (map (λ text. text.now) report.explanations.now))
        (record { job = report.job.now; printer = report.printer.now }) told };

    fn push<A: Allocator>(
        &self,
        text: &mut Vec<u8, A>,
        place: Place,
        note: Note,
    ) -> Result<(), AllocError> {
        let below = explained_by(note.number(), self.explanations);
        match self.format {
            Format::Line => self.push_line(text, place, note)?,
            Format::Words => self.push_sentence(text, place, note)?,
            Format::Json(memory) => return self.push_object(memory, text, place, note, below),
            Format::Html => return self.push_paragraph(text, place, note, below),
        }
        text.extend_from_slice(below.as_bytes())
    }
}

impl<B: Allocator + Copy> NoteReport<'_, B> {
    /// Appends the line of a note.
    fn push_line<A: Allocator>(
        &self,
        text: &mut Vec<u8, A>,
        place: Place,
        note: Note,
    ) -> Result<(), AllocError>
        ensures { OnOk result (text.new.items ≡ text.old.items ++
            told_line (record { job = self.now.job.now; printer = self.now.printer.now })
            (record { place = place; note = note })) }
    {
        push_named(text, b"NOTE at=", place)?;
        text.extend_from_slice(b" printer=")?;
        text.extend_from_slice(self.printer)?;
        text.extend_from_slice(b" ")?;
        push_note_words(text, note)?;
        text.extend_from_slice(b" ")?;
        push_shown(text, self.job)?;
        text.extend_from_slice(b"\n")
    }

    /// Appends the sentence of a note.
    fn push_sentence<A: Allocator>(
        &self,
        text: &mut Vec<u8, A>,
        place: Place,
        note: Note,
    ) -> Result<(), AllocError>
        ensures { OnOk result (text.new.items ≡ text.old.items ++
            told_sentence (record { job = self.now.job.now; printer = self.now.printer.now })
            (record { place = place; note = note })) }
    {
        push_named_first(self.alloc, text, self.job)?;
        text.extend_from_slice(self.printer)?;
        push_named(text, b" has a note at byte ", place)?;
        push_note_phrase(text, note)?;
        text.extend_from_slice(b"\n")
    }

    /// Appends what a row has of a note, with this explanation, where there is one.
    fn push_paragraph<A: Allocator>(
        &self,
        text: &mut Vec<u8, A>,
        place: Place,
        note: Note,
        explanation: &str,
    ) -> Result<(), AllocError>
        ensures { OnOk result (text.new.items ≡ text.old.items ++ note_part explanation.now
            (told_sentence (record { job = self.now.job.now; printer = self.now.printer.now })
            (record { place = place; note = note }))) }
    {
        let mut sentence = Vec::new(self.alloc);
        self.push_sentence(&mut sentence, place, note)?;
        push_note(text, sentence.as_slice(), explanation)
    }

    /// Appends the object of a note, with this explanation, where there is one.
    fn push_object<A: Allocator>(
        &self,
        memory: Global,
        text: &mut Vec<u8, A>,
        place: Place,
        note: Note,
        explanation: &str,
    ) -> Result<(), AllocError>
        ensures { OnOk result (text.new.items ≡ text.old.items ++ told_object explanation.now
            (record { job = self.now.job.now; printer = self.now.printer.now })
            (record { place = place; note = note })) }
    {
        let object = self.object(memory, place, note, explanation)?;
        let line = object.into_text()?;
        text.extend_from_slice(line.as_bytes())?;
        text.push(b'\n')?;
        Ok(())
    }

    /// What is told of a note.
    fn object(
        &self,
        memory: Global,
        place: Place,
        note: Note,
        explanation: &str,
    ) -> Result<Object, AllocError>
        ensures { IfOk result (λ object. members_of object ≡ told_members explanation.now
            (record { job = self.now.job.now; printer = self.now.printer.now })
            (record { place = place; note = note })) }
    {
        let mut object = Object::new(memory);
        object.put_name("job", self.job)?;
        object.put_name("printer", self.printer)?;
        object.put_number("at", place)?;
        object.put_number("code", u64::from(note.number()))?;
        object.put_words("note", note_name(note))?;
        put_explanation(&mut object, explanation)?;
        Ok(object)
    }
}

/// Appends a note in short words and as a line has it.
fn push_note_phrase<A: Allocator>(text: &mut Vec<u8, A>, note: Note) -> Result<(), AllocError>
    ensures { OnOk result (text.new.items ≡ text.old.items ++ note_phrase note) }
{
    text.extend_from_slice(b": ")?;
    text.extend_from_slice(short_note(note))?;
    text.extend_from_slice(b" (")?;
    push_note_words(text, note)?;
    text.extend_from_slice(b")")
}

/// Appends the number and the name of a note.
fn push_note_words<A: Allocator>(text: &mut Vec<u8, A>, note: Note) -> Result<(), AllocError>
    ensures { OnOk result (text.new.items ≡ text.old.items ++ note_words note) }
{
    push_number(text, u64::from(note.number()))?;
    text.extend_from_slice(b" ")?;
    text.extend_from_slice(note_name(note))
}
