//! The texts of profiles on this machine: built-in samples and files.
ghost use Rattle.std.specs.Prelude.{◌≡◌, ◌≤◌, ◌∷◌, ◌++◌, [], false, take, length};
ghost use Rattle.std.specs.Prelude.{IfOk, IfErr, IfSome};
ghost use Rattle.streams.specs.Errors.{is_err_of_read};
ghost use Rattle.streams.specs.Used.{TextsAt};
ghost use Rattle.named_inputs.specs.Texts.{IsErrorOfReading, IsTextBy, sample_named, text_named};

use crate::texts::{ProfileTexts, read_text_from};
use device_profile::Sample;
use std::alloc::Allocator;
use std::io;
use std::marker::Model;
use std::rt::Files;
use streams::{Error, FileId, FileSource, FilesUsed, Given, Latched, Open, Source};

/// The built-in samples under `@A` to `@D`, and the files under their paths.
#[derive(Drop)]
pub struct FileTexts<'a, R: Files> {
    files: &'a R,
    /// The words under which texts were asked for.
    named: Given,
    given: Given,
    /// What the reads of the last text gave.
    reads: Given,
    has_failed: bool,
    /// The file of the last text, if it was one.
    file: Option<FileId>,
    /// Why the last text could not be read.
    error: Option<io::Error>,
}

impl<'a, R: Files> Model for FileTexts<'a, R> {
    ghost use Rattle.named_inputs.specs.FileState.{FileState};

    ghost Value = { FileState };

    ghost view = { λ texts. record {
      named = texts.named.pieces;
      given = texts.given.pieces;
      reads = texts.reads.pieces;
      has_failed = texts.has_failed;
    } };
}

impl<'a, R: Files> FileTexts<'a, R> {
    /// The samples and the files, of which nothing is read yet.
    pub fn new(files: &'a R) -> FileTexts<'a, R>
        ensures named { result.named ≡ [] }
        ensures given { result.given ≡ [] }
        ensures working { result.has_failed ≡ false }
    {
        FileTexts {
            files,
            named: Given::new(),
            given: Given::new(),
            reads: Given::new(),
            has_failed: false,
            file: None,
            error: None,
        }
    }

    /// Tells the history of files the texts, of which no more is read.
    pub fn end(self, used: &mut FilesUsed)
        ensures { used.new ≡ used.old ++ TextsAt self.entry.named self.entry.given
            self.entry.has_failed ∷ [] }
    {
        used.texts(self.named, self.given, self.has_failed);
    }

    fn read_named<A: Allocator>(&mut self, alloc: A, word: &str) -> Result<Vec<u8, A>, Error>
        ensures bytes { IfOk result (λ text. IfSome (text_named word.now)
            (λ known. text.items ≡ take 65_537 known)) }
        ensures reads { IfOk result (λ text. IsTextBy self.new.reads text.items) }
        ensures most { IfOk result (λ text. length text.items ≤ 65_537) }
        ensures errors { IfErr result IsErrorOfReading }
        ensures named { self.new.named ≡ self.old.named ++ word.now ∷ [] }
        ensures given { self.new.given ≡ self.old.given }
        ensures status { self.new.has_failed ≡ is_err_of_read result }
    {
        self.named = self.named.and(word.as_bytes());
        if let Some(sample) = sample_named(word) {
            let mut source = Latched::new(sample.text());
            let result = read_text_from(alloc, &mut source);
            self.has_failed = source.has_failed();
            self.reads = source.into_given();
            self.file = None;
            return result;
        }
        let mut file = FileSource::new(self.files, word);
        let result = read_text_from(alloc, &mut file);
        self.has_failed = file.has_failed();
        self.file = file.file();
        self.error = file.error();
        self.reads = file.into_given();
        result
    }
}

impl<R: Files> ProfileTexts for FileTexts<'_, R> {
    ghost text_of = { λ _. text_named };

    ghost named = { λ texts. texts.named };

    ghost given = { λ texts. texts.given };

    ghost reads = { λ texts. texts.reads };

    ghost failed = { λ texts. texts.has_failed };

    fn read_text<A: Allocator>(&mut self, alloc: A, word: &str) -> Result<Vec<u8, A>, Error> {
        let result = self.read_named(alloc, word);
        if let Ok(text) = &result {
            self.given = self.given.and(text.as_slice());
        }
        result
    }

    fn file(&self) -> Option<FileId> {
        self.file
    }

    fn error(&self) -> Option<io::Error> {
        self.error
    }
}

/// The built-in sample that a word names; any other word is a path.
fn sample_named(word: &str) -> Option<Sample>
    ensures { result ≡ sample_named word.now }
{
    match word {
        "@A" => Some(Sample::A),
        "@B" => Some(Sample::B),
        "@C" => Some(Sample::C),
        "@D" => Some(Sample::D),
        _ => None,
    }
}
