//! What the texts of profiles are read from.
ghost use Rattle.std.specs.Prelude.{◌≡◌, ◌≤◌, ℕ, Bool, List, [], ◌∷◌, ◌++◌, Option, take, length};
ghost use Rattle.std.specs.Prelude.{IfErr, IfOk, IfSome, IsFalse};
ghost use Rattle.streams.specs.Errors.{is_err_of_read};
ghost use Rattle.named_inputs.specs.Texts.{IsErrorOfReading, IsTextBy, text_read};

use crate::front::read_front;
use std::alloc::Allocator;
use std::io;
use streams::{Error, FileId, Source};

/// So many bytes of a text are read at most: one more than a text may have, which tells that it
/// has too many.
const MOST_OF_TEXT: usize = 65_537;

/// Texts under the words that name them. After a failed read no more are read.
pub trait ProfileTexts {
    // The text that a word names, where it is known.
    ghost text_of: { Self → List ℕ → Option (List ℕ) };

    // The words under which texts were asked for so far, one after another.
    ghost named: { Self → List (List ℕ) };

    // The texts that were read so far, one after another.
    ghost given: { Self → List (List ℕ) };

    // What the reads of the last text gave, piece by piece.
    ghost reads: { Self → List (List ℕ) };

    // A read has failed.
    ghost failed: { Self → Bool };

    /// Reads the text that a word names: its first 65,537 bytes, where it has more.
    ///
    /// An error is `Memory` where the allocator refused a request, or `Read` where the text could
    /// not be read.
    fn read_text<A: Allocator>(&mut self, alloc: A, word: &str) -> Result<Vec<u8, A>, Error>
        requires { IsFalse (failed self.old) }
        ensures bytes { IfOk result (λ text. IfSome (text_of self.old word.now)
            (λ known. text.items ≡ take 65_537 known)) }
        ensures given { given self.new ≡ given self.old ++ text_read (λ text. text.items) result }
        ensures reads { IfOk result (λ text. IsTextBy (reads self.new) text.items) }
        ensures most { IfOk result (λ text. length text.items ≤ 65_537) }
        ensures errors { IfErr result IsErrorOfReading }
        ensures named { named self.new ≡ named self.old ++ word.now ∷ [] }
        ensures same { text_of self.new ≡ text_of self.old }
        ensures status { failed self.new ≡ is_err_of_read result };

    /// The file that the last text was read from, if it was one.
    fn file(&self) -> Option<FileId> {
        None
    }

    /// Why the last text could not be read, where the system tells it.
    fn error(&self) -> Option<io::Error> {
        None
    }
}

/// Reads the text of a source of which nothing is read yet, as `read_text` does that of a word.
pub fn read_text_from<S: Source, A: Allocator>(
    alloc: A,
    source: &mut S,
) -> Result<Vec<u8, A>, Error>
    requires working { IsFalse (S.state source.old).failed }
    requires unread { (S.state source.old).given ≡ [] }
    ensures bytes { IfOk result (λ text. IfSome (S.state source.old).remaining
        (λ known. text.items ≡ take 65_537 known)) }
    ensures reads { IfOk result (λ text. IsTextBy (S.state source.new).given text.items) }
    ensures most { IfOk result (λ text. length text.items ≤ 65_537) }
    ensures errors { IfErr result IsErrorOfReading }
    ensures status { (S.state source.new).failed ≡ is_err_of_read result }
{
    read_front(alloc, source, MOST_OF_TEXT)
}
