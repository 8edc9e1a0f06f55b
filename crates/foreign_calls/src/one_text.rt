//! The text of one profile in memory, under any word.
ghost use Rattle.std.specs.Prelude.{◌≡◌, [], Some, false};

use named_inputs::{ProfileTexts, read_text_from};
use std::alloc::Allocator;
use streams::{Error, Given, Latched, Source};

/// The text of one profile, which each word names.
#[derive(Drop)]
pub struct OneText<'a> {
    text: &'a [u8],
    /// The words under which it was asked for.
    named: Given,
    given: Given,
    /// What the reads of it gave, the last time.
    reads: Given,
    has_failed: bool,
}

impl<'a> OneText<'a> {
    /// This text.
    pub fn new(text: &'a [u8]) -> OneText<'a>
        ensures text { result.text.now ≡ text.now }
        ensures working { result.has_failed ≡ false }
    {
        OneText {
            text,
            named: Given::new(),
            given: Given::new(),
            reads: Given::new(),
            has_failed: false,
        }
    }
}

impl ProfileTexts for OneText<'_> {
    ghost text_of = { λ one _. Some one.text.now };

    ghost named = { λ one. one.named.pieces };

    ghost given = { λ one. one.given.pieces };

    ghost reads = { λ one. one.reads.pieces };

    ghost failed = { λ one. one.has_failed };

    fn read_text<A: Allocator>(&mut self, alloc: A, word: &str) -> Result<Vec<u8, A>, Error> {
        self.named = self.named.and(word.as_bytes());
        let mut source = Latched::new(self.text);
        let result = read_text_from(alloc, &mut source);
        self.has_failed = source.has_failed();
        self.reads = source.into_given();
        if let Ok(text) = &result {
            self.given = self.given.and(text.as_slice());
        }
        result
    }
}
