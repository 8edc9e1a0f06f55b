//! A text that is kept in memory up to a limit.
ghost use Rattle.std.specs.Prelude.{◌≡◌, [], false};

use std::alloc::Allocator;
use std::io;
use std::marker::Model;
use streams::Outlet;

/// A longer picture of a page has no place in a document of many jobs.
const LIMIT: usize = 1_000_000;

/// An outlet into memory that takes so many bytes at most, and of which the text can be had.
#[derive(Drop)]
pub(crate) struct LimitedText<A: Allocator> {
    bytes: Vec<u8, A>,
    has_failed: bool,
}

impl<A: Allocator> Model for LimitedText<A> {
    ghost use Rattle.std.specs.Prelude.{Some};
    ghost use Rattle.streams.specs.Outlet.{OutletState};

    ghost Value = { OutletState };

    ghost view = { λ text. record {
      taken = text.bytes.items;
      contents = Some text.bytes.items;
      failed = text.has_failed;
    } };
}

impl<A: Allocator> LimitedText<A> {
    /// Nothing is kept yet.
    pub fn new(alloc: A) -> LimitedText<A>
        ensures bytes { result.taken ≡ [] }
        ensures working { result.failed ≡ false }
    {
        LimitedText {
            bytes: Vec::new(alloc),
            has_failed: false,
        }
    }

    /// The text.
    pub fn into_bytes(self) -> Vec<u8, A>
        ensures { result.items ≡ self.taken }
    {
        self.bytes
    }
}

impl<A: Allocator> Outlet for LimitedText<A> {
    ghost state = { λ text. text };

    fn write(&mut self, piece: &[u8]) -> io::Result<usize> {
        if LIMIT.saturating_sub(self.bytes.len()) < piece.len() {
            self.has_failed = true;
            return Err(io::Error::other("the text is too long"));
        }
        let result = self.bytes.extend_from_slice(piece);
        self.has_failed = result.is_err();
        result?;
        Ok(piece.len())
    }

    fn has_failed(&self) -> bool {
        self.has_failed
    }
}
