//! A text that is kept in memory.
ghost use Rattle.std.specs.Prelude.{◌≡◌, [], false};
ghost use Rattle.named_inputs.specs.KeptText.{kept_error};

use std::alloc::Allocator;
use std::io;
use std::marker::Model;
use streams::{Error, Outlet};

/// An outlet into memory, of which the text can be had.
#[derive(Drop)]
pub struct KeptText<A: Allocator> {
    bytes: Vec<u8, A>,
    has_failed: bool,
}

impl<A: Allocator> Model for KeptText<A> {
    ghost use Rattle.std.specs.Prelude.{Some};
    ghost use Rattle.streams.specs.Outlet.{OutletState};

    ghost Value = { OutletState };

    ghost view = { λ text. record {
      taken = text.bytes.items;
      contents = Some text.bytes.items;
      failed = text.has_failed;
    } };
}

impl<A: Allocator> KeptText<A> {
    /// Nothing is kept yet.
    pub fn new(alloc: A) -> KeptText<A>
        ensures bytes { result.taken ≡ [] }
        ensures working { result.failed ≡ false }
    {
        KeptText {
            bytes: Vec::new(alloc),
            has_failed: false,
        }
    }

    /// The text.
    pub fn into_bytes(self) -> Vec<u8, A>
        ensures { result.items ≡ self.taken }
    {
        self.bytes
    }
}

impl<A: Allocator> Outlet for KeptText<A> {
    ghost state = { λ text. text };

    fn write(&mut self, piece: &[u8]) -> io::Result<usize> {
        let result = self.bytes.extend_from_slice(piece);
        self.has_failed = result.is_err();
        result?;
        Ok(piece.len())
    }

    fn has_failed(&self) -> bool {
        self.has_failed
    }
}

/// Why work on a text that is kept in memory stopped: a write there fails for want of memory alone.
pub fn kept_error(error: Error) -> Error
    ensures { result ≡ kept_error error }
{
    match error {
        Error::Write => Error::Memory,
        Error::Memory | Error::Read | Error::Turns | Error::NoProfile | Error::Items => error,
    }
}
