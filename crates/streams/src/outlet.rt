//! What bytes are written to.
ghost use Rattle.std.specs.Prelude.{◌≡◌, IsFalse};
ghost use Rattle.std.specs.Io.{WritesAtMost};
ghost use Rattle.streams.specs.Outlet.{OutletState, Takes};

use std::io;

/// A writer that remembers whether it failed. After a failed write it is not written to again.
pub trait Outlet {
    ghost state: { Self → OutletState };

    /// Writes a front of the piece, and answers how many bytes that is.
    fn write(&mut self, piece: &[u8]) -> io::Result<usize>
        requires { IsFalse (state self.old).failed }
        ensures bound { WritesAtMost result piece.now }
        ensures taken { Takes (state self.old) (state self.new) result piece.now };

    /// Whether a write has failed, or took nothing of a piece that is not empty.
    fn has_failed(&self) -> bool
        ensures { result ≡ (state self.now).failed };
}
