//! What bytes are read from.
ghost use Rattle.std.specs.Prelude.{◌≡◌, ◌<◌, IsFalse, length};
ghost use Rattle.std.specs.Io.{ReadsAtMost};
ghost use Rattle.streams.specs.Source.{Reads, SourceState};

use std::io;

/// A reader that remembers whether it failed. After a failed read it is not read again.
pub trait Source {
    ghost state: { Self → SourceState };

    /// Reads some bytes into the front of `buf`, and answers how many; 0 is the end.
    fn read(&mut self, buf: &mut [u8]) -> io::Result<usize>
        requires working { IsFalse (state self.old).failed }
        requires room { 0 < length buf.old }
        ensures bound { ReadsAtMost result buf.new }
        ensures read { Reads (state self.old) (state self.new) result buf.new };

    /// Whether a read has failed.
    fn has_failed(&self) -> bool
        ensures { result ≡ (state self.now).failed };

    /// Why the last read failed, where the system tells it.
    fn error(&self) -> Option<io::Error> {
        None
    }
}
