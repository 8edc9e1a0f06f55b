//! Reads a job in pieces, and hands them to what takes them.
ghost use Rattle.std.specs.Prelude.{◌≡◌, ◌+◌, ◌<◌, ◌≤◌, ◌^◌, ℕ, List, [], length, IfOk, IfErr};
ghost use Rattle.std.specs.Prelude.{IsErrOf, IsFalse};
ghost use Rattle.streams.specs.declared.error.Error.{Error};
ghost use Rattle.streams.specs.Errors.{is_err_of_read};
ghost use Rattle.streams.specs.Pieces.{ByReads};
ghost use Rattle.streams.specs.Driving.{ComesByEnd, ComesByPiece, IsAnswered, IsStopped};

use crate::error::Error;
use crate::source::Source;

/// So many bytes are asked for in one read.
pub const PIECE: usize = 4096;

/// After so many reads without an end no more are made.
const MOST_READS: u64 = 1 << 40;

/// What takes a job piece by piece, and then its end, and may write to an outlet meanwhile.
pub trait Consumer<O> {
    /// What comes of a job.
    type Answer;

    // It may take so many more bytes.
    ghost has_room: { (Self × O) → ℕ → Type 0 };

    // From the one to the other by these bytes, which leave the answer open.
    ghost goes_on: { (Self × O) → List ℕ → (Self × O) → Type 0 };

    // From the one to the other, with the answer on every job that may be by these pieces.
    ghost answers: { (Self × O) → Self.Answer → List (List ℕ) → (Self × O) → Type 0 };

    // From the one to the other by these bytes, and then this error.
    ghost stops: { (Self × O) → Error → List ℕ → (Self × O) → Type 0 };

    /// Takes a piece of at most 4096 bytes. `Some`: the answer, whatever follows.
    fn piece(&mut self, outlet: &mut O, piece: &[u8]) -> Result<Option<Self::Answer>, Error>
        requires some { 0 < length piece.now }
        requires short { length piece.now ≤ 4096 }
        requires room { has_room (self.old, outlet.old) (length piece.now) }
        ensures { (first : Self × O) (bytes : List ℕ) → goes_on first bytes (self.old, outlet.old) →
            ComesByPiece goes_on answers stops first bytes piece.now
            (self.new, outlet.new) result };

    /// Takes the end of the job.
    fn end(&mut self, outlet: &mut O) -> Result<Self::Answer, Error>
        requires room { has_room (self.old, outlet.old) 0 }
        ensures { (first : Self × O) (bytes : List ℕ) → goes_on first bytes (self.old, outlet.old) →
            ComesByEnd answers stops first bytes (self.new, outlet.new) result };

    // Of the room that there was at first, the bytes leave the rest.
    ghost leaves_room: { (first : Self × O) (bytes : List ℕ) (now : Self × O) (room more : ℕ) →
        has_room first room →
        goes_on first bytes now → length bytes + more ≤ room → has_room now more };
}

/// Reads a job until there is an answer, or to its end. Nothing is read behind the answer.
///
/// An error is that of the consumer, `Read` where a read failed, or `Turns` after 2^40 reads
/// without an end.
pub fn read_job<S: Source, O, C: Consumer<O>>(
    reader: &mut S,
    consumer: &mut C,
    outlet: &mut O,
) -> Result<C::Answer, Error>
    requires working { IsFalse (S.state reader.old).failed }
    requires room { C.has_room (consumer.old, outlet.old) (2 ^ 52) }
    requires fresh { C.goes_on (consumer.old, outlet.old) [] (consumer.old, outlet.old) }
    ensures answered { IfOk result (λ answer. IsAnswered C.goes_on C.answers
        (consumer.old, outlet.old) (consumer.new, outlet.new) answer
        (S.state reader.old) (S.state reader.new)) }
    ensures stopped { IfErr result (λ error. IsStopped C.goes_on C.stops
        (consumer.old, outlet.old) (consumer.new, outlet.new) error
        (S.state reader.old) (S.state reader.new)) }
    ensures read { (S.state reader.new).failed ≡ is_err_of_read result }
    ensures turns { IsErrOf result Error.Turns →
        length (S.state reader.new).given ≡ length (S.state reader.old).given + 2 ^ 40 }
    ensures long { IsErrOf result Error.Turns →
        ByReads (S.state reader.old) (S.state reader.new) (λ job. 2 ^ 40 ≤ length job) }
{
    let mut piece = [0u8; PIECE];
    for _ in 0..MOST_READS {
        let Ok(count) = reader.read(&mut piece) else {
            return Err(Error::Read);
        };
        if count == 0 {
            return consumer.end(outlet);
        }
        let came = consumer.piece(outlet, &piece[..count])?;
        match came {
            None => {}
            Some(answer) => return Ok(answer),
        }
    }
    Err(Error::Turns)
}
