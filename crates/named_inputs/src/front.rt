//! The front of what a source has.
ghost use Rattle.std.specs.Prelude.{◌≡◌, ◌≤◌, take, length, IfOk, IfErr, IfSome, IsFalse};
ghost use Rattle.std.specs.Io.KnownBytes.{Consumes};
ghost use Rattle.streams.specs.Errors.{is_err_of_read};
ghost use Rattle.streams.specs.Pieces.{ByReads};
ghost use Rattle.named_inputs.specs.Texts.{IsErrorOfReading};

use std::alloc::Allocator;
use streams::{Error, Source};

/// So many bytes are asked for in one read.
const PIECE: usize = 4096;

/// The first bytes of a source, at most so many, and fewer only where it has no more. What is
/// behind them is not read.
pub fn read_front<S: Source, A: Allocator>(
    alloc: A,
    source: &mut S,
    most: usize,
) -> Result<Vec<u8, A>, Error>
    requires { IsFalse (S.state source.old).failed }
    ensures bytes { IfOk result (λ front. IfSome (S.state source.old).remaining
        (λ input. front.items ≡ take most input)) }
    ensures given { IfOk result (λ front. ByReads (S.state source.old) (S.state source.new)
        (λ input. front.items ≡ take most input)) }
    ensures taken { IfOk result (λ front. Consumes (S.state source.old).remaining
        (S.state source.new).remaining front.items) }
    ensures most { IfOk result (λ front. length front.items ≤ most) }
    ensures errors { IfErr result IsErrorOfReading }
    ensures read { (S.state source.new).failed ≡ is_err_of_read result }
{
    let mut front = Vec::new(alloc);
    let mut piece = [0u8; PIECE];
    while front.len() < most {
        let wanted = PIECE.min(most - front.len());
        let Ok(count) = source.read(&mut piece[..wanted]) else {
            return Err(Error::Read);
        };
        if count == 0 {
            return Ok(front);
        }
        front.extend_from_slice(&piece[..count])?;
    }
    Ok(front)
}
