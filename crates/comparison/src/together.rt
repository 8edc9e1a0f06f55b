//! A job that is carried out for two, while the same is read of both.

ghost use Rattle.std.specs.Prelude.{◌≡◌, ◌*◌, ◌<◌, ◌≤◌, ◌^◌, [], IfOk, Ok, OnOk, false, length};
ghost use Rattle.std.specs.Prelude.{true};
ghost use Rattle.comparison.specs.Running.{IsWaiting, is_open, work};
ghost use Rattle.comparison.specs.Together.{CountsOn, TakenOfBoth};

use crate::difference::Spot;
use crate::running_job::RunningJob;
use crate::stepping::Stepped;
use crate::texts::count_lines;
use std::alloc::{AllocError, Allocator};

/// Carries out all that the bytes so far decide, and counts what it makes. Tells whether more bytes
/// are wanted; else the job is over.
///
/// An error means that memory was refused.
// Apart from what reads on: NEW, which that answers, is large.
pub(crate) fn count_fed<A: Allocator + Copy, P: Allocator>(
    both: &mut RunningJob<'_, A, P>,
    spot: &mut Spot,
) -> Result<bool, AllocError>
    requires none { both.old.events ≡ [] }
    ensures counted { OnOk result (CountsOn both.old both.new spot.old spot.new) }
    ensures waits { result ≡ Ok true → IsWaiting both.new }
    ensures few { OnOk result (work both.new ≤ work both.old) }
    ensures less { result ≡ Ok false → is_open both.old.progress ≡ true →
        work both.new < work both.old }
    ensures none { both.new.events ≡ [] }
    ensures number { both.new.number ≡ both.old.number }
{
    'items: while both.is_open() {
        if !count_lines(both, spot) {
            match both.count_next(spot) {
                Stepped::More => return Ok(true),
                Stepped::Refused => return Err(AllocError),
                _ => {}
            }
        }
    }
    Ok(false)
}

/// Takes what one read more gave of both; answers NEW where that is not the same.
///
/// An error means that memory was refused.
pub(crate) fn take_of_both<'p, A: Allocator + Copy, P: Allocator>(
    alloc: A,
    both: &mut RunningJob<'p, A, P>,
    piece: &[u8],
    other: &[u8],
) -> Result<Option<RunningJob<'p, A, P>>, AllocError>
    requires waits { IsWaiting both.old }
    requires few { both.old.reads < 2 ^ 40 }
    requires small { both.old.total ≤ 4096 * both.old.reads }
    requires short { length piece.now ≤ 4096 }
    requires other_short { length other.now ≤ 4096 }
    ensures taken { IfOk result (λ parted.
        TakenOfBoth piece.now other.now both.old both.new parted) }
    ensures less { OnOk result (work both.new < work both.old) }
    ensures none { OnOk result (both.new.events ≡ []) }
    ensures number { both.new.number ≡ both.old.number }
{
    if piece == other {
        both.take_read(piece)?;
        return Ok(None);
    }
    let mut second = both.copied(alloc)?;
    second.take_read(other)?;
    both.take_read(piece)?;
    Ok(Some(second))
}
