//! The items of a job near a place.
ghost use Rattle.std.specs.Prelude.{IfErr, IfOk};
ghost use Rattle.foreign_calls.specs.Answers.{IsStop};
ghost use Rattle.web_module.specs.Nearby.{IsNearby};

use foreign_calls::{Told, Why};
use many_jobs::read_near;
use std::alloc::Allocator;
use streams::Latched;

/// A line for each item near a place.
pub(crate) fn near<A: Allocator + Copy>(alloc: A, job: &[u8], place: u64) -> Result<Told<A>, Why>
    ensures near { IfOk result (λ told. IsNearby place job.now told.text) }
    ensures stops { IfErr result IsStop }
{
    let mut source = Latched::new(job);
    match read_near(alloc, &mut source, place) {
        Ok(text) => Ok(Told::of_text(text)),
        Err(error) => Err(Why::Stopped(error)),
    }
}
