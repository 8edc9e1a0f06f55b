//! Calls that other programs make, and not this one: a session that is fed, and a list.

ghost use Rattle.std.specs.Prelude.{◌<◌};

use device_profile::{Profile, Sample};
use judgement::Judgement;
use preflight::{Session, check_job_telling};
use renderings::{Outcome, list_job};
use std::alloc::{AllocError, Global};
use std::process::Abort;
use std::test::Fail;
use streams::{Error, Latched};

/// A job that passes, one that differs, one that fails on the first printer, one with a place of
/// the cursor, one with a font that is asked for, and one with a fault.
const JOBS: &[&[u8]] = &[
    b"\x1bE\x1b*p300x300Y\x1b*c100a50b0P",
    b"\x1bE\x0cA",
    b"\x1bE\x1b%0BSP1PD5,5,-1,7;",
    b"\x1b&l2A\x1b*p300x300Y\x1b&f1S",
    b"\x1b&l2A\x1b(0N\x1b(s1p10v0s0b4101TA",
    b"\x1bE\x1b&f1",
];

/// The profiles of samples.
fn fleet_of(alloc: Global, samples: &[Sample]) -> Result<Vec<Profile>, AllocError> {
    let mut fleet = Vec::new(alloc);
    for sample in samples {
        let profile = sample.profile(alloc)?;
        fleet.push(profile)?;
    }
    Ok(fleet)
}

/// Whether what a session tells before its end is what is told of the whole job, or nothing.
fn tells_of_whole(session: &Session<'_, Global, Global>, whole: &Judgement) -> bool {
    let item = session.failing_item();
    let page = session.page();
    (item.is_none() || item == whole.failing_item)
        && (page.is_none() || page == whole.page)
        && tells_spot_of_whole(session, whole)
}

/// The same of a place of the cursor, and of a font.
fn tells_spot_of_whole(session: &Session<'_, Global, Global>, whole: &Judgement) -> bool {
    let cursor = session.cursor();
    let font = session.font();
    (cursor.is_none() || cursor == whole.cursor) && (font.is_none() || font == whole.font)
}

/// Feeds a session pieces of so many bytes. It is asked what it tells before the end.
fn check_pieces(
    rt: &impl Abort,
    alloc: Global,
    fleet: &[Profile],
    job: &[u8],
    size: usize,
    whole: &Judgement,
) -> Result<(), Error>
    requires { 0 < size }
{
    let mut session = Session::new(alloc, fleet)?;
    for piece in job.chunks(size) {
        session.feed(piece)?;
    }
    let tells = tells_of_whole(&session, whole);
    let verdict = session.end()?;
    assert!(rt;
        tells && verdict == whole.verdict,
        "{job:?} in pieces of {size}"
    );
    Ok(())
}

/// Feeds a session pieces of each length.
fn check_sizes(rt: &impl Abort, alloc: Global, fleet: &[Profile], job: &[u8]) -> Result<(), Error> {
    let whole = check_job_telling(alloc, &mut Latched::new(job), fleet)?;
    for size in 1..=job.len() {
        check_pieces(rt, alloc, fleet, job, size, &whole)?;
    }
    Ok(())
}

#[test]
fn sessions_are_fed(rt: HostRuntime) -> Result<(), Fail> {
    let fleet = fleet_of(rt.alloc(), &[Sample::B, Sample::D])?;
    for job in JOBS {
        check_sizes(&rt, rt.alloc(), &fleet, job)?;
    }
    Ok(())
}

const JOB: &[u8] = b"\x1bEA";

const LIST: &[u8] = b"0 \\x1bE\n2 A\n";

#[test]
fn a_list_is_written(rt: HostRuntime) {
    let mut taken = [0u8; 12];
    let mut job = Latched::new(JOB);
    let mut outlet = Latched::new(&mut taken[..12]);
    let answer = list_job(rt.alloc(), &mut job, &mut outlet);
    assert_eq!(rt; (answer, &taken[..12]), (Ok(Outcome::Done), LIST));
}
