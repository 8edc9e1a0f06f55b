//! Commands that move the pen, where a machine carries them out as known to lead within a box.

use crate::items::items_of;
use crate::steps::step_all;
use device_profile::{Profile, Sample};
use page_env::PenBounds;
use page_machine::{Machine, Start};
use pcl_items::{Item, OwnedItem, SimpleItem};
use sinks::Counts;
use std::alloc::{Allocator, Global};
use std::process::Abort;
use std::test::Fail;

/// Carries out an item that moves the pen, and tells how many marks it made, where it is known to
/// go.
fn draw<P: Allocator>(
    machine: &mut Machine<'_, P>,
    bounds: &PenBounds,
    item: &OwnedItem,
) -> Option<u64> {
    match item.as_item() {
        Item::Simple(SimpleItem::Move(motion, to)) => machine.draw_on(bounds, motion, to),
        _ => None,
    }
}

/// A job whose last items move the pen and end the frame, and of each that moves it how many marks
/// it makes, where it is known to go; or nothing where it is not known where the pen draws.
type Plot = (&'static [u8], Option<&'static [Option<u64>]>);

const PLOTS: &[Plot] = &[
    // None is selected, or the frame is stored.
    (b"\x1bE\x1b%0BIN;SP1;PU1000,1000;PD;SP0;\x1b%0A", None),
    (b"\x1bE\x1b&f0X\x1b%0BIN;SP1;PU1000,1000;PD;\x1b%0A", None),
    // The pen is down.
    (
        b"\x1bE\x1b%0BIN;SP1;PU1000,1000;PD;PD2000,2000,3000,1000;\x1b%0A",
        Some(&[Some(1), Some(1)]),
    ),
    (
        b"\x1bE\x1b%0BIN;SP1;PU1000,1000;PD;PA2000,2000;\x1b%0A",
        Some(&[Some(1)]),
    ),
    (
        b"\x1bE\x1b%0BIN;SP1;PU1000,1000;PD;PR100,100,-2000,0,5,5;\x1b%0A",
        Some(&[Some(1), None, Some(1)]),
    ),
    // It is raised, or stays so.
    (
        b"\x1bE\x1b%0BIN;SP1;PU1000,1000;PD;PU2000,2000;\x1b%0A",
        Some(&[Some(0)]),
    ),
    (
        b"\x1bE\x1b%0BIN;SP1;PU1000,1000;PA2000,2000,8129,2000;\x1b%0A",
        Some(&[Some(0), None]),
    ),
    // It is lowered, and marks a dot first.
    (
        b"\x1bE\x1b%0BIN;SP1;PU1000,1000;PD2000,2000,3000,1000;\x1b%0A",
        Some(&[Some(2), Some(1)]),
    ),
    (
        b"\x1bE\x1b%0BIN;SP1;PU1000,1000;PD;\x1b%0A",
        Some(&[Some(1)]),
    ),
    // The frame is 8 inches wide.
    (
        b"\x1bE\x1b%0BIN;SP1;PU1000,1000;PD;PD7500,1000,8129,1000;\x1b%0A",
        Some(&[Some(1), None]),
    ),
];

fn check_plot(
    rt: &impl Abort,
    alloc: Global,
    profile: &Profile,
    (job, wanted): Plot,
) -> Result<(), Fail> {
    let items = items_of(alloc, job)?;
    let behind = 1 + wanted.unwrap_or(&[]).len();
    let front = items.len().saturating_sub(behind);
    let mut machine = Machine::new(alloc, profile, Start::Unknown);
    let outcome = step_all(&mut machine, &items[..front], &mut Counts::none())?;
    assert!(rt; outcome.is_ok());
    let Some(bounds) = machine.pen_bounds() else {
        assert!(rt; wanted.is_none(), "{job:?}");
        return Ok(());
    };
    assert!(rt; wanted.is_some(), "{job:?}");
    for ((_, item), goes) in items[front..].iter().zip(wanted.unwrap_or(&[])) {
        assert_eq!(rt; draw(&mut machine, &bounds, item), *goes, "{job:?}");
    }
    Ok(())
}

#[test]
fn moves_are_known_in_the_box(rt: HostRuntime) -> Result<(), Fail> {
    let profile = Sample::B.profile(rt.alloc())?;
    for plot in PLOTS {
        check_plot(&rt, rt.alloc(), &profile, *plot)?;
    }
    Ok(())
}
