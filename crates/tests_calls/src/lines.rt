//! Lines of text, which a machine carries out at once.

use crate::items::items_of;
use crate::steps::step_all;
use device_profile::{Profile, Sample};
use page_machine::{Machine, Start};
use sinks::Counts;
use std::alloc::{Allocator, Global};
use std::process::Abort;
use std::test::Fail;

/// Carries out the first bytes that are known to go, and tells how many they are and how many make
/// a mark.
fn pass<P: Allocator>(machine: &mut Machine<'_, P>, bytes: &[u8]) -> Option<(usize, u64)> {
    let Some((measure, from)) = machine.text_measure() else {
        return None;
    };
    let lines = measure.lines_ahead(from, bytes);
    machine.pass_lines(&lines);
    Some((lines.count, lines.glyphs))
}

/// Bytes, and what goes of them.
type Passed = (&'static [u8], Option<(usize, u64)>);

/// A job, and bytes behind it, one behind another.
type Lines = (&'static [u8], &'static [Passed]);

const LINES: &[Lines] = &[
    // While the cursor is at home its place is not known.
    (b"", &[(b"A", None)]),
    // On a line of 80 columns, of which one is printed.
    (
        b"\x1bEA",
        &[
            (b"", Some((0, 0))),
            // A code that the face has not ends the lines, and so does a control code.
            (b"\xc8", Some((0, 0))),
            (b"ab\xc8", Some((2, 2))),
            (b"hello, world\x1bE", Some((12, 11))),
            // The rest of the line, and nothing behind it.
            (&[b'A'; 100], Some((65, 65))),
            (b"A", Some((0, 0))),
            (b" ", Some((0, 0))),
            // Line ends, and a whole line behind them.
            (b"\r\n\n", Some((3, 0))),
            (&[b'A'; 100], Some((80, 80))),
            // A line feed alone leads straight down.
            (b"\rAB\n", Some((4, 2))),
            (&[b'A'; 100], Some((78, 78))),
            (b"\rA B\x0c", Some((4, 2))),
        ],
    ),
    // As line termination has it: LF returns, CR feeds.
    (
        b"\x1bEA\x1b&k2G",
        &[(b"BC\nD", Some((4, 3))), (&[b'A'; 100], Some((79, 79)))],
    ),
    (
        b"\x1bEA\x1b&k3G",
        &[(&[b'\r'; 100], Some((59, 0))), (b"\n", Some((0, 0)))],
    ),
    // As many line feeds as the text length has lines, or the page where the perforation is not
    // skipped.
    (b"\x1bEA", &[(&[b'\n'; 100], Some((59, 0)))]),
    (b"\x1b&l0LA", &[(&[b'\n'; 100], Some((62, 0)))]),
    // A left margin, and a bottom margin.
    (
        b"\x1bE\x1b&a10L\x1b&l5FA",
        &[
            (b"\rB", Some((2, 1))),
            (&[b'A'; 100], Some((69, 69))),
            (&[b'\n'; 100], Some((4, 0))),
        ],
    ),
    // In a definition, and behind it.
    (b"\x1bEA\x1b&f0X", &[(b"B", None)]),
    (b"\x1bEA\x1b&f0X\x1b&f1X", &[(b"B", Some((1, 1)))]),
];

fn check_passed(rt: &impl Abort, machine: &mut Machine<'_>, rows: &[Passed]) {
    for (bytes, wanted) in rows {
        assert_eq!(rt; pass(machine, bytes), *wanted, "{bytes:?}");
    }
}

fn check_lines(
    rt: &impl Abort,
    alloc: Global,
    profile: &Profile,
    (job, rows): Lines,
) -> Result<(), Fail> {
    let items = items_of(alloc, job)?;
    let mut machine = Machine::new(alloc, profile, Start::Unknown);
    let outcome = step_all(&mut machine, &items, &mut Counts::none())?;
    assert!(rt; outcome.is_ok());
    check_passed(rt, &mut machine, rows);
    Ok(())
}

#[test]
fn text_goes_in_lines(rt: HostRuntime) -> Result<(), Fail> {
    let profile = Sample::B.profile(rt.alloc())?;
    for lines in LINES {
        check_lines(&rt, rt.alloc(), &profile, *lines)?;
    }
    Ok(())
}
