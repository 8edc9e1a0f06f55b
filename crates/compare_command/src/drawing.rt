//! The command `compare` for two jobs, with a picture of what differs.

ghost use Rattle.std.specs.Prelude.{◌≡◌, ◌≢◌, [], IfErr, IfOk, IsFalse, Some, map, option_map};
ghost use Rattle.compare_command.specs.Compare.{asked_for};
ghost use Rattle.compare_command.specs.Drawing.{DrawsFound, DrawsPicture, IsEndOfCreating};
ghost use Rattle.compare_command.specs.Drawing.{LeavesDrawn, LeavesDrawnFor, is_whole};
ghost use Rattle.compare_command.specs.Drawing.{picture_found};
ghost use Rattle.compare_command.specs.Pictures.{drawn_manner, drawn_most};
ghost use Rattle.named_inputs.specs.Texts.{AsksInOrder};
ghost use Rattle.requests.specs.Status.{is_err_at_write};

use crate::asked::CompareAsked;
use crate::command::{Printers, read_printers, write_found};
use crate::finding::find;
use crate::found::{Found, Manner, near_by};
use crate::picture::picture_of;
use crate::stops::tell_stop;
use device_profile::Profile;
use named_inputs::{Jobs, ProfileTexts};
use page_comparison::{Most, PagesError};
use requests::{Extent, Nearness, Status};
use std::alloc::Global;
use streams::{Create, CreateError, Error, Outlet, write_text};

/// Of a document of all pages that differ at most so many are drawn.
const MOST_DRAWN: u64 = 100;

/// How the command ends, and whether OUT has all of the picture.
#[derive(Clone, Copy)]
pub struct Drawn {
    pub status: Status,
    pub is_drawn: bool,
}

impl Drawn {
    /// OUT has all of the picture, and the command came to its end.
    pub fn is_whole(self) -> bool
        ensures { result ≡ is_whole self }
    {
        self.is_drawn && self.status.is_complete()
    }
}

/// The command `compare` with a picture: as `compare`, and in OUT the first page that differs as an
/// SVG, or where all differences are told, the pages that differ as an HTML document. Jobs that
/// print the same, and jobs that fail, leave OUT as it is.
///
/// Pages are compared one by one, so the first difference is the first of all of them, as the
/// picture shows them. Those that are drawn are held until both jobs are read.
pub fn compare_drawn<'n, J: Jobs<'n>, T: ProfileTexts, D: Create, O: Outlet, E: Outlet>(
    alloc: Global,
    jobs: &mut J,
    texts: &mut T,
    asked: &CompareAsked<'_, 'n>,
    out: &mut D,
    stdout: &mut O,
    stderr: &mut E,
) -> Drawn
    requires texts { IsFalse (T.failed texts.old) }
    requires out { IsFalse (D.state out.old).failed }
    requires stdout { IsFalse (O.state stdout.old).failed }
    requires stderr { IsFalse (E.state stderr.old).failed }
    requires some { asked.now.printers.now ≢ [] }
    ensures left { LeavesDrawn
        (map (λ word. T.text_of texts.old word.now) asked.now.printers.now)
        (T.given texts.old) (T.given texts.new) (asked_for asked.now) (J.start jobs.old) result
        (J.ended jobs.old) (J.ended jobs.new) (D.state out.old) (D.state out.new)
        (O.state stdout.old) (O.state stdout.new) (E.state stderr.old) (E.state stderr.new) }
    ensures named { AsksInOrder (map (λ word. word.now) asked.now.printers.now)
        (T.named texts.old) (T.named texts.new) }
{
    match read_printers(alloc, texts, asked.printers, asked.form, stderr) {
        Ok(printers) => draw_on_printers(alloc, jobs, asked, &printers, out, stdout, stderr),
        Err(status) => Drawn {
            status,
            is_drawn: false,
        },
    }
}

/// Compares the jobs on these printers, draws what differs, and writes what is found.
fn draw_on_printers<'n, J: Jobs<'n>, D: Create, O: Outlet, E: Outlet>(
    alloc: Global,
    jobs: &mut J,
    asked: &CompareAsked<'_, 'n>,
    printers: &Printers,
    out: &mut D,
    stdout: &mut O,
    stderr: &mut E,
) -> Drawn
    requires out { IsFalse (D.state out.old).failed }
    requires stdout { IsFalse (O.state stdout.old).failed }
    requires stderr { IsFalse (E.state stderr.old).failed }
    ensures { LeavesDrawnFor (asked_for asked.now) printers.now.fleet.items
        (map (λ name. name.items) printers.now.names.items)
        (J.start jobs.old) result (J.ended jobs.old) (J.ended jobs.new)
        (D.state out.old) (D.state out.new) (O.state stdout.old) (O.state stdout.new)
        (E.state stderr.old) (E.state stderr.new) }
{
    let manner = drawn_manner(asked.nearness, asked.extent);
    let fleet = printers.fleet.as_slice();
    let names = printers.names.as_slice();
    match find(alloc, jobs, asked, manner, fleet) {
        Ok(found) => draw_found(alloc, asked, fleet, names, &found, out, stdout),
        Err(stop) => {
            let status = tell_stop(alloc, asked, manner, &stop, stderr);
            Drawn {
                status,
                is_drawn: false,
            }
        }
    }
}

/// How jobs are compared where this is asked of them, and what differs is drawn: page by page.
fn drawn_manner(nearness: Nearness, extent: Extent) -> Manner
    ensures { result ≡ drawn_manner nearness extent }
{
    Manner::ByPages {
        nearness: near_by(nearness),
        most: drawn_most(extent),
    }
}

/// The first page that differs is held, or of all of them the first ones.
fn drawn_most(extent: Extent) -> Most
    ensures { result ≡ drawn_most extent }
{
    match extent {
        Extent::First => Most {
            differences: 1,
            pages: 1,
        },
        Extent::All { most } => Most {
            differences: most,
            pages: MOST_DRAWN,
        },
    }
}

/// Draws what was found on these printers, and writes it.
fn draw_found<D: Create, O: Outlet>(
    alloc: Global,
    asked: &CompareAsked<'_, '_>,
    fleet: &[Profile],
    names: &[Vec<u8>],
    found: &Found,
    out: &mut D,
    stdout: &mut O,
) -> Drawn
    requires out { IsFalse (D.state out.old).failed }
    requires stdout { IsFalse (O.state stdout.old).failed }
    ensures { DrawsFound (asked_for asked.now) fleet.now (map (λ name. name.items) names.now)
        found.now result
        (D.state out.old) (D.state out.new) (O.state stdout.old) (O.state stdout.new) }
{
    match picture_found(alloc, asked, fleet, names, found) {
        Ok(picture) => draw_picture(alloc, asked, names, found, picture, out, stdout),
        Err(_) => Drawn {
            status: Status::Stopped(Error::Memory),
            is_drawn: false,
        },
    }
}

/// Draws a picture of what was found, if there is one, and writes what was found.
fn draw_picture<D: Create, O: Outlet>(
    alloc: Global,
    asked: &CompareAsked<'_, '_>,
    names: &[Vec<u8>],
    found: &Found,
    picture: Option<Vec<u8>>,
    out: &mut D,
    stdout: &mut O,
) -> Drawn
    requires out { IsFalse (D.state out.old).failed }
    requires stdout { IsFalse (O.state stdout.old).failed }
    ensures { DrawsPicture (option_map (λ text. text.items) picture) (asked_for asked.now)
        (map (λ name. name.items) names.now) found.now result
        (D.state out.old) (D.state out.new) (O.state stdout.old) (O.state stdout.new) }
{
    match picture {
        Some(text) => draw_text(alloc, asked, names, found, text.as_slice(), out, stdout),
        None => {
            let status = write_found(alloc, asked, names, found, stdout);
            Drawn {
                status,
                is_drawn: false,
            }
        }
    }
}

/// Creates OUT, and draws this picture.
fn draw_text<D: Create, O: Outlet>(
    alloc: Global,
    asked: &CompareAsked<'_, '_>,
    names: &[Vec<u8>],
    found: &Found,
    text: &[u8],
    out: &mut D,
    stdout: &mut O,
) -> Drawn
    requires out { IsFalse (D.state out.old).failed }
    requires stdout { IsFalse (O.state stdout.old).failed }
    ensures { DrawsPicture (Some text.now) (asked_for asked.now)
        (map (λ name. name.items) names.now) found.now result
        (D.state out.old) (D.state out.new) (O.state stdout.old) (O.state stdout.new) }
{
    match create(out) {
        Ok(()) => draw_created(alloc, asked, names, found, text, out, stdout),
        Err(status) => Drawn {
            status,
            is_drawn: false,
        },
    }
}

/// Draws this picture in OUT, which is created.
fn draw_created<D: Outlet, O: Outlet>(
    alloc: Global,
    asked: &CompareAsked<'_, '_>,
    names: &[Vec<u8>],
    found: &Found,
    text: &[u8],
    out: &mut D,
    stdout: &mut O,
) -> Drawn
    requires out { IsFalse (D.state out.old).failed }
    requires stdout { IsFalse (O.state stdout.old).failed }
    ensures { DrawsPicture (Some text.now) (asked_for asked.now)
        (map (λ name. name.items) names.now) found.now result
        (D.state out.old) (D.state out.new) (O.state stdout.old) (O.state stdout.new) }
{
    match write_text(out, text) {
        Ok(()) => {
            let status = write_found(alloc, asked, names, found, stdout);
            Drawn {
                status,
                is_drawn: true,
            }
        }
        Err(_) => Drawn {
            status: Status::Stopped(Error::Write),
            is_drawn: false,
        },
    }
}

/// Creates OUT.
fn create<D: Create>(out: &mut D) -> Result<(), Status>
    requires { IsFalse (D.state out.old).failed }
    ensures err { IfErr result IsEndOfCreating }
    ensures state { D.state out.new ≡ record
        (D.state out.old) { failed = is_err_at_write result } }
{
    match out.create() {
        Ok(()) => Ok(()),
        Err(CreateError::NoMemory) => Err(Status::Stopped(Error::Memory)),
        Err(CreateError::Refused) => Err(Status::Stopped(Error::Write)),
    }
}

/// The picture of what was found on these printers of these names.
fn picture_found(
    alloc: Global,
    asked: &CompareAsked<'_, '_>,
    fleet: &[Profile],
    names: &[Vec<u8>],
    found: &Found,
) -> Result<Option<Vec<u8>>, PagesError>
    ensures { IfOk result (λ picture. option_map (λ text. text.items) picture
        ≡ picture_found (asked_for asked.now) fleet.now (map (λ name. name.items) names.now)
        found.now) }
{
    let telling = asked.telling(names);
    picture_of(alloc, &telling, near_by(asked.nearness), fleet, found)
}
