//! Pictures of the pages of a job.
ghost use Rattle.std.specs.Prelude.{◌≡◌, IfErr, IfOk};
ghost use Rattle.foreign_calls.specs.Drawn.{IsPicture, MayDraw, selected};

use crate::one_text::OneText;
use crate::told::Told;
use crate::why::Why;
use named_inputs::{KeptText, kept_error};
use picture_command::{PictureAsked, picture};
use requests::{DrawnPages, PanelSetting, Selection, Status};
use std::alloc::Allocator;
use streams::{Error, Latched};

/// The page of this number of a job, or all for 0, on a printer from its first panel.
pub fn drawn<A: Allocator + Copy>(
    alloc: A,
    profile: &[u8],
    name: &[u8],
    page: u64,
    job: &[u8],
) -> Result<Told<A>, Why>
    ensures drawn { IfOk result (λ told.
        IsPicture profile.now name.now job.now page told.text) }
    ensures why { IfErr result (MayDraw profile.now name.now job.now page) }
{
    match str::from_utf8(name) {
        Ok(name) => drawn_named(alloc, profile, name, page, job),
        Err(_) => Err(Why::NotText),
    }
}

/// The same, where the name is UTF-8.
fn drawn_named<A: Allocator + Copy>(
    alloc: A,
    profile: &[u8],
    name: &str,
    page: u64,
    job: &[u8],
) -> Result<Told<A>, Why>
    ensures drawn { IfOk result (λ told.
        IsPicture profile.now name.now job.now page told.text) }
    ensures why { IfErr result (MayDraw profile.now name.now job.now page) }
{
    let mut first = Latched::new(job);
    let mut second = Latched::new(job);
    let mut texts = OneText::new(profile);
    let mut text = KeptText::new(alloc);
    let mut complaint = KeptText::new(alloc);
    let asked = PictureAsked {
        job: name,
        setting: PanelSetting {
            profile: "",
            choices: &[],
        },
        selection: selected(page),
    };
    let status = picture(
        alloc,
        &mut first,
        &mut second,
        &mut texts,
        &asked,
        &mut text,
        &mut complaint,
    );
    let bytes = text.into_bytes();
    match status {
        Status::Pass => Ok(Told::of_text(bytes)),
        Status::Fail if bytes.is_empty() => Err(Why::NoPage),
        Status::Fail => Ok(Told::of_text(bytes)),
        Status::Profile {
            number,
            line,
            cause,
        } => Err(Why::Refused {
            number,
            line,
            cause,
        }),
        Status::Stopped(error) => Err(Why::Stopped(kept_error(error))),
        _ => Err(Why::Stopped(Error::Write)),
    }
}

/// The page of a number, or all pages for 0.
fn selected(page: u64) -> Selection
    ensures { result ≡ selected page }
{
    let pages = if page == 0 {
        DrawnPages::All
    } else {
        DrawnPages::One(page)
    };
    Selection {
        pages,
        has_boxes: false,
    }
}
