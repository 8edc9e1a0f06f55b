//! How many pages a job has.
ghost use Rattle.std.specs.Prelude.{IfErr, IfOk};
ghost use Rattle.web_module.specs.PageCounts.{IsPageCount, MayCount};

use foreign_calls::{OneText, Told, Why};
use named_inputs::{KeptText, kept_error};
use picture_command::{PictureAsked, picture};
use requests::{DrawnPages, PanelSetting, Selection, Status};
use std::alloc::Allocator;
use streams::{Error, Latched};

/// What is told of a page that no job has: how many there are, and by what the job fails.
pub(crate) fn page_count<A: Allocator + Copy>(
    alloc: A,
    profile: &[u8],
    job: &[u8],
) -> Result<Told<A>, Why>
    ensures count { IfOk result (λ told. IsPageCount profile.now job.now told.text) }
    ensures why { IfErr result (MayCount profile.now) }
{
    let mut first = Latched::new(job);
    let mut second = Latched::new(job);
    let mut texts = OneText::new(profile);
    let mut drawn = KeptText::new(alloc);
    let mut complaint = KeptText::new(alloc);
    let asked = PictureAsked {
        job: "job",
        setting: PanelSetting {
            profile: "",
            choices: &[],
        },
        selection: Selection {
            pages: DrawnPages::One(u64::MAX),
            has_boxes: false,
        },
    };
    let status = picture(
        alloc,
        &mut first,
        &mut second,
        &mut texts,
        &asked,
        &mut drawn,
        &mut complaint,
    );
    let told = complaint.into_bytes();
    match status {
        // Where the text is not told there was no memory for it.
        Status::Fail if told.is_empty() => Err(Why::Stopped(Error::Memory)),
        Status::Fail => Ok(Told::of_text(told)),
        Status::Profile {
            number,
            line,
            cause,
        } => Err(Why::Refused {
            number,
            line,
            cause,
        }),
        Status::Stopped(error) => Err(Why::Stopped(kept_error(error))),
        _ => Err(Why::Stopped(Error::Write)),
    }
}
