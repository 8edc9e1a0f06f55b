//! The chapters of the table of commands.
ghost use Rattle.std.specs.Prelude.{◌≡◌, map};

use crate::{
    colours, controls, devices, fonts, frames_to_d, frames_to_l, frames_to_p, frames_to_w,
    job_lines, jobs, pages, places, raster_rows, rasters, rectangles,
};

/// A part of the table of the commands of HP's PCL 5 Printer Language Technical Reference Manual,
/// of its HP-GL/2 frames and of the Printer Job Language. A text begins with the key, by which a
/// fault names the command, its name and spelling, and whether pclcheck takes it. Then it says what
/// the command does, its values, the fields that it reads and the findings; or why it is refused
/// and what helps; and where the manual treats of it.
///
/// `docs/make_names.py` compares what is said of values, fields and findings with the definitions.
#[derive(Clone, Copy)]
pub enum Chapter {
    /// Control codes.
    Controls,
    /// Languages, places, margins and macros.
    Places,
    /// Lines and pages.
    Pages,
    /// Other commands of jobs and text.
    Jobs,
    /// Fonts.
    Fonts,
    /// Rows of rasters.
    RasterRows,
    /// Rectangles, patterns and fonts of a job.
    Rectangles,
    /// Devices, palettes and places.
    Devices,
    /// Rasters and status.
    Rasters,
    /// Colours.
    Colours,
    /// HP-GL/2, by the first letters of commands: A to D.
    FramesToD,
    /// E to L.
    FramesToL,
    /// M to P.
    FramesToP,
    /// Q to W.
    FramesToW,
    /// Lines of the job language.
    JobLines,
}

/// All chapters. A proof computes with one at a time, in a time that grows with the square of its
/// texts.
pub const CHAPTERS: [Chapter; 15] = [
    Chapter::Controls,
    Chapter::Places,
    Chapter::Pages,
    Chapter::Jobs,
    Chapter::Fonts,
    Chapter::RasterRows,
    Chapter::Rectangles,
    Chapter::Devices,
    Chapter::Rasters,
    Chapter::Colours,
    Chapter::FramesToD,
    Chapter::FramesToL,
    Chapter::FramesToP,
    Chapter::FramesToW,
    Chapter::JobLines,
];

impl Chapter {
    ghost use Rattle.command_names.specs.CommandNames.{texts_of};

    /// The texts on its commands, in the order of their keys.
    pub fn texts(self) -> &'static [&'static str]
        ensures { map (λ text. text.now) result.now ≡ texts_of self }
    {
        match self {
            Chapter::Controls => controls::texts(),
            Chapter::Places => places::texts(),
            Chapter::Pages => pages::texts(),
            Chapter::Jobs => jobs::texts(),
            Chapter::Fonts => fonts::texts(),
            Chapter::RasterRows => raster_rows::texts(),
            Chapter::Rectangles => rectangles::texts(),
            Chapter::Devices => devices::texts(),
            Chapter::Rasters => rasters::texts(),
            Chapter::Colours => colours::texts(),
            Chapter::FramesToD => frames_to_d::texts(),
            Chapter::FramesToL => frames_to_l::texts(),
            Chapter::FramesToP => frames_to_p::texts(),
            Chapter::FramesToW => frames_to_w::texts(),
            Chapter::JobLines => job_lines::texts(),
        }
    }
}
