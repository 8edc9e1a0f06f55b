//! The commands of HP's manual: their names, and what is known of each, taken or refused.
#![tactic(auto)]

mod chapters;
mod colours;
mod controls;
mod devices;
mod fonts;
mod frames_to_d;
mod frames_to_l;
mod frames_to_p;
mod frames_to_w;
mod job_lines;
mod jobs;
mod laws;
mod names;
mod pages;
mod places;
mod raster_rows;
mod rasters;
mod rectangles;

pub use chapters::{CHAPTERS, Chapter};
pub use laws::{commands_are_told, names_are_short};
pub use names::{command_name, head_of, is_of_command, name_of};
