//! Input and output: sources and outlets with the histories of their reads and writes, readers,
//! writers and files as these, and the loop that reads a source in pieces.
#![tactic(auto)]

mod beside;
mod driver;
mod ended;
mod error;
mod file_at;
mod file_id;
mod file_outlet;
mod file_source;
mod given;
mod kept;
mod latched;
mod opened;
mod opening;
mod out_writer;
mod outlet;
mod place;
mod source;
mod used;
mod writing;

pub use driver::{Consumer, PIECE, read_job};
pub use ended::{Ended, JobEnd};
pub use error::{CreateError, Error};
pub use file_at::{OutletAt, SourceAt};
pub use file_id::{FileId, is_same_file};
pub use file_outlet::FileOutlet;
pub use file_source::FileSource;
pub use given::Given;
pub use kept::{write_enough, write_kept};
pub use latched::Latched;
pub use opening::{Create, Open};
pub use outlet::Outlet;
pub use source::Source;
pub use used::FilesUsed;
pub use writing::write_text;
