//! What a run is handed to: sinks that count, record and compare its marks and pages, and the
//! marks and events that are kept.
#![tactic(auto)]

mod comparer;
mod counts;
mod owned;
mod recorder;

pub use comparer::Comparer;
pub use counts::Counts;
pub use owned::{OwnedEvent, OwnedMark, OwnedRow};
pub use recorder::Recorder;
