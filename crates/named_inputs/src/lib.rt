//! The jobs, the texts of profiles and the printers that words name.
#![tactic(auto)]

mod choices;
mod file_jobs;
mod file_texts;
mod fleet;
mod front;
mod jobs;
mod kept_text;
pub mod system_words;
mod texts;

pub use choices::{chosen_panel, refuse_choice};
pub use file_jobs::{FileJobs, JobSource, is_input};
pub use file_texts::FileTexts;
pub use fleet::{read_fleet, read_kept_fleet, read_profile, refusal};
pub use front::read_front;
pub use jobs::Jobs;
pub use kept_text::{KeptText, kept_error};
pub use texts::{ProfileTexts, read_text_from};
