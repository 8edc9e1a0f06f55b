//! What the words of the command line ask for, and what a command answers.
#![tactic(auto)]

mod choices;
mod compare_words;
mod many_words;
mod new_profile;
mod request;
mod selection;
mod status;

pub use choices::{Choice, PanelSetting};
pub use compare_words::{CompareWords, ComparedJobs, Extent, Nearness};
pub use many_words::{Form, ManyWords};
pub use new_profile::NewProfile;
pub use request::Request;
pub use selection::{DrawnPages, Selection};
pub use status::{Input, Status, Trouble, cause_name, error_words, tell, write_pieces};
