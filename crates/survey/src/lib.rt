//! The survey of jobs: what the language refuses of them, past the first fault.
//!
//! It gives no verdict. `specs/Survey.antt` says how the bytes of a job are read on behind what is
//! refused, `specs/Passing.antt` what of them is passed over, `specs/Tally.antt` how refusals are
//! counted, and `specs/Lines.antt` what is written of that.
#![tactic(auto)]

mod command;
mod data_commands;
mod laws;
mod lines;
mod named_line;
mod names;
mod objects;
mod part;
mod pass;
mod refusal;
mod step;
mod surveyor;
mod table;
mod turn;

pub use command::survey_jobs;
pub use data_commands::has_data;
pub use laws::one_survey;
pub use refusal::{Refusal, Spelled};
pub use surveyor::{Surveyor, survey_job};
pub use table::{MOST_ROWS, Row, Table};
