//! The program's command `compare`: whether jobs print the same.
//!
//! `specs/Compare.antt` says what the command leaves of two jobs, `specs/Golden.antt` what of many;
//! `specs/Outcomes.antt` how two are compared, `specs/Telling.antt` what is written of that, and
//! `specs/Pictures.antt` what is drawn.
#![tactic(auto)]

mod asked;
mod command;
mod drawing;
mod finding;
mod found;
mod golden;
mod lines;
mod objects;
mod picture;
mod sentences;
mod stops;
mod telling;

pub use asked::{CompareAsked, GoldenAsked, JobPair};
pub use command::compare;
pub use drawing::{Drawn, compare_drawn};
pub use golden::compare_golden;
