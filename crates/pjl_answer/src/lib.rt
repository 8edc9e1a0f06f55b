//! A printer's own answer to `@PJL INFO VARIABLES` and `@PJL INFO CONFIG`, put into the text of a
//! profile.
#![tactic(auto)]

mod answered;
mod comparison;
mod config;
mod entry;
mod form_lines;
mod line;
mod papers;
mod text;
mod told_values;
mod values;
mod variable;
mod warning;
mod warning_text;

pub use answered::{AnswerError, Answered, MOST_BYTES, answered_text};
pub use entry::{is_answer, odd_line};
pub use papers::asked_papers;
pub use told_values::told;
pub use values::ToldValues;
pub use variable::{VARIABLES, Variable};
pub use warning::{PjlNote, Warning, warnings};
