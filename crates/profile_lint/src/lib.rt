//! The faults of a profile's text and their words, and hints on profiles that have none.
#![tactic(auto)]

mod difference;
mod face_hints;
mod fault;
mod fault_line;
mod hint;
mod hint_line;
mod key_rules;
pub mod laws;
mod lint;
mod page_hints;
mod profile_hints;
mod shown;
mod text_faults;
mod whole;

pub use difference::{Difference, FirstDifference, first_difference, push_difference};
pub use fault::TextFault;
pub use fault_line::push_fault;
pub use hint::{Area, Hint};
pub use hint_line::push_hint;
pub use lint::{Findings, NamedText, faults_text, lint_texts};
pub use profile_hints::hints;
pub use text_faults::faults;
