//! What a check says of a job: a verdict, and what is wrong where.
#![tactic(auto)]

mod failure;
mod numbers;
mod reason;
mod verdict;

pub use failure::Failure;
pub use reason::Reason;
pub use verdict::Verdict;
