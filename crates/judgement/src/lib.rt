//! What a check tells of a job: what it promises, and where the job fails.
#![tactic(auto)]

mod failing_item;

pub use failing_item::{FailingItem, Judgement, MissingFont, SheetSpot};
