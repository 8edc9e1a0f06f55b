//! Whether two jobs print the same on a printer, and where they first differ.
//!
//! Both jobs are read side by side. `specs/Comparison.antt` says what comes of two jobs,
//! `specs/Changes.antt` what differs between two marks, and `specs/Running.antt` how far a job has
//! come that is carried out.
#![tactic(auto)]

mod changes;
mod compare;
mod difference;
mod events;
mod follower;
mod laws;
mod running_job;
mod stepping;
mod texts;
mod together;

pub use changes::is_moved;
pub use compare::{Unread, Which, compare_jobs};
pub use difference::{Change, Comparison, Difference, Spot};
pub use events::lent;
pub use follower::Follower;
pub use laws::same_prints_same;
