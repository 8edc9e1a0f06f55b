//! The texts of a job: its items one by one, its list, its plain spelling, its pages, and the job
//! pinned to a panel.
#![tactic(auto)]

mod item_texts;
mod list;
mod outcome;
mod pages;
mod pin;
mod plain;
mod render;

pub use item_texts::{ItemByItem, ItemText};
pub use list::{Listing, list_job};
pub use outcome::Outcome;
pub use pages::pages_of;
pub use pin::pin_job;
pub use plain::plain_job;
pub use render::{Renderer, render_job};
