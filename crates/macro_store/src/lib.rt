//! The macros of a job: a store of their bodies, and the one definition that is open.
//!
//! The bodies lie one behind another in one pool of bytes, each item in its one spelling. What a
//! command says is kept beside it, since a body is mostly commands and may run often.
//! `specs/Store.antt` says what a store is, `specs/Layout.antt` how the pool keeps it.
#![tactic(auto)]

mod body;
mod commands;
mod span;
mod store;

pub use body::Body;
pub use store::{MacroStore, Refusal};
