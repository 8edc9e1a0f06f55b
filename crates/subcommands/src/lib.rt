//! The program's subcommands on one job, over what they read and write: sources, texts and
//! outlets. Each command is a function of a module of its name.
#![tactic(auto)]

pub mod check;
pub mod job_notes;
pub mod list;
pub mod opening;
pub mod outcome;
pub mod pages;
pub mod pin;
pub mod plain;
pub mod render;
