//! The program's commands on profiles of printers. Each command is a function in a module of its
//! name.
#![tactic(auto)]

pub mod from_pjl;
pub mod lint;
pub mod list;
pub mod new;
mod profile_reading;
pub mod sheet;
pub mod show;
mod whole_text;
