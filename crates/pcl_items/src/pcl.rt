//! Mode PCL: the tables of its control codes and of its commands.

pub(crate) mod code;
pub(crate) mod command;
