//! How far the opening of a file has come.

use crate::latched::Latched;
use std::io;

/// How far the opening of a file has come.
#[derive(Drop)]
pub enum Opened<F> {
    NotYet,
    Failed(io::Error),
    Done(Latched<F>),
}
