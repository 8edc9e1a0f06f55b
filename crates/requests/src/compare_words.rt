//! What is asked of a comparison of two jobs, and of jobs with those of their names in a folder.

use crate::many_words::Form;

/// The jobs that are compared.
#[derive(Drop)]
pub enum ComparedJobs<'a> {
    /// Those at two paths.
    Pair { old_job: &'a str, new_job: &'a str },
    /// Each of these with the job in a folder that has the last part of its path as its name.
    Golden { folder: &'a str, jobs: Vec<&'a str> },
}

/// Which marks count as the same.
#[derive(Clone, Copy, Debug, PartialEq, Eq)]
pub struct Nearness {
    /// Those of a page count in any order.
    pub any_order: bool,
    /// The edges of their boxes may lie so far from each other, in ticks.
    pub within: u64,
}

/// How much is told of what differs.
#[derive(Clone, Copy, Debug, PartialEq, Eq)]
pub enum Extent {
    /// The first difference.
    First,
    /// All differences, or so many.
    All { most: u64 },
}

/// The jobs, and the printers that words and the files of fleets name.
#[derive(Drop)]
pub struct CompareWords<'a> {
    pub jobs: ComparedJobs<'a>,
    pub printers: Vec<&'a str>,
    pub fleets: Vec<&'a str>,
    pub form: Form,
    pub nearness: Nearness,
    pub extent: Extent,
    /// The path of a picture of the pages that differ.
    pub picture: Option<&'a str>,
}
