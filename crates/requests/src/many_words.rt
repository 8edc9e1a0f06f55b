//! What is asked of a check of many jobs.

/// The form of what is told of a job.
#[derive(Clone, Copy, Debug, PartialEq, Eq)]
pub enum Form {
    /// A line of words and numbers.
    Line,
    /// A sentence.
    Words,
    /// An object of JSON on a line.
    Json,
    /// A row of a document of HTML.
    Html,
}

/// The jobs at paths, or under the names that a file has, each for all printers that words and the
/// files of fleets name, or where `is_each` is set for each of them by itself.
#[derive(Drop)]
pub struct ManyWords<'a> {
    /// The names of jobs by their bytes, which need not be text.
    pub jobs: Vec<&'a [u8]>,
    /// The file of names, each ended by a zero byte.
    pub names_from: Option<&'a str>,
    /// That file may have no name.
    pub allows_empty: bool,
    pub printers: Vec<&'a str>,
    pub fleets: Vec<&'a str>,
    /// How many items macros may carry out in a job, where that is limited.
    pub most_items: Option<u64>,
    pub is_each: bool,
    /// The notes of a job that passes are told.
    pub tells_notes: bool,
    /// A FAIL counts as a PASS.
    pub exit_zero: bool,
    /// So does one by which pclcheck alone says no.
    pub passes_unchecked: bool,
    pub form: Form,
    /// A FAIL and a note get their explanations.
    pub explains: bool,
    /// The folder that gets a document of the pages of each job.
    pub documents: Option<&'a str>,
}
