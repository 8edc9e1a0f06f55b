//! What is asked for.

use crate::choices::Choice;
use crate::compare_words::CompareWords;
use crate::many_words::{Form, ManyWords};
use crate::new_profile::NewProfile;
use crate::selection::Selection;

/// What the words ask for.
#[derive(Drop)]
pub enum Request<'a> {
    /// A check of the job at a path, for the printers that words name.
    Check {
        job: &'a str,
        profiles: Vec<&'a str>,
    },
    /// A check of many jobs.
    CheckMany(ManyWords<'a>),
    /// The items of the job at a path.
    List {
        job: &'a str,
    },
    /// What the language refuses of the jobs at paths.
    Survey {
        jobs: Vec<&'a str>,
        form: Form,
    },
    /// Whether jobs print the same.
    Compare(CompareWords<'a>),
    /// The pages of the job at a path, on the printer that a word names.
    Pages {
        job: &'a str,
        profile: &'a str,
    },
    /// What the job at a path leaves to the printer that a word names.
    Notes {
        job: &'a str,
        profile: &'a str,
    },
    /// Pictures of pages of the job at a path, from the panel that is chosen of the printer that a
    /// word names.
    Picture {
        job: &'a str,
        profile: &'a str,
        choices: Vec<Choice>,
        selection: Selection,
    },
    /// Pages of the job at a path as a PDF document in a file at a path, from the panel that is
    /// chosen of the printer that a word names.
    Pdf {
        job: &'a str,
        profile: &'a str,
        choices: Vec<Choice>,
        selection: Selection,
        is_proof: bool,
        out: &'a str,
    },
    /// The items of the job at a path, each in its canonical spelling, in a file at a path.
    Plain {
        job: &'a str,
        out: &'a str,
    },
    /// The items of the job at a path, pinned to the panel that is chosen of the printer that a
    /// word names, in a file at a path.
    Pin {
        job: &'a str,
        profile: &'a str,
        choices: Vec<Choice>,
        out: &'a str,
    },
    /// What a fault, a finding or a note means, by its number or its name; without a code, what all
    /// mean.
    Explain {
        code: Option<&'a str>,
    },
    /// The models of which there are profiles.
    ProfileList,
    /// The text of a profile of a model.
    ProfileNew(NewProfile<'a>),
    /// What is wrong with profiles, and hints.
    ProfileLint {
        profiles: Vec<&'a str>,
    },
    /// A profile, as people read it.
    ProfileShow {
        profile: &'a str,
    },
    /// A job by which a printer is compared with its profile.
    ProfileSheet {
        profile: &'a str,
        out: &'a str,
    },
    /// The text of a profile after a printer's own answer.
    ProfileFromPjl {
        answer: &'a str,
        base: Option<&'a str>,
    },
}
