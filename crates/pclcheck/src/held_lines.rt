//! Lines on what cannot be read or names no printer, as sentences.
//!
//! No text means that there is no such line, or no memory for its sentence.

use job_reports::{push_named_first, push_unread};
use requests::{CompareWords, ComparedJobs, ManyWords, Request};
use std::alloc::Global;

/// What a line is about.
#[derive(Clone, Copy)]
enum Subject {
    UnreadFleet,
    RefusedFleet,
    UnreadNames,
    UnreadProfile,
    UnreadAnswer,
    UnreadJob,
    LargeJob,
}

impl Subject {
    /// How the line begins, before the name.
    fn front(self) -> &'static str {
        match self {
            Subject::UnreadFleet => "ERROR read fleet ",
            Subject::RefusedFleet => "ERROR fleet ",
            Subject::UnreadNames => "ERROR read names ",
            Subject::UnreadProfile => "ERROR read profile ",
            Subject::UnreadAnswer => "ERROR read answer ",
            Subject::UnreadJob => "ERROR read job ",
            Subject::LargeJob => "ERROR memory job ",
        }
    }

    /// What the sentence says of what has the name, before the cause.
    fn claim(self) -> &'static str {
        match self {
            Subject::UnreadFleet => "this fleet cannot be read",
            Subject::RefusedFleet => "this fleet is refused",
            Subject::UnreadNames => "this list of jobs cannot be read",
            Subject::UnreadProfile => "this profile cannot be read",
            Subject::UnreadAnswer => "this answer cannot be read",
            Subject::UnreadJob => "this job cannot be read",
            Subject::LargeJob => "the pages of this job cannot be compared",
        }
    }

    /// What stands behind the cause.
    fn end(self) -> &'static str {
        match self {
            Subject::RefusedFleet => " (ERROR fleet)\n",
            Subject::LargeJob => " (ERROR memory)\n",
            _ => " (ERROR read)\n",
        }
    }
}

/// The sentence of the line that a request has told, where it is about what the request names.
pub fn sentence_of_line(alloc: Global, request: &Request<'_>, line: &[u8]) -> Option<Vec<u8>> {
    match request {
        Request::CheckMany(many) => of_check(alloc, many, line),
        Request::Survey { jobs, .. } => {
            first_of(alloc, jobs.as_slice(), Subject::UnreadJob, line)
        }
        Request::Compare(words) => of_comparison(alloc, words, line),
        Request::ProfileLint { profiles } => {
            first_of(alloc, profiles.as_slice(), Subject::UnreadProfile, line)
        }
        Request::ProfileShow { profile } => {
            sentence(alloc, profile, Subject::UnreadProfile, line)
        }
        Request::ProfileSheet { profile, .. } => {
            sentence(alloc, profile, Subject::UnreadProfile, line)
        }
        Request::ProfileFromPjl { answer, base } => of_answer(alloc, answer, *base, line),
        _ => None,
    }
}

/// The sentence of a line on the fleets or the list of a check.
fn of_check(alloc: Global, many: &ManyWords<'_>, line: &[u8]) -> Option<Vec<u8>> {
    let fleets = many.fleets.as_slice();
    if let Some(text) = first_of(alloc, fleets, Subject::UnreadFleet, line) {
        return Some(text);
    }
    if let Some(text) = first_of(alloc, fleets, Subject::RefusedFleet, line) {
        return Some(text);
    }
    sentence(alloc, many.names_from?, Subject::UnreadNames, line)
}

/// The sentence of a line on the fleets or the jobs of a comparison.
fn of_comparison(alloc: Global, words: &CompareWords<'_>, line: &[u8]) -> Option<Vec<u8>> {
    let fleets = words.fleets.as_slice();
    if let Some(text) = first_of(alloc, fleets, Subject::UnreadFleet, line) {
        return Some(text);
    }
    if let Some(text) = first_of(alloc, fleets, Subject::RefusedFleet, line) {
        return Some(text);
    }
    match &words.jobs {
        ComparedJobs::Pair { old_job, new_job } => of_pair(alloc, old_job, new_job, line),
        ComparedJobs::Golden { .. } => None,
    }
}

/// The sentence of a line on one of two jobs.
fn of_pair(alloc: Global, old_job: &str, new_job: &str, line: &[u8]) -> Option<Vec<u8>> {
    let jobs = [old_job, new_job];
    if let Some(text) = first_of(alloc, &jobs, Subject::UnreadJob, line) {
        return Some(text);
    }
    first_of(alloc, &jobs, Subject::LargeJob, line)
}

/// The sentence of a line on an answer, or on the profile that it is put into.
fn of_answer(alloc: Global, answer: &str, base: Option<&str>, line: &[u8]) -> Option<Vec<u8>> {
    if let Some(text) = sentence(alloc, answer, Subject::UnreadAnswer, line) {
        return Some(text);
    }
    sentence(alloc, base?, Subject::UnreadProfile, line)
}

/// The sentence of a line on one of these names.
fn first_of(alloc: Global, names: &[&str], subject: Subject, line: &[u8]) -> Option<Vec<u8>> {
    for name in names {
        if let Some(text) = sentence(alloc, name, subject, line) {
            return Some(text);
        }
    }
    None
}

/// The sentence of a line, where it is about this name: behind it stands nothing or a cause.
fn sentence(alloc: Global, name: &str, subject: Subject, line: &[u8]) -> Option<Vec<u8>> {
    let mut bare = Vec::new(alloc);
    push_unread(&mut bare, subject.front().as_bytes(), name, None).ok()?;
    let front = bare.as_slice().strip_suffix(b"\n")?;
    let cause = line.strip_prefix(front)?.strip_suffix(b"\n")?;
    if !cause.is_empty() && !cause.starts_with(b": ") {
        return None;
    }
    let mut text = Vec::new(alloc);
    push_named_first(alloc, &mut text, name.as_bytes()).ok()?;
    text.extend_from_slice(subject.claim().as_bytes()).ok()?;
    text.extend_from_slice(cause).ok()?;
    text.extend_from_slice(subject.end().as_bytes()).ok()?;
    Some(text)
}
