//! The documents of jobs that are checked, each a file in a folder.
ghost use Rattle.std.specs.Prelude.{◌≡◌, ◌⊎◌, ◌&&◌, ◌++◌, ◌∷◌, [], Contains, IfNone, IfOk, IfSome};
ghost use Rattle.std.specs.Prelude.{IsFalse, IsTrue, List, MatchOption, None, OnOk, Some, map};
ghost use Rattle.std.specs.Prelude.{option_map, ℕ};
ghost use Rattle.std.specs.Str.{IsUtf8, bytes_eq};
ghost use Rattle.job_rows.specs.Links.{document_path};
ghost use Rattle.many_jobs.specs.JobRow.{document_in};
ghost use Rattle.many_requests.specs.AskedDocuments.{documents_asked};
ghost use Rattle.many_requests.specs.Documents.{IsReadBeside, IsReadBy, IsReadForJobs};
ghost use Rattle.many_requests.specs.Documents.{LosesDocument, RefusesName, WritesBehind};
ghost use Rattle.many_requests.specs.Documents.{WritesDocument};
ghost use Rattle.many_requests.specs.Documents.{WritesDocuments, WritesIfSound, WritesPdf};
ghost use Rattle.many_requests.specs.Documents.{cause_of, document_text, end_with, has_errors};
ghost use Rattle.many_requests.specs.Documents.{ends_in_pdf, has_lines, has_same_part, is_named_in};
ghost use Rattle.many_requests.specs.Documents.{is_namesake, is_quiet, is_taken, is_told};
ghost use Rattle.many_requests.specs.Documents.{is_written, lost_line, namesake, other_part};
ghost use Rattle.many_requests.specs.Documents.{same_line, same_named};
ghost use Rattle.many_requests.specs.Looks.{Finds};
ghost use Rattle.requests.specs.Status.{error_words};
ghost use Rattle.streams.specs.Used.{SameFile};

use crate::looks::first_same;
use file_requests::job_texts::pdf;
use job_reports::{push_named_first, refuse_words};
use job_rows::{JobDocument, last_part, push_document_path};
use many_jobs::{ManyJobs, is_read_once, word_of};
use named_inputs::KeptText;
use pdf_command::PdfAsked;
use requests::{DrawnPages, PanelSetting, Selection, Status, Trouble, error_words};
use std::alloc::{AllocError, Global};
use std::fs;
use std::io::Print;
use std::rt::Files;
use streams::{Error, FilesUsed, Outlet, write_text};

/// The documents of jobs that were checked: what was asked for, the folder that has them, and what
/// else the check read.
#[derive(Clone, Copy)]
pub(crate) struct Documents<'d, 'w, 'n> {
    pub folder: &'d str,
    pub many: &'d ManyJobs<'w, 'n>,
    /// The texts of the fleets.
    pub fleets: &'d [&'d str],
    /// The file of the names of the jobs.
    pub names_from: Option<&'d str>,
    /// The check told that a job has no verdict.
    pub has_errors: bool,
}

// ---- names

/// Refuses jobs of one name, whose documents would be one file, and a job that may be such a file:
/// of that standard error is told.
pub(crate) fn refuse_names<E: Outlet>(
    alloc: Global,
    jobs: &[&[u8]],
    stderr: &mut E,
) -> Option<Status>
    requires { IsFalse (E.state stderr.old).failed }
    ensures apart { IfNone result (same_named (map (λ job. job.now) jobs.now) ≡ None) }
    ensures quiet { IfNone result (stderr.new ≡ stderr.old) }
    ensures refused { IfSome result (λ status. RefusesName (map (λ job. job.now) jobs.now) status
        (E.state stderr.old) (E.state stderr.new)) }
{
    match same_named(jobs) {
        None => None,
        Some(job) => Some(refuse_name(alloc, jobs, job, stderr)),
    }
}

/// The first job that is refused so.
fn same_named<'n>(jobs: &[&'n [u8]]) -> Option<&'n [u8]>
    ensures { option_map (λ job. job.now) result ≡ same_named (map (λ job. job.now) jobs.now) }
{
    for (at, job) in jobs.iter().enumerate() {
        if is_taken(job, &jobs[at + 1..]) {
            return Some(*job);
        }
    }
    None
}

/// Whether a document would take the place of a job, or that of its document, where these stand
/// behind it.
fn is_taken(job: &[u8], behind: &[&[u8]]) -> bool
    ensures { result ≡ is_taken job.now (map (λ job. job.now) behind.now) }
{
    ends_in_pdf(job) || is_named_in(behind, last_part(job))
}

/// Whether a job may be the document of another.
fn ends_in_pdf(job: &[u8]) -> bool
    ensures { result ≡ ends_in_pdf job.now }
{
    job.ends_with(b".pdf")
}

/// Whether one of the jobs has this name.
fn is_named_in(jobs: &[&[u8]], part: &[u8]) -> bool
    ensures { result ≡ is_named_in (map (λ job. job.now) jobs.now) part.now }
{
    for job in jobs {
        if has_same_part(part, job) {
            return true;
        }
    }
    false
}

/// Whether a job has this name.
fn has_same_part(part: &[u8], job: &[u8]) -> bool
    ensures { result ≡ has_same_part part.now job.now }
{
    last_part(job) == part
}

/// Refuses this one of the jobs, and names another one of its name, if there is one.
fn refuse_name<E: Outlet>(alloc: Global, jobs: &[&[u8]], job: &[u8], stderr: &mut E) -> Status
    requires { IsFalse (E.state stderr.old).failed }
    ensures { same_named (map (λ job. job.now) jobs.now) ≡ Some job.now →
        RefusesName (map (λ job. job.now) jobs.now) result
        (E.state stderr.old) (E.state stderr.new) }
{
    match same_line(alloc, job, namesake(jobs, job)) {
        Ok(line) => refuse_words(line.as_slice(), stderr),
        Err(_) => Status::Stopped(Error::Memory),
    }
}

/// The first of the jobs that has the name of this one, at another path.
fn namesake<'n>(jobs: &[&'n [u8]], job: &[u8]) -> Option<&'n [u8]>
    ensures { option_map (λ other. other.now) result
        ≡ namesake job.now (map (λ job. job.now) jobs.now) }
{
    for other in jobs {
        if is_namesake(job, other) {
            return Some(*other);
        }
    }
    None
}

fn is_namesake(job: &[u8], other: &[u8]) -> bool
    ensures { result ≡ is_namesake job.now other.now }
{
    has_same_part(last_part(job), other) && !is_same_path(job, other)
}

fn is_same_path(job: &[u8], other: &[u8]) -> bool
    ensures { result ≡ bytes_eq other.now job.now }
{
    other == job
}

/// The line on such a job, and on another one of its name.
fn same_line(alloc: Global, job: &[u8], other: Option<&[u8]>) -> Result<Vec<u8>, AllocError>
    ensures { IfOk result (λ line. line.items
        ≡ same_line job.now (option_map (λ other. other.now) other.entry)) }
{
    let mut line = Vec::new(alloc);
    line.extend_from_slice(b"error: ")?;
    push_named_first(alloc, &mut line, job)?;
    push_other(alloc, &mut line, other)?;
    line.extend_from_slice(
        b"with --pdf no two jobs have one name, and none ends in .pdf: each gets a file NAME.pdf\n",
    )?;
    Ok(line)
}

fn push_other(alloc: Global, line: &mut Vec<u8>, other: Option<&[u8]>) -> Result<(), AllocError>
    ensures { OnOk result (line.new.items ≡ line.old.items
        ++ other_part (option_map (λ other. other.now) other.entry)) }
{
    match other {
        None => Ok(()),
        Some(other) => push_beside(alloc, line, other),
    }
}

fn push_beside(alloc: Global, line: &mut Vec<u8>, other: &[u8]) -> Result<(), AllocError>
    ensures { OnOk result (line.new.items ≡ line.old.items ++ other_part (Some other.now)) }
{
    line.extend_from_slice(b"beside ")?;
    push_named_first(alloc, line, other)
}

// ---- documents

/// Writes the document of each job in a folder, where the check, which ended so, told of each.
/// Answers how the program then ends: a document that could not be written is a job of which not
/// all could be told.
pub(crate) fn write_documents<R: Files + Print + AllocGlobal, E: Outlet>(
    rt: &R,
    documents: &Documents<'_, '_, '_>,
    answer: Status,
    used: &mut FilesUsed,
    stderr: &mut E,
) -> Status
    ensures { WritesBehind (has_lines answer) (documents_asked documents.now) answer result
        used.old used.new (E.state stderr.old) (E.state stderr.new) }
{
    if has_lines(answer) {
        let is_well = write_all(rt, documents, documents.many.jobs, used, stderr);
        return end_with(is_well, answer);
    }
    answer
}

/// Whether a check that ended so told of each job.
fn has_lines(answer: Status) -> bool
    ensures { result ≡ has_lines answer }
{
    match answer {
        Status::Pass | Status::Fail | Status::Told(Trouble::NoVerdict) => true,
        Status::Help
        | Status::Usage
        | Status::Overwrites(_)
        | Status::NotAllowed(_)
        | Status::Profile { .. }
        | Status::Stopped(_)
        | Status::Told(Trouble::Refused | Trouble::Mismatch) => false,
    }
}

/// Whether a check that ended so told that a job has no verdict.
pub(crate) fn has_errors(answer: Status) -> bool
    ensures { result ≡ has_errors answer }
{
    match answer {
        Status::Told(Trouble::NoVerdict) => true,
        Status::Pass
        | Status::Fail
        | Status::Help
        | Status::Usage
        | Status::Overwrites(_)
        | Status::NotAllowed(_)
        | Status::Profile { .. }
        | Status::Stopped(_)
        | Status::Told(Trouble::Refused | Trouble::Mismatch) => false,
    }
}

fn end_with(is_well: bool, answer: Status) -> Status
    ensures { result ≡ end_with is_well answer }
{
    if is_well {
        answer
    } else {
        Status::Told(Trouble::NoVerdict)
    }
}

/// Writes the document of each of these jobs, and answers whether each was written.
fn write_all<R: Files + Print + AllocGlobal, E: Outlet>(
    rt: &R,
    documents: &Documents<'_, '_, '_>,
    jobs: &[&[u8]],
    used: &mut FilesUsed,
    stderr: &mut E,
) -> bool
    ensures { WritesDocuments (documents_asked documents.now) (map (λ job. job.now) jobs.now)
        result used.old used.new (E.state stderr.old) (E.state stderr.new) }
{
    let mut is_well = true;
    for job in jobs {
        let is_written = write_document(rt, documents, job, used, stderr);
        is_well = both(is_well, is_written);
    }
    is_well
}

fn both(one: bool, other: bool) -> bool
    ensures { result ≡ (one && other) }
{
    one && other
}

/// Writes the document of a job, unless this can be read only once, and answers whether it was
/// written, or none is due.
fn write_document<R: Files + Print + AllocGlobal, E: Outlet>(
    rt: &R,
    documents: &Documents<'_, '_, '_>,
    job: &[u8],
    used: &mut FilesUsed,
    stderr: &mut E,
) -> bool
    ensures { WritesDocument (documents_asked documents.now) job.now result
        used.old used.new (E.state stderr.old) (E.state stderr.new) }
{
    if is_read_once(&documents.many.telling, job) {
        return true;
    }
    let word = word_of(documents.many.printers, 1);
    match path_of(rt.alloc(), documents.folder, job) {
        Ok(path) => write_at(rt, documents, word, job, path.as_slice(), used, stderr),
        Err(_) => {
            tell_lost(rt.alloc(), job, Error::Memory, stderr);
            false
        }
    }
}

/// Writes the document of the job of this name to the file at a path. Of a name that is no text the
/// check told that the job cannot be read.
fn write_at<R: Files + Print + AllocGlobal, E: Outlet>(
    rt: &R,
    documents: &Documents<'_, '_, '_>,
    word: &str,
    job: &[u8],
    path: &[u8],
    used: &mut FilesUsed,
    stderr: &mut E,
) -> bool
    ensures { WritesPdf (documents_asked documents.now) word.now job.now path.now result
        used.old used.new (E.state stderr.old) (E.state stderr.new)
        ⊎ LosesDocument (documents_asked documents.now) job.now path.now result
        used.old used.new (E.state stderr.old) (E.state stderr.new) }
{
    match as_texts(job, path) {
        Some((name, path)) => write_apart(rt, documents, word, name, path, used, stderr),
        None => false,
    }
}

/// Writes the document of a job at a path to another, unless it would take the place of a file that
/// the check reads.
fn write_apart<R: Files + Print + AllocGlobal, E: Outlet>(
    rt: &R,
    documents: &Documents<'_, '_, '_>,
    word: &str,
    job: &str,
    path: &str,
    used: &mut FilesUsed,
    stderr: &mut E,
) -> bool
    ensures { WritesPdf (documents_asked documents.now) word.now job.now path.now result
        used.old used.new (E.state stderr.old) (E.state stderr.new)
        ⊎ LosesDocument (documents_asked documents.now) job.now path.now result
        used.old used.new (E.state stderr.old) (E.state stderr.new) }
{
    match read_there(rt, documents, path, used) {
        Some(_) => {
            tell_lost(rt.alloc(), job.as_bytes(), Error::Write, stderr);
            false
        }
        None => write_pdf(rt, documents, word, job, path, used, stderr),
    }
}

// ---- files that are read

/// The file that the check reads and to which a path leads, if there is one. No clause can say what
/// stands at a path, but that a look found it.
fn read_there<'d, R: Files>(
    rt: &R,
    documents: &'d Documents<'_, '_, '_>,
    path: &str,
    used: &mut FilesUsed,
) -> Option<&'d [u8]>
    ensures is_read { IfSome result (λ name. IsReadBy (documents_asked documents.now) name.now) }
    ensures found { Finds path.now (option_map (λ name. name.now) result) used.old used.new }
{
    match first_same(rt, documents.many.printers, path, used) {
        Some(word) => Some(word.as_bytes()),
        None => read_beside(rt, documents, path, used),
    }
}

/// The same, where it is no profile.
fn read_beside<'d, R: Files>(
    rt: &R,
    documents: &'d Documents<'_, '_, '_>,
    path: &str,
    used: &mut FilesUsed,
) -> Option<&'d [u8]>
    ensures is_read { IfSome result (λ name.
        IsReadBeside (documents_asked documents.now) name.now) }
    ensures found { Finds path.now (option_map (λ name. name.now) result) used.old used.new }
{
    match first_same(rt, documents.fleets, path, used) {
        Some(fleet) => Some(fleet.as_bytes()),
        None => read_for_jobs(rt, documents, path, used),
    }
}

/// The same, where it is no text of a fleet either.
fn read_for_jobs<'d, R: Files>(
    rt: &R,
    documents: &'d Documents<'_, '_, '_>,
    path: &str,
    used: &mut FilesUsed,
) -> Option<&'d [u8]>
    ensures is_read { IfSome result (λ name.
        IsReadForJobs (documents_asked documents.now) name.now) }
    ensures found { Finds path.now (option_map (λ name. name.now) result) used.old used.new }
{
    match same_list(rt, documents.names_from, path, used) {
        Some(list) => Some(list.as_bytes()),
        None => linked_job(rt, documents.many.jobs, path, used),
    }
}

/// The list of jobs, where it is the same file.
fn same_list<'l, R: Files>(
    rt: &R,
    names_from: Option<&'l str>,
    path: &str,
    used: &mut FilesUsed,
) -> Option<&'l str>
    ensures is_list { IfSome result (λ list.
        option_map (λ path. path.now) names_from.entry ≡ Some list.now) }
    ensures found { Finds path.now (option_map (λ list. list.now) result) used.old used.new }
{
    match names_from {
        None => None,
        Some(list) => list_there(rt, list, path, used),
    }
}

fn list_there<'l, R: Files>(
    rt: &R,
    list: &'l str,
    path: &str,
    used: &mut FilesUsed,
) -> Option<&'l str>
    ensures is_list { IfSome result (λ found. found.now ≡ list.now) }
    ensures found { Finds path.now (option_map (λ list. list.now) result) used.old used.new }
{
    if used.is_same_file(rt, path, list) {
        return Some(list);
    }
    None
}

/// The job to which a path is a link. A job of the path's own name ends in `.pdf`, and was refused.
fn linked_job<'n, R: Files>(
    rt: &R,
    jobs: &[&'n [u8]],
    path: &str,
    used: &mut FilesUsed,
) -> Option<&'n [u8]>
    ensures is_one { IfSome result (λ job. Contains (map (λ job. job.now) jobs.now) job.now) }
    ensures found { Finds path.now (option_map (λ job. job.now) result) used.old used.new }
{
    if is_link(rt, path) {
        return first_job(rt, jobs, path, used);
    }
    None
}

fn is_link<R: Files>(rt: &R, path: &str) -> bool {
    match fs::symlink_metadata(rt, path) {
        Ok(found) => found.is_symlink(),
        Err(_) => false,
    }
}

/// The first of the jobs that is the file to which a path leads.
fn first_job<'n, R: Files>(
    rt: &R,
    jobs: &[&'n [u8]],
    path: &str,
    used: &mut FilesUsed,
) -> Option<&'n [u8]>
    ensures is_one { IfSome result (λ job. Contains (map (λ job. job.now) jobs.now) job.now) }
    ensures found { Finds path.now (option_map (λ job. job.now) result) used.old used.new }
{
    for job in jobs {
        if is_at(rt, job, path, used) {
            return Some(*job);
        }
    }
    None
}

fn is_at<R: Files>(rt: &R, job: &[u8], path: &str, used: &mut FilesUsed) -> bool
    ensures told { IsTrue result → used.new ≡ used.old ++ SameFile path.now job.now ∷ [] }
    ensures quiet { IsFalse result → used.new ≡ used.old }
{
    match str::from_utf8(job) {
        Ok(name) => used.is_same_file(rt, path, name),
        Err(_) => false,
    }
}

// ---- a document

/// A name and a path, where both are texts.
fn as_texts<'t>(name: &'t [u8], path: &'t [u8]) -> Option<(&'t str, &'t str)>
    ensures { MatchOption result (IsUtf8 name.now → IsUtf8 path.now → ⊥)
        (λ texts. (texts.0.now ≡ name.now) × (texts.1.now ≡ path.now)) }
{
    match str::from_utf8(name) {
        Ok(text) => with_path(text, path),
        Err(_) => None,
    }
}

/// A text and a path, where this is a text.
fn with_path<'t>(text: &'t str, path: &'t [u8]) -> Option<(&'t str, &'t str)>
    ensures { MatchOption result (IsUtf8 path.now → ⊥)
        (λ texts. (texts.0.now ≡ text.now) × (texts.1.now ≡ path.now)) }
{
    match str::from_utf8(path) {
        Ok(path) => Some((text, path)),
        Err(_) => None,
    }
}

/// The path of the document of a job.
fn path_of(alloc: Global, folder: &str, job: &[u8]) -> Result<Vec<u8>, AllocError>
    ensures { IfOk result (λ path. path.items
        ≡ document_path (document_in folder.now job.now)) }
{
    let mut path = Vec::new(alloc);
    push_document_path(&mut path, &JobDocument { folder, job })?;
    Ok(path)
}

/// Writes the document of the job at a path to another, for the printer that a word names.
fn write_pdf<R: Files + Print + AllocGlobal, E: Outlet>(
    rt: &R,
    documents: &Documents<'_, '_, '_>,
    word: &str,
    job: &str,
    path: &str,
    used: &mut FilesUsed,
    stderr: &mut E,
) -> bool
    ensures { WritesPdf (documents_asked documents.now) word.now job.now path.now result
        used.old used.new (E.state stderr.old) (E.state stderr.new) }
{
    let asked = PdfAsked {
        job,
        setting: PanelSetting {
            profile: word,
            choices: &[],
        },
        selection: Selection {
            pages: DrawnPages::All,
            has_boxes: false,
        },
        is_proof: false,
        most_items: documents.many.most_items,
    };
    // The line of a failure stands in the report.
    let mut line = KeptText::new(rt.alloc());
    let mut note = KeptText::new(rt.alloc());
    let status = pdf(rt, &asked, path, used, &mut line, &mut note);
    tell_document(rt.alloc(), documents.has_errors, job, status, note, stderr);
    is_written(status)
}

/// Whether a document was written, or none is due: the job has no page, or was given up at the
/// limit of items, as the report tells.
fn is_written(status: Status) -> bool
    ensures { result ≡ is_written status }
{
    match status {
        Status::Pass | Status::Fail => true,
        Status::Help
        | Status::Usage
        | Status::Overwrites(_)
        | Status::NotAllowed(_)
        | Status::Profile { .. }
        | Status::Stopped(_)
        | Status::Told(_) => false,
    }
}

// ---- what is told of them

/// Tells standard error of the document of a job, where it could not be written, and the check did
/// not tell that: what was noted of it, and why. Without memory nothing is told.
fn tell_document<E: Outlet>(
    alloc: Global,
    has_errors: bool,
    job: &str,
    status: Status,
    note: KeptText<Global>,
    stderr: &mut E,
)
    ensures { WritesIfSound (document_text has_errors job.now status note.taken)
        (E.state stderr.old) (E.state stderr.new) }
{
    if is_quiet(has_errors, status) {
        return;
    }
    let mut text = note.into_bytes();
    match push_lost_line(alloc, &mut text, job.as_bytes(), cause_of(status)) {
        Ok(()) => write_if_sound(text.as_slice(), stderr),
        Err(_) => {}
    }
}

/// Whether nothing is to be told of a document.
fn is_quiet(has_errors: bool, status: Status) -> bool
    ensures { result ≡ is_quiet has_errors status }
{
    is_written(status) || is_told(has_errors, status)
}

/// Whether the check told why the document of a job could not be written, where it told that a job
/// has no verdict: the job could not be read.
fn is_told(has_errors: bool, status: Status) -> bool
    ensures { result ≡ is_told has_errors status }
{
    match status {
        Status::Stopped(Error::Read | Error::Turns) => has_errors,
        Status::Stopped(Error::Memory | Error::Write | Error::NoProfile | Error::Items)
        | Status::Pass
        | Status::Fail
        | Status::Help
        | Status::Usage
        | Status::Overwrites(_)
        | Status::NotAllowed(_)
        | Status::Profile { .. }
        | Status::Told(_) => false,
    }
}

/// Why a document could not be written, where the command ended so.
fn cause_of(status: Status) -> &'static [u8]
    ensures { result.now ≡ cause_of status }
{
    match status {
        Status::Stopped(error) => error_words(error),
        Status::Overwrites(_) => error_words(Error::Write),
        Status::Pass
        | Status::Fail
        | Status::Help
        | Status::Usage
        | Status::NotAllowed(_)
        | Status::Profile { .. }
        | Status::Told(_) => error_words(Error::Read),
    }
}

/// Appends that the document of a job could not be written, for this cause.
#[tactic(auto, unfolding(crate::specs::Documents::lost_line))]
fn push_lost_line(
    alloc: Global,
    text: &mut Vec<u8>,
    job: &[u8],
    cause: &[u8],
) -> Result<(), AllocError>
    ensures { OnOk result (text.new.items ≡ text.old.items ++ lost_line job.now cause.now) }
{
    push_named_first(alloc, text, job)?;
    text.extend_from_slice(b"its document could not be written (")?;
    text.extend_from_slice(cause)?;
    text.extend_from_slice(b")\n")
}

/// Tells standard error that the document of a job could not be written. Without memory nothing is
/// told.
fn tell_lost<E: Outlet>(alloc: Global, job: &[u8], error: Error, stderr: &mut E)
    ensures { WritesIfSound (lost_line job.now (error_words error))
        (E.state stderr.old) (E.state stderr.new) }
{
    match lost_line(alloc, job, error) {
        Ok(line) => write_if_sound(line.as_slice(), stderr),
        Err(_) => {}
    }
}

fn lost_line(alloc: Global, job: &[u8], error: Error) -> Result<Vec<u8>, AllocError>
    ensures { IfOk result (λ line. line.items ≡ lost_line job.now (error_words error)) }
{
    let mut line = Vec::new(alloc);
    push_lost_line(alloc, &mut line, job, error_words(error))?;
    Ok(line)
}

/// Writes a text, unless a write has failed before.
fn write_if_sound<E: Outlet>(text: &[u8], stderr: &mut E)
    ensures { WritesIfSound text.now (E.state stderr.old) (E.state stderr.new) }
{
    if stderr.has_failed() {
        return;
    }
    // Where standard error takes nothing, the status alone is left to tell.
    let _ = write_text(stderr, text);
}
