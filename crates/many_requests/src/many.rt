//! A check of many jobs by request, on files.
ghost use Rattle.std.specs.Prelude.{◌≡◌, ◌≢◌, ◌++◌, [], List, ℕ, Contains, IfErr, IfOk, IsFalse};
ghost use Rattle.std.specs.Prelude.{OnOk, Some, map, option_map, string_bytes};
ghost use Rattle.requests.specs.ManyWords.{NamesPrinter};
ghost use Rattle.many_requests.specs.Checks.{IsTelling, LeavesAsked, LeavesChecks, LeavesFound};
ghost use Rattle.many_requests.specs.Checks.{LeavesWith, ReadsFleets, asking};
ghost use Rattle.many_requests.specs.Names.{names_in};
ghost use Rattle.many_jobs.specs.Asked.{asked_for, told_by};
ghost use Rattle.many_jobs.specs.FleetFile.{TellsOfFleet};

use crate::documents::{Documents, has_errors, write_documents};
use crate::folders::refuse_documents;
use crate::inputs::refuse_inputs;
use crate::lists::{is_refused_list, list_fault, path_of, refuse_list};
use crate::names::{push_names, read_names};
use job_reports::is_pipe;
use many_jobs::{Format, ManyJobs, Telling, check_many, read_fleet_file};
use meanings::EXPLANATIONS;
use named_inputs::{FileJobs, FileTexts, ProfileTexts};
use requests::{Form, ManyWords, Status};
use std::alloc::{AllocError, Global};
use std::io::{Input, Print};
use std::rt::Files;
use streams::{Error, FilesUsed, Outlet};

/// Checks many jobs. The fleets are read first, then the names of the jobs, then the profiles.
pub fn check_asked<R: Files + Input + Print + AllocGlobal, O: Outlet, E: Outlet>(
    rt: &R,
    words: &ManyWords<'_>,
    used: &mut FilesUsed,
    stdout: &mut O,
    stderr: &mut E,
) -> Status
    requires stdout { IsFalse (O.state stdout.old).failed }
    requires stderr { IsFalse (E.state stderr.old).failed }
    requires some { NamesPrinter words.now }
    ensures { LeavesChecks (asking (map (λ text. text.now) EXPLANATIONS) words.now) result
        used.old used.new
        (O.state stdout.old) (O.state stdout.new) (E.state stderr.old) (E.state stderr.new) }
{
    let alloc = rt.alloc();
    let mut texts = FileTexts::new(rt);
    let fleets = match read_fleets(alloc, &mut texts, words.fleets.as_slice(), stderr) {
        Ok(fleets) => fleets,
        Err(status) => return status,
    };
    texts.end(used);
    let Ok(printers) = all_printers(alloc, words.printers.as_slice(), fleets.as_slice()) else {
        return Status::Stopped(Error::Memory);
    };
    let names = match read_names(rt, words.names_from, used, stderr) {
        Ok(names) => names,
        Err(status) => return status,
    };
    let Ok(jobs) = all_jobs(alloc, words.jobs.as_slice(), names.as_slice()) else {
        return Status::Stopped(Error::Memory);
    };
    let Ok(pipes) = pipes_in(rt, words, jobs.as_slice()) else {
        return Status::Stopped(Error::Memory);
    };
    let many = ManyJobs {
        jobs: jobs.as_slice(),
        printers: printers.as_slice(),
        most_items: words.most_items,
        is_each: words.is_each,
        tells_notes: words.tells_notes,
        telling: telling_of(alloc, words, words.documents, pipes.as_slice()),
    };
    check_found(rt, words, names.as_slice(), &many, used, stdout, stderr)
}

/// Checks all jobs that are asked for, unless the list of their names is refused, which has these
/// bytes.
fn check_found<'r, R: Files + Input + Print + AllocGlobal, O: Outlet, E: Outlet>(
    rt: &'r R,
    words: &ManyWords<'_>,
    names: &[u8],
    many: &ManyJobs<'_, 'r>,
    used: &mut FilesUsed,
    stdout: &mut O,
    stderr: &mut E,
) -> Status
    requires stdout { IsFalse (O.state stdout.old).failed }
    requires stderr { IsFalse (E.state stderr.old).failed }
    requires some { many.now.printers.now ≢ [] }
    ensures { LeavesFound words.now.allows_empty
        (option_map (λ path. path.now) words.now.names_from)
        (map (λ path. path.now) words.now.fleets.items) names.now (asked_for many.now)
        result used.old used.new (O.state stdout.old) (O.state stdout.new)
        (E.state stderr.old) (E.state stderr.new) }
{
    if is_refused_list(words.allows_empty, names, many.jobs) {
        let path = path_of(words.names_from);
        return refuse_list(rt.alloc(), path, list_fault(names), stderr);
    }
    let fleets = words.fleets.as_slice();
    check_with_documents(rt, words.names_from, fleets, many, used, stdout, stderr)
}

/// Checks all jobs that are asked for, and writes their documents, where a folder is to have them.
/// `names_from` is the file of their names, and `fleets` the texts that name printers.
fn check_with_documents<'r, R: Files + Input + Print + AllocGlobal, O: Outlet, E: Outlet>(
    rt: &'r R,
    names_from: Option<&str>,
    fleets: &[&str],
    many: &ManyJobs<'_, 'r>,
    used: &mut FilesUsed,
    stdout: &mut O,
    stderr: &mut E,
) -> Status
    requires stdout { IsFalse (O.state stdout.old).failed }
    requires stderr { IsFalse (E.state stderr.old).failed }
    requires some { many.now.printers.now ≢ [] }
    ensures { LeavesWith (asked_for many.now).telling.documents
        (option_map (λ path. path.now) names_from.entry) (map (λ path. path.now) fleets.now)
        (asked_for many.now)
        result used.old used.new (O.state stdout.old) (O.state stdout.new)
        (E.state stderr.old) (E.state stderr.new) }
{
    match many.telling.documents {
        None => check_all(rt, names_from, many, used, stdout, stderr),
        Some(folder) => check_into(rt, folder, names_from, fleets, many, used, stdout, stderr),
    }
}

/// Checks all jobs that are asked for, and writes their documents in a folder. `names_from` is the
/// file of their names, and `fleets` the texts that name printers.
fn check_into<'r, R: Files + Input + Print + AllocGlobal, O: Outlet, E: Outlet>(
    rt: &'r R,
    folder: &str,
    names_from: Option<&str>,
    fleets: &[&str],
    many: &ManyJobs<'_, 'r>,
    used: &mut FilesUsed,
    stdout: &mut O,
    stderr: &mut E,
) -> Status
    requires stdout { IsFalse (O.state stdout.old).failed }
    requires stderr { IsFalse (E.state stderr.old).failed }
    requires some { many.now.printers.now ≢ [] }
    ensures { LeavesWith (Some folder.now)
        (option_map (λ path. path.now) names_from.entry) (map (λ path. path.now) fleets.now)
        (asked_for many.now)
        result used.old used.new (O.state stdout.old) (O.state stdout.new)
        (E.state stderr.old) (E.state stderr.new) }
{
    if let Some(status) = refuse_documents(rt, folder, many.jobs, used, stderr) {
        return status;
    }
    let answer = check_all(rt, names_from, many, used, stdout, stderr);
    let documents = Documents {
        folder,
        many,
        fleets,
        names_from,
        has_errors: has_errors(answer),
    };
    write_documents(rt, &documents, answer, used, stderr)
}

/// Checks all jobs that are asked for, unless one would be read again that can be read only once.
/// `names_from` is the file of their names.
fn check_all<'r, R: Files + Input + AllocGlobal, O: Outlet, E: Outlet>(
    rt: &'r R,
    names_from: Option<&str>,
    many: &ManyJobs<'_, 'r>,
    used: &mut FilesUsed,
    stdout: &mut O,
    stderr: &mut E,
) -> Status
    requires stdout { IsFalse (O.state stdout.old).failed }
    requires stderr { IsFalse (E.state stderr.old).failed }
    requires some { many.now.printers.now ≢ [] }
    ensures { LeavesAsked (option_map (λ path. path.now) names_from.entry) (asked_for many.now)
        result used.old used.new (O.state stdout.old) (O.state stdout.new)
        (E.state stderr.old) (E.state stderr.new) }
{
    if let Some(status) = refuse_inputs(rt, names_from, many, stderr) {
        return status;
    }
    let mut jobs = FileJobs::new(rt);
    let mut texts = FileTexts::new(rt);
    let status = check_many(rt.alloc(), &mut jobs, &mut texts, many, stdout, stderr);
    texts.end(used);
    jobs.tell(used);
    status
}

/// The words that fleets name, one fleet behind another.
pub(crate) fn read_fleets<T: ProfileTexts, E: Outlet>(
    alloc: Global,
    texts: &mut T,
    paths: &[&str],
    stderr: &mut E,
) -> Result<Vec<String>, Status>
    requires texts { IsFalse (T.failed texts.old) }
    requires stderr { IsFalse (E.state stderr.old).failed }
    ensures read { IfOk result (λ words. ReadsFleets (T.text_of texts.old)
        (map (λ path. path.now) paths.now) (T.given texts.old) (T.given texts.new)
        (map string_bytes words.items)) }
    ensures asked { OnOk result (T.named texts.new ≡
        T.named texts.old ++ map (λ path. path.now) paths.now) }
    ensures working { OnOk result (IsFalse (T.failed texts.new)) }
    ensures quiet { OnOk result (stderr.new ≡ stderr.old) }
    ensures end { IfErr result (λ status. (path : List ℕ) ×
        Contains (map (λ path. path.now) paths.now) path ×
        TellsOfFleet path status (E.state stderr.old) (E.state stderr.new)) }
{
    let mut words = Vec::new(alloc);
    for path in paths {
        read_fleet_file(alloc, texts, path, &mut words, stderr)?;
    }
    Ok(words)
}

/// The words of printers, and behind them those of fleets.
pub(crate) fn all_printers<'w>(
    alloc: Global,
    printers: &[&'w str],
    fleets: &'w [String],
) -> Result<Vec<&'w str>, AllocError>
    ensures { IfOk result (λ all. map (λ word. word.now) all.items ≡
        map (λ word. word.now) printers.now ++ map string_bytes fleets.now) }
{
    let mut all = Vec::new(alloc);
    all.extend_from_slice(printers)?;
    for word in fleets {
        all.push(word.as_str())?;
    }
    Ok(all)
}

/// The jobs that words name, and behind them those that a file of names has.
fn all_jobs<'n>(
    alloc: Global,
    jobs: &[&'n [u8]],
    names: &'n [u8],
) -> Result<Vec<&'n [u8]>, AllocError>
    ensures { IfOk result (λ all. map (λ name. name.now) all.items ≡
        map (λ word. word.now) jobs.now ++ names_in names.now) }
{
    let mut all = Vec::new(alloc);
    all.extend_from_slice(jobs)?;
    push_names(&mut all, names)?;
    Ok(all)
}

/// The jobs whose bytes are gone once they are read, where a document would have their pages.
fn pipes_in<'n, R: Files + AllocGlobal>(
    rt: &R,
    words: &ManyWords<'_>,
    jobs: &[&'n [u8]],
) -> Result<Vec<&'n [u8]>, AllocError> {
    let mut pipes = Vec::new(rt.alloc());
    if words.form != Form::Html && words.documents.is_none() {
        return Ok(pipes);
    }
    for job in jobs {
        if is_pipe(rt, job) {
            pipes.push(*job)?;
        }
    }
    Ok(pipes)
}

/// How it is told what came of a job, where this folder gets the documents, and these jobs can be
/// read only once.
fn telling_of<'t>(
    alloc: Global,
    words: &ManyWords<'_>,
    documents: Option<&'t str>,
    read_once: &'t [&'t [u8]],
) -> Telling<'t>
    ensures { IsTelling
        (record (asking (map (λ text. text.now) EXPLANATIONS) words.now) {
          documents = option_map (λ folder. folder.now) documents.entry;
        })
        (told_by result) }
{
    let format = match words.form {
        Form::Line => Format::Line,
        Form::Words => Format::Words,
        Form::Json => Format::Json(alloc),
        Form::Html => Format::Html,
    };
    let explanations: &'static [&'static str] = if words.explains { &EXPLANATIONS } else { &[] };
    Telling {
        format,
        explanations,
        exit_zero: words.exit_zero,
        passes_unchecked: words.passes_unchecked,
        read_once,
        documents,
    }
}
