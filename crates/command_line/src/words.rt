//! The words that the program is started with.
ghost use Rattle.std.specs.Prelude.{◌≡◌, ◌≢◌, IsFalse, OnOk, IfOk, IfErr, IfSome, is_some};
ghost use Rattle.std.specs.List.{list_any};
ghost use Rattle.std.specs.Str.{bytes_eq};
ghost use Rattle.command_line.specs.Words.{IsEndOfWords};
ghost use Rattle.requests.specs.Comparisons.{reads_job, reads_printer};
ghost use Rattle.requests.specs.Words.{KeepsWhatItReads, NamesSome};

use crate::check_words::check_request;
use crate::commands::{CommandName, command, command_asked};
use crate::compare_words::compare_request;
use crate::form_words::form_asked;
use crate::panel_words::ChoiceFault;
use crate::pdf_words::pdf_request;
use crate::picture_words::picture_request;
use crate::profile_words::profile_request;
use crate::survey_words::survey_request;
use crate::text_commands::{pin_request, text_request};
use crate::word::{Word, first_stand_in, first_without_text, is_stand_in, without_zeros};
use clap::ArgMatches;
use clap::error::ErrorKind;
use requests::{CompareWords, ComparedJobs, Form, Input, ManyWords, Request, Status, write_pieces};
use std::alloc::{AllocError, Global};
use std::convert::AsStr;
use streams::{Error, Outlet, write_text};

/// What `clap` tells where a command does not take the option for the form.
const FORM_REFUSED: &str = "unexpected argument '--format' found";

/// Where that option stands.
const FORM_BEFORE: &str =
    "\n--format stands before the command, as in 'pclcheck --format words list JOB'.\n";

/// What the words ask for.
#[derive(Drop)]
pub struct Asked<'a> {
    pub request: Request<'a>,
    /// The form of what is told of what stands in its way.
    pub form: Form,
}

/// What the words ask for; the first is the program's own name. The form is the usual one where
/// they ask for none. A job of many need not be text; each other word has to be. Where they ask for
/// help or for the version, that is written on standard output, and where they are wrong, the
/// reason on standard error. What stopped it is not told.
pub fn read_words<'a, O: Outlet, E: Outlet>(
    alloc: Global,
    words: &'a [Word],
    usual: Form,
    stdout: &mut O,
    stderr: &mut E,
) -> Result<Asked<'a>, Status>
    requires stdout { IsFalse (O.state stdout.old).failed }
    requires stderr { IsFalse (E.state stderr.old).failed }
    ensures ok { OnOk result ((stdout.new ≡ stdout.old) × (stderr.new ≡ stderr.old)) }
    ensures some { IfOk result (λ asked. NamesSome asked.request) }
    ensures apart { IfOk result (λ asked. KeepsWhatItReads asked.request) }
    ensures err { IfErr result IsEndOfWords }
    ensures help { result ≡ Err Status.Help → stderr.new ≡ stderr.old }
    // Of another end than bad words nothing is told.
    ensures quiet { IsFalse (E.state stderr.new).failed → result ≢ Err Status.Usage →
        stderr.new ≡ stderr.old }
    ensures words { result ≡ Err Status.Usage → stdout.new ≡ stdout.old }
{
    let matches = matches_of(alloc, words, stdout, stderr)?;
    let form = form_asked(&matches).unwrap_or(usual);
    let request = sound_request(alloc, words, form, &matches, stderr)?;
    let form = form_of_answer(form, &request);
    match overwritten(&request) {
        Some(input) => Err(Status::Overwrites(input)),
        None => Ok(Asked { request, form }),
    }
}

/// What `clap` reads of the words. Where they ask for help or for the version, or are wrong, that
/// is written.
fn matches_of<'a, O: Outlet, E: Outlet>(
    alloc: Global,
    words: &'a [Word],
    stdout: &mut O,
    stderr: &mut E,
) -> Result<ArgMatches<'a>, Status>
    requires stdout { IsFalse (O.state stdout.old).failed }
    requires stderr { IsFalse (E.state stderr.old).failed }
    ensures ok { OnOk result ((stdout.new ≡ stdout.old) × (stderr.new ≡ stderr.old)) }
    ensures err { IfErr result IsEndOfWords }
    ensures help { result ≡ Err Status.Help → stderr.new ≡ stderr.old }
    ensures quiet { IsFalse (E.state stderr.new).failed → result ≢ Err Status.Usage →
        stderr.new ≡ stderr.old }
    ensures words { result ≡ Err Status.Usage → stdout.new ≡ stdout.old }
{
    let Ok(command) = command(alloc) else {
        return Err(Status::Stopped(Error::Memory));
    };
    match command.try_get_matches_from(words) {
        Ok(matches) => Ok(matches),
        Err(error) => Err(end_words(alloc, &error, words, stdout, stderr)),
    }
}

/// The request of words that `clap` takes. Where it cannot be carried out, the reason is written.
fn sound_request<'a, E: Outlet>(
    alloc: Global,
    words: &'a [Word],
    usual: Form,
    matches: &ArgMatches<'a>,
    stderr: &mut E,
) -> Result<Request<'a>, Status>
    requires { IsFalse (E.state stderr.old).failed }
    ensures ok { OnOk result (stderr.new ≡ stderr.old) }
    ensures some { IfOk result NamesSome }
    ensures err { IfErr result IsEndOfWords }
    ensures no_help { result ≢ Err Status.Help }
    ensures quiet { IsFalse (E.state stderr.new).failed → result ≢ Err Status.Usage →
        stderr.new ≡ stderr.old }
{
    let request = match request_of(alloc, words, usual, matches) {
        Ok(Some(request)) => request,
        Ok(None) => return Err(Status::Usage),
        Err(fault) => return Err(refuse_choices(alloc, &fault, stderr)),
    };
    match misplaced(words, &request) {
        Some(word) => Err(refuse_word(alloc, word, stderr)),
        None => Ok(request),
    }
}

/// The form of what is told: that of a check of many jobs, or the usual one.
fn form_of_answer(usual: Form, request: &Request<'_>) -> Form {
    match request {
        Request::CheckMany(many) => many.form,
        Request::Survey { form, .. } => *form,
        Request::Compare(words) => words.form,
        _ => usual,
    }
}

/// What stands for a word that is no text, where it has to be text.
fn misplaced<'a>(words: &'a [Word], request: &Request<'a>) -> Option<&'a str> {
    match request {
        Request::CheckMany(many) => beside_jobs(many),
        _ => first_without_text(words),
    }
}

/// What stands for a word that is no text, beside the names of jobs.
fn beside_jobs<'a>(many: &ManyWords<'a>) -> Option<&'a str> {
    if let Some(word) = first_stand_in(many.printers.as_slice()) {
        return Some(word);
    }
    if let Some(word) = first_stand_in(many.fleets.as_slice()) {
        return Some(word);
    }
    match many.names_from {
        Some(path) if is_stand_in(path) => Some(path),
        _ => None,
    }
}

/// Writes that a word has to be text, by what stands for it.
fn refuse_word<E: Outlet>(alloc: Global, word: &str, stderr: &mut E) -> Status
    requires { IsFalse (E.state stderr.old).failed }
    ensures end { IsEndOfWords result }
    ensures no_help { result ≢ Status.Help }
    ensures quiet { IsFalse (E.state stderr.new).failed → result ≢ Status.Usage →
        stderr.new ≡ stderr.old }
{
    let Ok(text) = format!(in alloc;
        "error: '{word}' is not UTF-8 text, and pclcheck opens files by names of text; rename it, or send a job on standard input: 'check -p PROFILE - < JOB', 'list /dev/stdin < JOB'\n"
    ) else {
        return Status::Stopped(Error::Memory);
    };
    tell_words(alloc, text.as_str(), stderr)
}

/// Writes why words are refused, without the zero bytes of what stands for words.
fn tell_words<E: Outlet>(alloc: Global, text: &str, stderr: &mut E) -> Status
    requires { IsFalse (E.state stderr.old).failed }
    ensures end { IsEndOfWords result }
    ensures no_help { result ≢ Status.Help }
    ensures quiet { IsFalse (E.state stderr.new).failed → result ≢ Status.Usage →
        stderr.new ≡ stderr.old }
{
    let Ok(told) = without_zeros(alloc, text) else {
        return Status::Stopped(Error::Memory);
    };
    match write_text(stderr, told.as_slice()) {
        Ok(()) => Status::Usage,
        Err(_) => Status::Stopped(Error::Write),
    }
}

/// What a request would write that it also reads, by its words.
fn overwritten(request: &Request<'_>) -> Option<Input>
    ensures { IsFalse (is_some result) → KeepsWhatItReads request.now }
{
    let (job, profile, out) = match request {
        Request::Plain { job, out } => (job, None, out),
        Request::Pdf {
            job,
            profile,
            out,
            ..
        } => (job, Some(profile), out),
        Request::Pin {
            job,
            profile,
            out,
            ..
        } => (job, Some(profile), out),
        Request::ProfileSheet { profile, out } => {
            return (profile == out).then_some(Input::Profile);
        }
        Request::Compare(words) => return overwritten_by_picture(words),
        _ => return None,
    };
    if job == out {
        return Some(Input::Job);
    }
    if profile == Some(out) {
        return Some(Input::Profile);
    }
    None
}

/// What a picture of a comparison would be written to that is also read, by its words.
fn overwritten_by_picture(words: &CompareWords<'_>) -> Option<Input>
    ensures { IsFalse (is_some result) → IfSome words.now.picture (λ out.
        IsFalse (reads_job words.now.jobs out.now)
        × IsFalse (reads_printer words.now out.now)) }
{
    match words.picture {
        Some(out) => read_at(words, out),
        None => None,
    }
}

/// What a comparison reads at a path, by its words.
fn read_at(words: &CompareWords<'_>, path: &str) -> Option<Input>
    ensures { IsFalse (is_some result) → IsFalse (reads_job words.now.jobs path.now)
        × IsFalse (reads_printer words.now path.now) }
{
    if reads_job(&words.jobs, path) {
        return Some(Input::Job);
    }
    if reads_printer(words, path) {
        return Some(Input::Profile);
    }
    None
}

/// Whether a word names a job at this path.
fn reads_job(jobs: &ComparedJobs<'_>, path: &str) -> bool
    ensures { result ≡ reads_job jobs.now path.now }
{
    match jobs {
        ComparedJobs::Pair { old_job, new_job } => *old_job == path || *new_job == path,
        ComparedJobs::Golden { jobs, .. } => has_path(jobs.as_slice(), path),
    }
}

/// Whether a word names a printer or a fleet at this path.
fn reads_printer(words: &CompareWords<'_>, path: &str) -> bool
    ensures { result ≡ reads_printer words.now path.now }
{
    has_path(words.printers.as_slice(), path) || has_path(words.fleets.as_slice(), path)
}

fn has_path(words: &[&str], path: &str) -> bool
    ensures { result ≡ list_any (λ word. bytes_eq word.now path.now) words.now }
{
    words.iter().any(|word| *word == path)
}

/// Writes why the words of options ask for nothing.
fn refuse_choices<E: Outlet>(alloc: Global, fault: &ChoiceFault<'_>, stderr: &mut E) -> Status
    requires { IsFalse (E.state stderr.old).failed }
    ensures end { IsEndOfWords result }
    ensures no_help { result ≢ Status.Help }
    ensures quiet { IsFalse (E.state stderr.new).failed → result ≢ Status.Usage →
        stderr.new ≡ stderr.old }
{
    if matches!(fault, ChoiceFault::Memory(_)) {
        return Status::Stopped(Error::Memory);
    }
    let Ok(text) = format!(in alloc; "error: {fault}\n") else {
        return Status::Stopped(Error::Memory);
    };
    tell_words(alloc, text.as_str(), stderr)
}

/// The request of words that are right.
fn request_of<'a>(
    alloc: Global,
    words: &'a [Word],
    usual: Form,
    matches: &ArgMatches<'a>,
) -> Result<Option<Request<'a>>, ChoiceFault<'a>>
    ensures { IfOk result (λ request. IfSome request NamesSome) }
{
    if let Some(found) = matches.subcommand_matches("check") {
        return check_request(alloc, words, usual, found);
    }
    if let Some(found) = matches.subcommand_matches("survey") {
        return Ok(survey_request(alloc, usual, found)?);
    }
    if let Some(found) = matches.subcommand_matches("compare") {
        return compare_request(alloc, usual, found);
    }
    request_of_page(alloc, matches)
}

/// The request of words that are right, where they name none of the commands on many jobs.
fn request_of_page<'a>(
    alloc: Global,
    matches: &ArgMatches<'a>,
) -> Result<Option<Request<'a>>, ChoiceFault<'a>>
    ensures { IfOk result (λ request. IfSome request NamesSome) }
{
    if let Some(found) = matches.subcommand_matches("pin") {
        return pin_request(alloc, found);
    }
    if let Some(found) = matches.subcommand_matches("picture") {
        return picture_request(alloc, found);
    }
    if let Some(found) = matches.subcommand_matches("pdf") {
        return pdf_request(alloc, found);
    }
    Ok(request_of_text(alloc, matches)?)
}

/// The request of words that are right, where they name none of the commands that take `--panel`.
fn request_of_text<'a>(
    alloc: Global,
    matches: &ArgMatches<'a>,
) -> Result<Option<Request<'a>>, AllocError>
    ensures { IfOk result (λ request. IfSome request NamesSome) }
{
    if let Some(found) = matches.subcommand_matches("explain") {
        let code = found.get_str("CODE");
        return Ok(Some(Request::Explain { code }));
    }
    if let Some(found) = matches.subcommand_matches("profile") {
        return profile_request(alloc, found);
    }
    Ok(text_request(matches))
}

/// Writes help in short where `-h` asked for it, or else what `clap` answers.
fn end_words<O: Outlet, E: Outlet>(
    alloc: Global,
    error: &clap::Error,
    words: &[Word],
    stdout: &mut O,
    stderr: &mut E,
) -> Status
    requires stdout { IsFalse (O.state stdout.old).failed }
    requires stderr { IsFalse (E.state stderr.old).failed }
    ensures end { IsEndOfWords result }
    ensures help { result ≡ Status.Help → stderr.new ≡ stderr.old }
    ensures quiet { IsFalse (E.state stderr.new).failed → result ≢ Status.Usage →
        stderr.new ≡ stderr.old }
    ensures words { result ≡ Status.Usage → stdout.new ≡ stdout.old }
{
    if error.kind() == ErrorKind::DisplayHelp && has_short_word(words) {
        return write_short_help(command_asked(words), stdout);
    }
    refuse(alloc, error, stdout, stderr)
}

/// Whether a word is `-h`, which `--help` is not.
fn has_short_word(words: &[Word]) -> bool {
    words.iter().any(|word| word.as_str() == "-h")
}

/// Writes what a command does, and how it is used mostly.
fn write_short_help<O: Outlet>(name: CommandName, stdout: &mut O) -> Status
    requires { IsFalse (O.state stdout.old).failed }
    ensures end { IsEndOfWords result }
    ensures no_usage { result ≢ Status.Usage }
{
    let pieces: [&[u8]; 4] = [
        name.row().about.as_bytes(),
        b"\n\n",
        name.help().short.as_bytes(),
        b"\n",
    ];
    match write_pieces(stdout, &pieces) {
        Ok(()) => Status::Help,
        Err(_) => Status::Stopped(Error::Write),
    }
}

/// Writes why the words were refused, or the help or the version that they asked for.
fn refuse<O: Outlet, E: Outlet>(
    alloc: Global,
    error: &clap::Error,
    stdout: &mut O,
    stderr: &mut E,
) -> Status
    requires stdout { IsFalse (O.state stdout.old).failed }
    requires stderr { IsFalse (E.state stderr.old).failed }
    ensures end { IsEndOfWords result }
    ensures help { result ≡ Status.Help → stderr.new ≡ stderr.old }
    ensures quiet { IsFalse (E.state stderr.new).failed → result ≢ Status.Usage →
        stderr.new ≡ stderr.old }
    ensures words { result ≡ Status.Usage → stdout.new ≡ stdout.old }
{
    if error.kind() == ErrorKind::OutOfMemory {
        return Status::Stopped(Error::Memory);
    }
    let Some(text) = text_of(alloc, error) else {
        return Status::Stopped(Error::Memory);
    };
    if error.use_stderr() {
        return tell_words(alloc, text.as_str(), stderr);
    }
    match write_text(stdout, text.as_bytes()) {
        Ok(()) => Status::Help,
        Err(_) => Status::Stopped(Error::Write),
    }
}

/// What `clap` tells, and behind it where the option for the form stands, if a command refuses it;
/// nothing where there is no memory for it.
fn text_of(alloc: Global, error: &clap::Error) -> Option<String> {
    let mut text = format!(in alloc; "{error}").ok()?;
    if text.as_str().contains(FORM_REFUSED) {
        text.push_str(FORM_BEFORE).ok()?;
    }
    Some(text)
}
