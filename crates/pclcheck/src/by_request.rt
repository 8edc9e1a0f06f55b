//! What the program does by request, on files.
ghost use Rattle.std.specs.Prelude.{IsFalse, map};
ghost use Rattle.requests.specs.Words.{NamesSome};
ghost use Rattle.pclcheck.specs.Requests.{AsksForPdf, AsksForPicture, AsksForPin, Fulfils};

use file_requests::job_texts::{check, list, notes, pages, pdf, picture, pin, plain, survey_files};
use file_requests::profiles::{from_pjl, lint, sheet, show};
use many_requests::{check_asked, compare_asked};
use meanings::EXPLANATIONS;
use meanings::explain::explain;
use pdf_command::PdfAsked;
use picture_command::PictureAsked;
use profile_commands::list::profile_list;
use profile_commands::new::profile_new;
use requests::{PanelSetting, Request, Status};
use std::io::{Input, Print};
use std::rt::Files;
use streams::{FilesUsed, Outlet};

/// Does what is asked for. Its files are opened by the subcommands, as late as these say; a history
/// is kept of them.
pub fn fulfil<R: Files + Input + Print + AllocGlobal, O: Outlet, E: Outlet>(
    rt: &R,
    request: &Request<'_>,
    used: &mut FilesUsed,
    stdout: &mut O,
    stderr: &mut E,
) -> Status
    requires stdout { IsFalse (O.state stdout.old).failed }
    requires stderr { IsFalse (E.state stderr.old).failed }
    requires some { NamesSome request.now }
    ensures { Fulfils (map (λ text. text.now) EXPLANATIONS) request.now result
        used.old used.new
        (O.state stdout.old) (O.state stdout.new) (E.state stderr.old) (E.state stderr.new) }
{
    let alloc = rt.alloc();
    match request {
        Request::Check { job, profiles } => check(rt, job, profiles.as_slice(), used, stdout),
        Request::CheckMany(words) => check_asked(rt, words, used, stdout, stderr),
        Request::Survey { jobs, form } => {
            survey_files(rt, jobs.as_slice(), *form, used, stdout, stderr)
        }
        Request::Compare(words) => compare_asked(rt, words, used, stdout, stderr),
        Request::List { job } => list(rt, job, used, stdout),
        Request::Pages { job, profile } => pages(rt, job, profile, used, stdout),
        Request::Picture { .. } => fulfil_picture(rt, request, used, stdout, stderr),
        Request::Pdf { .. } => fulfil_pdf(rt, request, used, stdout, stderr),
        Request::Notes { job, profile } => notes(rt, job, profile, used, stdout),
        Request::Plain { job, out } => plain(rt, job, out, used, stdout),
        Request::Pin { .. } => fulfil_pin(rt, request, used, stdout, stderr),
        Request::Explain { code } => explain(*code, stdout, stderr),
        Request::ProfileList => profile_list(alloc, stdout),
        Request::ProfileNew(words) => {
            let papers = words.papers.as_slice();
            profile_new(alloc, words.model, papers, words.lists, stdout, stderr)
        }
        Request::ProfileLint { profiles } => lint(rt, profiles.as_slice(), used, stdout, stderr),
        Request::ProfileShow { profile } => show(rt, profile, used, stdout, stderr),
        Request::ProfileSheet { profile, out } => sheet(rt, profile, out, used, stderr),
        Request::ProfileFromPjl { answer, base } => from_pjl(
            rt, answer, *base, used, stdout, stderr,
        ),
    }
}

/// Draws pages of a job.
fn fulfil_picture<R: Files + AllocGlobal, O: Outlet, E: Outlet>(
    rt: &R,
    request: &Request<'_>,
    used: &mut FilesUsed,
    stdout: &mut O,
    stderr: &mut E,
) -> Status
    requires stdout { IsFalse (O.state stdout.old).failed }
    requires stderr { IsFalse (E.state stderr.old).failed }
    requires picture { AsksForPicture request.now }
    ensures { Fulfils (map (λ text. text.now) EXPLANATIONS) request.now result
        used.old used.new
        (O.state stdout.old) (O.state stdout.new) (E.state stderr.old) (E.state stderr.new) }
{
    let Request::Picture {
        job,
        profile,
        choices,
        selection,
    } = request
    else {
        unreachable!()
    };
    let choices = choices.as_slice();
    let setting = PanelSetting { profile, choices };
    let asked = PictureAsked {
        job,
        setting,
        selection: *selection,
    };
    picture(rt, &asked, used, stdout, stderr)
}

/// Writes pages of a job as a PDF document.
fn fulfil_pdf<R: Files + Print + AllocGlobal, O: Outlet, E: Outlet>(
    rt: &R,
    request: &Request<'_>,
    used: &mut FilesUsed,
    stdout: &mut O,
    stderr: &mut E,
) -> Status
    requires stdout { IsFalse (O.state stdout.old).failed }
    requires stderr { IsFalse (E.state stderr.old).failed }
    requires pdf { AsksForPdf request.now }
    ensures { Fulfils (map (λ text. text.now) EXPLANATIONS) request.now result
        used.old used.new
        (O.state stdout.old) (O.state stdout.new) (E.state stderr.old) (E.state stderr.new) }
{
    let Request::Pdf {
        job,
        profile,
        choices,
        selection,
        is_proof,
        out,
    } = request
    else {
        unreachable!()
    };
    let choices = choices.as_slice();
    let asked = PdfAsked {
        job,
        setting: PanelSetting { profile, choices },
        selection: *selection,
        is_proof: *is_proof,
        most_items: None,
    };
    pdf(rt, &asked, out, used, stdout, stderr)
}

/// Writes a job pinned to a panel setting.
fn fulfil_pin<R: Files + Print + AllocGlobal, O: Outlet, E: Outlet>(
    rt: &R,
    request: &Request<'_>,
    used: &mut FilesUsed,
    stdout: &mut O,
    stderr: &mut E,
) -> Status
    requires stdout { IsFalse (O.state stdout.old).failed }
    requires stderr { IsFalse (E.state stderr.old).failed }
    requires pin { AsksForPin request.now }
    ensures { Fulfils (map (λ text. text.now) EXPLANATIONS) request.now result
        used.old used.new
        (O.state stdout.old) (O.state stdout.new) (E.state stderr.old) (E.state stderr.new) }
{
    let Request::Pin {
        job,
        profile,
        choices,
        out,
    } = request
    else {
        unreachable!()
    };
    let choices = choices.as_slice();
    let setting = PanelSetting { profile, choices };
    pin(rt, job, &setting, out, used, stdout, stderr)
}
