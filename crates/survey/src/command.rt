//! The command `survey`.

ghost use Rattle.std.specs.Prelude.{◌≡◌, ◌++◌, IfErr, IfOk, IsFalse, OnOk, map};
ghost use Rattle.survey.specs.Command.{AreTallied, EndsUnsurveyed, IsNextTallied, LeavesSurvey};
ghost use Rattle.survey.specs.Command.{StopsAmong, StopsAt, WritesSurvey, survey_text};
ghost use Rattle.survey.specs.Surveys.{IsErrorOfSurvey, IsTallied};
ghost use Rattle.survey.specs.Tally.{no_refusals};

use crate::lines::push_lines;
use crate::objects::push_objects;
use crate::surveyor::{Surveyor, survey_job};
use crate::table::Table;
use job_reports::tell_unread;
use named_inputs::Jobs;
use requests::{Form, Status};
use std::alloc::{AllocError, Global};
use streams::{Error, Outlet, Source, write_text};

/// The command `survey`: on standard output what the language refuses of jobs. All are read before
/// anything is written; of one that cannot be read standard error tells.
pub fn survey_jobs<'n, J: Jobs<'n>, O: Outlet, E: Outlet>(
    alloc: Global,
    jobs: &mut J,
    names: &[&'n str],
    form: Form,
    stdout: &mut O,
    stderr: &mut E,
) -> Status
    requires stdout { IsFalse (O.state stdout.old).failed }
    requires stderr { IsFalse (E.state stderr.old).failed }
    ensures { LeavesSurvey form (map (λ name. name.now) names.now) (J.start jobs.old) result
        (J.ended jobs.old) (J.ended jobs.new)
        (O.state stdout.old) (O.state stdout.new) (E.state stderr.old) (E.state stderr.new) }
{
    let mut surveyor = Surveyor::new(alloc);
    survey_with(alloc, jobs, names, form, &mut surveyor, stdout, stderr)
}

/// Surveys jobs by a surveyor that has counted nothing yet.
fn survey_with<'n, J: Jobs<'n>, O: Outlet, E: Outlet>(
    alloc: Global,
    jobs: &mut J,
    names: &[&'n str],
    form: Form,
    surveyor: &mut Surveyor,
    stdout: &mut O,
    stderr: &mut E,
) -> Status
    requires begun { surveyor.old.tally ≡ no_refusals }
    requires stdout { IsFalse (O.state stdout.old).failed }
    requires stderr { IsFalse (E.state stderr.old).failed }
    ensures { LeavesSurvey form (map (λ name. name.now) names.now) (J.start jobs.old) result
        (J.ended jobs.old) (J.ended jobs.new)
        (O.state stdout.old) (O.state stdout.new) (E.state stderr.old) (E.state stderr.new) }
{
    match survey_all(alloc, jobs, names, surveyor, stderr) {
        Ok(()) => write_survey(alloc, names, form, surveyor.table(), stdout),
        Err(status) => status,
    }
}

/// Surveys jobs one after another.
fn survey_all<'n, J: Jobs<'n>, E: Outlet>(
    alloc: Global,
    jobs: &mut J,
    names: &[&'n str],
    surveyor: &mut Surveyor,
    stderr: &mut E,
) -> Result<(), Status>
    requires { IsFalse (E.state stderr.old).failed }
    ensures tallied { OnOk result (AreTallied (J.start jobs.old) (map (λ name. name.now) names.now)
        (J.ended jobs.old) (J.ended jobs.new) 0 surveyor.old.tally surveyor.new.tally) }
    ensures quiet { OnOk result (stderr.new ≡ stderr.old) }
    ensures stopped { IfErr result (λ status. StopsAmong (J.start jobs.old)
        (map (λ name. name.now) names.now) surveyor.old.tally status
        (J.ended jobs.old) (J.ended jobs.new) (E.state stderr.old) (E.state stderr.new)) }
{
    for (number, name) in names.iter().enumerate() {
        survey_next(alloc, jobs, number as u64, name, surveyor, stderr)?;
    }
    Ok(())
}

/// Surveys the job of this number and this name.
fn survey_next<'n, J: Jobs<'n>, E: Outlet>(
    alloc: Global,
    jobs: &mut J,
    number: u64,
    name: &'n str,
    surveyor: &mut Surveyor,
    stderr: &mut E,
) -> Result<(), Status>
    requires { IsFalse (E.state stderr.old).failed }
    ensures tallied { OnOk result (IsNextTallied (J.start jobs.old) name.now
        (J.ended jobs.old) (J.ended jobs.new) number surveyor.old.tally surveyor.new.tally) }
    ensures start { J.start jobs.new ≡ J.start jobs.old }
    ensures quiet { OnOk result (stderr.new ≡ stderr.old) }
    ensures stopped { IfErr result (λ status. EndsUnsurveyed name.now status
        (J.ended jobs.old) (J.ended jobs.new) (E.state stderr.old) (E.state stderr.new)) }
{
    let bytes = name.as_bytes();
    let mut job = jobs.job(bytes);
    let answer = survey_one(alloc, &mut job, number, name, surveyor, stderr);
    jobs.end(bytes, job);
    answer
}

/// Surveys this job.
fn survey_one<S: Source, E: Outlet>(
    alloc: Global,
    job: &mut S,
    number: u64,
    name: &str,
    surveyor: &mut Surveyor,
    stderr: &mut E,
) -> Result<(), Status>
    requires job { IsFalse (S.state job.old).failed }
    requires stderr { IsFalse (E.state stderr.old).failed }
    ensures tallied { OnOk result (IsTallied (S.state job.old) (S.state job.new) number
        surveyor.old.tally surveyor.new.tally) }
    ensures quiet { OnOk result (stderr.new ≡ stderr.old) }
    ensures stopped { IfErr result (λ status. StopsAt name.now status
        (E.state stderr.old) (E.state stderr.new)) }
{
    match survey_job(job, number, surveyor) {
        Ok(()) => Ok(()),
        Err(error) => Err(tell_stop(alloc, job, name, error, stderr)),
    }
}

/// Tells why a job was not read to its end, where a read failed.
fn tell_stop<S: Source, E: Outlet>(
    alloc: Global,
    job: &S,
    name: &str,
    error: Error,
    stderr: &mut E,
) -> Status
    requires error { IsErrorOfSurvey error }
    requires stderr { IsFalse (E.state stderr.old).failed }
    ensures { StopsAt name.now result (E.state stderr.old) (E.state stderr.new) }
{
    match error {
        Error::Read => tell_unread(alloc, b"ERROR read job ", name, job.error(), stderr),
        _ => Status::Stopped(error),
    }
}

/// Writes what was counted of the jobs of these names.
fn write_survey<O: Outlet>(
    alloc: Global,
    names: &[&str],
    form: Form,
    table: &Table,
    stdout: &mut O,
) -> Status
    requires { IsFalse (O.state stdout.old).failed }
    ensures { WritesSurvey (survey_text form (map (λ name. name.now) names.now) table.now) result
        (O.state stdout.old) (O.state stdout.new) }
{
    let Ok(text) = survey_text(alloc, names, form, table) else {
        return Status::Stopped(Error::Memory);
    };
    write_whole(text.as_slice(), stdout)
}

/// Writes the text of a survey.
fn write_whole<O: Outlet>(text: &[u8], stdout: &mut O) -> Status
    requires { IsFalse (O.state stdout.old).failed }
    ensures { WritesSurvey text.now result (O.state stdout.old) (O.state stdout.new) }
{
    match write_text(stdout, text) {
        Ok(()) => Status::Help,
        Err(_) => Status::Stopped(Error::Write),
    }
}

/// The text of what was counted.
fn survey_text(
    alloc: Global,
    names: &[&str],
    form: Form,
    table: &Table,
) -> Result<Vec<u8>, AllocError>
    ensures { IfOk result (λ text. text.items
        ≡ survey_text form (map (λ name. name.now) names.now) table.now) }
{
    let mut text = Vec::new(alloc);
    push_survey(alloc, &mut text, names, form, table)?;
    Ok(text)
}

/// Appends lines of JSON, or lines for people.
fn push_survey(
    alloc: Global,
    text: &mut Vec<u8>,
    names: &[&str],
    form: Form,
    table: &Table,
) -> Result<(), AllocError>
    ensures { OnOk result (text.new.items ≡ text.old.items
        ++ survey_text form (map (λ name. name.now) names.now) table.now) }
{
    match form {
        Form::Line => push_lines(text, names, table),
        Form::Words => push_lines(text, names, table),
        Form::Html => push_lines(text, names, table),
        Form::Json => push_objects(alloc, text, names, table),
    }
}
