//! The command `picture`.
ghost use Rattle.std.specs.Prelude.{◌≡◌, ◌⊎◌, ◌||◌, ◌++◌, ◌∷◌, [], IfErr, IfOk, IsErrOf};
ghost use Rattle.std.specs.Prelude.{IsFalse, IsTrue};
ghost use Rattle.device_profile.specs.Printer.{IsAllowed};
ghost use Rattle.streams.specs.Errors.{is_err_of_read};
ghost use Rattle.named_inputs.specs.Fleet.{RefusesRead, IsNamed, RefusesOne};
ghost use Rattle.named_inputs.specs.Choices.{TellsOfPin};
ghost use Rattle.requests.specs.Status.{is_refusal, is_stop_of_read, is_stop_of_write};
ghost use Rattle.streams.specs.Source.{SourceState};
ghost use Rattle.job_picture.specs.JobPicture.{picture_rendering};
ghost use Rattle.picture_command.specs.PageSearch.{search_rendering};
ghost use Rattle.picture_command.specs.Picture.{Draws, HasNoEnd, IsErrorOfSearch, IsNamedBy};
ghost use Rattle.picture_command.specs.Picture.{LeavesDrawn, LeavesPicture, StopsSearch};
ghost use Rattle.picture_command.specs.Picture.{TellsOutcome};
ghost use Rattle.picture_command.specs.Picture.{TellsChange, change_line, is_missing, status_of};
ghost use Rattle.picture_command.specs.Picture.{without_line_end};

use crate::named_printer::read_printer;
use crate::page_search::{Names, PageSearch};
use crate::same::is_same;
use device_profile::{Panel, Profile};
use job_picture::{Wanted, picture_of};
use job_reports::{PrinterGroup, push_named_first};
use named_inputs::{KeptText, ProfileTexts, chosen_panel, kept_error, refuse_choice};
use renderings::{Outcome, render_job};
use requests::{DrawnPages, PanelSetting, Selection, Status};
use std::alloc::{AllocError, Allocator};
use streams::{Error, Outlet, Source, write_text};

/// What is asked of the command `picture`.
#[derive(Clone, Copy)]
pub struct PictureAsked<'a> {
    /// The word JOB, by which sentences name the job.
    pub job: &'a str,
    pub setting: PanelSetting<'a>,
    pub selection: Selection,
}

/// Which pages are searched for, for which printer and from which panel.
#[derive(Drop)]
pub struct SearchedPages<'d, 'n, A: Allocator> {
    pub profile: &'d Profile<A>,
    pub panel: Panel,
    pub names: Names<'n, A>,
    pub selection: Selection,
}

/// What the first reading of a job told: what came of the pages that are wanted, and a text on
/// that.
#[derive(Drop)]
pub struct Found<A: Allocator> {
    pub outcome: Outcome,
    pub text: Vec<u8, A>,
}

/// The command `picture`: pages of the job as pictures on standard output, from the panel of the
/// printer that is chosen. The profile is read and judged before the job is read.
///
/// The job is read twice: first to tell whether it has the page that is wanted and whether it fails
/// on it, or what the verdict on the job is. Of a page that it does not have standard error is
/// told, and also where the second reading came to something else than the first.
pub fn picture<S: Source, T: ProfileTexts, O: Outlet, E: Outlet, A: Allocator + Copy>(
    alloc: A,
    first: &mut S,
    second: &mut S,
    texts: &mut T,
    asked: &PictureAsked<'_>,
    stdout: &mut O,
    stderr: &mut E,
) -> Status
    requires first { IsFalse (S.state first.old).failed }
    requires second { IsFalse (S.state second.old).failed }
    requires texts { IsFalse (T.failed texts.old) }
    requires stdout { IsFalse (O.state stdout.old).failed }
    requires stderr { IsFalse (E.state stderr.old).failed }
    ensures left { LeavesPicture result
        (IsNamedBy (T.given texts.old) (T.given texts.new)
        (IsNamed (T.text_of texts.old asked.now.setting.profile.now)
        (T.given texts.old) (T.given texts.new)))
        asked.now.setting.choices.now asked.now.selection asked.now.job.now
        record {
          first = S.state first.old;
          first' = S.state first.new;
          second = S.state second.old;
          second' = S.state second.new;
          out = O.state stdout.old;
          out' = O.state stdout.new;
          err = E.state stderr.old;
          err' = E.state stderr.new;
        } }
    ensures read { ((S.state first.new).failed || (S.state second.new).failed
        || T.failed texts.new) ≡ is_stop_of_read result }
    ensures write { (O.state stdout.new).failed ≡ is_stop_of_write result }
    ensures turns { result ≡ Status.Stopped Error.Turns →
        HasNoEnd (S.state first.old) (S.state first.new)
        ⊎ HasNoEnd (S.state second.old) (S.state second.new) }
    ensures refusal { RefusesOne (T.text_of texts.old asked.now.setting.profile.now) result }
    ensures refused { RefusesRead (T.given texts.old) (T.given texts.new) 1 result }
    ensures named { T.named texts.new
        ≡ T.named texts.old ++ asked.now.setting.profile.now ∷ [] }
    ensures unread { IsTrue (is_refusal result || T.failed texts.new) →
        (first.new ≡ first.old) × (second.new ≡ second.old) }
    ensures choice { TellsOfPin result
        (IsNamed (T.text_of texts.old asked.now.setting.profile.now)
        (T.given texts.old) (T.given texts.new))
        asked.now.setting.choices.now (E.state stderr.old) (E.state stderr.new) }
{
    let printer = match read_printer(alloc, texts, asked.setting.profile) {
        Ok(printer) => printer,
        Err(status) => return status,
    };
    let panel = match chosen_panel(&printer.profile, asked.setting.choices) {
        Ok(panel) => panel,
        Err(choice) => return refuse_choice(alloc, &printer.profile, choice, stderr),
    };
    // Sentences take the names of a group alone.
    let printers = PrinterGroup::new(&[], &[], printer.names.as_slice(), false);
    let drawn = SearchedPages {
        profile: &printer.profile,
        panel,
        names: Names {
            job: asked.job.as_bytes(),
            printers: &printers,
        },
        selection: asked.selection,
    };
    draw(alloc, first, second, &drawn, stdout, stderr)
}

/// Draws pages of a job, where it has them.
fn draw<S: Source, O: Outlet, E: Outlet, A: Allocator + Copy>(
    alloc: A,
    first: &mut S,
    second: &mut S,
    drawn: &SearchedPages<'_, '_, A>,
    stdout: &mut O,
    stderr: &mut E,
) -> Status
    requires first { IsFalse (S.state first.old).failed }
    requires second { IsFalse (S.state second.old).failed }
    requires stdout { IsFalse (O.state stdout.old).failed }
    requires stderr { IsFalse (E.state stderr.old).failed }
    requires allowed { IsAllowed drawn.now.profile.now drawn.now.panel }
    ensures left { Draws result drawn.now.profile.now drawn.now.panel drawn.now.selection
        drawn.now.names.job.now drawn.now.names.printers.now
        record {
          first = S.state first.old;
          first' = S.state first.new;
          second = S.state second.old;
          second' = S.state second.new;
          out = O.state stdout.old;
          out' = O.state stdout.new;
          err = E.state stderr.old;
          err' = E.state stderr.new;
        } }
    ensures read { ((S.state first.new).failed || (S.state second.new).failed)
        ≡ is_stop_of_read result }
    ensures write { (O.state stdout.new).failed ≡ is_stop_of_write result }
    ensures turns { result ≡ Status.Stopped Error.Turns →
        HasNoEnd (S.state first.old) (S.state first.new)
        ⊎ HasNoEnd (S.state second.old) (S.state second.new) }
    ensures end { IsFalse (is_refusal result) }
{
    let found = match find_pages(alloc, first, drawn) {
        Ok(found) => found,
        Err(error) => return Status::Stopped(error),
    };
    if is_missing(drawn.selection, &found) {
        // Where standard error takes nothing, the status alone is left to tell.
        let _ = write_text(stderr, found.text.as_slice());
        return Status::Fail;
    }
    draw_found(alloc, second, drawn, &found, stdout, stderr)
}

/// What is told of the pages of a job.
///
/// An error is `Read`, `Memory` or `Turns`.
pub fn find_pages<S: Source, A: Allocator + Copy>(
    alloc: A,
    job: &mut S,
    drawn: &SearchedPages<'_, '_, A>,
) -> Result<Found<A>, Error>
    requires reading { IsFalse (S.state job.old).failed }
    requires allowed { IsAllowed drawn.now.profile.now drawn.now.panel }
    ensures told { IfOk result (λ found. TellsOutcome
        (search_rendering drawn.now.profile.now drawn.now.panel drawn.now.selection
        drawn.now.names.job.now drawn.now.names.printers.now)
        (S.state job.old) (S.state job.new) found.text.items found.outcome) }
    ensures stops { IfErr result (λ _. StopsSearch
        (search_rendering drawn.now.profile.now drawn.now.panel drawn.now.selection
        drawn.now.names.job.now drawn.now.names.printers.now)
        (S.state job.old) (S.state job.new)) }
    ensures error { IfErr result IsErrorOfSearch }
    ensures read { (S.state job.new).failed ≡ is_err_of_read result }
    ensures turns { IsErrOf result Error.Turns → HasNoEnd (S.state job.old) (S.state job.new) }
{
    let (names, selection) = (&drawn.names, drawn.selection);
    let mut search = PageSearch::new(alloc, drawn.profile, &drawn.panel, names, selection);
    let mut text = KeptText::new(alloc);
    match render_job(alloc, job, &mut search, &mut text) {
        Ok(outcome) => Ok(Found {
            outcome,
            text: text.into_bytes(),
        }),
        Err(error) => Err(kept_error(error)),
    }
}

/// Draws the pages that a job has, by what is told of them.
fn draw_found<S: Source, O: Outlet, E: Outlet, A: Allocator + Copy>(
    alloc: A,
    job: &mut S,
    drawn: &SearchedPages<'_, '_, A>,
    found: &Found<A>,
    stdout: &mut O,
    stderr: &mut E,
) -> Status
    requires job { IsFalse (S.state job.old).failed }
    requires stdout { IsFalse (O.state stdout.old).failed }
    requires stderr { IsFalse (E.state stderr.old).failed }
    requires allowed { IsAllowed drawn.now.profile.now drawn.now.panel }
    ensures left { (first : SourceState) → (first' : SourceState) →
        LeavesDrawn result drawn.now.names.job.now
        (picture_rendering drawn.now.profile.now drawn.now.panel drawn.now.selection
        (without_line_end found.now.text.items)) found.now.outcome
        record {
          first = first;
          first' = first';
          second = S.state job.old;
          second' = S.state job.new;
          out = O.state stdout.old;
          out' = O.state stdout.new;
          err = E.state stderr.old;
          err' = E.state stderr.new;
        } }
    ensures read { (S.state job.new).failed ≡ is_stop_of_read result }
    ensures write { (O.state stdout.new).failed ≡ is_stop_of_write result }
    ensures turns { result ≡ Status.Stopped Error.Turns →
        HasNoEnd (S.state job.old) (S.state job.new) }
    ensures end { IsFalse (is_refusal result) }
{
    let wanted = Wanted {
        selection: drawn.selection,
        sentence: without_line_end(found.text.as_slice()),
    };
    let outcome = match picture_of(alloc, job, drawn.profile, &drawn.panel, &wanted, stdout) {
        Ok(outcome) => outcome,
        Err(error) => return Status::Stopped(error),
    };
    if is_same(outcome, found.outcome) {
        return status_of(outcome);
    }
    tell_change(alloc, drawn.names.job, stderr)
}

/// The job does not have the page that is wanted.
pub fn is_missing<A: Allocator>(selection: Selection, found: &Found<A>) -> bool
    ensures { result ≡ is_missing selection found.now.text.items found.now.outcome }
{
    match (selection.pages, found.outcome) {
        (DrawnPages::One(_), Outcome::Done) => !found.text.is_empty(),
        _ => false,
    }
}

/// A line without its end.
fn without_line_end(line: &[u8]) -> &[u8]
    ensures { result.now ≡ without_line_end line.now }
{
    match line {
        [front @ .., b'\n'] => front,
        _ => line,
    }
}

fn status_of(outcome: Outcome) -> Status
    ensures { result ≡ status_of outcome }
{
    match outcome {
        Outcome::Done => Status::Pass,
        Outcome::Fail { .. } => Status::Fail,
    }
}

/// Tells that the second reading of the job came to something else than the first.
fn tell_change<E: Outlet, A: Allocator + Copy>(alloc: A, job: &[u8], stderr: &mut E) -> Status
    requires { IsFalse (E.state stderr.old).failed }
    ensures { TellsChange result job.now (E.state stderr.old) (E.state stderr.new) }
{
    let Ok(line) = change_line(alloc, job) else {
        return Status::Stopped(Error::Memory);
    };
    // Where standard error takes nothing, the status alone is left to tell.
    let _ = write_text(stderr, line.as_slice());
    Status::Fail
}

/// The line that tells it.
fn change_line<A: Allocator + Copy>(alloc: A, job: &[u8]) -> Result<Vec<u8, A>, AllocError>
    ensures { IfOk result (λ line. line.items ≡ change_line job.now) }
{
    let mut line = Vec::new(alloc);
    push_named_first(alloc, &mut line, job)?;
    line.extend_from_slice(b"the job is read twice, and was another at the second time\n")?;
    Ok(line)
}
