//! Reading a profile for the commands on profiles, which tell all that is wrong with it.
ghost use Rattle.std.specs.Prelude.{◌≡◌, ◌++◌, ◌∷◌, [], IfOk, IfErr, IsFalse, OnOk, MatchResult};
ghost use Rattle.streams.specs.Writing.{Writes};
ghost use Rattle.profile_commands.specs.ProfileReading.{IsRead, IsTextOf, TellsFaults, TellsNoText};
ghost use Rattle.profile_lint.specs.Lint.{faults_text};
ghost use Rattle.job_reports.specs.Refusals.{TellsLine};

use device_profile::{Profile, ProfileFault};
use job_reports::tell_unread;
use named_inputs::ProfileTexts;
use profile_lint::faults_text;
use requests::{Status, Trouble};
use std::alloc::Allocator;
use streams::{Error, Outlet, write_text};

/// The text that a word names. Where there is none, standard error is told why.
pub fn read_text<T: ProfileTexts, E: Outlet, A: Allocator + Copy>(
    alloc: A,
    texts: &mut T,
    word: &str,
    stderr: &mut E,
) -> Result<Vec<u8, A>, Status>
    requires texts { IsFalse (T.failed texts.old) }
    requires stderr { IsFalse (E.state stderr.old).failed }
    ensures text { IfOk result (λ text. IsRead (T.text_of texts.old word.now)
        (T.given texts.old) (T.given texts.new) text.items) }
    ensures named { T.named texts.new ≡ T.named texts.old ++ word.now ∷ [] }
    ensures same { T.text_of texts.new ≡ T.text_of texts.old }
    ensures working { OnOk result (IsFalse (T.failed texts.new)) }
    ensures quiet { OnOk result (stderr.new ≡ stderr.old) }
    ensures none { IfErr result (λ status. TellsNoText word.now (T.given texts.old)
        (T.given texts.new) (T.failed texts.new) status
        (E.state stderr.old) (E.state stderr.new)) }
{
    match texts.read_text(alloc, word) {
        Ok(text) => Ok(text),
        Err(Error::Read) => {
            let front = b"ERROR read profile ";
            Err(tell_unread(alloc, front, word, texts.error(), stderr))
        }
        Err(error) => Err(Status::Stopped(error)),
    }
}

/// The profile of a text that was read under a word. Where it has faults, standard error is told
/// each of them.
pub fn profile_of<E: Outlet, A: Allocator + Copy>(
    alloc: A,
    word: &str,
    text: &[u8],
    stderr: &mut E,
) -> Result<Profile<A>, Status>
    requires { IsFalse (E.state stderr.old).failed }
    ensures profile { IfOk result (λ profile. IsTextOf text.now profile) }
    ensures quiet { OnOk result (stderr.new ≡ stderr.old) }
    ensures none { IfErr result (λ status. TellsFaults text.now word.now status
        (E.state stderr.old) (E.state stderr.new)) }
{
    match Profile::read(alloc, text) {
        Ok(profile) => Ok(profile),
        Err(ProfileFault::Memory) => Err(Status::Stopped(Error::Memory)),
        Err(ProfileFault::Fault { .. }) => Err(refuse(alloc, word, text, stderr)),
    }
}

/// Tells each fault of a text.
fn refuse<E: Outlet, A: Allocator + Copy>(
    alloc: A,
    word: &str,
    text: &[u8],
    stderr: &mut E,
) -> Status
    requires { IsFalse (E.state stderr.old).failed }
    ensures { TellsLine result Trouble.Refused (faults_text word.now text.now)
        (E.state stderr.old) (E.state stderr.new) }
{
    let Ok(lines) = faults_text(alloc, word.as_bytes(), text) else {
        return Status::Stopped(Error::Memory);
    };
    // Where standard error takes nothing, the status alone is left to tell.
    let _ = write_text(stderr, lines.as_slice());
    Status::Told(Trouble::Refused)
}
