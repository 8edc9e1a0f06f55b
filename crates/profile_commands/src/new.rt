//! The command `profile new`.
ghost use Rattle.std.specs.Prelude.{◌≡◌, ◌<◌, length, map, IsFalse};
ghost use Rattle.streams.specs.Writing.{Writes};
ghost use Rattle.printer_models.specs.declared.asked.WordFault.{WordFault};
ghost use Rattle.profile_commands.specs.ProfileNew.{LeavesProfile, mismatch_line, unknown_model};
ghost use Rattle.profile_commands.specs.ProfileNew.{wrong_paper};

use crate::whole_text::write_whole;
use printer_models::{NewError, PanelLists, PaperFault, new_text};
use requests::{Status, Trouble, write_pieces};
use std::alloc::Allocator;
use streams::{Error, Outlet, write_text};

/// The command `profile new`: on standard output the text of a profile of a model, with the papers
/// of these names, which without a name are letter and A4, and with a panel of these lists. Of a
/// name that is wrong standard error tells.
pub fn profile_new<A: Allocator + Copy, O: Outlet, E: Outlet>(
    alloc: A,
    model: &str,
    papers: &[&str],
    lists: PanelLists,
    stdout: &mut O,
    stderr: &mut E,
) -> Status
    requires stdout { IsFalse (O.state stdout.old).failed }
    requires stderr { IsFalse (E.state stderr.old).failed }
    ensures { LeavesProfile model.now (map (λ name. name.now) papers.now) lists result
        (O.state stdout.old) (O.state stdout.new) (E.state stderr.old) (E.state stderr.new) }
{
    match new_text(alloc, model, papers, lists) {
        Ok(text) => write_whole(stdout, text.as_slice()),
        Err(NewError::UnknownModel) => refuse_model(model, stderr),
        Err(NewError::Paper(wrong)) => refuse_paper(
            model,
            papers[wrong.index],
            wrong.fault,
            stderr,
        ),
        Err(NewError::Mismatch) => tell_mismatch(stderr),
        Err(NewError::Memory) => Status::Stopped(Error::Memory),
    }
}

/// Tells that no model has this name.
fn refuse_model<E: Outlet>(model: &str, stderr: &mut E) -> Status
    requires { IsFalse (E.state stderr.old).failed }
    ensures status { result ≡ Status.Usage }
    ensures line { Writes (E.state stderr.old) (E.state stderr.new) (unknown_model model.now) }
{
    let pieces: [&[u8]; 3] = [
        b"error: no model has the name '",
        model.as_bytes(),
        b"'; 'pclcheck profile list' names all\n",
    ];
    // Where standard error takes nothing, the status alone is left to tell.
    let _ = write_pieces(stderr, &pieces);
    Status::Usage
}

/// Tells what is wrong with the name of a paper, for a model.
fn refuse_paper<E: Outlet>(model: &str, paper: &str, fault: PaperFault, stderr: &mut E) -> Status
    requires { IsFalse (E.state stderr.old).failed }
    ensures status { result ≡ Status.Usage }
    ensures line { Writes (E.state stderr.old) (E.state stderr.new)
        (wrong_paper model.now paper.now fault) }
{
    let paper = paper.as_bytes();
    let model = model.as_bytes();
    // Where standard error takes nothing, the status alone is left to tell.
    let _ = match fault {
        PaperFault::Unknown => write_pieces(
            stderr,
            &[
                b"error: no paper has the name '",
                paper,
                b"'; 'pclcheck profile list' names those of each model\n",
            ],
        ),
        PaperFault::NotHeld => write_pieces(
            stderr,
            &[
                b"error: '",
                model,
                b"' cannot have the paper '",
                paper,
                b"'; 'pclcheck profile list' names those that it can\n",
            ],
        ),
        PaperFault::Repeated => write_pieces(
            stderr,
            &[b"error: the paper '", paper, b"' comes twice\n"],
        ),
    };
    Status::Usage
}

/// Tells that the text that was made is not that of the tables, which is a mistake in the program.
pub fn tell_mismatch<E: Outlet>(stderr: &mut E) -> Status
    requires { IsFalse (E.state stderr.old).failed }
    ensures status { result ≡ Status.Told Trouble.Mismatch }
    ensures line { Writes (E.state stderr.old) (E.state stderr.new) mismatch_line }
{
    // Where standard error takes nothing, the status alone is left to tell.
    let _ = write_text(
        stderr,
        b"ERROR mismatch: the tables of this program and the text that it made of them do not agree\n",
    );
    Status::Told(Trouble::Mismatch)
}
