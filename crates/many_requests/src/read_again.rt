//! A job of a comparison that would be read again.

ghost use Rattle.std.specs.Prelude.{[], ◌∷◌, Contains, IfNone, IfSome, IsFalse};
ghost use Rattle.compare_command.specs.Compare.{asked_for};
ghost use Rattle.many_requests.specs.Reads.{reads_input_twice};
ghost use Rattle.named_inputs.specs.FileJobs.{is_input};

use compare_command::CompareAsked;
use job_reports::is_pipe;
use named_inputs::is_input;
use std::rt::Files;

/// The job that would be read again, and whose bytes are gone once they are read.
pub(crate) fn gone_once_read<'n, R: Files>(rt: &R, asked: &CompareAsked<'_, 'n>) -> Option<&'n str>
    ensures once { IfNone result (IsFalse (reads_input_twice (asked_for asked.now))) }
    ensures named { IfSome result (λ name. Contains
        (asked.now.old_name.now ∷ asked.now.new_name.now ∷ []) name.now) }
{
    let is_old_gone = is_input(asked.old_name.as_bytes());
    let is_new_gone = is_input(asked.new_name.as_bytes());
    if asked.printers.len() <= 1 {
        return (is_old_gone && is_new_gone).then_some(asked.new_name);
    }
    if is_old_gone || is_pipe(rt, asked.old_name.as_bytes()) {
        return Some(asked.old_name);
    }
    if is_new_gone || is_pipe(rt, asked.new_name.as_bytes()) {
        return Some(asked.new_name);
    }
    None
}
