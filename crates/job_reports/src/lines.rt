//! The lines that the program writes on standard output.
ghost use Rattle.std.specs.Prelude.{◌≡◌, IfOk};
ghost use Rattle.job_reports.specs.Lines.{verdict_line};
ghost use Rattle.verdict.specs.Failing.{failing};

use line_words::{push_named, push_reason};
use std::alloc::{AllocError, Allocator};
use verdict::{Failure, Verdict};

/// The line of the verdict on a job that fails so, with its LF.
pub fn line_of_failure<A: Allocator>(alloc: A, failure: Failure) -> Result<Vec<u8, A>, AllocError>
    ensures { IfOk result (λ line. line.items ≡ verdict_line (failing failure)) }
{
    line_of(alloc, failure.verdict())
}

/// The line of a verdict, with its LF.
pub fn line_of<A: Allocator>(alloc: A, verdict: Verdict) -> Result<Vec<u8, A>, AllocError>
    ensures { IfOk result (λ line. line.items ≡ verdict_line verdict) }
{
    let mut line = Vec::new(alloc);
    match verdict {
        Verdict::Pass { pages, marks } => {
            push_named(&mut line, b"PASS pages=", pages)?;
            push_named(&mut line, b" marks=", marks)?;
        }
        Verdict::Fail {
            place,
            profile,
            finding,
        } => {
            push_named(&mut line, b"FAIL at=", place)?;
            push_named(&mut line, b" profile=", profile)?;
            line.push(b' ')?;
            push_reason(&mut line, finding)?;
        }
    }
    line.push(b'\n')?;
    Ok(line)
}
