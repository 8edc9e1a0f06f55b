//! The words of the command `survey`.
ghost use Rattle.std.specs.Prelude.{IfOk, IfSome};
ghost use Rattle.requests.specs.Words.{NamesSome};

use crate::form_words::{SURVEY_FORMS, form_asked};
use crate::rows::{CommandHelp, CommandRow, Count, Need, OptionRow, Value, WordRow};
use crate::texts::texts_of;
use clap::ArgMatches;
use requests::{Form, Request};
use std::alloc::{AllocError, Global};

const SHORT_HELP: &str = "Usage:
  pclcheck survey JOB..
      a line for each kind of command that is refused, and how often

'pclcheck survey --help' tells all.";

const EXPLANATION: &str =
    "It gives no verdict: a job of which nothing is refused may fail, which check tells. Behind what is
refused it goes on, and passes data over by the lengths that HP's manuals give. It is for who wants
to know whether a host can be made to send jobs that can be checked, and what to turn off.

Output, a line for each kind of command that is refused, in the order of their first places:
  Nx in N of N jobs: COMMAND, CALLED, first at byte N of JOB (NUMBER NAME)
  surveyed: jobs=N refused=N others=N; this is no verdict, check gives one

  COMMAND   as the manual spells it, with # for its number: ESC &l#P; xNN for a control code, AA
            for an instruction of HP-GL/2, and @PJL SET for a line of the job language
  CALLED    what the manual calls it, where it has a name for it; explain tells more
  NUMBER    the fault and its NAME, of which explain tells more, too
  others    how often something was refused behind 256 kinds, for which there is no line

With --format json these are objects, of which the last one has the verdict NONE. All jobs are read
before anything is written.

Exit status:
  0  all jobs were surveyed, or help was asked for
  2  usage error
  3  a job could not be read, a write failed, memory ran out, or no end after 2^40 reads";

/// The words of the command `survey`.
const SURVEY: &CommandRow = &CommandRow {
    name: "survey",
    about: "Tells all that is refused of jobs, each kind of command once, and gives no verdict",
    words: &[WordRow {
        id: "JOB",
        need: Need::Always,
        count: Count::Several("JOB"),
        help: "The path of a print job, or - for standard input",
    }],
    options: &[OptionRow {
        id: "FORM",
        short: None,
        long: "format",
        value: Value::OneOf {
            words: SURVEY_FORMS,
            usual: None,
        },
        excludes: None,
        help: "Lines for people, or with json objects; line and words are the same",
    }],
};

/// The row of the command `survey`.
pub(crate) fn survey_row() -> &'static CommandRow {
    SURVEY
}

/// What help says of the command `survey`.
pub(crate) fn survey_help() -> CommandHelp {
    CommandHelp {
        short: SHORT_HELP,
        explanation: EXPLANATION,
    }
}

/// The request of the words behind `survey`, in the usual form where they ask for none.
pub fn survey_request<'a>(
    alloc: Global,
    usual: Form,
    found: &ArgMatches<'a>,
) -> Result<Option<Request<'a>>, AllocError>
    ensures { IfOk result (λ request. IfSome request NamesSome) }
{
    let form = form_asked(found).unwrap_or(usual);
    let jobs = texts_of(alloc, found, "JOB")?;
    Ok(Some(Request::Survey { jobs, form }))
}
