//! The words of the command `check`.
ghost use Rattle.std.specs.Prelude.{IfOk, IfSome};
ghost use Rattle.requests.specs.Words.{NamesSome};

use crate::many_words::{MANY_OPTIONS, asks_for_many, read_many};
use crate::panel_words::ChoiceFault;
use crate::rows::{CommandHelp, CommandRow, Count, Need, WordRow};
use crate::texts::texts_of;
use crate::word::Word;
use clap::ArgMatches;
use requests::{Form, Request};
use std::alloc::{AllocError, Global};

pub const EXPLANATION: &str = "Examples:
  pclcheck check job.pcl front.profile back.profile
      one job, and one line
  pclcheck check -p front.profile -p back.profile a.pcl b.pcl
      many jobs, a line for each
  pclcheck check -f shop.fleet a.pcl b.pcl
      for the printers of a fleet: a text with a profile a line, as seen from the text's folder, or
      a sample; empty lines and lines that begin with # are passed over
  pclcheck check -f shop.fleet --each a.pcl b.pcl
      a line for each job and printer, with the verdict for that printer alone
  pclcheck check -f shop.fleet --format words a.pcl b.pcl
      a.pcl: each printer prints this job (pages=1 marks=16)
      b.pcl: this job is wrong at byte 9 on page 2: the bytes here are no command (1 Syntax)
  pclcheck check -f shop.fleet --format json a.pcl
      {\"job\":\"a.pcl\",\"marks\":16,\"pages\":1,\"verdict\":\"PASS\"}
  pclcheck check -f shop.fleet --format html --explain --notes in/*.pcl > report.html
      a page to look at: the counts, a row for each job, and its picture where it fails
  pclcheck check -f shop.fleet --explain c.pcl
      FAIL at=5 printer=desk 24 DefinitionOpen c.pcl
      24 DefinitionOpen
        When:    ESC E, the universal exit, the macro control 0 or the end of the
                 bytes comes while a macro definition is open.
        Kind:    wrong: no printer does this as it stands
        Change:  End the definition before it by ESC &f1X.
        Manual:  \"Macros\", Macro Control
  pclcheck check -f shop.fleet --notes d.pcl
      PASS pages=1 marks=16 d.pcl
      NOTE at=0 printer=front 101 OpenStart d.pcl
      what a job that passes leaves to the printer; each job is read twice, so none can be a pipe
  pclcheck check -f shop.fleet --exit-zero a.pcl b.pcl
      for a script that reads the lines: a status other than 0 says that a verdict is missing
  pclcheck check -f shop.fleet --unchecked pass a.pcl b.pcl
      a job that pclcheck cannot judge counts as 0: printers may take what it does not check, and
      what stands behind that place is not looked at
  pclcheck check -f shop.fleet --format html --pdf out a.pcl b.pcl
      the pages of each job as a document, too: out/a.pcl.pdf; each is read twice more
  pclcheck check -f shop.fleet --most-items 1000000 a.pcl b.pcl
      a job is given up whose macros would carry out more items, so that none holds a queue
  find . -name '*.pcl' -print0 | pclcheck check -f shop.fleet --files0-from -
      the jobs whose paths standard input has
  cat a.pcl | pclcheck check -f shop.fleet -
      the job on standard input

Output of check, one line:
  PASS pages=N marks=N         the job prints alike on every printer, however its panel was set
  FAIL at=N profile=N FINDING  the first thing that is wrong, by its number and its name;
                               'pclcheck explain NUMBER' tells what it means

  at=       the number of bytes before the command
  profile=  the number among the words of the printer for which it was found, from 1;
            0: the bytes alone tell it

With -p, -f, --allow-empty, --most-items, --each, --notes, --format, --explain, --exit-zero,
--unchecked or --pdf, a line for each job, in the order of the words:
  PASS pages=N marks=N JOB
  FAIL at=N printer=NAME FINDING JOB  NAME by its profile; no printer= where the bytes alone tell it
  ERROR read JOB: WHY                 the job could not be read; those behind it are checked
  ERROR memory JOB, ERROR turns JOB   memory ran out, or no end after 2^40 reads
  ERROR items JOB                     macros would carry out more items than --most-items allows

  With --notes, below a PASS, for the first printer:
  NOTE at=N printer=NAME NOTE JOB     by its number and its name; none changes the exit status

  With --each, printer=NAME stands in each line, and notes are for that printer. In JOB a byte that
  shows nothing and the backslash are \\x and two digits.

  --format words: a sentence for the line, of at most 1,200 bytes; of a long JOB it has the end, and
  letters of UTF-8 stand in it as they are. It tells who says no, as the line does not: a printer
  refuses the job, or the job is wrong, or pclcheck cannot judge it.
  --format json: an object with job and verdict; of a PASS pages and marks; of a FAIL at, page,
  profile, printer, code, finding, field, kind, command and explanation; of an ERROR error and
  cause. Below a PASS an object for each note with job, printer, at, code, note and explanation. In
  job each backslash is doubled; a JOB that is no UTF-8 text stands there as in a line. The page is
  the one that is open at the byte, from 1. Where pclcheck does not check a command, command_name is
  what HP's manual calls it, as in the sentence.

  Behind the page a sentence tells where the cursor stood before the item that fails, and an object
  has it as x_mm and y_mm: millimetres from the left and the upper edge of the page as it is read,
  rounded down, of a finding at an item of one step, and not where a panel decides it. So of 13
  NoFont both tell the font that is asked for and the face that has most parts equal, in an object
  as asked and nearest; the printer may take another. Of 14 NoGlyph they tell the character.

  --format html: one document that loads nothing from elsewhere, with a row for the line: the
  verdict, the sentence of --format words, kind, page and byte. A row opens to the explanation and
  the notes, where they are asked for; of a FAIL to the items near the byte, as list has them, and
  to the page that is open there, on the printer named; of a PASS to the first page, on the first
  printer. For these a job is read again. One that can be read only once has none of it.

  kind tells who says no:
  unchecked  pclcheck, which does not check this; printers may take it
  wrong      no printer does this as it stands
  printer    this printer, by its profile; another one may take it
  panel      nobody, but what prints depends on how the panel stands
  differs    nobody, but two printers of the fleet print it otherwise

On standard error, where there is no verdict:
  ERROR profile N LINE CAUSE  the text of printer N is refused at this line, or as a whole: 0;
                              CAUSE is Version, Unknown, Repeated, Range, Missing or NoGeometry
  ERROR read                  the job or a profile could not be read
  ERROR write, memory, turns  a write failed, memory ran out, or no end after 2^40 reads

  For many jobs: ERROR profile N PROFILE:LINE CAUSE, ERROR read profile PROFILE: WHY,
  ERROR read fleet FILE: WHY, ERROR fleet FILE: WHY and ERROR read names FILE: WHY. With --format
  words each is a sentence, which ends with (ERROR profile N CAUSE), (ERROR fleet) or (ERROR read).

  'pclcheck --format words list gone.pcl' tells of each command what stands in its way by a sentence.
  The variable PCLCHECK_FORMAT is line, words, json or html: the form where no --format comes.

A profile is a text whose first line is 'pclprofile 1', or 'pclprofile 2' where it also lists what
the panel may have for line termination (lineterm).

Samples, small made-up printers for trying out:
  @A  letter and A4, portrait and landscape, chosen at its panel
  @B  letter, portrait
  @C  as @B, but 6 or 8 lines an inch and one of two fonts, chosen at its panel
  @D  as @B, but its first font is narrower

Exit status, of many jobs the greatest of theirs:
  0  the job passes, or an explanation, help or the version was asked for
  1  the job fails (0 with --exit-zero, and with --unchecked pass where pclcheck cannot judge it)
  2  usage error, or a profile or a fleet that is refused, or a fleet that cannot be read
  3  a read or a write failed, memory ran out, no end after 2^40 reads, or too many items";

const CHECK_SHORT_HELP: &str = "Usage:
  pclcheck check JOB PROFILE..
      the verdict on a job for these printers, as a line
  pclcheck check -p PROFILE --format words JOB..
      on each of many jobs, as a sentence; -p comes once for each printer

What stands behind a FAIL is not judged.
@A to @D are profiles to try with. 'pclcheck check --help' tells all.";

/// The words of the command `check`.
const CHECK: &CommandRow = &CommandRow {
    name: "check",
    about: "Checks jobs for a fleet of printers, and writes a line for each: PASS or FAIL",
    words: &[
        WordRow {
            id: "JOB",
            need: Need::Unless(&["NAMES"]),
            count: Count::One,
            help: "The path of the print job; in a check of many jobs - is standard input",
        },
        WordRow {
            id: "PROFILE",
            need: Need::Unless(&["PRINTER", "FLEET"]),
            count: Count::Several("PROFILE|JOB"),
            help: "The printers: paths of profiles, or samples @A to @D; with -p or -f further \
                jobs",
        },
    ],
    options: MANY_OPTIONS,
};

/// The row of the command `check`.
pub(crate) fn check_row() -> &'static CommandRow {
    CHECK
}

/// What help says of the command `check`.
pub(crate) fn check_help() -> CommandHelp {
    CommandHelp {
        short: CHECK_SHORT_HELP,
        explanation: EXPLANATION,
    }
}

/// The request of the words behind `check`.
pub fn check_request<'a>(
    alloc: Global,
    given: &'a [Word],
    usual: Form,
    found: &ArgMatches<'a>,
) -> Result<Option<Request<'a>>, ChoiceFault<'a>>
    ensures { IfOk result (λ request. IfSome request NamesSome) }
{
    if asks_for_many(usual, found) {
        return Ok(read_many(alloc, given, usual, found)?.map(Request::CheckMany));
    }
    Ok(read_check(alloc, found)?)
}

/// What words ask for that ask for one job, or nothing where they name no printer.
fn read_check<'a>(alloc: Global, found: &ArgMatches<'a>) -> Result<Option<Request<'a>>, AllocError>
    ensures { IfOk result (λ request. IfSome request NamesSome) }
{
    let Some(job) = found.get_str("JOB") else {
        return Ok(None);
    };
    let profiles = texts_of(alloc, found, "PROFILE")?;
    if profiles.is_empty() {
        return Ok(None);
    }
    Ok(Some(Request::Check { job, profiles }))
}
