//! The text of a survey, for people.

ghost use Rattle.std.specs.Prelude.{◌≡◌, ◌++◌, OnOk, flat_map, map};
ghost use Rattle.survey.specs.Lines.{
  cause_words,
  counts_words,
  fault_words,
  first_words,
  jobs_words,
  last_line,
  line_words,
  name_at,
  number_words,
  others_words,
  row_back,
  row_front,
  row_line,
  rows_text,
  spelled_words,
  surveyed_words,
  times_words,
  what_words,
};

use crate::named_line::line_at;
use crate::names::push_called;
use crate::refusal::{Refusal, Spelled};
use crate::table::{Row, Table};
use line_words::{bare_name, push_named};
use shown_bytes::{hex_byte, push_number, push_shown_text};
use std::alloc::{AllocError, Allocator};
use verdict::Reason;

/// Appends a line for each row, and a last one that says what this is.
pub(crate) fn push_lines<A: Allocator, B: Allocator>(
    text: &mut Vec<u8, A>,
    names: &[&str],
    table: &Table<B>,
) -> Result<(), AllocError>
    ensures { OnOk result (text.new.items ≡ text.old.items
        ++ rows_text (map (λ name. name.now) names.now) table.now) }
{
    push_rows(text, names, table.rows())?;
    push_last_line(
        text,
        names.len() as u64,
        table.rows().len() as u64,
        table.others(),
    )
}

/// Appends a line for each row.
fn push_rows<A: Allocator>(
    text: &mut Vec<u8, A>,
    names: &[&str],
    rows: &[Row],
) -> Result<(), AllocError>
    ensures { OnOk result (text.new.items ≡ text.old.items
        ++ flat_map (row_line (map (λ name. name.now) names.now)) rows.now) }
{
    for row in rows {
        push_row(text, names, row)?;
    }
    Ok(())
}

/// Appends the line of a row: how often something is refused, in how many of the jobs with these
/// names, what it is, where it stands first, and why.
#[tactic(auto, unfolding(crate::specs::Lines::row_line))]
fn push_row<A: Allocator>(
    text: &mut Vec<u8, A>,
    names: &[&str],
    row: &Row,
) -> Result<(), AllocError>
    ensures { OnOk result (text.new.items ≡ text.old.items
        ++ row_line (map (λ name. name.now) names.now) row.now) }
{
    push_front(text, row, names.len() as u64)?;
    push_back(text, names, row)
}

/// Appends how often, in how many of so many jobs, and what.
#[tactic(auto, unfolding(crate::specs::Lines::row_front))]
fn push_front<A: Allocator>(text: &mut Vec<u8, A>, row: &Row, jobs: u64) -> Result<(), AllocError>
    ensures { OnOk result (text.new.items ≡ text.old.items ++ row_front row.now jobs) }
{
    push_counts(text, row, jobs)?;
    push_what(text, row.first.spelled)
}

/// Appends where it stands first, and why it is refused.
#[tactic(auto, unfolding(crate::specs::Lines::row_back))]
fn push_back<A: Allocator>(
    text: &mut Vec<u8, A>,
    names: &[&str],
    row: &Row,
) -> Result<(), AllocError>
    ensures { OnOk result (text.new.items ≡ text.old.items
        ++ row_back (map (λ name. name.now) names.now) row.now) }
{
    push_first(text, row.first.place, name_at(names, row.first_job))?;
    push_cause(text, row.first)
}

/// Appends how often, and in how many of so many jobs.
#[tactic(auto, unfolding(crate::specs::Lines::counts_words))]
fn push_counts<A: Allocator>(text: &mut Vec<u8, A>, row: &Row, jobs: u64) -> Result<(), AllocError>
    ensures { OnOk result (text.new.items ≡ text.old.items ++ counts_words row.now jobs) }
{
    push_times(text, row)?;
    push_jobs(text, jobs)
}

#[tactic(auto, unfolding(crate::specs::Lines::times_words))]
fn push_times<A: Allocator>(text: &mut Vec<u8, A>, row: &Row) -> Result<(), AllocError>
    ensures { OnOk result (text.new.items ≡ text.old.items ++ times_words row.now) }
{
    push_number(text, row.times)?;
    push_named(text, b"x in ", row.jobs)
}

#[tactic(auto, unfolding(crate::specs::Lines::jobs_words))]
fn push_jobs<A: Allocator>(text: &mut Vec<u8, A>, jobs: u64) -> Result<(), AllocError>
    ensures { OnOk result (text.new.items ≡ text.old.items ++ jobs_words jobs) }
{
    push_named(text, b" of ", jobs)?;
    text.extend_from_slice(b" jobs: ")
}

/// Appends how something is spelled, and what the manual calls it, where it has a name for it.
#[tactic(auto, unfolding(crate::specs::Lines::what_words))]
fn push_what<A: Allocator>(text: &mut Vec<u8, A>, spelled: Spelled) -> Result<(), AllocError>
    ensures { OnOk result (text.new.items ≡ text.old.items ++ what_words spelled) }
{
    push_spelled(text, spelled)?;
    push_called(text, spelled)
}

/// Appends how bytes are spelled that are refused: commands as the manual has them, with `#` for
/// the value field.
pub(crate) fn push_spelled<A: Allocator>(
    text: &mut Vec<u8, A>,
    spelled: Spelled,
) -> Result<(), AllocError>
    ensures { OnOk result (text.new.items ≡ text.old.items ++ spelled_words spelled) }
{
    match spelled {
        Spelled::Control(byte) => {
            text.push(b'x')?;
            text.extend_from_slice(&hex_byte(byte))
        }
        Spelled::Sequence(character) => {
            text.extend_from_slice(&[b'E', b'S', b'C', b' ', character])
        }
        Spelled::Grouped(introducer, group, letter) => {
            text.extend_from_slice(b"ESC ")?;
            text.extend_from_slice(&[introducer, group, b'#', letter])
        }
        Spelled::Ungrouped(introducer, letter) => {
            text.extend_from_slice(b"ESC ")?;
            text.extend_from_slice(&[introducer, b'#', letter])
        }
        Spelled::Unended => text.extend_from_slice(b"ESC without an end"),
        Spelled::Instruction(first, second) => text.extend_from_slice(&[first, second]),
        Spelled::FrameBytes => text.extend_from_slice(b"bytes in a frame"),
        Spelled::Line(number) => push_line(text, line_at(number)),
        Spelled::End => text.extend_from_slice(b"the end of the job"),
    }
}

/// Appends a line of the job language by its words, where it has a name.
fn push_line<A: Allocator>(text: &mut Vec<u8, A>, line: &str) -> Result<(), AllocError>
    ensures { OnOk result (text.new.items ≡ text.old.items ++ line_words line.now) }
{
    if line.is_empty() {
        return text.extend_from_slice(b"a line of PJL");
    }
    text.push(b'@')?;
    text.extend_from_slice(line.as_bytes())
}

/// Appends where something stands first.
#[tactic(auto, unfolding(crate::specs::Lines::first_words))]
fn push_first<A: Allocator>(text: &mut Vec<u8, A>, place: u64, name: &str) -> Result<(), AllocError>
    ensures { OnOk result (text.new.items ≡ text.old.items ++ first_words place name.now) }
{
    push_named(text, b", first at byte ", place)?;
    text.extend_from_slice(b" of ")?;
    push_shown_text(text, name.as_bytes())
}

/// Appends why something is refused, by the number and the name of the fault.
#[tactic(auto, unfolding(crate::specs::Lines::cause_words))]
fn push_cause<A: Allocator>(text: &mut Vec<u8, A>, refusal: Refusal) -> Result<(), AllocError>
    ensures { OnOk result (text.new.items ≡ text.old.items ++ cause_words refusal) }
{
    push_fault_number(text, refusal)?;
    push_fault_name(text, refusal)
}

#[tactic(auto, unfolding(crate::specs::Lines::number_words))]
fn push_fault_number<A: Allocator>(
    text: &mut Vec<u8, A>,
    refusal: Refusal,
) -> Result<(), AllocError>
    ensures { OnOk result (text.new.items ≡ text.old.items ++ number_words refusal) }
{
    push_named(
        text,
        b" (",
        u64::from(Reason::Fault(refusal.cause).number()),
    )?;
    text.extend_from_slice(b" ")
}

#[tactic(auto, unfolding(crate::specs::Lines::fault_words))]
fn push_fault_name<A: Allocator>(text: &mut Vec<u8, A>, refusal: Refusal) -> Result<(), AllocError>
    ensures { OnOk result (text.new.items ≡ text.old.items ++ fault_words refusal) }
{
    text.extend_from_slice(bare_name(Reason::Fault(refusal.cause)))?;
    text.extend_from_slice(b")\n")
}

/// Appends how many jobs were surveyed, how much is refused, and that this is no verdict.
#[tactic(auto, unfolding(crate::specs::Lines::last_line))]
fn push_last_line<A: Allocator>(
    text: &mut Vec<u8, A>,
    jobs: u64,
    rows: u64,
    others: u64,
) -> Result<(), AllocError>
    ensures { OnOk result (text.new.items ≡ text.old.items ++ last_line jobs rows others) }
{
    push_surveyed(text, jobs, rows)?;
    push_others(text, others)
}

#[tactic(auto, unfolding(crate::specs::Lines::surveyed_words))]
fn push_surveyed<A: Allocator>(
    text: &mut Vec<u8, A>,
    jobs: u64,
    rows: u64,
) -> Result<(), AllocError>
    ensures { OnOk result (text.new.items ≡ text.old.items ++ surveyed_words jobs rows) }
{
    push_named(text, b"surveyed: jobs=", jobs)?;
    push_named(text, b" refused=", rows)
}

#[tactic(auto, unfolding(crate::specs::Lines::others_words))]
fn push_others<A: Allocator>(text: &mut Vec<u8, A>, others: u64) -> Result<(), AllocError>
    ensures { OnOk result (text.new.items ≡ text.old.items ++ others_words others) }
{
    push_named(text, b" others=", others)?;
    text.extend_from_slice(b"; this is no verdict, check gives one\n")
}

/// The name of the job of a number, from 0.
pub(crate) fn name_at<'n>(names: &[&'n str], number: u64) -> &'n str
    ensures { result.now ≡ name_at (map (λ name. name.now) names.now) number }
{
    match names.get(number as usize) {
        Some(name) => name,
        None => "",
    }
}
