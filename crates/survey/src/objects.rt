//! The survey as lines of JSON.

ghost use Rattle.std.specs.Prelude.{◌≡◌, ◌++◌, IfOk, OnOk, flat_map, map};
ghost use Rattle.many_jobs.specs.JobObjects.{with_command_name};
ghost use Rattle.many_jobs.specs.JsonObject.{members_of};
ghost use Rattle.survey.specs.Names.{spelled_name};
ghost use Rattle.survey.specs.Objects.{
  last_members,
  last_object,
  object_line,
  row_members,
  row_object,
  rows_objects,
  with_first,
  with_refusal,
};

use crate::lines::{name_at, push_spelled};
use crate::names::spelled_name;
use crate::refusal::{Refusal, Spelled};
use crate::table::{Row, Table};
use line_words::bare_name;
use many_jobs::Object;
use std::alloc::{AllocError, Allocator, Global};
use verdict::Reason;

/// Appends an object for each row, and a last one that says what this is.
pub(crate) fn push_objects<A: Allocator, B: Allocator>(
    memory: Global,
    text: &mut Vec<u8, A>,
    names: &[&str],
    table: &Table<B>,
) -> Result<(), AllocError>
    ensures { OnOk result (text.new.items ≡ text.old.items
        ++ rows_objects (map (λ name. name.now) names.now) table.now) }
{
    push_rows(memory, text, names, table.rows())?;
    let (jobs, rows) = (names.len() as u64, table.rows().len() as u64);
    push_last_object(memory, text, jobs, rows, table.others())
}

/// Appends an object for each row.
fn push_rows<A: Allocator>(
    memory: Global,
    text: &mut Vec<u8, A>,
    names: &[&str],
    rows: &[Row],
) -> Result<(), AllocError>
    ensures { OnOk result (text.new.items ≡ text.old.items
        ++ flat_map (row_object (map (λ name. name.now) names.now)) rows.now) }
{
    for row in rows {
        push_row_object(memory, text, names, row)?;
    }
    Ok(())
}

/// Appends the object of a row.
fn push_row_object<A: Allocator>(
    memory: Global,
    text: &mut Vec<u8, A>,
    names: &[&str],
    row: &Row,
) -> Result<(), AllocError>
    ensures { OnOk result (text.new.items ≡ text.old.items
        ++ row_object (map (λ name. name.now) names.now) row.now) }
{
    let object = object_of(memory, names, row)?;
    push_object(text, object)
}

/// What is told of a row.
fn object_of(memory: Global, names: &[&str], row: &Row) -> Result<Object, AllocError>
    ensures { IfOk result (λ object. members_of object
        ≡ row_members (map (λ name. name.now) names.now) row.now) }
{
    let mut object = Object::new(memory);
    put_refusal(memory, &mut object, row.first)?;
    object.put_number("times", row.times)?;
    object.put_number("jobs", row.jobs)?;
    put_first(&mut object, row.first.place, name_at(names, row.first_job))?;
    Ok(object)
}

/// Puts what is refused, and why.
fn put_refusal(memory: Global, object: &mut Object, refusal: Refusal) -> Result<(), AllocError>
    ensures { OnOk result (members_of object.new ≡ with_refusal refusal (members_of object.old)) }
{
    let mut words = Vec::new(memory);
    push_spelled(&mut words, refusal.spelled)?;
    object.put_words("refused", words.as_slice())?;
    put_command_name(object, refusal.spelled)?;
    let reason = Reason::Fault(refusal.cause);
    object.put_number("code", u64::from(reason.number()))?;
    object.put_words("finding", bare_name(reason))
}

/// Puts what HP's manual calls it, where it has a name for it.
fn put_command_name(object: &mut Object, spelled: Spelled) -> Result<(), AllocError>
    ensures { OnOk result (members_of object.new
        ≡ with_command_name (spelled_name spelled) (members_of object.old)) }
{
    let name = spelled_name(spelled);
    if name.is_empty() {
        return Ok(());
    }
    object.put_words("command_name", name.as_bytes())
}

/// Puts where it stands first.
fn put_first(object: &mut Object, place: u64, name: &str) -> Result<(), AllocError>
    ensures { OnOk result (members_of object.new
        ≡ with_first place name.now (members_of object.old)) }
{
    object.put_name("job", name.as_bytes())?;
    object.put_number("at", place)
}

/// Appends the object of all, which has no verdict.
fn push_last_object<A: Allocator>(
    memory: Global,
    text: &mut Vec<u8, A>,
    jobs: u64,
    rows: u64,
    others: u64,
) -> Result<(), AllocError>
    ensures { OnOk result (text.new.items ≡ text.old.items ++ last_object jobs rows others) }
{
    let object = last_object_of(memory, jobs, rows, others)?;
    push_object(text, object)
}

fn last_object_of(memory: Global, jobs: u64, rows: u64, others: u64) -> Result<Object, AllocError>
    ensures { IfOk result (λ object. members_of object ≡ last_members jobs rows others) }
{
    let mut object = Object::new(memory);
    object.put_text("verdict", "NONE")?;
    object.put_number("jobs", jobs)?;
    object.put_number("refused", rows)?;
    object.put_number("others", others)?;
    Ok(object)
}

/// Appends an object on a line of its own.
fn push_object<A: Allocator>(text: &mut Vec<u8, A>, object: Object) -> Result<(), AllocError>
    ensures { OnOk result (text.new.items ≡ text.old.items
        ++ object_line (members_of object)) }
{
    let line = object.into_text()?;
    text.extend_from_slice(line.as_bytes())?;
    text.push(b'\n')?;
    Ok(())
}
