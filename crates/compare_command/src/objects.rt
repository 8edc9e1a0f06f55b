//! The objects of JSON that tell what comes of two jobs.

ghost use Rattle.std.specs.Prelude.{◌≡◌, ◌++◌, IfOk, OnOk};
ghost use Rattle.many_jobs.specs.JsonObject.{members_of};
ghost use Rattle.compare_command.specs.Objects.{
  difference_members,
  difference_object,
  more_members,
  more_object,
  object_line,
  same_members,
  same_object,
  with_names,
  with_spot,
};

use crate::lines::{change_words, mark_of};
use many_jobs::Object;
use page_comparison::PageDifference;
use sinks::Counts;
use std::alloc::{AllocError, Global};

/// Appends the object on jobs of these names that print the same.
pub(crate) fn push_same_object(
    memory: Global,
    text: &mut Vec<u8>,
    old_name: &str,
    new_name: &str,
    counts: Counts,
) -> Result<(), AllocError>
    ensures { OnOk result (text.new.items ≡ text.old.items
        ++ same_object old_name.now new_name.now counts) }
{
    let object = same_object_of(memory, old_name, new_name, counts)?;
    push_object(text, object)
}

fn same_object_of(
    memory: Global,
    old_name: &str,
    new_name: &str,
    counts: Counts,
) -> Result<Object, AllocError>
    ensures { IfOk result (λ object. members_of object
        ≡ same_members old_name.now new_name.now counts) }
{
    let mut object = Object::new(memory);
    put_names(&mut object, old_name, new_name)?;
    object.put_text("verdict", "SAME")?;
    object.put_number("pages", counts.pages)?;
    object.put_number("marks", counts.marks)?;
    Ok(object)
}

/// Appends the object on jobs of these names that differ so on the printer of this one.
pub(crate) fn push_difference_object(
    memory: Global,
    text: &mut Vec<u8>,
    old_name: &str,
    new_name: &str,
    printer: &[u8],
    difference: PageDifference,
) -> Result<(), AllocError>
    ensures { OnOk result (text.new.items ≡ text.old.items
        ++ difference_object old_name.now new_name.now printer.now difference) }
{
    let object = difference_object_of(memory, old_name, new_name, printer, difference)?;
    push_object(text, object)
}

fn difference_object_of(
    memory: Global,
    old_name: &str,
    new_name: &str,
    printer: &[u8],
    difference: PageDifference,
) -> Result<Object, AllocError>
    ensures { IfOk result (λ object. members_of object
        ≡ difference_members old_name.now new_name.now printer.now difference) }
{
    let mut object = Object::new(memory);
    put_names(&mut object, old_name, new_name)?;
    object.put_text("verdict", "DIFFERS")?;
    put_spot(&mut object, difference)?;
    object.put_name("printer", printer)?;
    object.put_words("change", change_words(difference.change))?;
    Ok(object)
}

/// Appends the object on differences of jobs of these names that are left out, where so many pages
/// differ.
pub(crate) fn push_more_object(
    memory: Global,
    text: &mut Vec<u8>,
    old_name: &str,
    new_name: &str,
    pages: u64,
) -> Result<(), AllocError>
    ensures { OnOk result (text.new.items ≡ text.old.items
        ++ more_object old_name.now new_name.now pages) }
{
    let object = more_object_of(memory, old_name, new_name, pages)?;
    push_object(text, object)
}

fn more_object_of(
    memory: Global,
    old_name: &str,
    new_name: &str,
    pages: u64,
) -> Result<Object, AllocError>
    ensures { IfOk result (λ object. members_of object
        ≡ more_members old_name.now new_name.now pages) }
{
    let mut object = Object::new(memory);
    put_names(&mut object, old_name, new_name)?;
    object.put_text("verdict", "MORE")?;
    object.put_number("pages", pages)?;
    Ok(object)
}

/// Puts the names of both jobs.
fn put_names(object: &mut Object, old_name: &str, new_name: &str) -> Result<(), AllocError>
    ensures { OnOk result (members_of object.new
        ≡ with_names old_name.now new_name.now (members_of object.old)) }
{
    object.put_name("old", old_name.as_bytes())?;
    object.put_name("new", new_name.as_bytes())
}

/// Puts where they differ.
fn put_spot(object: &mut Object, difference: PageDifference) -> Result<(), AllocError>
    ensures { OnOk result (members_of object.new ≡ with_spot difference (members_of object.old)) }
{
    object.put_number("page", difference.page)?;
    object.put_number("mark", mark_of(difference))?;
    object.put_number("old_at", difference.old_place)?;
    object.put_number("new_at", difference.new_place)
}

/// Appends an object on a line of its own.
fn push_object(text: &mut Vec<u8>, object: Object) -> Result<(), AllocError>
    ensures { OnOk result (text.new.items ≡ text.old.items
        ++ object_line (members_of object)) }
{
    let line = object.into_text()?;
    text.extend_from_slice(line.as_bytes())?;
    text.push(b'\n')?;
    Ok(())
}
