//! What is wrong with the whole of what the good lines of a text give.
ghost use Rattle.std.specs.Prelude.{◌≡◌, ◌++◌, IfOk, OnOk, flat_map};
ghost use Rattle.device_profile.specs.Printer.{are_sides};
ghost use Rattle.profile_lint.specs.Whole.{choice_faults, faults_in, faults_of_size};
ghost use Rattle.profile_lint.specs.Whole.{faults_of_whole, is_settled, is_ungiven};
ghost use Rattle.profile_lint.specs.Whole.{orientations_of, page_faults, pair_faults, sizes_of};
ghost use Rattle.profile_lint.specs.Whole.{ungiven_fault, unheld, unless, unpaired, where_settled};
ghost use Rattle.profile_lint.specs.Whole.{with_new};

use crate::fault::{TextFault, has_faulty_line};
use device_profile::{Draft, Field, Geometry, Key, has_face, has_orientation, has_row, has_size};
use std::alloc::{AllocError, Allocator};

/// What is wrong with the whole of a draft, beside what the faulty lines of its text may have
/// caused: first the keys that are not given, then the pages, then the faces, the trays and the
/// sides.
pub(crate) fn faults_of_whole<A: Allocator + Copy>(
    alloc: A,
    draft: &Draft<A>,
    on_lines: &[TextFault],
) -> Result<Vec<TextFault, A>, AllocError>
    ensures { IfOk result (λ faults. faults.items ≡ faults_of_whole draft.now on_lines.now) }
{
    let mut faults = Vec::new(alloc);
    push_faults_of_whole(&mut faults, alloc, draft, on_lines)?;
    Ok(faults)
}

/// Appends what is wrong with the whole.
fn push_faults_of_whole<A: Allocator + Copy>(
    faults: &mut Vec<TextFault, A>,
    alloc: A,
    draft: &Draft<A>,
    on_lines: &[TextFault],
) -> Result<(), AllocError>
    ensures { OnOk result
        (faults.new.items ≡ faults.old.items ++ faults_of_whole draft.now on_lines.now) }
{
    push_ungiven_faults(faults, draft, on_lines, &Key::ALL)?;
    push_where_settled(faults, alloc, draft, on_lines, Key::Page)?;
    push_where_settled(faults, alloc, draft, on_lines, Key::Face)?;
    push_where_settled(faults, alloc, draft, on_lines, Key::Trays)?;
    push_where_settled(faults, alloc, draft, on_lines, Key::Duplex)
}

/// Whether no line has this key, not even a faulty one.
fn is_ungiven<A: Allocator + Copy>(draft: &Draft<A>, on_lines: &[TextFault], key: Key) -> bool
    ensures { result ≡ is_ungiven draft.now on_lines.now key }
{
    !draft.has(key) && !has_faulty_line(on_lines, key)
}

/// Whether the lines of this key give all that they were to give.
fn is_settled<A: Allocator + Copy>(draft: &Draft<A>, on_lines: &[TextFault], key: Key) -> bool
    ensures { result ≡ is_settled draft.now on_lines.now key }
{
    draft.has(key) && !has_faulty_line(on_lines, key)
}

/// Appends those of these keys that no line has.
fn push_ungiven_faults<A: Allocator + Copy>(
    faults: &mut Vec<TextFault, A>,
    draft: &Draft<A>,
    on_lines: &[TextFault],
    keys: &[Key],
) -> Result<(), AllocError>
    ensures { OnOk result (faults.new.items ≡
        faults.old.items ++ flat_map (ungiven_fault draft.now on_lines.now) keys.now) }
{
    for key in keys {
        push_ungiven_fault(faults, draft, on_lines, *key)?;
    }
    Ok(())
}

/// Appends a key, where no line has it.
fn push_ungiven_fault<A: Allocator + Copy>(
    faults: &mut Vec<TextFault, A>,
    draft: &Draft<A>,
    on_lines: &[TextFault],
    key: Key,
) -> Result<(), AllocError>
    ensures { OnOk result
        (faults.new.items ≡ faults.old.items ++ ungiven_fault draft.now on_lines.now key) }
{
    if is_ungiven(draft, on_lines, key) {
        faults.push(TextFault::Ungiven(key))?;
    }
    Ok(())
}

/// Appends what is wrong with the whole in what the lines of this key tell, where they give all.
fn push_where_settled<A: Allocator + Copy>(
    faults: &mut Vec<TextFault, A>,
    alloc: A,
    draft: &Draft<A>,
    on_lines: &[TextFault],
    key: Key,
) -> Result<(), AllocError>
    ensures { OnOk result (faults.new.items ≡
        faults.old.items ++ where_settled draft.now on_lines.now key) }
{
    if is_settled(draft, on_lines, key) {
        push_faults_in(faults, alloc, draft, key)
    } else {
        Ok(())
    }
}

/// Appends what is wrong with the whole in what the lines of this key tell.
fn push_faults_in<A: Allocator + Copy>(
    faults: &mut Vec<TextFault, A>,
    alloc: A,
    draft: &Draft<A>,
    key: Key,
) -> Result<(), AllocError>
    ensures { OnOk result (faults.new.items ≡ faults.old.items ++ faults_in draft.now key) }
{
    match key {
        Key::Page => push_page_faults(faults, alloc, draft),
        Key::Face => push_choice_faults(faults, draft, Field::Font),
        Key::Trays => push_choice_faults(faults, draft, Field::Tray),
        Key::Duplex => push_choice_faults(faults, draft, Field::Sides),
        _ => Ok(()),
    }
}

/// Appends the sizes and the orientations of the panel, and the pairs of pages, that no page has.
fn push_page_faults<A: Allocator + Copy>(
    faults: &mut Vec<TextFault, A>,
    alloc: A,
    draft: &Draft<A>,
) -> Result<(), AllocError>
    ensures { OnOk result (faults.new.items ≡ faults.old.items ++ page_faults draft.now) }
{
    push_choice_faults(faults, draft, Field::Size)?;
    push_choice_faults(faults, draft, Field::Orientation)?;
    push_pair_faults(faults, alloc, draft.geometries())
}

/// Appends what the panel may have in a field and the device has not.
fn push_choice_faults<A: Allocator + Copy>(
    faults: &mut Vec<TextFault, A>,
    draft: &Draft<A>,
    field: Field,
) -> Result<(), AllocError>
    ensures { OnOk result
        (faults.new.items ≡ faults.old.items ++ choice_faults draft.now field) }
{
    push_each_unheld(faults, draft, field, draft.choice(field))
}

/// Appends those of these values of a field that the device has not.
fn push_each_unheld<A: Allocator + Copy>(
    faults: &mut Vec<TextFault, A>,
    draft: &Draft<A>,
    field: Field,
    values: &[u32],
) -> Result<(), AllocError>
    ensures { OnOk result (faults.new.items ≡
        faults.old.items ++ flat_map (unheld draft.now field) values.now) }
{
    for value in values {
        push_unheld(faults, draft, field, *value)?;
    }
    Ok(())
}

/// Appends a value of a field, where the device has it not.
fn push_unheld<A: Allocator + Copy>(
    faults: &mut Vec<TextFault, A>,
    draft: &Draft<A>,
    field: Field,
    value: u32,
) -> Result<(), AllocError>
    ensures { OnOk result
        (faults.new.items ≡ faults.old.items ++ unheld draft.now field value) }
{
    match field {
        Field::Size => {
            let is_held = has_size(draft.geometries(), value);
            push_unless(faults, is_held, TextFault::NoPageOfSize(value))
        }
        Field::Orientation => {
            let is_held = has_orientation(draft.geometries(), value);
            push_unless(faults, is_held, TextFault::NoPageInOrientation(value))
        }
        Field::Font => {
            let is_held = has_face(draft.faces(), u64::from(value));
            push_unless(faults, is_held, TextFault::NoFace(value))
        }
        Field::Tray => {
            let is_held = draft.device_trays().contains(&value);
            push_unless(faults, is_held, TextFault::NoTray(value))
        }
        Field::Sides => {
            let is_held = are_sides(draft.is_duplex(), value);
            push_unless(faults, is_held, TextFault::NoSides(value))
        }
        Field::Vmi | Field::Copies | Field::LineTerm => Ok(()),
    }
}

/// Appends a fault, unless this holds.
fn push_unless<A: Allocator>(
    faults: &mut Vec<TextFault, A>,
    holds: bool,
    fault: TextFault,
) -> Result<(), AllocError>
    ensures { OnOk result (faults.new.items ≡ faults.old.items ++ unless holds fault) }
{
    if !holds {
        faults.push(fault)?;
    }
    Ok(())
}

/// Appends the pairs of a size and an orientation of pages that no page has.
fn push_pair_faults<A: Allocator + Copy>(
    faults: &mut Vec<TextFault, A>,
    alloc: A,
    rows: &[Geometry],
) -> Result<(), AllocError>
    ensures { OnOk result (faults.new.items ≡ faults.old.items ++ pair_faults rows.now) }
{
    let sizes = sizes_of(alloc, rows)?;
    let orientations = orientations_of(alloc, rows)?;
    push_each_unpaired(faults, rows, &sizes, &orientations)
}

/// Appends the pairs of these sizes and orientations that no page has.
fn push_each_unpaired<A: Allocator>(
    faults: &mut Vec<TextFault, A>,
    rows: &[Geometry],
    sizes: &[u32],
    orientations: &[u32],
) -> Result<(), AllocError>
    ensures { OnOk result (faults.new.items ≡
        faults.old.items ++ flat_map (faults_of_size rows.now orientations.now) sizes.now) }
{
    for size in sizes {
        push_faults_of_size(faults, rows, orientations, *size)?;
    }
    Ok(())
}

/// Appends those of these orientations in which a size has no page.
fn push_faults_of_size<A: Allocator>(
    faults: &mut Vec<TextFault, A>,
    rows: &[Geometry],
    orientations: &[u32],
    size: u32,
) -> Result<(), AllocError>
    ensures { OnOk result (faults.new.items ≡
        faults.old.items ++ faults_of_size rows.now orientations.now size) }
{
    for orientation in orientations {
        push_unpaired(faults, rows, size, *orientation)?;
    }
    Ok(())
}

/// Appends a size and an orientation, where no page has both.
fn push_unpaired<A: Allocator>(
    faults: &mut Vec<TextFault, A>,
    rows: &[Geometry],
    size: u32,
    orientation: u32,
) -> Result<(), AllocError>
    ensures { OnOk result
        (faults.new.items ≡ faults.old.items ++ unpaired rows.now size orientation) }
{
    let is_paired = has_row(rows, u64::from(size), u64::from(orientation));
    push_unless(faults, is_paired, TextFault::NoPair { size, orientation })
}

/// The sizes of pages, each once.
fn sizes_of<A: Allocator>(alloc: A, rows: &[Geometry]) -> Result<Vec<u32, A>, AllocError>
    ensures { IfOk result (λ sizes. sizes.items ≡ sizes_of rows.now) }
{
    let mut sizes = Vec::new(alloc);
    for row in rows {
        push_new(&mut sizes, row.size)?;
    }
    Ok(sizes)
}

/// The orientations of pages, each once.
fn orientations_of<A: Allocator>(alloc: A, rows: &[Geometry]) -> Result<Vec<u32, A>, AllocError>
    ensures { IfOk result (λ orientations. orientations.items ≡ orientations_of rows.now) }
{
    let mut orientations = Vec::new(alloc);
    for row in rows {
        push_new(&mut orientations, row.orientation)?;
    }
    Ok(orientations)
}

/// Appends a number, unless it is there.
fn push_new<A: Allocator>(numbers: &mut Vec<u32, A>, number: u32) -> Result<(), AllocError>
    ensures { OnOk result (numbers.new.items ≡ with_new numbers.old.items number) }
{
    if numbers.contains(&number) {
        return Ok(());
    }
    numbers.push(number)?;
    Ok(())
}

/// Whether these sides are one, or both where the device has duplex.
fn are_sides(has_duplex: bool, sides: u32) -> bool
    ensures { result ≡ are_sides has_duplex sides }
{
    sides == 0 || has_duplex && (sides == 1 || sides == 2)
}
