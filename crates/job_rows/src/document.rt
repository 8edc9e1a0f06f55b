//! How the document begins and ends.
ghost use Rattle.std.specs.Prelude.{◌≡◌, ◌++◌, OnOk, map};
ghost use Rattle.job_rows.specs.Document.{document_end, document_start, fleet_item, fleet_part};
ghost use Rattle.job_rows.specs.Document.{before_rows, document_head};

use crate::escapes::push_html;
use crate::page_parts::{FOOT, HEAD, ROWS_START};
use std::alloc::{AllocError, Allocator};

/// Appends what stands before all rows, with the names of the printers.
pub fn push_document_start<A: Allocator>(
    text: &mut Vec<u8, A>,
    names: &[Vec<u8, A>],
) -> Result<(), AllocError>
    ensures { OnOk result (text.new.items ≡ text.old.items ++
        document_start (map (λ name. name.items) names.now)) }
{
    push_head(text)?;
    push_fleet(text, names)?;
    push_before_rows(text)
}

/// Appends what stands before the names of the printers.
#[tactic(auto, unfolding(crate::specs::Document::document_head))]
fn push_head<A: Allocator>(text: &mut Vec<u8, A>) -> Result<(), AllocError>
    ensures { OnOk result (text.new.items ≡ text.old.items ++ document_head) }
{
    text.extend_from_slice(HEAD.as_bytes())
}

/// Appends what stands between those and the rows.
#[tactic(auto, unfolding(crate::specs::Document::before_rows))]
fn push_before_rows<A: Allocator>(text: &mut Vec<u8, A>) -> Result<(), AllocError>
    ensures { OnOk result (text.new.items ≡ text.old.items ++ before_rows) }
{
    text.extend_from_slice(ROWS_START.as_bytes())
}

/// Appends the printers by their names.
fn push_fleet<A: Allocator>(text: &mut Vec<u8, A>, names: &[Vec<u8, A>]) -> Result<(), AllocError>
    ensures { OnOk result (text.new.items ≡ text.old.items ++
        fleet_part (map (λ name. name.items) names.now)) }
{
    for name in names {
        push_printer(text, name.as_slice())?;
    }
    Ok(())
}

/// Appends a printer.
#[tactic(auto, unfolding(crate::specs::Document::fleet_item))]
fn push_printer<A: Allocator>(text: &mut Vec<u8, A>, name: &[u8]) -> Result<(), AllocError>
    ensures { OnOk result (text.new.items ≡ text.old.items ++ fleet_item name.now) }
{
    text.extend_from_slice(b"<li>")?;
    push_html(text, name)?;
    text.extend_from_slice(b"</li>\n")
}

/// Appends what stands behind all rows.
#[tactic(auto, unfolding(crate::specs::Document::document_end))]
pub fn push_document_end<A: Allocator>(text: &mut Vec<u8, A>) -> Result<(), AllocError>
    ensures { OnOk result (text.new.items ≡ text.old.items ++ document_end) }
{
    text.extend_from_slice(FOOT.as_bytes())
}
