//! The sentences that tell what comes of two jobs.

ghost use Rattle.std.specs.Prelude.{◌≡◌, ◌++◌, OnOk, option_map};
ghost use Rattle.compare_command.specs.Sentences.{
  change_phrase,
  counts_part,
  difference_phrase,
  difference_sentence,
  more_part,
  more_sentence,
  new_phrase,
  old_phrase,
  places_phrase,
  printer_phrase,
  same_sentence,
  spot_phrase,
  unheld_cause,
  unheld_sentence,
  what_phrase,
};

use crate::lines::{mark_of, push_counts};
use job_reports::{push_cause_phrase, push_named_first};
use line_words::push_named;
use page_comparison::{PageChange, PageDifference};
use shown_bytes::push_shown_text;
use sinks::Counts;
use std::alloc::{AllocError, Allocator};

/// Appends the sentence on jobs of these names that print the same.
#[tactic(auto, unfolding(crate::specs::Sentences::same_sentence))]
pub(crate) fn push_same_sentence<A: Allocator + Copy>(
    alloc: A,
    text: &mut Vec<u8, A>,
    old_name: &str,
    new_name: &str,
    counts: Counts,
) -> Result<(), AllocError>
    ensures { OnOk result (text.new.items ≡ text.old.items
        ++ same_sentence old_name.now new_name.now counts) }
{
    push_named_first(alloc, text, new_name.as_bytes())?;
    text.extend_from_slice(b"prints the same as ")?;
    push_shown_text(text, old_name.as_bytes())?;
    push_counts_part(text, counts)?;
    Ok(())
}

#[tactic(auto, unfolding(crate::specs::Sentences::counts_part))]
fn push_counts_part<A: Allocator>(text: &mut Vec<u8, A>, counts: Counts) -> Result<(), AllocError>
    ensures { OnOk result (text.new.items ≡ text.old.items ++ counts_part counts) }
{
    text.extend_from_slice(b" (")?;
    push_counts(text, counts)?;
    text.extend_from_slice(b")\n")?;
    Ok(())
}

/// Appends the sentence on jobs of these names that differ so on the printer of this one.
#[tactic(auto, unfolding(crate::specs::Sentences::difference_sentence))]
pub(crate) fn push_difference_sentence<A: Allocator + Copy>(
    alloc: A,
    text: &mut Vec<u8, A>,
    old_name: &str,
    new_name: &str,
    printer: &[u8],
    difference: PageDifference,
) -> Result<(), AllocError>
    ensures { OnOk result (text.new.items ≡ text.old.items
        ++ difference_sentence old_name.now new_name.now printer.now difference) }
{
    push_named_first(alloc, text, new_name.as_bytes())?;
    text.extend_from_slice(b"differs from ")?;
    push_shown_text(text, old_name.as_bytes())?;
    push_difference(text, printer, difference)?;
    Ok(())
}

/// Appends the sentence on differences of jobs of these names that are left out, where so many
/// pages differ.
#[tactic(auto, unfolding(crate::specs::Sentences::more_sentence))]
pub(crate) fn push_more_sentence<A: Allocator + Copy>(
    alloc: A,
    text: &mut Vec<u8, A>,
    old_name: &str,
    new_name: &str,
    pages: u64,
) -> Result<(), AllocError>
    ensures { OnOk result (text.new.items ≡ text.old.items
        ++ more_sentence old_name.now new_name.now pages) }
{
    push_named_first(alloc, text, new_name.as_bytes())?;
    text.extend_from_slice(b"more differences from ")?;
    push_shown_text(text, old_name.as_bytes())?;
    push_more_part(text, pages)?;
    Ok(())
}

#[tactic(auto, unfolding(crate::specs::Sentences::more_part))]
fn push_more_part<A: Allocator>(text: &mut Vec<u8, A>, pages: u64) -> Result<(), AllocError>
    ensures { OnOk result (text.new.items ≡ text.old.items ++ more_part pages) }
{
    push_named(text, b" are left out (pages that differ: ", pages)?;
    text.extend_from_slice(b")\n")?;
    Ok(())
}

#[tactic(auto, unfolding(crate::specs::Sentences::difference_phrase))]
fn push_difference<A: Allocator>(
    text: &mut Vec<u8, A>,
    printer: &[u8],
    difference: PageDifference,
) -> Result<(), AllocError>
    ensures { OnOk result (text.new.items ≡ text.old.items
        ++ difference_phrase printer.now difference) }
{
    push_spot(text, difference)?;
    push_what(text, printer, difference)
}

#[tactic(auto, unfolding(crate::specs::Sentences::spot_phrase))]
fn push_spot<A: Allocator>(
    text: &mut Vec<u8, A>,
    difference: PageDifference,
) -> Result<(), AllocError>
    ensures { OnOk result (text.new.items ≡ text.old.items ++ spot_phrase difference) }
{
    push_named(text, b" on page ", difference.page)?;
    push_named(text, b" at mark ", mark_of(difference))
}

#[tactic(auto, unfolding(crate::specs::Sentences::what_phrase))]
fn push_what<A: Allocator>(
    text: &mut Vec<u8, A>,
    printer: &[u8],
    difference: PageDifference,
) -> Result<(), AllocError>
    ensures { OnOk result (text.new.items ≡ text.old.items
        ++ what_phrase printer.now difference) }
{
    push_printer(text, printer, difference.change)?;
    push_places(text, difference)
}

#[tactic(auto, unfolding(crate::specs::Sentences::printer_phrase))]
fn push_printer<A: Allocator>(
    text: &mut Vec<u8, A>,
    printer: &[u8],
    change: PageChange,
) -> Result<(), AllocError>
    ensures { OnOk result (text.new.items ≡ text.old.items
        ++ printer_phrase printer.now change) }
{
    text.extend_from_slice(b" for ")?;
    text.extend_from_slice(printer)?;
    text.extend_from_slice(b": ")?;
    text.extend_from_slice(change_phrase(change))?;
    Ok(())
}

/// What differs.
fn change_phrase(change: PageChange) -> &'static [u8]
    ensures { result.now ≡ change_phrase change }
{
    match change {
        PageChange::Moved => b"the mark is moved",
        PageChange::Changed => b"the mark is another one",
        PageChange::OnlyInOld => b"the mark is missing",
        PageChange::OnlyInNew => b"the mark is new",
        PageChange::PageEnds => b"the page ends otherwise",
        PageChange::PageOnlyInOld => b"the page is missing",
        PageChange::PageOnlyInNew => b"the page is new",
        PageChange::Covers => b"the mark is covered otherwise",
    }
}

#[tactic(auto, unfolding(crate::specs::Sentences::places_phrase))]
fn push_places<A: Allocator>(
    text: &mut Vec<u8, A>,
    difference: PageDifference,
) -> Result<(), AllocError>
    ensures { OnOk result (text.new.items ≡ text.old.items ++ places_phrase difference) }
{
    push_old_place(text, difference)?;
    push_new_place(text, difference)
}

#[tactic(auto, unfolding(crate::specs::Sentences::old_phrase))]
fn push_old_place<A: Allocator>(
    text: &mut Vec<u8, A>,
    difference: PageDifference,
) -> Result<(), AllocError>
    ensures { OnOk result (text.new.items ≡ text.old.items ++ old_phrase difference) }
{
    push_named(text, b" (byte ", difference.old_place)?;
    text.extend_from_slice(b" of it")
}

#[tactic(auto, unfolding(crate::specs::Sentences::new_phrase))]
fn push_new_place<A: Allocator>(
    text: &mut Vec<u8, A>,
    difference: PageDifference,
) -> Result<(), AllocError>
    ensures { OnOk result (text.new.items ≡ text.old.items ++ new_phrase difference) }
{
    push_named(text, b", byte ", difference.new_place)?;
    text.extend_from_slice(b" here)\n")
}

/// Appends the sentence on the job of this name, for which there is no memory, or for a page of it.
#[tactic(auto, unfolding(crate::specs::Sentences::unheld_sentence))]
pub(crate) fn push_unheld_sentence<A: Allocator + Copy>(
    alloc: A,
    text: &mut Vec<u8, A>,
    job: &str,
    cause: Option<&[u8]>,
) -> Result<(), AllocError>
    ensures { OnOk result (text.new.items ≡ text.old.items
        ++ unheld_sentence job.now (option_map (λ words. words.now) cause.entry)) }
{
    push_named_first(alloc, text, job.as_bytes())?;
    text.extend_from_slice(b"the pages of this job cannot be compared")?;
    push_unheld_cause(alloc, text, cause)
}

#[tactic(auto, unfolding(crate::specs::Sentences::unheld_cause))]
fn push_unheld_cause<A: Allocator + Copy>(
    alloc: A,
    text: &mut Vec<u8, A>,
    cause: Option<&[u8]>,
) -> Result<(), AllocError>
    ensures { OnOk result (text.new.items ≡ text.old.items
        ++ unheld_cause (option_map (λ words. words.now) cause.entry)) }
{
    push_cause_phrase(alloc, text, cause)?;
    text.extend_from_slice(b" (ERROR memory)\n")?;
    Ok(())
}
