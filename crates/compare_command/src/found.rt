//! How two jobs are compared, and what is found of them on which printer.

ghost use Rattle.std.specs.Prelude.{◌≡◌};
ghost use Rattle.compare_command.specs.Outcomes.{counts_of, counts_of_pages, first_manner};
ghost use Rattle.compare_command.specs.Outcomes.{is_strict, manner_of, most_listed, near_by};
ghost use Rattle.compare_command.specs.Outcomes.{same_counts};
ghost use Rattle.compare_command.specs.Outcomes.{status_by};

use comparison::Comparison;
use page_comparison::{Most, Nearness as PageNearness, PageComparison};
use requests::{Extent, Nearness, Status};
use sinks::Counts;
use std::alloc::Global;

/// How two jobs are compared.
#[derive(Clone, Copy)]
pub(crate) enum Manner {
    /// Event by event, up to the first difference.
    ByEvents,
    /// Page by page, up to so many differences.
    ByPages { nearness: PageNearness, most: Most },
}

/// What comes of two jobs on a printer.
#[derive(Drop)]
pub(crate) enum Outcome {
    OfEvents(Comparison),
    OfPages(PageComparison<Global>),
}

/// What is found of two jobs on the printer of this number, from 1.
#[derive(Drop)]
pub(crate) struct Found {
    pub number: u64,
    pub outcome: Outcome,
}

/// How jobs are compared where this is asked of them: event by event wherever that tells it, since
/// no page is held for it.
pub(crate) fn manner_of(nearness: Nearness, extent: Extent) -> Manner
    ensures { result ≡ manner_of nearness extent }
{
    match extent {
        Extent::First => first_manner(nearness),
        Extent::All { most } => Manner::ByPages {
            nearness: near_by(nearness),
            most: most_listed(most),
        },
    }
}

/// How they are compared up to the first difference.
fn first_manner(nearness: Nearness) -> Manner
    ensures { result ≡ first_manner nearness }
{
    if is_strict(nearness) {
        return Manner::ByEvents;
    }
    Manner::ByPages {
        nearness: near_by(nearness),
        most: most_listed(1),
    }
}

/// So many differences, and no page to be drawn.
fn most_listed(most: u64) -> Most
    ensures { result ≡ most_listed most }
{
    Most {
        differences: most,
        pages: 0,
    }
}

/// Whether marks are the same in their order and at their places alone.
fn is_strict(nearness: Nearness) -> bool
    ensures { result ≡ is_strict nearness }
{
    !nearness.any_order && nearness.within == 0
}

pub(crate) fn near_by(nearness: Nearness) -> PageNearness
    ensures { result ≡ near_by nearness }
{
    PageNearness {
        any_order: nearness.any_order,
        within: nearness.within,
    }
}

impl Outcome {
    /// How much both print, where they print the same.
    pub(crate) fn same_counts(&self) -> Option<Counts>
        ensures { result ≡ same_counts self.now }
    {
        match self {
            Outcome::OfEvents(comparison) => counts_of(*comparison),
            Outcome::OfPages(comparison) => counts_of_pages(comparison),
        }
    }
}

fn counts_of(comparison: Comparison) -> Option<Counts>
    ensures { result ≡ counts_of comparison }
{
    match comparison {
        Comparison::Same(counts) => Some(counts),
        Comparison::Differs(_) => None,
        Comparison::OldFails(_) => None,
        Comparison::NewFails(_) => None,
    }
}

fn counts_of_pages(comparison: &PageComparison<Global>) -> Option<Counts>
    ensures { result ≡ counts_of_pages comparison.now }
{
    match comparison {
        PageComparison::Same(counts) => Some(*counts),
        PageComparison::Differs(_) => None,
        PageComparison::OldFails(_) => None,
        PageComparison::NewFails(_) => None,
    }
}

/// Two jobs that print the same, and so much, pass.
pub(crate) fn status_by(counts: Option<Counts>) -> Status
    ensures { result ≡ status_by counts }
{
    match counts {
        Some(_) => Status::Pass,
        None => Status::Fail,
    }
}
