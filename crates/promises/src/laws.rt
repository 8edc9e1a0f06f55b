//! Laws of spellings, of steps, of verdicts and of texts.

ghost use Rattle.std.specs.Prelude.{◌≡◌, ◌↔◌, ℕ, List, Option, Some, false};
ghost use Rattle.std.specs.List.{AllByRecursion};
ghost use Rattle.pcl_items.specs.declared.item.Mode.{Mode};
ghost use Rattle.pcl_items.specs.Items.{Entry, Placed};
ghost use Rattle.pcl_items.specs.Modes.{follows};
ghost use Rattle.pcl_items.specs.Spellings.Canon.{IsItem};
ghost use Rattle.pcl_lexer.specs.Reading.{Reading, Whole, IsReading};
ghost use Rattle.pcl_spelling.specs.Laws.{HasCanon, IsOneUnit};
ghost use Rattle.device_profile.specs.declared.panel.Panel.{Panel};
ghost use Rattle.device_profile.specs.Printer.{CanBeSetTo, Printer};
ghost use Rattle.page_env.specs.Pinned.{is_unpinnable};
ghost use Rattle.page_env.specs.Settings.{Settings, State};
ghost use Rattle.page_env.specs.Table.{transition_of};
ghost use Rattle.page_machine.specs.declared.nesting.Nesting.{Nesting};
ghost use Rattle.page_machine.specs.Job.{plain_run};
ghost use Rattle.page_machine.specs.Laws.{IsSet};
ghost use Rattle.page_machine.specs.Macros.{MacroContext};
ghost use Rattle.page_machine.specs.Run.{Conditions};
ghost use Rattle.promises.specs.Comparisons.{SaysSameForAll};
ghost use Rattle.promises.specs.Closings.{ClosesInOrder, FixesInOrder};
ghost use Rattle.promises.specs.Laws.{HasOneRun, HaveOnePlainText, IsPinned, IsReadAgain};
ghost use Rattle.promises.specs.Laws.{PartPasses, RunAlike};
ghost use Rattle.promises.specs.StartedRasters.{RastersHavePlaces};
ghost use Rattle.renderings.specs.Pins.{pinned_rendering};
ghost use Rattle.streams.specs.Pieces.{ByReads, HasEnd};
ghost use Rattle.streams.specs.Source.{SourceState};
ghost use Rattle.promises.specs.Clean.{PassesWhereClean};
ghost use Rattle.judgement.specs.Verdict.{IsExact, verdict_of};

use page_machine::{pinned_jobs_print_alike, unset_is_read, watched_is_plain};
use pcl_lexer::one_reading;
use verdict::Verdict;

/// In each mode that admits an item, its one spelling is a spelling of it, and is read as that
/// item, whatever bytes follow.
pub fn canon_is_read()
    ensures { (mode mode2 : Mode) (item : Entry) → IsItem item → follows mode item ≡ Some mode2 →
        HasCanon mode item mode2 }
{}

/// A mode admits an item and leads to another exactly where the item's one spelling is one unit of
/// it, with that other mode behind.
pub fn admitted_by_rules()
    ensures { (mode mode2 : Mode) (item : Entry) → IsItem item → (follows mode item ≡ Some mode2) ↔
        IsOneUnit mode item mode2 }
{}

/// What a fleet passes, each part of it passes alike: printers of the fleet, at least one, in any
/// order.
pub fn part_of_a_fleet()
    ensures { (fleet part : List Printer) (reading : Reading) → PartPasses fleet part reading }
{}

/// A job has one run from a panel of a printer, however its bytes are read: one list of events, and
/// one outcome.
pub fn one_run()
    ensures { (job : List ℕ) → HasOneRun job }
{
    one_reading();
}

/// Jobs of the same items run alike, wherever these stand.
pub fn same_items_run_alike()
    ensures { (items others : List Placed) → RunAlike items others }
{}

/// A plain run finds no field unset.
pub fn plain_runs_are_set()
    ensures { (printer : Printer) (panel : Panel) (reading : Reading) →
        IsSet (plain_run printer panel reading).ending }
{
    unset_is_read();
}

/// Printers whose profiles leave nothing to their panels pass a job, all bytes of which are items,
/// exactly where it runs clean on each of them, with the same events item by item; so one printer
/// with one panel setting passes it exactly where it runs clean from that.
pub fn clean_jobs_pass()
    ensures { (fleet : List Printer) (items : List Placed) (place : ℕ) →
        PassesWhereClean fleet items place }
{
    watched_is_plain();
}

/// A Pass tells that a read found the end of the job.
pub fn pass_is_at_the_end()
    ensures { (fleet : List Printer) (old new : SourceState) (pages marks : ℕ) →
        ByReads old new (λ job. IsExact fleet job (Verdict.Pass pages marks)) → HasEnd old new }
{
    one_reading();
}

/// The items of a job in their canonical spelling are read as the same items, and their text is
/// itself.
pub fn plain_text_is_read_again()
    ensures { (job : List ℕ) (reading : Reading) → IsReading job reading → IsReadAgain reading }
{}

/// Jobs of the same items have one plain text, however their items are spelled.
pub fn same_items_have_one_plain_text()
    ensures { (a b : Reading) → HaveOnePlainText a b }
{}

/// A job that is pinned to a panel prints from each panel what the job prints from this one, and is
/// judged so.
pub fn pinned_job_prints_alike()
    ensures { (printer : Printer) (panel : Panel) → CanBeSetTo printer panel →
        (job : List ℕ) (items : List Placed) (place : ℕ) →
        IsReading job (Whole items place) → AllByRecursion
        (λ (x : Placed). is_unpinnable x.item ≡ false) items →
        IsPinned printer panel items ((pinned_rendering printer panel).text (Whole items place)) }
{
    pinned_jobs_print_alike();
}

/// What is found where a page is closed stands in the one order of findings: 21, 23 and 12 of the
/// closing, which is a step of its own; and before it, behind the checks of an item that sets the
/// paper, 23 where the paper is fixed.
pub fn closings_are_in_order()
    ensures closings { (context : MacroContext) (nesting : Nesting) (s : State) →
        ClosesInOrder context nesting s }
    ensures papers { (printer : Printer) (conditions : Conditions) (s : State) (item : Entry) →
        FixesInOrder conditions s (transition_of printer conditions.defaults s item) }
{}

/// A raster that is started has a vertical place: each item but those of rasters ends it, and
/// starts none, and each of rasters leaves it one. So its rows and skips read no VMI.
pub fn started_rasters_have_places()
    ensures { (printer : Printer) (defaults : Settings) → RastersHavePlaces printer defaults }
{}

/// Two jobs that a check passes, and that print the same on one printer of its fleet from one
/// panel, do so on every one from every panel.
pub fn same_for_all()
    ensures { (fleet : List Printer) (before after : List ℕ) →
        SaysSameForAll fleet before after }
{
    one_reading();
}
