//! What is told of an item and of a page.
ghost use Rattle.std.specs.Prelude.{◌≡◌};
ghost use Rattle.pcl_items.specs.Items.{view};
ghost use Rattle.judgement.specs.FailingItem.{Names};
ghost use Rattle.preflight.specs.Where.{page_with};

use judgement::FailingItem;
use pcl_items::Item;
use sinks::Counts;
use verdict::Verdict;

/// The page that is told with a verdict, where so much was counted.
pub(crate) fn page_with(verdict: Verdict, counts: Counts) -> Option<u64>
    ensures { result ≡ page_with verdict counts }
{
    match verdict {
        Verdict::Pass { .. } => None,
        Verdict::Fail { .. } => Some(counts.pages.saturating_add(1)),
    }
}

/// Tells the item.
// A call of its own, so that the items that go on clear no room for what is told.
#[inline(never)]
pub(crate) fn tell(item: &Item<'_>, failing_item: &mut Option<FailingItem>)
    ensures { Names failing_item.new (view item.now) }
{
    *failing_item = Some(FailingItem::of(item));
}
