//! What the relations of two jobs have to do with each other.

ghost use Rattle.page_comparison.specs.declared.differences.Most.{Most};
ghost use Rattle.std.specs.Prelude.{ℕ};
ghost use Rattle.pcl_lexer.specs.Reading.{Reading};
ghost use Rattle.device_profile.specs.Printer.{Printer};
ghost use Rattle.device_profile.specs.declared.panel.Panel.{Panel};
ghost use Rattle.page_comparison.specs.Laws.{IsExact, IsSameAsItself, NeedsNoOrder};
ghost use Rattle.page_comparison.specs.declared.differences.Nearness.{Nearness};

/// Within no distance and in their order, two jobs are the same exactly where the comparison event
/// by event says so.
pub fn in_order_is_exact()
    ensures { (most : Most) (number : ℕ) (printer : Printer) (panel : Panel)
        (before after : Reading) → IsExact most number printer panel before after }
{}

/// Two jobs that are the same in the order of their marks are so in any order.
pub fn same_in_any_order()
    ensures { (within : ℕ) (most : Most) (number : ℕ) (printer : Printer) (panel : Panel)
        (before after : Reading) → NeedsNoOrder within most number printer panel before after }
{}

/// A job that does not fail is the same as itself.
pub fn same_as_itself()
    ensures { (near : Nearness) (most : Most) (number : ℕ) (printer : Printer) (panel : Panel)
        (job : Reading) → IsSameAsItself near most number printer panel job }
{}
