//! Laws of two jobs that are the same.

ghost use Rattle.std.specs.Prelude.{List, ℕ};
ghost use Rattle.device_profile.specs.Printer.{Printer};
ghost use Rattle.device_profile.specs.declared.panel.Panel.{Panel};
ghost use Rattle.comparison.specs.Laws.{SaysSame};

use pcl_lexer::one_reading;

/// Two jobs that are the same give the same marks and the same ends of pages.
pub fn same_prints_same()
    ensures { (number : ℕ) (printer : Printer) (panel : Panel) (before after : List ℕ) →
        SaysSame number printer panel before after }
{
    one_reading();
}
