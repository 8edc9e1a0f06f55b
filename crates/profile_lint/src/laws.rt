//! A law of the faults of texts.

ghost use Rattle.std.specs.Prelude.{List, ℕ};
ghost use Rattle.profile_lint.specs.Laws.{TellsWhyRefused};

/// A text has no fault where it is read as a profile, and else its first fault is the one for which
/// it is refused.
pub fn first_fault_is_why_refused()
    ensures { (text : List ℕ) → TellsWhyRefused text }
{}
