//! Laws of the texts of profiles.

ghost use Rattle.std.specs.Prelude.{List, ℕ};
ghost use Rattle.device_profile.specs.Laws.{GivesValid, HasEachKeyOnce, OrderIsFree};

/// The printer of an accepted text is valid.
pub fn accepted_is_valid()
    ensures { (text : List ℕ) → GivesValid text }
{}

/// In an accepted text each key that comes once stands on exactly one line.
pub fn each_key_once()
    ensures { (text : List ℕ) → HasEachKeyOnce text }
{}

/// All lines of an accepted text but the first may stand in any order: the text is accepted, and
/// gives the same printer but for the order of its rows.
pub fn order_is_free()
    ensures { (text other : List ℕ) → OrderIsFree text other }
{}
