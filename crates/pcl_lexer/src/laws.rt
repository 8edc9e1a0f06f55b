//! Laws of the reading of bytes.

ghost use Rattle.std.specs.Prelude.{List, ℕ};
ghost use Rattle.pcl_lexer.specs.Lexing.Contexts.{Context};
ghost use Rattle.pcl_lexer.specs.Reading.{Reading};
ghost use Rattle.pcl_lexer.specs.Laws.{HasOneReading, StaysDecided, OpenIsShort, IsReadByRules};

/// The bytes of a job have one reading by the rules of the language, which `reading_of` computes.
pub fn one_reading()
    ensures { (bytes : List ℕ) → HasOneReading bytes }
{}

/// An item or a fault that the bytes decide stands there whatever bytes follow.
pub fn decided_stays()
    ensures { (context : Context) (bytes : List ℕ) → StaysDecided context bytes }
{}

/// An item that the bytes begin and do not decide has at most 32831 of them.
pub fn open_item_is_short()
    ensures { (context : Context) (bytes : List ℕ) → OpenIsShort context bytes }
{}

/// The items, the end and the faults that are read one behind another are those of the rules, with
/// their places.
pub fn read_by_rules()
    ensures { (bytes : List ℕ) (reading : Reading) → IsReadByRules bytes reading }
{}
