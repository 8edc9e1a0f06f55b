//! The lexer of PCL 5 print jobs, which reads their bytes as items.
//!
//! The syntax is that of "Two-Character Escape Sequences", "Parameterized Escape Sequences" and
//! "Combining Escape Sequences" in HP's PCL 5 Printer Language Technical Reference Manual, and in a
//! frame that of "HP-GL/2 Syntax" there. `specs/Grammar.antt`, `specs/Frames/Grammar.antt` and
//! `specs/PjlLines/Syntax.antt` say which bytes spell which items, `specs/Faults.antt` and
//! `specs/Frames/Faults.antt` where bytes stop and why, and `specs/Lexing/Meaning.antt` what the
//! lexer's answers mean.
#![tactic(auto)]

mod frame;
mod laws;
mod lexer;
mod pcl;
mod pjl;

pub use frame::{Gap, Kind};
pub use laws::{decided_stays, one_reading, open_item_is_short, read_by_rules};
pub use lexer::ahead::{Ahead, byte_in, next_ahead, with_its_data};
pub use lexer::first::{Context, First, Head, Numbers, first_between};
pub use lexer::lexed::Lexed;
pub use lexer::{Lexer, PlacedItem, PlacedLineEnd, PlacedRow};
pub use pcl::parameterized::{ReadCommand, parameterized_in};
pub use pjl::first::{FirstPjl, MOST_IN_PJL_LINE, at_pjl, begins_pjl};
