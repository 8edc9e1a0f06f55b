//! What calls of other programs do, be they of C or of a page in a browser: numbers, rows and
//! texts, over memory of any allocator.
#![tactic(auto)]

mod checking;
mod drawing;
mod explaining;
mod job_texts;
mod numbers;
mod one_text;
mod panel_values;
mod printer_texts;
mod profile_faults;
mod room;
mod rows;
mod told;
mod why;

pub use checking::{check, judge, leave, sentence, tell, text_of};
pub use drawing::drawn;
pub use explaining::explained;
pub use job_texts::{list, plain};
pub use numbers::{
    DONE, ITEMS, JUDGED, LONG, MEMORY, NO_FIELD, NO_PAGE, NO_PRINTER, NOT_ALLOWED, REFUSED, ROOM,
    STOPPED, UNKNOWN, error_number,
};
pub use one_text::OneText;
pub use printer_texts::{noted, paged, pinned, read_limited, read_printer};
pub use profile_faults::faults;
pub use room::put;
pub use rows::{PanelValue, Refusal, VerdictRow, verdict_row};
pub use told::{Told, hand_out, leave_refusal, leave_row};
pub use why::Why;

/// The version, as `pclcheck --version` has it behind the name.
pub const VERSION: &str = "0.1.0";
