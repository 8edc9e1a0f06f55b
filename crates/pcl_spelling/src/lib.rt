//! The one spelling of each item of a PCL 5 print job, written and read again.
//!
//! `specs/Spellings/Spelled.antt` says what it is that items stand by their spellings, one behind
//! another.
#![tactic(auto)]

mod spelling;

pub use spelling::{first_spelled, item_at, spell, spell_amount, spell_magnitude, spelled_len};
