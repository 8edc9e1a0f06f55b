//! What a lexer answers.

use pcl_items::{Item, Place};

/// What a lexer answers.
#[derive(Clone, Copy, Debug, PartialEq, Eq)]
pub enum Lexed<'a> {
    /// The next item, and where it stands.
    Item(Place, Item<'a>),
    /// The bytes that were fed decide no further item and no fault.
    NeedMore,
    /// All bytes of the job are read.
    End,
}
