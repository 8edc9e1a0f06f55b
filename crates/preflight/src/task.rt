//! What machines in step are to execute.

use pcl_items::Item;

/// An item of the job, or its end.
#[derive(Clone, Copy)]
pub enum Task<'t, 'b> {
    Item(&'t Item<'b>),
    /// The end of the bytes.
    End,
}
