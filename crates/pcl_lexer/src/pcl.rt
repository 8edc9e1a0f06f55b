//! Mode PCL: value fields, and escape sequences with and without a group.

pub(crate) mod command_with_data;
pub(crate) mod counting;
pub(crate) mod field;
pub(crate) mod parameterized;
