//! The versions of a profile's text.

/// A version of the format, which the first line of a text names.
#[derive(Clone, Copy, PartialEq, Eq)]
pub enum Format {
    /// `pclprofile 1`: the panel has line termination 0.
    One,
    /// `pclprofile 2`: the panel's line termination is listed, too.
    Two,
}
