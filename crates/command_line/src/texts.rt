//! Texts that words give.
ghost use Rattle.std.specs.Prelude.{◌≢◌, ◌++◌, [], IsFalse};

use clap::ArgMatches;
use std::alloc::{AllocError, Global};

/// All texts that are read back by an id.
pub(crate) fn texts_of<'a>(
    alloc: Global,
    found: &ArgMatches<'a>,
    id: &str,
) -> Result<Vec<&'a str>, AllocError> {
    let mut texts = Vec::new(alloc);
    texts.extend_from_slice(found.get_strs(id).unwrap_or(&[]))?;
    Ok(texts)
}

/// The texts that are read back by two ids, where there are both.
pub(crate) fn both_texts<'a>(
    found: &ArgMatches<'a>,
    first: &str,
    second: &str,
) -> Option<(&'a str, &'a str)> {
    Some((found.get_str(first)?, found.get_str(second)?))
}

/// Whether words name no printer, and no text that names some.
pub(crate) fn are_none(printers: &[&str], fleets: &[&str]) -> bool
    ensures { IsFalse result → printers.now ++ fleets.now ≢ [] }
{
    match printers {
        [] => fleets.is_empty(),
        [_, ..] => false,
    }
}
