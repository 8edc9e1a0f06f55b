//! The words for how near is same, and for how much is told of what differs.

use crate::panel_words::{ChoiceFault, ten_thousandths_of};
use crate::rows::{OptionRow, Value};
use clap::ArgMatches;
use requests::{Extent, Nearness};

/// So many differences are told, where no word says how many.
const MOST_DIFFERENCES: u64 = 1000;

pub(crate) const ANY_ORDER: OptionRow = OptionRow {
    id: "ORDER",
    short: None,
    long: "any-order",
    value: Value::Nothing,
    excludes: None,
    help: "The marks of a page may be made in any order",
};

pub(crate) const WITHIN: OptionRow = OptionRow {
    id: "WITHIN",
    short: None,
    long: "within",
    value: Value::Text("LENGTH"),
    excludes: None,
    help: "Each edge of a mark may lie off by so much, as 0.1mm or 0.004in",
};

pub(crate) const ALL: OptionRow = OptionRow {
    id: "ALL",
    short: None,
    long: "all",
    value: Value::Nothing,
    excludes: None,
    help: "Tells all differences of the first printer that has one",
};

pub(crate) const MOST: OptionRow = OptionRow {
    id: "MOST",
    short: None,
    long: "most",
    value: Value::Number("N", 1),
    excludes: None,
    help: "Tells so many of them at most; without it 1000",
};

/// How near is the same.
pub(crate) fn nearness_of<'a>(found: &ArgMatches<'a>) -> Result<Nearness, ChoiceFault<'a>> {
    Ok(Nearness {
        any_order: found.get_flag("ORDER"),
        within: within_of(found)?,
    })
}

/// How far an edge may lie off, in ticks.
fn within_of<'a>(found: &ArgMatches<'a>) -> Result<u64, ChoiceFault<'a>> {
    let Some(word) = found.get_str("WITHIN") else {
        return Ok(0);
    };
    match length_of(word) {
        Some(length) => Ok(length),
        None => Err(ChoiceFault::Length(word)),
    }
}

/// The ticks of a length. Each ten-thousandth of a millimetre or of an inch is a whole number.
fn length_of(word: &str) -> Option<u64> {
    if let Some(number) = word.strip_suffix("mm") {
        return Some(u64::from(ten_thousandths_of(number)?) * 144_000);
    }
    let number = word.strip_suffix("in")?;
    Some(u64::from(ten_thousandths_of(number)?) * 3_657_600)
}

/// How much is told of what differs.
pub(crate) fn extent_of<'a>(found: &ArgMatches<'a>) -> Result<Extent, ChoiceFault<'a>> {
    let most = found.get_one::<u64>("MOST");
    if found.get_flag("ALL") {
        return Ok(Extent::All {
            most: most.unwrap_or(MOST_DIFFERENCES),
        });
    }
    match most {
        None => Ok(Extent::First),
        Some(_) => Err(ChoiceFault::MostAlone),
    }
}
