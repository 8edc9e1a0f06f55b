//! The words for the form of what is told.

use crate::rows::{OptionRow, Value};
use clap::ArgMatches;
use requests::Form;

/// The words of the forms.
pub(crate) const FORMS: &[&str] = &["line", "words", "json", "html"];

/// The words of the forms of a survey, which knows no document.
pub(crate) const SURVEY_FORMS: &[&str] = &["line", "words", "json"];

/// The option of the program itself for the form of what each command tells.
pub(crate) const FORMAT: OptionRow = OptionRow {
    id: "FORM",
    short: None,
    long: "format",
    value: Value::OneOf {
        words: FORMS,
        usual: None,
    },
    excludes: None,
    help: "As --format of check, and for what stands in the way of each command",
};

/// The form of a word.
pub fn form_of(word: &str) -> Option<Form> {
    match word {
        "line" => Some(Form::Line),
        "words" => Some(Form::Words),
        "json" => Some(Form::Json),
        "html" => Some(Form::Html),
        _ => None,
    }
}

/// The form that words ask for, those before a command or those behind `check`.
pub(crate) fn form_asked(found: &ArgMatches<'_>) -> Option<Form> {
    form_of(found.get_str("FORM")?)
}
