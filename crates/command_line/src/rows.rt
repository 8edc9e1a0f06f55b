//! Rows of which the command line is built: its commands, and what each takes.

use clap::builder::{ValueParser, ValueRange};
use clap::{Arg, ArgAction, Command};
use std::alloc::{AllocError, Global};
use std::slice;

/// A command.
pub(crate) struct CommandRow {
    pub name: &'static str,
    /// What it does.
    pub about: &'static str,
    pub words: &'static [WordRow],
    pub options: &'static [OptionRow],
}

/// What help says of a command beside its row. It stands apart, since a proof takes long over the
/// texts of one constant, the longer the more of them there are.
#[derive(Clone, Copy)]
pub(crate) struct CommandHelp {
    /// What `-h` writes below what the command does, fifteen lines at most: how it is used mostly.
    pub short: &'static str,
    /// What help says below all else.
    pub explanation: &'static str,
}

/// A word that a command takes by its place.
pub(crate) struct WordRow {
    /// By this it is read back.
    pub id: &'static str,
    pub need: Need,
    pub count: Count,
    pub help: &'static str,
}

/// When a word has to come.
pub(crate) enum Need {
    Always,
    Never,
    /// Where none of these options comes.
    Unless(&'static [&'static str]),
}

/// How many words stand in a place.
pub(crate) enum Count {
    One,
    /// One or more, each of which help calls so.
    Several(&'static str),
}

/// An option of a command.
pub(crate) struct OptionRow {
    /// By this it is read back.
    pub id: &'static str,
    pub short: Option<char>,
    pub long: &'static str,
    pub value: Value,
    /// What may not come beside it.
    pub excludes: Option<&'static str>,
    pub help: &'static str,
}

/// What stands behind an option.
pub(crate) enum Value {
    Nothing,
    /// A text, which help calls so.
    Text(&'static str),
    /// The path of a folder, which help calls so: a text that is not empty.
    Folder(&'static str),
    /// A text, which help calls so, each time that the option comes.
    EachText(&'static str),
    /// Texts with commas between them, which help calls so.
    List(&'static str),
    /// The same of these words.
    ListOf {
        name: &'static str,
        words: &'static [&'static str],
    },
    /// A whole number, which help calls so, from this one on.
    Number(&'static str, u64),
    /// One of these words, and the usual one where the option does not come.
    OneOf {
        words: &'static [&'static str],
        usual: Option<&'static str>,
    },
}

impl CommandRow {
    /// The command, with its words and then its options, and what help says below all else.
    pub(crate) fn command<'a>(
        &self,
        alloc: Global,
        explanation: &'static str,
    ) -> Result<Command<'a>, AllocError> {
        let mut args = Vec::new(alloc);
        push_words(&mut args, alloc, self.words)?;
        push_options(&mut args, alloc, self.options)?;
        Command::new(alloc, self.name)
            .about(self.about)
            .after_help(explanation)
            .args(args)
    }
}

fn push_words<'a>(
    args: &mut Vec<Arg<'a>>,
    alloc: Global,
    rows: &'a [WordRow],
) -> Result<(), AllocError> {
    for row in rows {
        args.push(row.arg(alloc)?)?;
    }
    Ok(())
}

fn push_options<'a>(
    args: &mut Vec<Arg<'a>>,
    alloc: Global,
    rows: &'a [OptionRow],
) -> Result<(), AllocError> {
    for row in rows {
        args.push(row.arg(alloc)?)?;
    }
    Ok(())
}

// An argument is large, and a proof takes long over each place where it may go one way or another:
// so what differs is chosen first, and the argument made of that by one call after another.

impl WordRow {
    fn arg<'a>(&'a self, alloc: Global) -> Result<Arg<'a>, AllocError> {
        Arg::new(alloc, self.id)
            .help(self.help)
            .action(self.count.action())
            .num_args(self.count.number())
            .value_names(self.count.names())
            .required(self.need.is_always())
            .required_unless_present_any(self.need.others())
    }
}

impl Need {
    fn is_always(&self) -> bool {
        matches!(self, Need::Always)
    }

    /// The options of which one has to come where the word does not.
    fn others(&self) -> &'static [&'static str] {
        match self {
            Need::Unless(options) => *options,
            _ => &[],
        }
    }
}

impl Count {
    fn action(&self) -> ArgAction {
        match self {
            Count::One => ArgAction::Set,
            Count::Several(_) => ArgAction::Append,
        }
    }

    fn number(&self) -> ValueRange {
        match self {
            Count::One => ValueRange::SINGLE,
            Count::Several(_) => ValueRange::new(1..),
        }
    }

    /// What help calls each word, where that is not the row's id.
    fn names(&self) -> &[&'static str] {
        match self {
            Count::One => &[],
            Count::Several(name) => slice::from_ref(name),
        }
    }
}

impl OptionRow {
    fn arg<'a>(&'a self, alloc: Global) -> Result<Arg<'a>, AllocError> {
        let arg = Arg::new(alloc, self.id).long(self.long).help(self.help);
        with_value(with_short(arg, self.short), &self.value).conflicts_with_all(self.excluded())
    }

    /// What may not come beside the option.
    fn excluded(&self) -> &[&'static str] {
        match &self.excludes {
            Some(other) => slice::from_ref(other),
            None => &[],
        }
    }
}

fn with_short<'a>(arg: Arg<'a>, short: Option<char>) -> Arg<'a> {
    match short {
        Some(letter) => arg.short(letter),
        None => arg,
    }
}

fn with_value<'a>(arg: Arg<'a>, value: &'a Value) -> Arg<'a> {
    let arg = arg
        .action(value.action())
        .value_names(value.names())
        .value_parser(value.parser())
        .default_values(value.usual());
    with_commas(arg, value.is_list())
}

fn with_commas<'a>(arg: Arg<'a>, is_list: bool) -> Arg<'a> {
    if is_list {
        arg.value_delimiter(',')
    } else {
        arg
    }
}

impl Value {
    fn action(&self) -> ArgAction {
        match self {
            Value::Nothing => ArgAction::SetTrue,
            Value::EachText(_) => ArgAction::Append,
            _ => ArgAction::Set,
        }
    }

    /// What help calls the value.
    fn names(&self) -> &[&'static str] {
        match self {
            Value::Text(name)
            | Value::Folder(name)
            | Value::EachText(name)
            | Value::List(name)
            | Value::ListOf { name, .. }
            | Value::Number(name, _) => slice::from_ref(name),
            Value::Nothing | Value::OneOf { .. } => &[],
        }
    }

    /// What the value, or each of a list, has to be.
    fn parser(&self) -> ValueParser<'static> {
        match self {
            Value::Nothing => ValueParser::Bool,
            Value::Folder(_) => ValueParser::NonEmptyString,
            Value::Number(_, least) => ValueParser::Unsigned(*least, u64::MAX),
            Value::ListOf { words, .. } | Value::OneOf { words, .. } => ValueParser::Names(*words),
            Value::Text(_) | Value::EachText(_) | Value::List(_) => ValueParser::String,
        }
    }

    /// The value where the option does not come.
    fn usual(&self) -> &[&'static str] {
        match self {
            Value::OneOf {
                usual: Some(word),
                ..
            } => slice::from_ref(word),
            _ => &[],
        }
    }

    fn is_list(&self) -> bool {
        matches!(self, Value::List(_) | Value::ListOf { .. })
    }
}
