//! What the values of variables mean.
ghost use Rattle.std.specs.Prelude.{◌≡◌, ◌≤◌, IfSome, find, option_map};
ghost use Rattle.std.specs.Str.{bytes_eq};
ghost use Rattle.device_profile.specs.Words.{amount_of, number_of};
ghost use Rattle.device_profile.specs.Values.{is_between};
ghost use Rattle.pjl_answer.specs.Told.{values_in};
ghost use Rattle.pjl_answer.specs.Values.{binding_of, copies_of, form_lines_of, is_first};
ghost use Rattle.pjl_answer.specs.Values.{is_internal, is_on, is_understood, kept};
ghost use Rattle.pjl_answer.specs.Values.{line_termination_of, mp_trays_of, orientation_of};
ghost use Rattle.pjl_answer.specs.Values.{paper_of, paper_word};

use crate::variable::Variable;
use device_profile::{NamedSet, amount, number};
use printer_models::{PAPERS, Paper};

/// The values that are told for a field.
#[derive(Clone, Copy)]
pub enum ToldValues {
    One(u32),
    Two(u32, u32),
}

/// The name of a paper in PJL.
fn paper_word(paper: Paper) -> &'static str
    ensures { result.now ≡ paper_word paper }
{
    match paper {
        Paper::Executive => "EXECUTIVE",
        Paper::Letter => "LETTER",
        Paper::Legal => "LEGAL",
        Paper::Ledger => "LEDGER",
        Paper::A6 => "A6",
        Paper::A5 => "A5",
        Paper::A4 => "A4",
        Paper::A3 => "A3",
        Paper::JisB5 => "JISB5",
        Paper::JisB4 => "JISB4",
        Paper::Monarch => "MONARCH",
        Paper::Com10 => "COM10",
        Paper::Dl => "DL",
        Paper::C5 => "C5",
        Paper::B5 => "B5",
    }
}

/// The first of these papers that has a name.
fn first_paper(papers: &[Paper], value: &[u8]) -> Option<Paper>
    ensures { result ≡ find (λ paper. bytes_eq (paper_word paper) value.now) papers.now }
{
    papers
        .iter()
        .copied()
        .find(|paper| paper_word(*paper).as_bytes() == value)
}

/// The paper of a name.
#[tactic(auto, unfolding(crate::specs::Values::paper_of))]
pub(crate) fn paper_of(value: &[u8]) -> Option<Paper>
    ensures { result ≡ paper_of value.now }
{
    first_paper(&PAPERS, value)
}

/// The orientation of a name, as `ESC &l#O` numbers it.
pub(crate) fn orientation_of(value: &[u8]) -> Option<u32>
    ensures { result ≡ orientation_of value.now }
{
    if value == b"PORTRAIT".as_slice() {
        Some(0)
    } else if value == b"LANDSCAPE".as_slice() {
        Some(1)
    } else {
        None
    }
}

/// The number that a value is, where it is from the least to the most.
fn number_between(value: &[u8], least: u32, most: u32) -> Option<u32>
    ensures { result ≡ kept (is_between least most) (number_of value.now) }
{
    match number(value) {
        Some(n) if u64::from(least) <= n && n <= u64::from(most) => Some(n as u32),
        _ => None,
    }
}

/// How many copies are printed.
pub(crate) fn copies_of(value: &[u8]) -> Option<u32>
    ensures { result ≡ copies_of value.now }
{
    number_between(value, 1, 32_767)
}

/// How many lines a page has.
pub(crate) fn form_lines_of(value: &[u8]) -> Option<u32>
    ensures value { result ≡ form_lines_of value.now }
    ensures some { IfSome result (λ lines. 1 ≤ lines) }
{
    number_between(value, 5, 128)
}

/// The line termination, as `ESC &k#G` numbers it.
pub(crate) fn line_termination_of(value: &[u8]) -> Option<u32>
    ensures { result ≡ line_termination_of value.now }
{
    number_between(value, 0, 3)
}

/// Whether a switch is on.
pub(crate) fn is_on(value: &[u8]) -> Option<bool>
    ensures { result ≡ is_on value.now }
{
    if value == b"ON".as_slice() {
        Some(true)
    } else if value == b"OFF".as_slice() {
        Some(false)
    } else {
        None
    }
}

/// Both sides by their binding, as `ESC &l#S` numbers them.
pub(crate) fn binding_of(value: &[u8]) -> Option<u32>
    ensures { result ≡ binding_of value.now }
{
    if value == b"LONGEDGE".as_slice() {
        Some(1)
    } else if value == b"SHORTEDGE".as_slice() {
        Some(2)
    } else {
        None
    }
}

/// The trays that paper may come from, by when the multipurpose tray is used.
pub(crate) fn mp_trays_of(value: &[u8]) -> Option<ToldValues>
    ensures { option_map values_in result ≡ mp_trays_of value.now }
{
    if value == b"FIRST".as_slice() {
        Some(ToldValues::Two(1, 4))
    } else if value == b"CASSETTE".as_slice() || value == b"MANUAL".as_slice() {
        Some(ToldValues::One(1))
    } else {
        None
    }
}

/// Whether a font is one of the printer's own.
pub(crate) fn is_internal(value: &[u8]) -> bool
    ensures { result ≡ is_internal value.now }
{
    value == b"I".as_slice()
}

/// Whether a font is the first of its source.
pub(crate) fn is_first(value: &[u8]) -> bool
    ensures { result ≡ is_first value.now }
{
    number(value) == Some(0)
}

/// Whether a value of a variable is one that is known.
pub(crate) fn is_understood(variable: Variable, value: &[u8]) -> bool
    ensures { result ≡ is_understood variable value.now }
{
    match variable {
        Variable::Paper => paper_of(value).is_some(),
        Variable::Orientation => orientation_of(value).is_some(),
        Variable::FormLines => form_lines_of(value).is_some(),
        Variable::FontSource => is_internal(value),
        Variable::FontNumber => is_first(value),
        Variable::SymbolSet => NamedSet::named(value).is_some(),
        Variable::Pitch => amount(value).is_some(),
        Variable::Copies => copies_of(value).is_some(),
        Variable::Duplex | Variable::ManualFeed => is_on(value).is_some(),
        Variable::Binding => binding_of(value).is_some(),
        Variable::MpTray => mp_trays_of(value).is_some(),
        Variable::LineTermination => line_termination_of(value).is_some(),
        Variable::AppendCrToLf
        | Variable::WideA4
        | Variable::EdgeToEdge
        | Variable::OverrideA4WithLetter
        | Variable::PanelLock
        | Variable::Personality
        | Variable::Memory => true,
    }
}
