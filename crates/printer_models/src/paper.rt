//! The papers that a page may be of.
ghost use Rattle.std.specs.Prelude.{◌≡◌, ◌≤◌, find, IsTrue};
ghost use Rattle.printer_models.specs.Page.{portrait_left, landscape_left};
ghost use Rattle.printer_models.specs.Paper.{code_of, dots_of, has_sides, inches, is_named};
ghost use Rattle.printer_models.specs.Paper.{millimetres, paper_named, sheet_of, word_of};

/// A paper, by the name of its size.
#[derive(Clone, Copy)]
pub enum Paper {
    Executive,
    Letter,
    Legal,
    Ledger,
    A6,
    A5,
    A4,
    A3,
    JisB5,
    JisB4,
    Monarch,
    Com10,
    Dl,
    C5,
    B5,
}

/// All papers, by their numbers.
pub const PAPERS: [Paper; 15] = [
    Paper::Executive,
    Paper::Letter,
    Paper::Legal,
    Paper::Ledger,
    Paper::A6,
    Paper::A5,
    Paper::A4,
    Paper::A3,
    Paper::JisB5,
    Paper::JisB4,
    Paper::Monarch,
    Paper::Com10,
    Paper::Dl,
    Paper::C5,
    Paper::B5,
];

/// How a paper is cut.
#[derive(Clone, Copy)]
pub enum Measure {
    /// Its sides are told in thousandths of an inch.
    Inch,
    /// Its sides are told in millimetres.
    Metric,
}

/// An upright sheet of paper.
#[derive(Clone, Copy)]
pub struct Sheet {
    /// The size, as `ESC &l#A` numbers it.
    pub code: u32,
    /// What the sides are told in.
    pub measure: Measure,
    /// How wide it is.
    pub width: u32,
    /// How high it is.
    pub height: u32,
}

impl Sheet {
    /// A paper that is cut by inches: its sides are in thousandths of one.
    fn inches(code: u32, width: u32, height: u32) -> Sheet
        ensures { result ≡ inches code width height }
    {
        Sheet {
            code,
            measure: Measure::Inch,
            width,
            height,
        }
    }

    /// A paper that is cut by millimetres.
    fn millimetres(code: u32, width: u32, height: u32) -> Sheet
        ensures { result ≡ millimetres code width height }
    {
        Sheet {
            code,
            measure: Measure::Metric,
            width,
            height,
        }
    }
}

impl Measure {
    /// The whole dots of a side, of which an inch has 300.
    pub fn dots(self, side: u32) -> u32
        requires { side ≤ 20_000 }
        ensures { result ≡ dots_of self side }
    {
        match self {
            Measure::Inch => side * 300 / 1_000,
            Measure::Metric => side * 3_000 / 254,
        }
    }

    /// How far from the left edge of an upright paper the logical page begins, in dots.
    pub fn portrait_left(self) -> u32
        ensures value { result ≡ portrait_left self }
        ensures small { result ≤ 75 }
    {
        match self {
            Measure::Inch => 75,
            Measure::Metric => 71,
        }
    }

    /// The same in landscape.
    pub fn landscape_left(self) -> u32
        ensures value { result ≡ landscape_left self }
        ensures small { result ≤ 75 }
    {
        match self {
            Measure::Inch => 60,
            Measure::Metric => 59,
        }
    }
}

impl Paper {
    /// The name, as a user types it.
    pub fn word(self) -> &'static str
        ensures { result.now ≡ word_of self }
    {
        match self {
            Paper::Executive => "executive",
            Paper::Letter => "letter",
            Paper::Legal => "legal",
            Paper::Ledger => "ledger",
            Paper::A6 => "a6",
            Paper::A5 => "a5",
            Paper::A4 => "a4",
            Paper::A3 => "a3",
            Paper::JisB5 => "jis-b5",
            Paper::JisB4 => "jis-b4",
            Paper::Monarch => "monarch",
            Paper::Com10 => "com-10",
            Paper::Dl => "dl",
            Paper::C5 => "c5",
            Paper::B5 => "b5",
        }
    }

    /// The paper's number and its sides.
    pub fn sheet(self) -> Sheet
        ensures value { result ≡ sheet_of self }
        ensures sides { IsTrue (has_sides result) }
    {
        match self {
            Paper::Executive => Sheet::inches(1, 7_250, 10_500),
            Paper::Letter => Sheet::inches(2, 8_500, 11_000),
            Paper::Legal => Sheet::inches(3, 8_500, 14_000),
            Paper::Ledger => Sheet::inches(6, 11_000, 17_000),
            Paper::A6 => Sheet::millimetres(24, 105, 148),
            Paper::A5 => Sheet::millimetres(25, 148, 210),
            Paper::A4 => Sheet::millimetres(26, 210, 297),
            Paper::A3 => Sheet::millimetres(27, 297, 420),
            Paper::JisB5 => Sheet::millimetres(45, 182, 257),
            Paper::JisB4 => Sheet::millimetres(46, 257, 364),
            Paper::Monarch => Sheet::inches(80, 3_875, 7_500),
            Paper::Com10 => Sheet::inches(81, 4_125, 9_500),
            Paper::Dl => Sheet::millimetres(90, 110, 220),
            Paper::C5 => Sheet::millimetres(91, 162, 229),
            Paper::B5 => Sheet::millimetres(100, 176, 250),
        }
    }

    /// The paper's number, as `ESC &l#A` has it.
    pub fn code(self) -> u32
        ensures { result ≡ code_of self }
    {
        self.sheet().code
    }

    /// The paper of a name, in any letter case.
    pub fn named(word: &str) -> Option<Paper>
        ensures { result ≡ paper_named word.now }
    {
        first_named(&PAPERS, word)
    }
}

/// The first of these papers with a name, in any letter case.
fn first_named(papers: &[Paper], word: &str) -> Option<Paper>
    ensures { result ≡ find (is_named word.now) papers.now }
{
    papers.iter().copied().find(|paper| is_named(*paper, word))
}

/// Whether a paper has a name, in any letter case.
#[tactic(auto, unfolding(crate::specs::Paper::is_named))]
fn is_named(paper: Paper, word: &str) -> bool
    ensures { result ≡ is_named word.now paper }
{
    paper.word().eq_ignore_ascii_case(word)
}
