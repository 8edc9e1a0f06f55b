//! The variables of a printer that are read.
ghost use Rattle.std.specs.Prelude.{◌≡◌};
ghost use Rattle.pjl_answer.specs.Variable.{word_of};

/// A variable of a printer's panel, or what the printer has.
#[derive(Clone, Copy)]
pub enum Variable {
    Paper,
    Orientation,
    /// How many lines a page has.
    FormLines,
    /// Where the panel's font is from: `I` is the printer itself.
    FontSource,
    /// Which of the fonts there it is, from 0 on.
    FontNumber,
    SymbolSet,
    /// Characters an inch.
    Pitch,
    Copies,
    Duplex,
    Binding,
    ManualFeed,
    /// When the multipurpose tray is used.
    MpTray,
    LineTermination,
    AppendCrToLf,
    WideA4,
    EdgeToEdge,
    OverrideA4WithLetter,
    /// What of the panel is locked.
    PanelLock,
    /// The printer's language.
    Personality,
    /// All bytes that the printer has.
    Memory,
}

/// All variables, in the order in which their values are warned of.
pub const VARIABLES: [Variable; 20] = [
    Variable::Paper,
    Variable::Orientation,
    Variable::FormLines,
    Variable::FontSource,
    Variable::FontNumber,
    Variable::SymbolSet,
    Variable::Pitch,
    Variable::Copies,
    Variable::Duplex,
    Variable::Binding,
    Variable::ManualFeed,
    Variable::MpTray,
    Variable::LineTermination,
    Variable::AppendCrToLf,
    Variable::WideA4,
    Variable::EdgeToEdge,
    Variable::OverrideA4WithLetter,
    Variable::PanelLock,
    Variable::Personality,
    Variable::Memory,
];

impl Variable {
    /// The name in PJL, without `LPARM:PCL`.
    pub fn word(self) -> &'static str
        ensures { result.now ≡ word_of self }
    {
        match self {
            Variable::Paper => "PAPER",
            Variable::Orientation => "ORIENTATION",
            Variable::FormLines => "FORMLINES",
            Variable::FontSource => "FONTSOURCE",
            Variable::FontNumber => "FONTNUMBER",
            Variable::SymbolSet => "SYMSET",
            Variable::Pitch => "PITCH",
            Variable::Copies => "COPIES",
            Variable::Duplex => "DUPLEX",
            Variable::Binding => "BINDING",
            Variable::ManualFeed => "MANUALFEED",
            Variable::MpTray => "MPTRAY",
            Variable::LineTermination => "LINETERMINATION",
            Variable::AppendCrToLf => "APPENDCRTOLF",
            Variable::WideA4 => "WIDEA4",
            Variable::EdgeToEdge => "EDGETOEDGE",
            Variable::OverrideA4WithLetter => "OVERRIDEA4WITHLETTER",
            Variable::PanelLock => "CPLOCK",
            Variable::Personality => "PERSONALITY",
            Variable::Memory => "MEMORY",
        }
    }
}
