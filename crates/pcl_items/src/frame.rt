//! The commands of an HP-GL/2 frame, by their letters.

ghost use Rattle.std.specs.Prelude.{◌≡◌, ◌≤◌, unsigned_abs};
ghost use Rattle.pcl_items.specs.Frames.Mnemonics.{capital, mnemonic_at, letters_of};
ghost use Rattle.pcl_items.specs.Escapes.Value.{most_units};

/// A command that moves the pen.
#[derive(Clone, Copy, Debug, PartialEq, Eq)]
pub enum Motion {
    /// `PU`, which raises the pen.
    Up,
    /// `PD`, which lowers the pen.
    Down,
    /// `PA`, whose coordinates are absolute.
    Absolute,
    /// `PR`, whose coordinates are relative.
    Relative,
}

/// A command with at most one number.
#[derive(Clone, Copy, Debug, PartialEq, Eq)]
pub enum Setting {
    /// `SP`, select pen.
    Pen,
    /// `PW`, pen width.
    Width,
}

/// A command of a frame, by its two letters.
#[derive(Clone, Copy)]
pub enum Mnemonic {
    /// `IN`, initialize.
    Initialize,
    /// A command with at most one number.
    Sets(Setting),
    /// A command with any number of pairs of coordinates.
    Moves(Motion),
}

/// A coordinate in plotter units.
#[derive(Clone, Copy, Debug, PartialEq, Eq)]
pub struct PlotterCoordinate {
    /// So many plotter units.
    pub units: i32,
    /// At most 8,388,607 to either side of 0.
    pub ghost within: { unsigned_abs units ≤ most_units },
}

/// The place to which a command moves the pen.
#[derive(Clone, Copy, Debug, PartialEq, Eq)]
pub struct Coordinates {
    /// The first coordinate.
    pub x: PlotterCoordinate,
    /// The second one.
    pub y: PlotterCoordinate,
}

/// Which position is taken on the way from one language to the other.
#[derive(Clone, Copy, Debug, PartialEq, Eq)]
pub enum Handover {
    /// The position of the language that is entered, as it was left.
    Previous,
    /// The position of the language that is left.
    Current,
}

/// The letter as a capital.
pub fn capital(letter: u8) -> u8
    ensures { result ≡ capital letter }
{
    match letter {
        b'a'..=b'z' => letter - 32,
        _ => letter,
    }
}

impl Mnemonic {
    /// The command of two capitals.
    pub fn of(first: u8, second: u8) -> Option<Mnemonic>
        ensures { result ≡ mnemonic_at first second }
    {
        match (first, second) {
            (b'I', b'N') => Some(Mnemonic::Initialize),
            (b'S', b'P') => Some(Mnemonic::Sets(Setting::Pen)),
            (b'P', b'W') => Some(Mnemonic::Sets(Setting::Width)),
            (b'P', b'U') => Some(Mnemonic::Moves(Motion::Up)),
            (b'P', b'D') => Some(Mnemonic::Moves(Motion::Down)),
            (b'P', b'A') => Some(Mnemonic::Moves(Motion::Absolute)),
            (b'P', b'R') => Some(Mnemonic::Moves(Motion::Relative)),
            _ => None,
        }
    }

    /// Its two capitals.
    pub fn letters(self) -> (u8, u8)
        ensures { result ≡ letters_of self }
    {
        match self {
            Mnemonic::Initialize => (b'I', b'N'),
            Mnemonic::Sets(Setting::Pen) => (b'S', b'P'),
            Mnemonic::Sets(Setting::Width) => (b'P', b'W'),
            Mnemonic::Moves(Motion::Up) => (b'P', b'U'),
            Mnemonic::Moves(Motion::Down) => (b'P', b'D'),
            Mnemonic::Moves(Motion::Absolute) => (b'P', b'A'),
            Mnemonic::Moves(Motion::Relative) => (b'P', b'R'),
        }
    }
}
