//! The fields of a printer's control panel.
ghost use Rattle.std.specs.Prelude.{◌≡◌};

/// A field of the control panel. A job that leaves one unset takes the panel's value.
///
/// This is the order in which unset fields are reported.
#[derive(Clone, Copy, Debug, PartialEq, Eq)]
pub enum Field {
    /// The page size, as `ESC &l#A` numbers it.
    Size,
    /// The orientation, as `ESC &l#O` numbers it.
    Orientation,
    /// The vertical motion index.
    Vmi,
    /// The font.
    Font,
    /// The number of copies.
    Copies,
    /// One side or both, as `ESC &l#S` numbers it.
    Sides,
    /// The paper tray.
    Tray,
    /// Line termination, as `ESC &k#G` numbers it.
    LineTerm,
}

impl Field {
    ghost use Rattle.device_profile.specs.Field.{field_key, field_name, has_decimals};

    /// All fields, in this order, in which the text of a profile has their keys, too.
    pub const ALL: [Field; 8] = [
        Field::Size,
        Field::Orientation,
        Field::Vmi,
        Field::Font,
        Field::Copies,
        Field::Sides,
        Field::Tray,
        Field::LineTerm,
    ];

    /// The key in a profile's text.
    pub fn key(self) -> &'static [u8]
        ensures { result.now ≡ field_key self }
    {
        match self {
            Field::Size => b"size",
            Field::Orientation => b"orientation",
            Field::Vmi => b"vmi",
            Field::Font => b"font",
            Field::Copies => b"copies",
            Field::Sides => b"sides",
            Field::Tray => b"tray",
            Field::LineTerm => b"lineterm",
        }
    }

    /// Whether a value may have decimals, and counts ten-thousandths; others are whole.
    pub fn has_decimals(self) -> bool
        ensures { result ≡ has_decimals self }
    {
        matches!(self, Field::Vmi)
    }

    /// The name in a verdict.
    pub fn name(self) -> &'static [u8]
        ensures { result.now ≡ field_name self }
    {
        match self {
            Field::Size => b"Size",
            Field::Orientation => b"Orientation",
            Field::Vmi => b"Vmi",
            Field::Font => b"Font",
            Field::Copies => b"Copies",
            Field::Sides => b"Sides",
            Field::Tray => b"Tray",
            Field::LineTerm => b"LineTerm",
        }
    }
}
