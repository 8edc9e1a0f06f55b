//! The bytes that the commands of an HP-GL/2 frame are written in.

ghost use Rattle.std.specs.Prelude.{◌≡◌};
ghost use Rattle.pcl_lexer.specs.Frames.Kinds.{kind_of};

pub(crate) mod first;
pub(crate) mod number;
pub(crate) mod pair;

/// What stands between a number of a command and the bytes that are read next.
#[derive(Clone, Copy)]
pub enum Gap {
    /// Nothing.
    Straight,
    /// White space.
    Spaced,
    /// A comma, with white space or none.
    Comma,
}

/// What a byte is within a frame.
#[derive(Clone, Copy, PartialEq, Eq)]
pub enum Kind {
    /// White space.
    White,
    /// `,`
    Comma,
    /// `;`
    Semicolon,
    /// A letter of either case.
    Letter,
    /// ESC
    Escape,
    /// `+` or `-`
    Sign,
    /// A digit or a point.
    Figure,
    /// Anything else.
    Other,
}

impl Kind {
    /// What the byte is.
    #[tactic(auto, unfolding(crate::specs::Frames::Kinds::kind_of))]
    pub fn of(byte: u8) -> Kind
        ensures { result ≡ kind_of byte }
    {
        match byte {
            b'\t' | b'\n' | b'\r' | b' ' => Kind::White,
            b',' => Kind::Comma,
            b';' => Kind::Semicolon,
            b'A'..=b'Z' | b'a'..=b'z' => Kind::Letter,
            b'\x1b' => Kind::Escape,
            b'+' | b'-' => Kind::Sign,
            b'0'..=b'9' | b'.' => Kind::Figure,
            _ => Kind::Other,
        }
    }
}
