//! The parameterized commands, by group and letter.

ghost use Rattle.std.specs.Prelude.{◌≡◌};
ghost use Rattle.pcl_items.specs.Escapes.Commands.{introducer_of, character_of, group_at};
ghost use Rattle.pcl_items.specs.Escapes.Commands.{command_at, data_command_at, spelling_of};
ghost use Rattle.pcl_items.specs.Escapes.Commands.{group_of, letter_of, data_spelling_of};
ghost use Rattle.pcl_items.specs.Escapes.Commands.{data_group_of, data_letter_of};

/// The groups of parameterized commands, each by its parameterized and its group character.
#[derive(Clone, Copy, Debug, PartialEq, Eq)]
pub enum Group {
    /// `&a`
    Position,
    /// `&f`
    Macro,
    /// `&k`
    Spacing,
    /// `&l`
    Layout,
    /// `&p`
    Transparent,
    /// `&u`
    Units,
    /// `*b`
    RasterData,
    /// `*c`
    Rectangle,
    /// `*p`
    UnitPosition,
    /// `*r`
    Raster,
    /// `*t`
    Resolution,
    /// `(s`
    Font,
}

/// The parameterized commands, `#` standing for the value field.
#[derive(Clone, Copy, Debug, PartialEq, Eq)]
pub enum Command {
    /// `&a#L`
    LeftMargin,
    /// `&a#M`
    RightMargin,
    /// `&a#C`
    Column,
    /// `&a#R`
    Row,
    /// `&a#H`
    HorizontalDecipoints,
    /// `&a#V`
    VerticalDecipoints,
    /// `&f#S`
    CursorStack,
    /// `&f#Y`
    MacroId,
    /// `&f#X`
    MacroControl,
    /// `&k#H`
    HorizontalMotionIndex,
    /// `&k#G`
    LineTermination,
    /// `&l#A`
    PageSize,
    /// `&l#O`
    Orientation,
    /// `&l#X`
    Copies,
    /// `&l#S`
    Sides,
    /// `&l#H`
    Source,
    /// `&l#C`
    VerticalMotionIndex,
    /// `&l#D`
    LineSpacing,
    /// `&l#E`
    TopMargin,
    /// `&l#F`
    TextLength,
    /// `&l#L`
    PerforationSkip,
    /// `&u#D`
    UnitOfMeasure,
    /// `*c#A`
    RectangleWidth,
    /// `*c#B`
    RectangleHeight,
    /// `*c#P`
    FillRectangle,
    /// `*c#H`
    RectangleWidthDecipoints,
    /// `*c#V`
    RectangleHeightDecipoints,
    /// `*c#G`
    FillId,
    /// `*c#T`
    PictureFrameAnchor,
    /// `*c#X`
    PictureFrameWidth,
    /// `*c#Y`
    PictureFrameHeight,
    /// `*t#R`
    RasterResolution,
    /// `*r#A`
    StartRaster,
    /// `*r#S`
    RasterWidth,
    /// `*r#T`
    RasterHeight,
    /// `*r#F`
    RasterPresentation,
    /// `*rB`
    EndRaster,
    /// `*rC`
    EndRasterAndMethod,
    /// `*b#M`
    CompressionMethod,
    /// `*b#Y`
    RasterOffset,
    /// `*p#X`
    HorizontalUnits,
    /// `*p#Y`
    VerticalUnits,
    /// `(s#P`
    FontSpacing,
    /// `(s#H`
    FontPitch,
    /// `(s#V`
    FontHeight,
    /// `(s#S`
    FontStyle,
    /// `(s#B`
    FontWeight,
    /// `(s#T`
    FontTypeface,
}

/// The commands whose number counts the bytes of data behind them.
#[derive(Clone, Copy, Debug, PartialEq, Eq)]
pub enum DataCommand {
    /// `&p#X`
    TransparentText,
    /// `*b#W`
    RasterRow,
}

impl DataCommand {
    /// The command with data of a group and a termination character.
    pub fn of(group: Group, letter: u8) -> Option<DataCommand>
        ensures { result ≡ data_command_at group letter }
    {
        match (group, letter) {
            (Group::Transparent, b'X') => Some(DataCommand::TransparentText),
            (Group::RasterData, b'W') => Some(DataCommand::RasterRow),
            _ => None,
        }
    }

    /// Its group and its termination character.
    fn spelling(self) -> (Group, u8)
        ensures { result ≡ data_spelling_of self }
    {
        match self {
            DataCommand::TransparentText => (Group::Transparent, b'X'),
            DataCommand::RasterRow => (Group::RasterData, b'W'),
        }
    }

    /// Its group.
    pub fn group(self) -> Group
        ensures { result ≡ data_group_of self }
    {
        self.spelling().0
    }

    /// Its termination character.
    pub fn letter(self) -> u8
        ensures { result ≡ data_letter_of self }
    {
        self.spelling().1
    }
}

impl Group {
    /// The character behind ESC.
    pub fn introducer(self) -> u8
        ensures { result ≡ introducer_of self }
    {
        match self {
            Group::Position | Group::Macro | Group::Spacing => b'&',
            Group::Layout | Group::Transparent | Group::Units => b'&',
            Group::RasterData | Group::Rectangle | Group::UnitPosition => b'*',
            Group::Raster | Group::Resolution => b'*',
            Group::Font => b'(',
        }
    }

    /// The group character behind the introducer.
    pub fn character(self) -> u8
        ensures { result ≡ character_of self }
    {
        match self {
            Group::Position => b'a',
            Group::Macro => b'f',
            Group::Spacing => b'k',
            Group::Layout => b'l',
            Group::Transparent | Group::UnitPosition => b'p',
            Group::Units => b'u',
            Group::RasterData => b'b',
            Group::Rectangle => b'c',
            Group::Raster => b'r',
            Group::Resolution => b't',
            Group::Font => b's',
        }
    }

    /// The group of a parameterized and a group character.
    #[inline(always)]
    pub fn of(introducer: u8, character: u8) -> Option<Group>
        ensures { result ≡ group_at introducer character }
    {
        match (introducer, character) {
            (b'&', b'a') => Some(Group::Position),
            (b'&', b'f') => Some(Group::Macro),
            (b'&', b'k') => Some(Group::Spacing),
            (b'&', b'l') => Some(Group::Layout),
            (b'&', b'p') => Some(Group::Transparent),
            (b'&', b'u') => Some(Group::Units),
            (b'*', b'b') => Some(Group::RasterData),
            (b'*', b'c') => Some(Group::Rectangle),
            (b'*', b'p') => Some(Group::UnitPosition),
            (b'*', b'r') => Some(Group::Raster),
            (b'*', b't') => Some(Group::Resolution),
            (b'(', b's') => Some(Group::Font),
            _ => None,
        }
    }
}

impl Command {
    /// The command of a group and a termination character.
    #[inline(always)]
    pub fn of(group: Group, letter: u8) -> Option<Command>
        ensures { result ≡ command_at group letter }
    {
        match (group, letter) {
            (Group::Position, b'L') => Some(Command::LeftMargin),
            (Group::Position, b'M') => Some(Command::RightMargin),
            (Group::Position, b'C') => Some(Command::Column),
            (Group::Position, b'R') => Some(Command::Row),
            (Group::Position, b'H') => Some(Command::HorizontalDecipoints),
            (Group::Position, b'V') => Some(Command::VerticalDecipoints),
            (Group::Macro, b'S') => Some(Command::CursorStack),
            (Group::Macro, b'Y') => Some(Command::MacroId),
            (Group::Macro, b'X') => Some(Command::MacroControl),
            (Group::Spacing, b'H') => Some(Command::HorizontalMotionIndex),
            (Group::Spacing, b'G') => Some(Command::LineTermination),
            (Group::Layout, b'A') => Some(Command::PageSize),
            (Group::Layout, b'O') => Some(Command::Orientation),
            (Group::Layout, b'X') => Some(Command::Copies),
            (Group::Layout, b'S') => Some(Command::Sides),
            (Group::Layout, b'H') => Some(Command::Source),
            (Group::Layout, b'C') => Some(Command::VerticalMotionIndex),
            (Group::Layout, b'D') => Some(Command::LineSpacing),
            (Group::Layout, b'E') => Some(Command::TopMargin),
            (Group::Layout, b'F') => Some(Command::TextLength),
            (Group::Layout, b'L') => Some(Command::PerforationSkip),
            (Group::Units, b'D') => Some(Command::UnitOfMeasure),
            (Group::Rectangle, b'A') => Some(Command::RectangleWidth),
            (Group::Rectangle, b'B') => Some(Command::RectangleHeight),
            (Group::Rectangle, b'P') => Some(Command::FillRectangle),
            (Group::Rectangle, b'H') => Some(Command::RectangleWidthDecipoints),
            (Group::Rectangle, b'V') => Some(Command::RectangleHeightDecipoints),
            (Group::Rectangle, b'G') => Some(Command::FillId),
            (Group::Rectangle, b'T') => Some(Command::PictureFrameAnchor),
            (Group::Rectangle, b'X') => Some(Command::PictureFrameWidth),
            (Group::Rectangle, b'Y') => Some(Command::PictureFrameHeight),
            (Group::Resolution, b'R') => Some(Command::RasterResolution),
            (Group::Raster, b'A') => Some(Command::StartRaster),
            (Group::Raster, b'S') => Some(Command::RasterWidth),
            (Group::Raster, b'T') => Some(Command::RasterHeight),
            (Group::Raster, b'F') => Some(Command::RasterPresentation),
            (Group::Raster, b'B') => Some(Command::EndRaster),
            (Group::Raster, b'C') => Some(Command::EndRasterAndMethod),
            (Group::RasterData, b'M') => Some(Command::CompressionMethod),
            (Group::RasterData, b'Y') => Some(Command::RasterOffset),
            (Group::UnitPosition, b'X') => Some(Command::HorizontalUnits),
            (Group::UnitPosition, b'Y') => Some(Command::VerticalUnits),
            (Group::Font, b'P') => Some(Command::FontSpacing),
            (Group::Font, b'H') => Some(Command::FontPitch),
            (Group::Font, b'V') => Some(Command::FontHeight),
            (Group::Font, b'S') => Some(Command::FontStyle),
            (Group::Font, b'B') => Some(Command::FontWeight),
            (Group::Font, b'T') => Some(Command::FontTypeface),
            _ => None,
        }
    }

    /// Its group and its termination character.
    fn spelling(self) -> (Group, u8)
        ensures { result ≡ spelling_of self }
    {
        match self {
            Command::LeftMargin => (Group::Position, b'L'),
            Command::RightMargin => (Group::Position, b'M'),
            Command::Column => (Group::Position, b'C'),
            Command::Row => (Group::Position, b'R'),
            Command::HorizontalDecipoints => (Group::Position, b'H'),
            Command::VerticalDecipoints => (Group::Position, b'V'),
            Command::CursorStack => (Group::Macro, b'S'),
            Command::MacroId => (Group::Macro, b'Y'),
            Command::MacroControl => (Group::Macro, b'X'),
            Command::HorizontalMotionIndex => (Group::Spacing, b'H'),
            Command::LineTermination => (Group::Spacing, b'G'),
            Command::PageSize => (Group::Layout, b'A'),
            Command::Orientation => (Group::Layout, b'O'),
            Command::Copies => (Group::Layout, b'X'),
            Command::Sides => (Group::Layout, b'S'),
            Command::Source => (Group::Layout, b'H'),
            Command::VerticalMotionIndex => (Group::Layout, b'C'),
            Command::LineSpacing => (Group::Layout, b'D'),
            Command::TopMargin => (Group::Layout, b'E'),
            Command::TextLength => (Group::Layout, b'F'),
            Command::PerforationSkip => (Group::Layout, b'L'),
            Command::UnitOfMeasure => (Group::Units, b'D'),
            Command::RectangleWidth => (Group::Rectangle, b'A'),
            Command::RectangleHeight => (Group::Rectangle, b'B'),
            Command::FillRectangle => (Group::Rectangle, b'P'),
            Command::RectangleWidthDecipoints => (Group::Rectangle, b'H'),
            Command::RectangleHeightDecipoints => (Group::Rectangle, b'V'),
            Command::FillId => (Group::Rectangle, b'G'),
            Command::PictureFrameAnchor => (Group::Rectangle, b'T'),
            Command::PictureFrameWidth => (Group::Rectangle, b'X'),
            Command::PictureFrameHeight => (Group::Rectangle, b'Y'),
            Command::RasterResolution => (Group::Resolution, b'R'),
            Command::StartRaster => (Group::Raster, b'A'),
            Command::RasterWidth => (Group::Raster, b'S'),
            Command::RasterHeight => (Group::Raster, b'T'),
            Command::RasterPresentation => (Group::Raster, b'F'),
            Command::EndRaster => (Group::Raster, b'B'),
            Command::EndRasterAndMethod => (Group::Raster, b'C'),
            Command::CompressionMethod => (Group::RasterData, b'M'),
            Command::RasterOffset => (Group::RasterData, b'Y'),
            Command::HorizontalUnits => (Group::UnitPosition, b'X'),
            Command::VerticalUnits => (Group::UnitPosition, b'Y'),
            Command::FontSpacing => (Group::Font, b'P'),
            Command::FontPitch => (Group::Font, b'H'),
            Command::FontHeight => (Group::Font, b'V'),
            Command::FontStyle => (Group::Font, b'S'),
            Command::FontWeight => (Group::Font, b'B'),
            Command::FontTypeface => (Group::Font, b'T'),
        }
    }

    /// Its group.
    pub fn group(self) -> Group
        ensures { result ≡ group_of self }
    {
        self.spelling().0
    }

    /// Its termination character.
    pub fn letter(self) -> u8
        ensures { result ≡ letter_of self }
    {
        self.spelling().1
    }
}
