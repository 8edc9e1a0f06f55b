//! The fixed parts of the elements of marks.

/// A part of an element that stands for itself.
#[derive(Clone, Copy)]
pub(crate) enum MarkPart {
    /// Before a rectangle.
    AreaStart,
    /// How a black one is filled.
    Black,
    /// How a white one is filled.
    White,
    /// Before the density of a shade.
    Shade,
    /// Behind it.
    ShadeEnd,
    /// Before the number of a pattern.
    Pattern,
    /// Behind it.
    PatternEnd,
    /// The end of a rectangle.
    RectangleEnd,
    /// Before the box of a character.
    BoxStart,
    /// Behind it.
    BoxEnd,
    /// Behind the box of one of which no text is known.
    UnknownBox,
    /// Before the text of a character.
    GlyphStart,
    /// Of one in a bold face.
    Bold,
    /// Of one in an italic face.
    Italic,
    /// Between its attributes and its character.
    GlyphText,
    /// Behind it.
    TextEnd,
    /// Before a row of a raster.
    RowStart,
    /// Between its place and how large its pixels are.
    RowScale,
    /// Behind these.
    RowPlaceEnd,
    /// Before its runs.
    RowRuns,
    /// Before its runs once more, which are drawn without smoothing.
    RowAgain,
    /// Behind them.
    RowEnd,
    /// Before a line of a pen.
    LineStart,
    /// How it looks.
    LineLook,
    /// The end of a line.
    LineEnd,
    /// The title of a rectangle, up to where it stands.
    RectangleTitle,
    /// That of a character, up to its code.
    CharacterTitle,
    /// That of a row of a raster, up to where it stands.
    RowTitle,
    /// That of a line of a pen.
    LineTitle,
    /// Before the number of bytes before its item.
    TitlePlace,
    /// Between that and how far it stands from the left edge of the sheet.
    TitleX,
    /// Between that and how far it stands from the upper edge.
    TitleY,
    /// Behind that.
    TitleEnd,
}

impl MarkPart {
    ghost use Rattle.std.specs.Prelude.{◌≡◌};
    ghost use Rattle.page_picture.specs.MarkParts.{mark_part};

    /// The bytes of the part.
    #[tactic(auto, unfolding(crate::specs::MarkParts::mark_part))]
    pub(crate) fn bytes(self) -> &'static [u8]
        ensures { result.now ≡ mark_part self }
    {
        match self {
            MarkPart::AreaStart => b"<rect class=\"area\"",
            MarkPart::Black => b" fill=\"black\">",
            MarkPart::White => b" fill=\"white\">",
            MarkPart::Shade => b" fill=\"black\" fill-opacity=\"",
            MarkPart::ShadeEnd => b"\">",
            MarkPart::Pattern => b" fill=\"url(#pattern",
            MarkPart::PatternEnd => b")\">",
            MarkPart::RectangleEnd => b"</rect>\n",
            MarkPart::BoxStart => b"<rect class=\"box\"",
            MarkPart::BoxEnd => b" fill=\"none\" stroke=\"silver\" stroke-width=\"24\"/>\n",
            MarkPart::UnknownBox => {
                b" fill=\"none\" pointer-events=\"all\" stroke=\"silver\" stroke-width=\"24\">"
            }
            MarkPart::GlyphStart => b"<text class=\"glyph\"",
            MarkPart::Bold => b" font-weight=\"bold\"",
            MarkPart::Italic => b" font-style=\"italic\"",
            MarkPart::GlyphText => b" lengthAdjust=\"spacingAndGlyphs\">",
            MarkPart::TextEnd => b"</text>\n",
            MarkPart::RowStart => b"<g class=\"row\" transform=\"translate(",
            MarkPart::RowScale => b") scale(",
            MarkPart::RowPlaceEnd => b")\">",
            MarkPart::RowRuns => b"<path d=\"",
            MarkPart::RowAgain => b"\"/><path shape-rendering=\"crispEdges\" d=\"",
            MarkPart::RowEnd => b"\"/></g>\n",
            MarkPart::LineStart => b"<line class=\"line\"",
            MarkPart::LineLook => b" stroke=\"black\" stroke-linecap=\"round\">",
            MarkPart::LineEnd => b"</line>\n",
            MarkPart::RectangleTitle => b"<title>rectangle",
            MarkPart::CharacterTitle => b"<title>character ",
            MarkPart::RowTitle => b"<title>raster row",
            MarkPart::LineTitle => b"<title>line",
            MarkPart::TitlePlace => b", byte ",
            MarkPart::TitleX => b", x ",
            MarkPart::TitleY => b" mm, y ",
            MarkPart::TitleEnd => b" mm</title>",
        }
    }
}
