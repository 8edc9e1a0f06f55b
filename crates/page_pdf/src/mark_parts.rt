//! The fixed parts of what marks a page.

/// A part that stands for itself.
#[derive(Clone, Copy)]
pub(crate) enum MarkPart {
    /// Before a white rectangle.
    White,
    /// Before the number of a shade.
    Shade,
    /// Behind it.
    ShadeEnd,
    /// Before the number of a pattern.
    Pattern,
    /// Behind it.
    PatternEnd,
    /// Behind the sides of a rectangle.
    Rectangle,
    /// Fills it.
    Filled,
    /// Fills it, and returns to black.
    FilledBlackNext,
    /// Fills it, and returns to what hides all below it.
    FilledWholeNext,
    /// Behind the width of a line.
    LineWidth,
    /// Behind where it begins.
    LineFrom,
    /// Behind where it ends.
    LineTo,
    /// Before rows of a raster.
    BandStart,
    /// Between how wide they are and how high; the first lies on top.
    BandHeight,
    /// Between that and where it stands.
    BandPlace,
    /// Before how many pixels a row has.
    BandPixels,
    /// Before how many rows there are.
    BandRows,
    /// Before their bytes; a bit that is set is black.
    BandData,
    /// Behind them.
    BandEnd,
    /// Before the box of a character.
    BoxStart,
    /// Behind a box.
    BoxEnd,
    /// Before the face of a character.
    TextStart,
    /// The same of one that is there to be found, and does not show.
    HiddenStart,
    /// Behind the face.
    TextSize,
    /// Between how wide letters are and how high.
    TextHeight,
    /// Before their codes.
    TextCode,
    /// Behind them.
    TextEnd,
    /// The same of one that does not show.
    HiddenEnd,
}

impl MarkPart {
    ghost use Rattle.std.specs.Prelude.{◌≡◌};
    ghost use Rattle.page_pdf.specs.MarkParts.{mark_part};

    /// The bytes of the part.
    #[tactic(auto, unfolding(crate::specs::MarkParts::mark_part))]
    pub(crate) fn bytes(self) -> &'static [u8]
        ensures { result.now ≡ mark_part self }
    {
        match self {
            MarkPart::White => b"1 g ",
            MarkPart::Shade => b"/S",
            MarkPart::ShadeEnd => b" gs ",
            MarkPart::Pattern => b"/Pattern cs /P",
            MarkPart::PatternEnd => b" scn ",
            MarkPart::Rectangle => b"re ",
            MarkPart::Filled => b"f\n",
            MarkPart::FilledBlackNext => b"f 0 g\n",
            MarkPart::FilledWholeNext => b"f /S0 gs\n",
            MarkPart::LineWidth => b"w ",
            MarkPart::LineFrom => b"m ",
            MarkPart::LineTo => b"l S\n",
            MarkPart::BandStart => b"q ",
            MarkPart::BandHeight => b" 0 0 -",
            MarkPart::BandPlace => b" ",
            MarkPart::BandPixels => b"cm BI/W ",
            MarkPart::BandRows => b"/H ",
            MarkPart::BandData => b"/IM true/D[1 0]ID ",
            MarkPart::BandEnd => b"\nEI Q\n",
            MarkPart::BoxStart => b"q .75 G 24 w ",
            MarkPart::BoxEnd => b"S Q\n",
            MarkPart::TextStart => b"BT /",
            MarkPart::HiddenStart => b"BT 3 Tr /",
            MarkPart::TextSize => b" 1 Tf ",
            MarkPart::TextHeight => b"0 0 -",
            MarkPart::TextCode => b"Tm <",
            MarkPart::TextEnd => b"> Tj ET\n",
            MarkPart::HiddenEnd => b"> Tj 0 Tr ET\n",
        }
    }
}
