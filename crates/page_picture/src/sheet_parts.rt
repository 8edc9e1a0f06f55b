//! The fixed parts of what stands round the marks.

/// A part that stands for itself.
#[derive(Clone, Copy)]
pub(crate) enum SheetPart {
    /// Before the width of the picture.
    PictureStart,
    /// Before its height.
    PictureHeight,
    /// Before its sides in units.
    PictureView,
    /// Behind these.
    PictureFont,
    /// Before the patterns.
    PatternsStart,
    /// Before the number of a pattern.
    PatternStart,
    /// Between its number and its lines.
    PatternSides,
    /// Behind them.
    PatternEnd,
    /// The lines of pattern 1.
    Horizontal,
    /// The lines of pattern 2.
    Vertical,
    /// The lines of pattern 3.
    Rising,
    /// The lines of pattern 4.
    Falling,
    /// The lines of pattern 5.
    Cross,
    /// The lines of pattern 6.
    DiagonalCross,
    /// Behind the patterns.
    PatternsEnd,
    /// Before the sides of the sheet.
    SheetStart,
    /// Behind them.
    SheetEnd,
    /// Before the logical page.
    LogicalStart,
    /// Behind it.
    LogicalEnd,
    /// Before the printable area.
    PrintableStart,
    /// Behind it.
    PrintableEnd,
    /// Before the place where a job fails.
    FailureStart,
    /// Behind it.
    FailureEnd,
    /// Before a sentence.
    SentenceStart,
    /// Between its attributes and its text.
    SentenceFill,
    /// Behind it.
    SentenceEnd,
    /// The end of the picture.
    PictureEnd,
    /// Before the verdict that stands above several pictures.
    DocumentStart,
    /// Behind it: what stands for what.
    DocumentLegend,
    /// Before the number of a page in such a document.
    PageNumber,
    /// Behind it.
    PageNumberEnd,
    /// Behind several pictures.
    DocumentEnd,
}

impl SheetPart {
    ghost use Rattle.std.specs.Prelude.{◌≡◌};
    ghost use Rattle.page_picture.specs.SheetParts.{sheet_part};

    /// The bytes of the part.
    #[tactic(auto, unfolding(crate::specs::SheetParts::sheet_part))]
    pub(crate) fn bytes(self) -> &'static [u8]
        ensures { result.now ≡ sheet_part self }
    {
        match self {
            SheetPart::PictureStart => b"<svg xmlns=\"http://www.w3.org/2000/svg\" width=\"",
            SheetPart::PictureHeight => b"in\" height=\"",
            SheetPart::PictureView => b"in\" viewBox=\"0 0 ",
            SheetPart::PictureFont => b"\" font-family=\"Courier New, Courier, monospace\">\n",
            SheetPart::PatternsStart => b"<defs stroke=\"black\" stroke-width=\"48\">\n",
            SheetPart::PatternStart => b"<pattern id=\"pattern",
            SheetPart::PatternSides => {
                b"\" patternUnits=\"userSpaceOnUse\" width=\"384\" height=\"384\"><path d=\""
            }
            SheetPart::PatternEnd => b"\"/></pattern>\n",
            SheetPart::Horizontal => b"M0 192h384",
            SheetPart::Vertical => b"M192 0v384",
            SheetPart::Rising => b"M-96 96L96-96M-96 480L480-96M288 480L480 288",
            SheetPart::Falling => b"M-96 288L96 480M-96-96L480 480M288-96L480 96",
            SheetPart::Cross => b"M0 192h384M192 0v384",
            SheetPart::DiagonalCross => b"M-96-96L480 480M-96 480L480-96",
            SheetPart::PatternsEnd => b"</defs>\n",
            SheetPart::SheetStart => b"<rect class=\"sheet\"",
            SheetPart::SheetEnd => b" fill=\"white\" stroke=\"black\" stroke-width=\"24\"/>\n",
            SheetPart::LogicalStart => b"<rect class=\"logical\"",
            SheetPart::LogicalEnd => {
                b" fill=\"none\" stroke=\"gray\" stroke-width=\"48\" stroke-dasharray=\"240\"/>\n"
            }
            SheetPart::PrintableStart => b"<rect class=\"printable\"",
            SheetPart::PrintableEnd => b" fill=\"none\" stroke=\"gray\" stroke-width=\"24\"/>\n",
            SheetPart::FailureStart => b"<path class=\"failure\" transform=\"translate(",
            SheetPart::FailureEnd => {
                b")\" d=\"M-480-480L480 480M-480 480L480-480\" stroke=\"red\" \
                stroke-width=\"72\"/>\n"
            }
            SheetPart::SentenceStart => b"<text class=\"sentence\" text-anchor=\"middle\"",
            SheetPart::SentenceFill => b" fill=\"red\">",
            SheetPart::SentenceEnd => b"</text>\n",
            SheetPart::PictureEnd => b"</svg>\n",
            SheetPart::DocumentStart => {
                b"<!DOCTYPE html>\n\
                <html lang=\"en\">\n\
                <head>\n\
                <meta charset=\"utf-8\"/>\n\
                <title>Pages</title>\n\
                <style>\n\
                @page { margin: 8mm; }\n\
                h2 { font-size: 1em; break-after: avoid; }\n\
                svg { display: block; max-width: 100%; max-height: 94vh; height: auto; margin: 0 \
                auto 1em; overflow: visible; }\n\
                @media print { ul { display: none; } svg { max-height: 85vh; break-after: page; \
                } }\n\
                </style>\n\
                </head>\n\
                <body>\n\
                <p>"
            }
            SheetPart::DocumentLegend => {
                b"</p>\n\
                <ul>\n\
                <li>Dashed: the logical page. Thin: the printable area. At the edges: \
                millimetres (gray) and inches (navy).</li>\n\
                <li>Silver: the box of a character, with --boxes, or where its code has no known \
                character.</li>\n\
                <li>Red: where the job fails. The marks before that are gray there.</li>\n\
                <li>Point at a mark to read what it is, the byte of its item, and its place from \
                the left and the upper edge.</li>\n\
                </ul>\n"
            }
            SheetPart::PageNumber => b"<h2>Page ",
            SheetPart::PageNumberEnd => b"</h2>\n",
            SheetPart::DocumentEnd => b"</body>\n</html>\n",
        }
    }
}
