//! The fixed parts of the rulers along two edges of a sheet.

/// A part that stands for itself.
#[derive(Clone, Copy)]
pub(crate) enum RulerPart {
    /// Before the rulers.
    RulersStart,
    /// Behind them.
    RulersEnd,
    /// Before the length of the upper edge, of which each millimetre has a tick.
    UpperMillimetres,
    /// The same of the left edge.
    LeftMillimetres,
    /// The same of the upper edge, for centimetres.
    UpperCentimetres,
    /// The same of the left edge.
    LeftCentimetres,
    /// The same of the upper edge, for inches.
    UpperInches,
    /// The same of the left edge.
    LeftInches,
    /// Behind the length of an edge: a tick for each millimetre.
    MillimetreTicks,
    /// The same for each centimetre.
    CentimetreTicks,
    /// The same for each inch.
    InchTicks,
    /// Before where a number of millimetres stands at the upper edge.
    UpperMillimetreLabel,
    /// The same at the left edge.
    LeftMillimetreLabel,
    /// Before where a number of inches stands at the upper edge.
    UpperInchLabel,
    /// The same at the left edge.
    LeftInchLabel,
    /// Between where a number stands and the number.
    LabelText,
    /// Behind it.
    LabelEnd,
}

impl RulerPart {
    ghost use Rattle.std.specs.Prelude.{◌≡◌};
    ghost use Rattle.page_picture.specs.RulerParts.{ruler_part};

    /// The bytes of the part.
    #[tactic(auto, unfolding(crate::specs::RulerParts::ruler_part))]
    pub(crate) fn bytes(self) -> &'static [u8]
        ensures { result.now ≡ ruler_part self }
    {
        match self {
            RulerPart::RulersStart => {
                b"<g class=\"rulers\" font-size=\"600\" text-anchor=\"middle\">\n"
            }
            RulerPart::RulersEnd => b"</g>\n",
            RulerPart::UpperMillimetres => b"<path d=\"M0 100H",
            RulerPart::LeftMillimetres => b"<path d=\"M100 0V",
            RulerPart::UpperCentimetres => b"<path d=\"M0 200H",
            RulerPart::LeftCentimetres => b"<path d=\"M200 0V",
            RulerPart::UpperInches => b"<path d=\"M0 600H",
            RulerPart::LeftInches => b"<path d=\"M600 0V",
            RulerPart::MillimetreTicks => {
                b"\" stroke=\"gray\" stroke-width=\"200\" stroke-dasharray=\"20 \
                263.464567\" stroke-dashoffset=\"10\"/>\n"
            }
            RulerPart::CentimetreTicks => {
                b"\" stroke=\"gray\" stroke-width=\"400\" stroke-dasharray=\"20 \
                2814.645669\" stroke-dashoffset=\"10\"/>\n"
            }
            RulerPart::InchTicks => {
                b"\" stroke=\"navy\" stroke-width=\"1200\" stroke-dasharray=\"20 \
                7180\" stroke-dashoffset=\"10\"/>\n"
            }
            RulerPart::UpperMillimetreLabel => b"<text fill=\"gray\" y=\"1000\"",
            RulerPart::LeftMillimetreLabel => b"<text fill=\"gray\" x=\"800\" dy=\"200\"",
            RulerPart::UpperInchLabel => b"<text fill=\"navy\" y=\"1900\"",
            RulerPart::LeftInchLabel => b"<text fill=\"navy\" x=\"1700\" dy=\"200\"",
            RulerPart::LabelText => b">",
            RulerPart::LabelEnd => b"</text>\n",
        }
    }
}
