//! The fixed parts of what shows why a job fails, and what its mark leaves.

/// A part that stands for itself.
#[derive(Clone, Copy)]
pub(crate) enum FailurePart {
    /// Before the sides of what makes the marks before the failure gray.
    VeilStart,
    /// Behind them.
    VeilEnd,
    /// Before the box of the mark that fails.
    MarkStart,
    /// Behind it.
    MarkEnd,
    /// Before the box that it leaves.
    LimitStart,
    /// Behind it.
    LimitEnd,
    /// Before where the measures of the mark stand.
    MarkMeasure,
    /// The same of the box that it leaves, a line below.
    LimitMeasure,
    /// Between where measures stand and what they are of.
    MeasureText,
    /// What the measures of the mark are of.
    MarkName,
    /// Before how far a box goes from left to right.
    MeasureX,
    /// Between where a box begins and where it ends.
    MeasureTo,
    /// Before how far a box goes from top to bottom.
    MeasureY,
    /// Behind measures.
    MeasureEnd,
}

impl FailurePart {
    ghost use Rattle.std.specs.Prelude.{◌≡◌};
    ghost use Rattle.page_picture.specs.FailureParts.{failure_part};

    /// The bytes of the part.
    #[tactic(auto, unfolding(crate::specs::FailureParts::failure_part))]
    pub(crate) fn bytes(self) -> &'static [u8]
        ensures { result.now ≡ failure_part self }
    {
        match self {
            FailurePart::VeilStart => b"<rect class=\"veil\"",
            FailurePart::VeilEnd => b" fill=\"white\" fill-opacity=\".65\"/>\n",
            FailurePart::MarkStart => b"<rect class=\"failure\"",
            FailurePart::MarkEnd => {
                b" fill=\"red\" fill-opacity=\".3\" stroke=\"red\" stroke-width=\"48\"/>\n"
            }
            FailurePart::LimitStart => b"<rect class=\"limit\"",
            FailurePart::LimitEnd => b" fill=\"none\" stroke=\"red\" stroke-width=\"72\"/>\n",
            FailurePart::MarkMeasure => {
                b"<text class=\"measure\" text-anchor=\"middle\" font-size=\"900\" fill=\"red\""
            }
            FailurePart::LimitMeasure => {
                b"<text class=\"measure\" text-anchor=\"middle\" \
                font-size=\"900\" fill=\"red\" dy=\"1200\""
            }
            FailurePart::MeasureText => b">",
            FailurePart::MarkName => b"what fails: ",
            FailurePart::MeasureX => b"x ",
            FailurePart::MeasureTo => b" to ",
            FailurePart::MeasureY => b" mm, y ",
            FailurePart::MeasureEnd => b" mm</text>\n",
        }
    }
}

/// A box that a mark may not leave.
#[derive(Clone, Copy)]
pub enum Limit {
    /// The printable area.
    PrintableArea,
    /// The logical page.
    LogicalPage,
    /// What is left of the right margin.
    RightMargin,
    /// The picture frame.
    PictureFrame,
}

impl Limit {
    ghost use Rattle.std.specs.Prelude.{◌≡◌};
    ghost use Rattle.page_picture.specs.FailureParts.{limit_name};

    /// What its measures are of.
    #[tactic(auto, unfolding(crate::specs::FailureParts::limit_name))]
    pub(crate) fn name(self) -> &'static [u8]
        ensures { result.now ≡ limit_name self }
    {
        match self {
            Limit::PrintableArea => b"printable area: ",
            Limit::LogicalPage => b"logical page: ",
            Limit::RightMargin => b"left of the right margin: ",
            Limit::PictureFrame => b"picture frame: ",
        }
    }
}
