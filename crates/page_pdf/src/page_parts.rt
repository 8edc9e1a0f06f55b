//! The fixed parts of what stands round the marks of a page.

/// A part that stands for itself.
#[derive(Clone, Copy)]
pub(crate) enum PagePart {
    /// Before the marks: the unit is 1/7200 inch, down from the upper edge, and lines are round at
    /// their ends.
    Start,
    /// Before the logical page, dashed.
    Logical,
    /// Before the printable area, thin.
    Printable,
    /// Behind the marks, or a sentence.
    End,
    /// Before the height of a page: at its foot stands what follows.
    Foot,
    /// Behind it.
    FootPlace,
    /// The verdict.
    Verdict,
    /// Before the number of the page.
    FootNumber,
    /// Behind it.
    FootEnd,
    /// Before the place where a job fails.
    Failure,
    /// A cross there.
    FailureEnd,
    /// Before a sentence, in red.
    Sentence,
    /// Between how wide its letters are and how high.
    SentenceHeight,
    /// Between where it stands and its codes.
    SentenceText,
    /// Behind them.
    SentenceEnd,
}

impl PagePart {
    ghost use Rattle.std.specs.Prelude.{◌≡◌};
    ghost use Rattle.page_pdf.specs.PageParts.{page_part};

    /// The bytes of the part.
    #[tactic(auto, unfolding(crate::specs::PageParts::page_part))]
    pub(crate) fn bytes(self) -> &'static [u8]
        ensures { result.now ≡ page_part self }
    {
        match self {
            PagePart::Start => b"q .01 0 0 -.01 0 0 cm 1 J\n",
            PagePart::Logical => b"q .5 G 48 w [240] 0 d ",
            PagePart::Printable => b"q .5 G 24 w ",
            PagePart::End => b"Q\n",
            PagePart::Foot => b"q 1 0 0 1 0 -",
            PagePart::FootPlace => b" cm ",
            PagePart::Verdict => b"/V Do ",
            PagePart::FootNumber => b"BT /F1 6 Tf 18 8 Td (page ",
            PagePart::FootEnd => b") Tj ET Q\n",
            PagePart::Failure => b"q 1 0 0 RG 72 w 1 0 0 1 ",
            PagePart::FailureEnd => b"cm -480 -480 m 480 480 l -480 480 m 480 -480 l S Q\n",
            PagePart::Sentence => b"q 1 0 0 rg BT /F1 1 Tf ",
            PagePart::SentenceHeight => b"0 0 -",
            PagePart::SentenceText => b"Tm <",
            PagePart::SentenceEnd => b"> Tj ET Q\n",
        }
    }
}
