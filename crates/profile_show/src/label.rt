//! The fixed words of the lines.

/// Words that stand in a line for themselves.
#[derive(Clone, Copy)]
pub(crate) enum Label {
    /// Before the finding on a job that does not set a field of several values.
    Unset,
    /// Above the pages.
    Pages,
    /// Before the sides of the logical page.
    LogicalPage,
    /// Behind how far it lies from the left.
    FromLeft,
    /// Behind how far it lies from the top.
    FromTop,
    /// Before the edges of the printable area.
    PrintableArea,
    /// Before how far a character moves the cursor.
    Advance,
    /// Before how far it reaches up.
    Ascent,
    /// Before how far it reaches down.
    Descent,
    /// Behind these three.
    Per7200,
}

impl Label {
    ghost use Rattle.std.specs.Prelude.{◌≡◌};
    ghost use Rattle.profile_show.specs.Label.{label};

    /// The words.
    #[tactic(auto, unfolding(crate::specs::Label::label))]
    pub(crate) fn words(self) -> &'static [u8]
        ensures { result.now ≡ label self }
    {
        match self {
            Label::Unset => b"    a job that does not set it fails by ",
            Label::Pages => b"pages, in dots of 1/300 inch:\n",
            Label::LogicalPage => b"    logical page: ",
            Label::FromLeft => b" from the left, ",
            Label::FromTop => b" from the top",
            Label::PrintableArea => b"    printable area: ",
            Label::Advance => b"    advance ",
            Label::Ascent => b", ascent ",
            Label::Descent => b", descent ",
            Label::Per7200 => b" (1/7200 inch)\n",
        }
    }
}
