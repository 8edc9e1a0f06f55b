//! What is drawn of a job.
ghost use Rattle.std.specs.Prelude.{◌≡◌};

/// Which pages of a job are drawn.
#[derive(Clone, Copy, Debug, PartialEq, Eq)]
pub enum DrawnPages {
    /// All of them, in one document.
    All,
    /// The page of this number, from 1, as a picture by itself.
    One(u64),
}

/// Which pages of a job are drawn, and whether each character with its box.
#[derive(Clone, Copy, Debug, PartialEq, Eq)]
pub struct Selection {
    pub pages: DrawnPages,
    pub has_boxes: bool,
}

impl Selection {
    ghost use Rattle.requests.specs.Selection.{has_patterns, is_behind, is_drawn};

    /// Whether the page of this number is drawn.
    pub fn is_drawn(self, page: u64) -> bool
        ensures { result ≡ is_drawn self page }
    {
        match self.pages {
            DrawnPages::All => true,
            DrawnPages::One(number) => number == page,
        }
    }

    /// Whether the picture of the page of this number, which is drawn, has the patterns: in a
    /// document the first alone.
    pub fn has_patterns(self, page: u64) -> bool
        ensures { result ≡ has_patterns self page }
    {
        match self.pages {
            DrawnPages::All => page == 1,
            DrawnPages::One(_) => true,
        }
    }

    /// Whether the page of this number lies behind all that are drawn.
    pub fn is_behind(self, page: u64) -> bool
        ensures { result ≡ is_behind self page }
    {
        match self.pages {
            DrawnPages::All => false,
            DrawnPages::One(number) => number < page,
        }
    }
}
