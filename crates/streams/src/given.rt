//! What was given so far, piece by piece. Only proofs read it: it takes no memory, and the methods
//! do nothing at run time.
ghost use Rattle.std.specs.Prelude.{◌≡◌, ℕ, List, [], ◌∷◌, ◌++◌};
ghost use Rattle.std.specs.Borrow.{ftrue};

use std::marker::Model;

/// The pieces that were given so far. A clause reads them as `pieces`.
#[derive(Drop)]
pub struct Given {
    pub ghost pieces: { List (List ℕ) },
}

impl Model for Given {
    ghost also_owns = { λ _. ftrue };
}

/// One piece.
#[derive(Clone, Copy, Drop)]
struct Piece<'a> {
    bytes: &'a [u8],
}

impl Given {
    /// Before the first piece.
    pub fn new() -> Given
        ensures { result.pieces ≡ [] }
    {
        Given {}
    }

    /// And then this piece.
    pub fn and(&self, piece: &[u8]) -> Given
        ensures { result.pieces ≡ self.now.pieces ++ piece.now ∷ [] }
    {
        self.then(&Piece { bytes: piece })
    }

    #[inline(always)]
    fn then(&self, _piece: &Piece<'_>) -> Given
        ensures { result.pieces ≡ self.now.pieces ++ _piece.now.bytes.now ∷ [] }
    {
        Given {}
    }
}
