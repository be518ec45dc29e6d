//! The pieces that a frame is sent as.
ghost use Rattle.std.specs.Prelude.{◌≡◌, ◌∷◌, [], take, drop};

use crate::piece::Piece;
use std::marker::Model;

/// What a frame is sent as: one piece, and others behind it where it is a transfer that doesn't fit in one frame (part 2,
/// 2.7.5). A clause sees the pieces in their order.
#[derive(Debug, Drop)]
pub struct Pieces {
    first: Piece,
    others: Vec<Piece>,
}

impl Model for Pieces {
    ghost use Rattle.std.specs.Prelude.{List, ℕ, ◌∷◌};

    ghost Value = { List (List ℕ) };

    ghost view = { λ p. p.first ∷ p.others.items };
}

impl Pieces {
    /// This piece with the others behind it.
    #[inline(always)]
    pub(crate) fn new(first: Piece, others: Vec<Piece>) -> Self
        ensures { result ≡ first ∷ others.items }
    {
        Pieces { first, others }
    }

    /// The first piece. There is one always.
    pub fn first(&self) -> &Piece
        ensures { take 1 self.now ≡ result.now ∷ [] }
    {
        &self.first
    }

    /// The pieces behind the first one, in their order.
    pub fn others(&self) -> &[Piece]
        ensures { drop 1 self.now ≡ result.now }
    {
        self.others.as_slice()
    }

    /// The first piece, and those behind it in their order.
    pub fn into_parts(self) -> (Piece, Vec<Piece>)
        ensures { self ≡ result.0 ∷ result.1.items }
    {
        (self.first, self.others)
    }
}
