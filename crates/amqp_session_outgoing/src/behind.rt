//! The frames that leave right behind a transfer.
ghost use Rattle.std.specs.Prelude.{◌≡◌, ◌+◌, ◌^◌, ◌<◌, ◌≤◌, [], ◌∷◌, ◌++◌, length, OnOk, OnErr};

use crate::place::Place;
use std::alloc::{AllocError, Global};
use std::marker::Model;

/// The frames of a link that leave right behind one of its transfers, in order.
#[derive(Drop)]
pub struct Behind<F> {
    frames: Vec<F>,
}

impl<F> Model for Behind<F> {
    ghost use Rattle.std.specs.Prelude.{List};

    ghost Value = { List F };

    ghost view = { λ b. b.frames.items };
}

impl<F: Drop> Behind<F> {
    /// No frames. It takes no memory.
    pub fn new(alloc: Global) -> Self
        ensures { result ≡ [] }
    {
        Behind {
            frames: Vec::new(alloc),
        }
    }

    /// The frames, in order.
    pub fn into_frames(self) -> Vec<F>
        ensures { result.items ≡ self }
    {
        self.frames
    }

    /// How many frames there are.
    pub(crate) fn len(&self) -> usize
        ensures { result ≡ length self.now }
    {
        self.frames.len()
    }

    /// Puts a frame last, where there is memory or the place has room. Else it is refused, and nothing changes.
    pub(crate) fn push(&mut self, place: &mut Place<F>, frame: F) -> Result<(), AllocError>
        ensures ok { OnOk result (self.new ≡ self.old ++ frame ∷ []) }
        ensures err { OnErr result (self.new ≡ self.old) }
        ensures short { OnOk result (length self.old + 1 < 2 ^ 64) }
        ensures refused { OnErr result (place.old ≤ length self.old) }
    {
        place.take_in(&mut self.frames)?;
        self.frames.push_reserved(frame);
        Ok(())
    }
}
