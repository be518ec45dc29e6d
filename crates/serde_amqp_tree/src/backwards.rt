//! Texts that are written from the last byte to the first.
ghost use Rattle.std.specs.Prelude.{◌≡◌, ◌++◌, [], length, reverse, OnOk};

use serde_amqp_item::Error;
use std::alloc::Global;
use std::marker::Model;

/// A text to which bytes are added in front.
#[derive(Debug, Drop)]
pub(crate) struct Backwards {
    /// The bytes from the last to the first.
    bytes: Vec<u8>,
}

// A clause sees the text.
impl Model for Backwards {
    ghost use Rattle.std.specs.Prelude.{List, ℕ, reverse};

    ghost Value = { List ℕ };

    ghost view = { λ s. reverse s.bytes.items };
}

impl Backwards {
    /// No text.
    pub(crate) fn new(alloc: Global) -> Backwards
        ensures { result ≡ [] }
    {
        Backwards {
            bytes: Vec::new(alloc),
        }
    }

    /// How many bytes it has.
    #[tactic(auto, using(crate::proofs::Reversed::reversing))]
    pub(crate) fn len(&self) -> usize
        ensures { result ≡ length self.now }
    {
        self.bytes.len()
    }

    /// Adds bytes in front.
    #[tactic(auto, using(crate::proofs::Reversed::reversing))]
    pub(crate) fn put(&mut self, part: &[u8]) -> Result<(), Error>
        ensures { OnOk result (self.new ≡ part.now ++ self.old) }
    {
        append_reversed(&mut self.bytes, part)
    }

    /// The text.
    #[tactic(auto, using(crate::proofs::Reversed::reversing))]
    pub(crate) fn into_text(self) -> Vec<u8>
        ensures { result.items ≡ self }
    {
        let mut bytes = self.bytes;
        bytes.reverse();
        bytes
    }
}

/// Appends bytes, the last of them first.
fn append_reversed(bytes: &mut Vec<u8>, part: &[u8]) -> Result<(), Error>
    ensures { OnOk result (bytes.new.items ≡ bytes.old.items ++ reverse part.now) }
{
    for byte in part.iter().rev().copied() {
        bytes.push(byte)?;
    }
    Ok(())
}
