//! A body that is the payload itself.
ghost use Rattle.std.specs.Prelude.{◌≡◌};
ghost use Rattle.amqp_link_message.specs.Raw.{kept_items};

use crate::body::WriteBody;
use bytes::Bytes;
use serde_amqp_item::Error;
use serde_amqp_ser::{Serializer, Sink};

/// Bytes that are the payload of a message as they are, whatever sections they say. A message with such a body has no
/// other sections of its own.
#[derive(Debug, PartialEq, Drop)]
pub struct Raw(
    /// The bytes.
    pub Bytes,
);

impl WriteBody for Raw {
    ghost items = { λ r. kept_items r.0 };

    #[tactic(auto, using(crate::proofs::Listing::listing, crate::proofs::Keeping::keeping))]
    fn put<W: Sink>(&self, s: &mut Serializer<W>) -> Result<(), Error> {
        s.put(self.0.as_slice())?;
        Ok(())
    }

    #[tactic(auto, using(crate::proofs::Keeping::keeping))]
    fn as_written(&self) -> Option<&Bytes> {
        Some(&self.0)
    }
}
