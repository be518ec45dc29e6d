//! What comes in on a receiving link (part 2, 2.7.5 and 2.7.6).
ghost use Rattle.std.specs.Prelude.{◌≡◌};
ghost use Rattle.amqp_link_receiver.specs.Incoming.{TransferTaken, disposed, dropped};

use crate::link::ReceiverLink;
use crate::{Answer, Registering, Told};
use amqp_session_performatives::Transfer;
use amqp_session_types::DeliveryTag;
use bytes::Bytes;
use std::alloc::{AllocError, Global};

impl ReceiverLink {
    /// Takes a transfer with its payload (part 2, 2.7.5). What comes of it is in the answer, also where it is
    /// refused. While the link isn't attached it is dropped, and nothing changes.
    ///
    /// Errors: want of memory alone. Nothing changes then.
    pub fn on_incoming_transfer(
        &mut self,
        alloc: Global,
        transfer: Transfer,
        payload: Bytes,
    ) -> Result<Answer, AllocError>
        ensures { TransferTaken self.old transfer payload result self.new }
    {
        if !self.base.is_attached() {
            return Ok(dropped());
        }
        let attachment = self.attachment();
        self.end
            .on_incoming_transfer(alloc, attachment, transfer, payload)
    }

    /// Takes a disposition of the sender's, of the delivery with this tag: where it settles the delivery nothing of
    /// it is kept, in any state of the link (part 2, 2.6.12 and 2.7.6). It takes no memory.
    pub fn on_incoming_disposition(&mut self, tag: &DeliveryTag, settled: bool)
        ensures { self.new ≡ disposed self.old tag.now settled }
    {
        self.end.on_incoming_disposition(tag, settled);
    }
}

/// What is answered to a transfer of which nothing comes.
fn dropped() -> Answer
    ensures { result ≡ dropped }
{
    Answer {
        registering: Registering::Unchanged,
        told: Told::Dropped,
    }
}
