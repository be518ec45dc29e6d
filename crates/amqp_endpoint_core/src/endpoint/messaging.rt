//! The calls of messages.
ghost use Rattle.std.specs.Prelude.{◌≡◌, ◌^◌, min, length, unwrap_or, IfErr, IfOk, OnOk, Some};
ghost use Rattle.amqp_link_message.specs.Message.{message_items};
ghost use Rattle.amqp_link_message.specs.Payload.{capped_size, payload_text};
ghost use Rattle.amqp_endpoint_core.specs.Messages.{IsSent, IsUnsent};
ghost use Rattle.amqp_endpoint_model.specs.Said.{done, message_sent};
ghost use Rattle.amqp_endpoint_model.specs.Step.{IsRefused, SessionsDo};
ghost use Rattle.amqp_endpoint_model.specs.declared.call.Call.{Call};
ghost use Rattle.amqp_endpoint_model.specs.declared.call.Sending.{Sending};
ghost use Rattle.amqp_endpoint_model.specs.declared.error.EndpointError.TheVariants.{Memory};

use super::Endpoint;
use amqp_endpoint_model::{Disposal, EndpointError, Sending, Sent, SessionRelay};
use amqp_link_message::{Message, Sendable, WriteBody};
use bytes::Bytes;
use std::alloc::{AllocError, Global};

impl<S: SessionRelay> Endpoint<S> {
    /// Sends a message by the link with this number, as its bytes: all of its transfers are taken, or none. Those are
    /// queued that the peer's window lets leave, and the others wait (part 2, 2.5.6, 2.6.12, 2.6.14). Answers the tag
    /// of its delivery, which no other message of the endpoint has, and that it is accepted where it went settled.
    ///
    /// `UnknownLink` where no link has the number, then `IllegalState` where it receives or isn't attached, then
    /// `MessageTooLarge` where the message is larger than both ends allow, or has 2^32 bytes, then `CreditMissing`,
    /// then `NumberInUse` where the number of its delivery is still unsettled, then `NumbersUsedUp` where no number is
    /// left for its tag. `Memory` where there is no memory, and none of these holds. A refusal changes nothing. Exactly
    /// when each comes say the sessions (`bars` of their relations).
    pub fn send_raw(&mut self, link: u64, message: &Sending) -> Result<Sent, EndpointError>
        ensures ok { IfOk result (λ s. SessionsDo S.does self.old (Call.Send link message.now)
            (message_sent s.tag s.outcome) self.new) }
        ensures err { IfErr result (λ e.
            IsRefused S.does self.old (Call.Send link message.now) e × (self.new ≡ self.old)) }
    {
        let limit = self.limit();
        let sent = self
            .sessions
            .send(self.alloc, limit, link, message, &mut self.out)?;
        Ok(sent)
    }

    /// Sends a message by the link with this number, as the bytes of its sections (part 3, 3.2): as `send_raw` does. A
    /// body that holds its bytes already shares them.
    ///
    /// It is refused as `send_raw` is, before its bytes are written; one of which a section is too long to be written
    /// is refused as one of 2^32 bytes. A refusal changes nothing.
    pub fn send<B: WriteBody>(
        &mut self,
        link: u64,
        sendable: &Sendable<B>,
    ) -> Result<Sent, EndpointError>
        ensures ok { IfOk result (λ s. IsSent S.does (payload_text (message_items B.items sendable.now.message))
            self.old link sendable.now s self.new) }
        ensures err { IfErr result (λ e. IsUnsent S.does (payload_text (message_items B.items sendable.now.message))
            self.old link sendable.now e × (self.new ≡ self.old)) }
    {
        match self.refusal(link, sendable.message.capped_size()) {
            Some(refusal) => Err(refusal),
            None => self.send_written(link, sendable),
        }
    }

    /// Sends a message as the bytes of its sections, where nothing but want of memory refuses one of its size.
    fn send_written<B: WriteBody>(
        &mut self,
        link: u64,
        sendable: &Sendable<B>,
    ) -> Result<Sent, EndpointError>
        requires { (message : Sending) → min (length message.payload) (2 ^ 32)
            ≡ capped_size (payload_text (message_items B.items sendable.now.message)) →
            IsRefused S.does self.old (Call.Send link message) Memory }
        ensures ok { IfOk result (λ s. IsSent S.does (payload_text (message_items B.items sendable.now.message))
            self.old link sendable.now s self.new) }
        ensures err { IfErr result (λ e. IsUnsent S.does (payload_text (message_items B.items sendable.now.message))
            self.old link sendable.now e × (self.new ≡ self.old)) }
    {
        let Ok(payload) = payload_of(self.alloc, &sendable.message) else {
            return Err(EndpointError::Memory);
        };
        let message = Sending {
            payload,
            message_format: sendable.message_format,
            settled: sendable.settled,
        };
        self.send_raw(link, &message)
    }

    /// Why no message of so many bytes is sent by the link with this number, if one isn't, where 2^32 bytes stand for
    /// as many or more. Where nothing is answered, want of memory alone refuses one.
    fn refusal(&self, link: u64, size: usize) -> Option<EndpointError>
        ensures { (message : Sending) → min (length message.payload) (2 ^ 32) ≡ size →
            IsRefused S.does self.now (Call.Send link message) (unwrap_or result Memory) }
    {
        self.sessions.send_refusal(self.alloc, link, size)
    }

    /// Disposes of the message with this number, which came by the link with that number: a Disposition is queued that
    /// tells its sender the state (part 2, 2.6.12, 2.7.6).
    ///
    /// `UnknownLink` where no link has the number, then `IllegalState` where it sends, then `UnknownMessage` where no
    /// message has the number, or another link keeps it, then `AlreadyDisposed` where it was disposed of for good, or
    /// settled, then `NotAssociated` where it has no delivery number in the present attachment, then `FrameTooLarge`
    /// where that Disposition is longer than the peer takes. `Memory` where there is no memory. A refusal changes
    /// nothing.
    pub fn dispose(
        &mut self,
        link: u64,
        message: u64,
        disposal: &Disposal,
    ) -> Result<(), EndpointError>
        ensures ok { OnOk result (SessionsDo S.does self.old
            (Call.Dispose link message disposal.now) done self.new) }
        ensures err { IfErr result (λ e.
            IsRefused S.does self.old (Call.Dispose link message disposal.now) e × (self.new ≡ self.old)) }
    {
        let limit = self.limit();
        self.sessions
            .dispose(self.alloc, limit, link, message, disposal, &mut self.out)?;
        Ok(())
    }

    /// Disposes of the messages with these numbers, which came by the link with that number, all of them or none: a
    /// Disposition is queued for each run of consecutive deliveries that are settled alike (part 2, 2.6.12, 2.7.6). Of
    /// no messages there is none.
    ///
    /// It is refused as `dispose` is, for the first message that is, and with `AlreadyDisposed` for one that is named
    /// twice; with `FrameTooLarge` where one of the Dispositions is longer than the peer takes, in place of which
    /// `Memory` may come. A refusal changes nothing.
    pub fn dispose_all(
        &mut self,
        link: u64,
        messages: &[u64],
        disposal: &Disposal,
    ) -> Result<(), EndpointError>
        ensures ok { OnOk result
            (SessionsDo S.does self.old (Call.DisposeAll link messages.now disposal.now) done self.new) }
        ensures err { IfErr result (λ e.
            IsRefused S.does self.old (Call.DisposeAll link messages.now disposal.now) e × (self.new ≡ self.old)) }
    {
        let limit = self.limit();
        self.sessions
            .dispose_all(self.alloc, limit, link, messages, disposal, &mut self.out)?;
        Ok(())
    }
}

/// The bytes of a message's sections. It is refused where there is no memory for them, and where a section is too long
/// to be written, which is for no sessions to send.
fn payload_of<B: WriteBody>(alloc: Global, message: &Message<B>) -> Result<Bytes, AllocError>
    ensures { IfOk result (λ bytes. payload_text (message_items B.items message.now) ≡ Some bytes) }
{
    match message.to_payload(alloc) {
        Ok(payload) => Ok(payload),
        Err(_) => Err(AllocError),
    }
}
