//! Messages as payloads (part 3, 3.2).
ghost use Rattle.std.specs.Prelude.{◌≡◌, ◌≢◌, ◌⊎◌, ◌∷◌, ◌++◌, [], ℕ, List, length, Bool, true, Some, None, IsSome};
ghost use Rattle.std.specs.Prelude.{OnOk, IfOk, IfErr, IfSome};
ghost use Rattle.serde_amqp_item.specs.Item.{Item, items_of};
ghost use Rattle.serde_amqp_item.specs.Canon.{alone};
ghost use Rattle.serde_amqp_read.specs.Reads.{Unless, faultless};
ghost use Rattle.serde_amqp_ser.specs.Written.{capped};
ghost use Rattle.serde_amqp_ser.specs.Sizes.{HasLength, IsTooLong};
ghost use Rattle.serde_amqp_ser.specs.Puts.{listed, place_of, OnlyWhere, WantsMemory};
ghost use Rattle.amqp_link_sections.specs.Annotations.{footer_item, footer_taken};
ghost use Rattle.amqp_link_message.specs.Payload.{capped_size, payload_text};
ghost use Rattle.amqp_link_message.specs.Parts.{at_most_one, if_there, ReadsParts, NoParts};
ghost use Rattle.amqp_link_message.specs.Message.{message_items, message_parts, message_takes};
ghost use Rattle.amqp_link_message.specs.BodyLaws.{body_begins};

use crate::body::{ReadBody, WriteBody};
use crate::message::Message;
use crate::parts::ReadParts;
use crate::writing::WriteParts;
use amqp_link_sections::{
    ApplicationProperties, DeliveryAnnotations, Footer, Header, MessageAnnotations, Properties,
};
use bytes::Bytes;
use serde_amqp_item::Error;
use serde_amqp_ser::{Counter, Serializer, Sink};
use std::alloc::Global;

/// What stands for the size of a payload that is as large or larger: no message is.
const TOO_LARGE: usize = 4_294_967_296;

/// The body of a message that is written.
struct BodyPart<'a, B> {
    /// The body.
    body: &'a B,
}

impl<'a, B> Drop for BodyPart<'a, B> {
    fn drop(self) {
        let BodyPart { body: _ } = self;
    }
}

/// The body, and the parts behind it.
impl<'a, B: WriteBody, T: WriteParts> WriteParts for (BodyPart<'a, B>, T) {
    ghost items = { λ p. B.items p.0.body.now ++ T.items p.1 };

    #[tactic(auto, using(crate::proofs::Listing::listing))]
    fn put<W: Sink>(&self, s: &mut Serializer<W>) -> Result<(), Error> {
        self.0.body.put(s)?;
        self.1.put(s)?;
        Ok(())
    }
}

/// The sections in order.
impl<B: WriteBody> WriteParts for Message<B> {
    ghost items = { λ m. message_items B.items m };

    fn put<W: Sink>(&self, s: &mut Serializer<W>) -> Result<(), Error> {
        let ending = (BodyPart { body: &self.body }, (&self.footer, ()));
        let behind = (&self.properties, (&self.application_properties, ending));
        let annotations = (
            &self.delivery_annotations,
            (&self.message_annotations, behind),
        );
        (&self.header, annotations).put(s)
    }
}

/// How many bytes the canonical texts of parts have, up to 2^64.
#[tactic(auto, using(crate::proofs::Listing::texts))]
fn counted<P: WriteParts>(parts: &P) -> Result<u128, Error>
    ensures ok { IfOk result (λ n. (text : List ℕ) × (payload_text (P.items parts.now) ≡ Some text)
        × (n ≡ capped (length text))) }
    ensures refused { IfErr result (λ e. (e ≢ Error.Memory)
        × (payload_text (P.items parts.now) ≡ None)) }
{
    let mut s = Serializer::new(Counter::new());
    parts.put(&mut s)?;
    Ok(s.into_inner().count())
}

/// The canonical texts of parts, joined. Counts first, so that it takes memory once.
///
/// Errors: `Memory` for want of memory alone, as for texts of 2^64 bytes or more; any other exactly where an item has no
/// canonical text.
#[tactic(auto, using(crate::proofs::Listing::texts))]
fn written<P: WriteParts>(alloc: Global, parts: &P) -> Result<Vec<u8>, Error>
    ensures ok { IfOk result (λ bytes. payload_text (P.items parts.now) ≡ Some bytes.items) }
    ensures refused { IfErr result (λ e. e ≢ Error.Memory →
        payload_text (P.items parts.now) ≡ None) }
    ensures memory { IfErr result (λ e. e ≡ Error.Memory →
        IsSome (payload_text (P.items parts.now))) }
{
    let Ok(size) = usize::try_from(counted(parts)?) else {
        return Err(Error::Memory);
    };
    let mut s = Serializer::new(Vec::with_capacity(alloc, size)?);
    parts.put(&mut s)?;
    Ok(s.into_inner())
}

impl<B: WriteBody> Message<B> {
    /// How many bytes the message's payload has, counted without memory.
    ///
    /// Errors: `InvalidLength` where it has 2^64 bytes or more; else an error exactly where an item of it has no
    /// canonical text. `Memory` is not answered.
    pub fn payload_size(&self) -> Result<usize, Error>
        ensures ok { IfOk result (λ n. HasLength (payload_text (message_items B.items self.now))
            n) }
        ensures refused { IfErr result (λ e. (payload_text (message_items B.items self.now) ≡ None)
            ⊎ (IsTooLong (payload_text (message_items B.items self.now)) × (e ≡ Error.InvalidLength))) }
        ensures memory { IfErr result (λ e. e ≢ Error.Memory) }
    {
        let Ok(size) = usize::try_from(counted(self)?) else {
            return Err(Error::InvalidLength);
        };
        Ok(size)
    }

    /// How many bytes the message's payload has, counted without memory, where 2^32 stand for as many or more, and for
    /// that of a message of which an item has no canonical text: for what no link sends (part 2, 2.7.3).
    #[tactic(auto, using(crate::proofs::Sizes::sizes))]
    pub fn capped_size(&self) -> usize
        ensures { result ≡ capped_size (payload_text (message_items B.items self.now)) }
    {
        match self.payload_size() {
            Ok(size) => size.min(TOO_LARGE),
            Err(_) => TOO_LARGE,
        }
    }

    /// The bytes that the message is written as, where its body holds them already and it has no other sections.
    fn as_written(&self) -> Option<&Bytes>
        ensures { IfSome result (λ b. payload_text (message_items B.items self.now) ≡ Some b.now) }
    {
        match self {
            Message {
                header: None,
                delivery_annotations: None,
                message_annotations: None,
                properties: None,
                application_properties: None,
                body,
                footer: None,
            } => body.as_written(),
            _ => None,
        }
    }

    /// The message's payload: the canonical texts of its sections in order, joined (part 3, 3.2). It is counted first, so
    /// that memory is taken once for it. A body that holds its bytes already shares them.
    ///
    /// Errors: `Memory` for want of memory alone, as for a payload of 2^64 bytes or more; any other exactly where an item
    /// of the message has no canonical text.
    pub fn to_payload(&self, alloc: Global) -> Result<Bytes, Error>
        ensures ok { IfOk result (λ bytes. payload_text (message_items B.items self.now)
            ≡ Some bytes) }
        ensures refused { IfErr result (λ e. e ≢ Error.Memory →
            payload_text (message_items B.items self.now) ≡ None) }
        ensures memory { IfErr result (λ e. e ≡ Error.Memory →
            IsSome (payload_text (message_items B.items self.now))) }
    {
        match self.as_written() {
            Some(bytes) => Ok(bytes.clone()?),
            None => Ok(Bytes::from_vec(written(alloc, self)?)?),
        }
    }
}

/// The end of a message that is read: its body and its footer.
#[derive(Drop)]
struct Ending<B> {
    /// The body.
    body: B,
    /// The footer, where there is one.
    footer: Option<Footer>,
}

/// The body, and a footer that may be absent.
impl<B: ReadBody> ReadParts for Ending<B> {
    ghost parts = { λ e. B.items e.body ∷ if_there footer_item e.footer ∷ [] };

    ghost takes = { B.takes ∷ at_most_one footer_taken ∷ [] };

    ghost least = { 0x75 };

    ghost in_order = { true };

    fn read(alloc: Global, bytes: &[u8]) -> Result<Ending<B>, Error> {
        let (body, footer) = B::read(alloc, bytes)?;
        Ok(Ending { body, footer })
    }

    ghost begins = { body_begins B.takes (at_most_one footer_taken ∷ []) B.of_body };
}

/// The application's properties, and what stands behind them.
type FromApplicationProperties<B> = (Option<ApplicationProperties>, Ending<B>);

/// The properties, and what stands behind them.
type FromProperties<B> = (Option<Properties>, FromApplicationProperties<B>);

/// The annotations, and what stands behind them.
type FromAnnotations<B> = (
    Option<DeliveryAnnotations>,
    (Option<MessageAnnotations>, FromProperties<B>),
);

/// Reads a message from its payload: the bytes are wire forms of its sections in order, one behind the other to their
/// end (part 3, 3.2).
///
/// Errors: `Memory`; any other exactly where the bytes don't say such sections. `SequenceLengthMismatch` where bytes are
/// left behind them.
pub fn read_payload<B: ReadBody>(alloc: Global, bytes: &[u8]) -> Result<Message<B>, Error>
    ensures ok { IfOk result (λ m. ReadsParts (message_takes B.takes) bytes.now
        (message_parts B.items m)) }
    ensures refused { Unless faultless result (NoParts (message_takes B.takes) bytes.now) }
{
    let (header, annotations) = <(Option<Header>, FromAnnotations<B>) as ReadParts>::read(
        alloc, bytes,
    )?;
    let (delivery_annotations, (message_annotations, behind)) = annotations;
    let (properties, (application_properties, Ending { body, footer })) = behind;
    Ok(Message {
        header,
        delivery_annotations,
        message_annotations,
        properties,
        application_properties,
        body,
        footer,
    })
}
