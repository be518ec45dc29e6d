//! The body of a message (part 3, 3.2.6 to 3.2.8).
ghost use Rattle.std.specs.Prelude.{◌≡◌, ◌∷◌, [], List, map, IfOk, IfSome, OnOk, Option, Some, refl};
ghost use Rattle.serde_amqp_item.specs.Item.{Item, items_of};
ghost use Rattle.serde_amqp_item.specs.Canon.{alone};
ghost use Rattle.serde_amqp_read.specs.Reads.{Unless, faultless};
ghost use Rattle.serde_amqp_ser.specs.Puts.{listed, place_of, OnlyWhere, WantsMemory};
ghost use Rattle.amqp_link_sections.specs.Annotations.{footer_item, footer_taken};
ghost use Rattle.amqp_link_sections.specs.Body.{data_item, data_taken, amqp_sequence_item, amqp_sequence_taken};
ghost use Rattle.amqp_link_sections.specs.Body.{amqp_value_item, amqp_value_taken};
ghost use Rattle.amqp_link_message.specs.Payload.{payload_text};
ghost use Rattle.amqp_link_message.specs.Sections.{IsBody};
ghost use Rattle.amqp_link_message.specs.Parts.{at_most_one, exactly_one, if_there, OneValue, ReadsParts, NoParts};
ghost use Rattle.amqp_link_sections.specs.BodyLaws.{data_again, data_decided, amqp_sequence_again};
ghost use Rattle.amqp_link_sections.specs.BodyLaws.{amqp_sequence_decided, amqp_sequence_same_item, amqp_value_again};
ghost use Rattle.amqp_link_sections.specs.BodyLaws.{amqp_value_decided, amqp_value_same_item};
ghost use Rattle.std.proofs.Common.{ap};
ghost use Rattle.amqp_link_message.specs.RoundLaws.{one_again};
ghost use Rattle.amqp_link_message.specs.OneReading.{one_decided};
ghost use Rattle.amqp_link_message.specs.CodeLaws.{data_of_body, amqp_sequence_of_body, amqp_value_of_body};

use crate::parts::read_one;
use amqp_link_sections::{AmqpSequence, AmqpValue, Data, Footer};
use bytes::Bytes;
use serde_amqp_de::Deserialize;
use serde_amqp_item::Error;
use serde_amqp_round_trip::RoundTrip;
use serde_amqp_ser::{Serialize, Serializer, Sink};
use std::alloc::Global;

/// A body that can be written: its sections, one behind the other.
pub trait WriteBody {
    /// The items of its sections.
    ghost items: { Self → List Item };

    /// Writes the canonical texts of the items, outside of arrays. After an error the first of them may stand there.
    ///
    /// Errors: `Memory`; any other exactly where an item has no canonical text.
    fn put<W: Sink>(&self, s: &mut Serializer<W>) -> Result<(), Error>
        requires { place_of s.old.element ≡ alone }
        ensures place { OnOk result (place_of s.new.element ≡ alone) }
        ensures ok { OnOk result (listed (W.written s.old.writer) (items_of (items self.now))
            ≡ Some (W.written s.new.writer)) }
        ensures refused { OnlyWhere result (listed (W.written s.old.writer)
            (items_of (items self.now))) }
        ensures memory { WantsMemory W.takes_memory result };

    /// The bytes that the body is written as, where it holds them already. They are shared, not written again.
    fn as_written(&self) -> Option<&Bytes>
        ensures { IfSome result (λ b. payload_text (items self.now) ≡ Some b.now) }
    {
        None
    }
}

/// A body that can be read.
pub trait ReadBody: Sized {
    /// The items of its sections.
    ghost items: { Self → List Item };

    /// Which items are such a body, and the items of the body that is made of them.
    ghost takes: { List Item → Option (List Item) };

    /// Reads the body, and the footer behind it, where there is one, to the end of the bytes.
    ///
    /// Errors: `Memory`; any other exactly where the bytes don't say such a body and at most one footer.
    fn read(alloc: Global, bytes: &[u8]) -> Result<(Self, Option<Footer>), Error>
        ensures ok { IfOk result (λ p. ReadsParts (takes ∷ at_most_one footer_taken ∷ []) bytes.now
            (items p.0 ∷ if_there footer_item p.1 ∷ [])) }
        ensures refused { Unless faultless result
            (NoParts (takes ∷ at_most_one footer_taken ∷ []) bytes.now) };

    /// A body has one section of a body or more, and no other sections.
    ghost of_body: { (xs ys : List Item) → takes xs ≡ Some ys → IsBody xs };

    /// Bytes give one body, whichever items they are meant as.
    ghost decided: { OneValue takes };
}

/// A body that is written is read back.
pub trait RoundTripBody: WriteBody + ReadBody {
    /// What is written are the items that the body is.
    ghost same: { (b : Self) → Self.WriteBody.items b ≡ Self.ReadBody.items b };

    /// The items of a body are taken as they are.
    ghost again: { (b : Self) → Self.takes (Self.ReadBody.items b) ≡ Some (Self.ReadBody.items b) };
}

/// One data section.
impl WriteBody for Data {
    ghost items = { λ d. data_item d ∷ [] };

    #[tactic(auto, using(crate::proofs::Listing::listing))]
    fn put<W: Sink>(&self, s: &mut Serializer<W>) -> Result<(), Error> {
        self.serialize(s)?;
        Ok(())
    }
}

impl ReadBody for Data {
    ghost items = { λ d. data_item d ∷ [] };

    ghost takes = { exactly_one data_taken };

    fn read(alloc: Global, bytes: &[u8]) -> Result<(Data, Option<Footer>), Error> {
        let (data, (footer, ())) = read_one::<Data, (Option<Footer>, ())>(alloc, bytes)?;
        Ok((data, footer))
    }

    ghost of_body = { data_of_body };

    ghost decided = { one_decided data_taken data_decided };
}

/// One amqp-sequence section.
impl<T: Serialize> WriteBody for AmqpSequence<T> {
    ghost items = { λ s. amqp_sequence_item T.item s ∷ [] };

    #[tactic(auto, using(crate::proofs::Listing::listing))]
    fn put<W: Sink>(&self, s: &mut Serializer<W>) -> Result<(), Error> {
        self.serialize(s)?;
        Ok(())
    }
}

impl<T: Deserialize + Drop> ReadBody for AmqpSequence<T> {
    ghost items = { λ s. amqp_sequence_item T.item s ∷ [] };

    ghost takes = { exactly_one (amqp_sequence_taken T.take) };

    fn read(alloc: Global, bytes: &[u8]) -> Result<(AmqpSequence<T>, Option<Footer>), Error> {
        let (sequence, (footer, ())) = read_one::<AmqpSequence<T>, (Option<Footer>, ())>(
            alloc, bytes,
        )?;
        Ok((sequence, footer))
    }

    ghost of_body = { amqp_sequence_of_body T.take };

    ghost decided = { one_decided (amqp_sequence_taken T.take) (amqp_sequence_decided T.take T.decided) };
}

/// One amqp-value section.
impl<T: Serialize> WriteBody for AmqpValue<T> {
    ghost items = { λ v. amqp_value_item T.item v ∷ [] };

    #[tactic(auto, using(crate::proofs::Listing::listing))]
    fn put<W: Sink>(&self, s: &mut Serializer<W>) -> Result<(), Error> {
        self.serialize(s)?;
        Ok(())
    }
}

impl<T: Deserialize + Drop> ReadBody for AmqpValue<T> {
    ghost items = { λ v. amqp_value_item T.item v ∷ [] };

    ghost takes = { exactly_one (amqp_value_taken T.take) };

    fn read(alloc: Global, bytes: &[u8]) -> Result<(AmqpValue<T>, Option<Footer>), Error> {
        let (value, (footer, ())) = read_one::<AmqpValue<T>, (Option<Footer>, ())>(alloc, bytes)?;
        Ok((value, footer))
    }

    ghost of_body = { amqp_value_of_body T.take };

    ghost decided = { one_decided (amqp_value_taken T.take) (amqp_value_decided T.take T.decided) };
}

impl RoundTripBody for Data {
    ghost same = { λ _. refl };

    ghost again = { λ d. one_again data_taken (data_item d) (data_again d) };
}

impl<T: RoundTrip + Drop> RoundTripBody for AmqpSequence<T> {
    ghost same = { λ s. ap (λ x. x ∷ []) (amqp_sequence_same_item T.Serialize.item T.Deserialize.item T.same s) };

    ghost again = { λ s. one_again (amqp_sequence_taken T.take) (amqp_sequence_item T.Deserialize.item s) (amqp_sequence_again T.take T.Deserialize.item T.again s) };
}

impl<T: RoundTrip + Drop> RoundTripBody for AmqpValue<T> {
    ghost same = { λ v. ap (λ x. x ∷ []) (amqp_value_same_item T.Serialize.item T.Deserialize.item T.same v) };

    ghost again = { λ v. one_again (amqp_value_taken T.take) (amqp_value_item T.Deserialize.item v) (amqp_value_again T.take T.Deserialize.item T.again v) };
}
