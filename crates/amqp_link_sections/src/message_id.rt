//! What names a message (part 3, 3.2.11 to 3.2.14).
ghost use Rattle.std.specs.Prelude.{◌≡◌, refl};
ghost use Rattle.amqp_link_sections.specs.MessageId.{message_id_item, message_id_taken};
ghost use Rattle.amqp_link_sections.specs.MessageIdLaws.{message_id_again, message_id_decided, message_id_present};
ghost use Rattle.amqp_link_sections.specs.MessageIdLaws.{message_id_same};

use serde_amqp_de::{Deserialize, Deserializer, NeverNull, Read};
use serde_amqp_item::{EncodingCodes, Error};
use serde_amqp_round_trip::{Faithful, RoundTrip};
use serde_amqp_ser::{Serialize, Serializer, Sink};
use serde_amqp_types::{ByteBuf, Text, Uuid};
use std::alloc::{AllocError, Global};

/// What names a message (part 3, 3.2.11 to 3.2.14).
#[derive(Debug, PartialEq, Eq, Drop)]
pub enum MessageId {
    /// A number.
    Ulong(u64),
    /// A universally unique identifier.
    Uuid(Uuid),
    /// Bytes.
    Binary(ByteBuf),
    /// A text.
    String(Text),
}

impl Clone for MessageId {
    ghost is_clone = { λ x y. y ≡ x };

    fn clone(&self) -> Result<Self, AllocError> {
        match self {
            MessageId::Ulong(number) => Ok(MessageId::Ulong(*number)),
            MessageId::Uuid(uuid) => Ok(MessageId::Uuid(uuid.clone()?)),
            MessageId::Binary(bytes) => Ok(MessageId::Binary(bytes.clone()?)),
            MessageId::String(text) => Ok(MessageId::String(text.clone()?)),
        }
    }
}

impl Serialize for MessageId {
    ghost item = { message_id_item };

    fn is_null(&self) -> bool {
        false
    }

    fn serialize<W: Sink>(&self, s: &mut Serializer<W>) -> Result<(), Error> {
        match self {
            MessageId::Ulong(number) => number.serialize(s),
            MessageId::Uuid(uuid) => uuid.serialize(s),
            MessageId::Binary(bytes) => bytes.serialize(s),
            MessageId::String(text) => text.serialize(s),
        }
    }
}

/// A ulong, a uuid, a binary or a string, by its constructor. Any other item answers `InvalidFormatCode`.
impl Deserialize for MessageId {
    ghost item = { message_id_item };

    ghost take = { message_id_taken };

    #[tactic(auto, unfolding(crate::specs::MessageId::message_id_taken))]
    fn absent(_alloc: Global) -> Option<MessageId> {
        None
    }

    #[tactic(auto, using(crate::proofs::Ids::ids))]
    fn read<R: Read>(alloc: Global, de: &mut Deserializer<R>) -> Result<MessageId, Error> {
        match de.peek()? {
            EncodingCodes::ULong0 | EncodingCodes::SmallULong | EncodingCodes::ULong => {
                Ok(MessageId::Ulong(u64::read(alloc, de)?))
            }
            EncodingCodes::Uuid => Ok(MessageId::Uuid(Uuid::read(alloc, de)?)),
            EncodingCodes::Vbin8 | EncodingCodes::Vbin32 => {
                Ok(MessageId::Binary(ByteBuf::read(alloc, de)?))
            }
            EncodingCodes::Str8 | EncodingCodes::Str32 => {
                Ok(MessageId::String(Text::read(alloc, de)?))
            }
            _ => Err(Error::InvalidFormatCode),
        }
    }

    ghost decided = { message_id_decided };
}

impl RoundTrip for MessageId {
    ghost same = { λ _. refl };

    ghost again = { message_id_again };
}

impl Faithful for MessageId {
    ghost faithful = { message_id_same };
}

impl NeverNull for MessageId {
    ghost present = { message_id_present };
}
