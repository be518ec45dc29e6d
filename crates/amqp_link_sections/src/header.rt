//! The header of a message (part 3, 3.2.1).
ghost use Rattle.std.specs.Prelude.{◌≡◌, refl};
ghost use Rattle.amqp_link_sections.specs.Header.{default_header, header_item, header_taken};
ghost use Rattle.amqp_link_sections.specs.HeaderLaws.{header_again, header_decided, header_same};

use serde_amqp_de::{Deserialize, Deserializer, NeverNull, Read, read_record};
use serde_amqp_item::Error;
use serde_amqp_round_trip::{Faithful, RoundTrip};
use serde_amqp_ser::{Serialize, Serializer, Sink, serialize_record};
use serde_amqp_types::{BoolOr, UByteOr, UIntOr};
use std::alloc::Global;

/// How a message is to be delivered (part 3, 3.2.1).
#[derive(Debug, Clone, Copy, PartialEq, Eq)]
pub struct Header {
    /// Whether no node may lose the message once it has answered for it. False where it is absent.
    pub durable: bool,
    /// How urgent the message is: a higher one goes before a lower one. 4 where it is absent.
    pub priority: u8,
    /// For how many milliseconds the message is wanted. Without end where it is absent.
    pub ttl: Option<u32>,
    /// Whether no other link has acquired the message before. False where it is absent.
    pub first_acquirer: bool,
    /// How many deliveries of the message failed before. 0 where it is absent.
    pub delivery_count: u32,
}

/// The descriptor's code.
pub(crate) const CODE: u64 = 0x70;

/// The descriptor's name.
const NAME: &[u8] = b"amqp:header:list";

/// The fields in their order.
type Fields = (
    BoolOr<false>,
    (UByteOr<4>, (Option<u32>, (BoolOr<false>, (UIntOr<0>, ())))),
);

/// The header in which each field has its default.
impl Default for Header {
    ghost is_default = { λ h. h ≡ default_header };

    fn default() -> Header {
        Header {
            durable: false,
            priority: 4,
            ttl: None,
            first_acquirer: false,
            delivery_count: 0,
        }
    }
}

impl Serialize for Header {
    ghost item = { header_item };

    fn is_null(&self) -> bool {
        false
    }

    fn serialize<W: Sink>(&self, s: &mut Serializer<W>) -> Result<(), Error> {
        serialize_record(
            s,
            CODE,
            &(
                BoolOr::<false>(self.durable),
                (
                    UByteOr::<4>(self.priority),
                    (
                        &self.ttl,
                        (
                            BoolOr::<false>(self.first_acquirer),
                            (UIntOr::<0>(self.delivery_count), ()),
                        ),
                    ),
                ),
            ),
        )
    }
}

impl Deserialize for Header {
    ghost item = { header_item };

    ghost take = { header_taken };

    #[tactic(auto, unfolding(serde_amqp_de::specs::Takes::record_taken))]
    fn absent(_alloc: Global) -> Option<Header> {
        None
    }

    fn read<R: Read>(alloc: Global, de: &mut Deserializer<R>) -> Result<Header, Error> {
        let (
            BoolOr(durable),
            (UByteOr(priority), (ttl, (BoolOr(first_acquirer), (UIntOr(delivery_count), ())))),
        ) = read_record::<Fields, R>(alloc, de, CODE, NAME)?;
        Ok(Header {
            durable,
            priority,
            ttl,
            first_acquirer,
            delivery_count,
        })
    }

    ghost decided = { header_decided };
}

impl RoundTrip for Header {
    ghost same = { λ _. refl };

    ghost again = { header_again };
}

impl Faithful for Header {
    ghost faithful = { header_same };
}

impl NeverNull for Header {
    ghost present = { λ _. refl };
}
