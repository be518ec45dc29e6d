//! The properties of a message (part 3, 3.2.4).
ghost use Rattle.std.specs.Prelude.{◌≡◌, IfOk, refl};
ghost use Rattle.amqp_link_sections.specs.Properties.{properties_item, properties_taken};
ghost use Rattle.amqp_link_sections.specs.PropertiesLaws.{properties_again, properties_decided, properties_same};

use crate::both::both;
use crate::message_id::MessageId;
use serde_amqp_de::{Deserialize, Deserializer, NeverNull, Read, read_record};
use serde_amqp_item::Error;
use serde_amqp_round_trip::{Faithful, RoundTrip};
use serde_amqp_ser::{Serialize, Serializer, Sink, serialize_record};
use serde_amqp_types::{ByteBuf, Symbol, Text, Timestamp};
use std::alloc::{AllocError, Global};

/// What a message is, where it goes and what it belongs to (part 3, 3.2.4). Nodes that it passes don't change it.
#[derive(Debug, PartialEq, Eq, Drop)]
pub struct Properties {
    /// What names the message.
    pub message_id: Option<MessageId>,
    /// Who made the message, as the peer knows that user.
    pub user_id: Option<ByteBuf>,
    /// The address of the node that the message is meant for.
    pub to: Option<Text>,
    /// What the message is about.
    pub subject: Option<Text>,
    /// The address of the node that replies are meant for.
    pub reply_to: Option<Text>,
    /// What names the message that this one belongs to.
    pub correlation_id: Option<MessageId>,
    /// The media type of the data that the body is.
    pub content_type: Option<Symbol>,
    /// What the data were encoded by besides, as a compression.
    pub content_encoding: Option<Symbol>,
    /// When the message is no more wanted.
    pub absolute_expiry_time: Option<Timestamp>,
    /// When the message was made.
    pub creation_time: Option<Timestamp>,
    /// The group that the message belongs to.
    pub group_id: Option<Text>,
    /// The place of the message in its group. The numbers wrap.
    pub group_sequence: Option<u32>,
    /// The group that replies are to belong to.
    pub reply_to_group_id: Option<Text>,
}

/// The descriptor's code.
pub(crate) const CODE: u64 = 0x73;

/// The descriptor's name.
const NAME: &[u8] = b"amqp:properties:list";

/// The fields in their order.
type Fields = (
    Option<MessageId>,
    (
        Option<ByteBuf>,
        (
            Option<Text>,
            (
                Option<Text>,
                (
                    Option<Text>,
                    (Option<MessageId>, (Option<Symbol>, LaterFields)),
                ),
            ),
        ),
    ),
);

/// The fields behind the first seven.
type LaterFields = (
    Option<Symbol>,
    (
        Option<Timestamp>,
        (
            Option<Timestamp>,
            (Option<Text>, (Option<u32>, (Option<Text>, ()))),
        ),
    ),
);

impl Clone for Properties {
    ghost is_clone = { λ x y. y ≡ x };

    fn clone(&self) -> Result<Self, AllocError> {
        let (
            ((message_id, correlation_id), (user_id, subject)),
            ((to, reply_to), ((content_type, content_encoding), (group_id, reply_to_group_id))),
        ) = self.clone_parts()?;
        Ok(Properties {
            message_id,
            user_id,
            to,
            subject,
            reply_to,
            correlation_id,
            content_type,
            content_encoding,
            absolute_expiry_time: self.absolute_expiry_time,
            creation_time: self.creation_time,
            group_id,
            group_sequence: self.group_sequence,
            reply_to_group_id,
        })
    }
}

/// What of properties isn't copied: what names messages, the user and the subject, the addresses, the types of the
/// data and the groups.
type Parts = (
    (
        (Option<MessageId>, Option<MessageId>),
        (Option<ByteBuf>, Option<Text>),
    ),
    (
        (Option<Text>, Option<Text>),
        (
            (Option<Symbol>, Option<Symbol>),
            (Option<Text>, Option<Text>),
        ),
    ),
);

impl Properties {
    /// Clones of what isn't copied.
    fn clone_parts(&self) -> Result<Parts, AllocError>
        ensures { IfOk result (λ c.
            (((c.0.0.0 ≡ self.now.message_id) × (c.0.0.1 ≡ self.now.correlation_id))
            × ((c.0.1.0 ≡ self.now.user_id) × (c.0.1.1 ≡ self.now.subject)))
            × (((c.1.0.0 ≡ self.now.to) × (c.1.0.1 ≡ self.now.reply_to))
            × (((c.1.1.0.0 ≡ self.now.content_type) × (c.1.1.0.1 ≡ self.now.content_encoding))
            × ((c.1.1.1.0 ≡ self.now.group_id) × (c.1.1.1.1 ≡ self.now.reply_to_group_id))))) }
    {
        both(
            both(self.clone_ids(), self.clone_user()),
            both(
                self.clone_addresses(),
                both(self.clone_content(), self.clone_groups()),
            ),
        )
    }

    /// Clones of what name messages.
    fn clone_ids(&self) -> Result<(Option<MessageId>, Option<MessageId>), AllocError>
        ensures { IfOk result (λ c. (c.0 ≡ self.now.message_id) × (c.1 ≡ self.now.correlation_id)) }
    {
        Ok((self.message_id.clone()?, self.correlation_id.clone()?))
    }

    /// Clones of the user and the subject.
    fn clone_user(&self) -> Result<(Option<ByteBuf>, Option<Text>), AllocError>
        ensures { IfOk result (λ c. (c.0 ≡ self.now.user_id) × (c.1 ≡ self.now.subject)) }
    {
        Ok((self.user_id.clone()?, self.subject.clone()?))
    }

    /// Clones of the addresses.
    fn clone_addresses(&self) -> Result<(Option<Text>, Option<Text>), AllocError>
        ensures { IfOk result (λ c. (c.0 ≡ self.now.to) × (c.1 ≡ self.now.reply_to)) }
    {
        Ok((self.to.clone()?, self.reply_to.clone()?))
    }

    /// Clones of the types of the data.
    fn clone_content(&self) -> Result<(Option<Symbol>, Option<Symbol>), AllocError>
        ensures { IfOk result (λ c. (c.0 ≡ self.now.content_type)
            × (c.1 ≡ self.now.content_encoding)) }
    {
        Ok((self.content_type.clone()?, self.content_encoding.clone()?))
    }

    /// Clones of the groups.
    fn clone_groups(&self) -> Result<(Option<Text>, Option<Text>), AllocError>
        ensures { IfOk result (λ c. (c.0 ≡ self.now.group_id)
            × (c.1 ≡ self.now.reply_to_group_id)) }
    {
        Ok((self.group_id.clone()?, self.reply_to_group_id.clone()?))
    }
}

impl Serialize for Properties {
    ghost item = { properties_item };

    fn is_null(&self) -> bool {
        false
    }

    fn serialize<W: Sink>(&self, s: &mut Serializer<W>) -> Result<(), Error> {
        serialize_record(
            s,
            CODE,
            &(
                &self.message_id,
                (
                    &self.user_id,
                    (
                        &self.to,
                        (
                            &self.subject,
                            (
                                &self.reply_to,
                                (
                                    &self.correlation_id,
                                    (
                                        &self.content_type,
                                        (
                                            &self.content_encoding,
                                            (
                                                &self.absolute_expiry_time,
                                                (
                                                    &self.creation_time,
                                                    (
                                                        &self.group_id,
                                                        (
                                                            &self.group_sequence,
                                                            (&self.reply_to_group_id, ()),
                                                        ),
                                                    ),
                                                ),
                                            ),
                                        ),
                                    ),
                                ),
                            ),
                        ),
                    ),
                ),
            ),
        )
    }
}

impl Deserialize for Properties {
    ghost item = { properties_item };

    ghost take = { properties_taken };

    #[tactic(auto, unfolding(serde_amqp_de::specs::Takes::record_taken))]
    fn absent(_alloc: Global) -> Option<Properties> {
        None
    }

    fn read<R: Read>(alloc: Global, de: &mut Deserializer<R>) -> Result<Properties, Error> {
        let (
            message_id,
            (
                user_id,
                (
                    to,
                    (
                        subject,
                        (
                            reply_to,
                            (
                                correlation_id,
                                (
                                    content_type,
                                    (
                                        content_encoding,
                                        (
                                            absolute_expiry_time,
                                            (
                                                creation_time,
                                                (
                                                    group_id,
                                                    (group_sequence, (reply_to_group_id, ())),
                                                ),
                                            ),
                                        ),
                                    ),
                                ),
                            ),
                        ),
                    ),
                ),
            ),
        ) = read_record::<Fields, R>(alloc, de, CODE, NAME)?;
        Ok(Properties {
            message_id,
            user_id,
            to,
            subject,
            reply_to,
            correlation_id,
            content_type,
            content_encoding,
            absolute_expiry_time,
            creation_time,
            group_id,
            group_sequence,
            reply_to_group_id,
        })
    }

    ghost decided = { properties_decided };
}

impl RoundTrip for Properties {
    ghost same = { λ _. refl };

    ghost again = { properties_again };
}

impl Faithful for Properties {
    ghost faithful = { properties_same };
}

impl NeverNull for Properties {
    ghost present = { λ _. refl };
}
