//! A body whose kind only its sections say (part 3, 3.2).
ghost use Rattle.amqp_link_message.specs.AnyBody.{body_takes, body_items};
ghost use Rattle.amqp_link_message.specs.AnyBodyLaws.{body_of_body, body_decided, body_same, body_again};

use crate::body::{ReadBody, RoundTripBody, WriteBody};
use crate::parts::{read_one, read_several};
use crate::several::{OneOrMore, put_several};
use amqp_link_sections::{AmqpSequence, AmqpValue, Data, Footer};
use serde_amqp_de::Deserialize;
use serde_amqp_item::Error;
use serde_amqp_round_trip::RoundTrip;
use serde_amqp_ser::{Serialize, Serializer, Sink};
use std::alloc::Global;

/// A body of any kind (part 3, 3.2).
#[derive(Debug, Drop)]
pub enum Body<T> {
    /// Bytes: one data section or more (part 3, 3.2.6).
    Data(OneOrMore<Data>),
    /// Values in sequences: one amqp-sequence or more (part 3, 3.2.7).
    Sequence(OneOrMore<AmqpSequence<T>>),
    /// One value (part 3, 3.2.8).
    Value(AmqpValue<T>),
}

/// The sections of the body's kind.
impl<T: Serialize> WriteBody for Body<T> {
    ghost items = { body_items T.item };

    fn put<W: Sink>(&self, s: &mut Serializer<W>) -> Result<(), Error> {
        match self {
            Body::Data(data) => put_several(data, s),
            Body::Sequence(sequences) => put_several(sequences, s),
            Body::Value(value) => value.put(s),
        }
    }
}

/// The first section says which kind is read.
impl<T: Deserialize + Drop> ReadBody for Body<T> {
    ghost items = { body_items T.item };

    ghost takes = { body_takes T.take };

    fn read(alloc: Global, bytes: &[u8]) -> Result<(Body<T>, Option<Footer>), Error> {
        match read_several::<Data, Behind>(alloc, bytes)? {
            Some((data, (footer, ()))) => Ok((Body::Data(data), footer)),
            None => match read_several::<AmqpSequence<T>, Behind>(alloc, bytes)? {
                Some(read) => {
                    let (sequences, (footer, ())) = read;
                    Ok((Body::Sequence(sequences), footer))
                }
                None => {
                    let (value, (footer, ())) = read_one::<AmqpValue<T>, Behind>(alloc, bytes)?;
                    Ok((Body::Value(value), footer))
                }
            },
        }
    }

    ghost of_body = { body_of_body T.take };

    ghost decided = { body_decided T.take T.decided };
}

/// What stands behind a body.
type Behind = (Option<Footer>, ());

impl<T: RoundTrip + Drop> RoundTripBody for Body<T> {
    ghost same = { body_same T.Serialize.item T.Deserialize.item T.same };

    ghost again = { body_again T.take T.Deserialize.item T.again };
}
