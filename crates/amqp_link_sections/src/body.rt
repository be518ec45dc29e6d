//! The sections that a message's body is made of (part 3, 3.2.6 to 3.2.8).
ghost use Rattle.std.specs.Cmp.Lexicographic.{pointwise, lists_equiv, lists_per};
ghost use Rattle.std.specs.List.{AllZip};
ghost use Rattle.std.specs.Prelude.{◌≡◌, map, refl};
ghost use Rattle.serde_amqp_item.specs.Item.{list, items_of};
ghost use Rattle.serde_amqp_de.specs.Deciding.{items_decided};
ghost use Rattle.serde_amqp_de.specs.Takes.{items_taken};
ghost use Rattle.amqp_link_sections.specs.Body.{data_item, data_taken, amqp_sequence_item, amqp_sequence_taken};
ghost use Rattle.amqp_link_sections.specs.Body.{amqp_value_item, amqp_value_taken};
ghost use Rattle.amqp_link_sections.specs.BodyLaws.{data_again, data_decided, data_same, amqp_sequence_again};
ghost use Rattle.amqp_link_sections.specs.BodyLaws.{amqp_sequence_decided, amqp_sequence_same, amqp_sequence_same_item};
ghost use Rattle.amqp_link_sections.specs.BodyLaws.{amqp_value_again, amqp_value_decided, amqp_value_same};
ghost use Rattle.amqp_link_sections.specs.BodyLaws.{amqp_value_same_item};

use crate::described::read_described;
use serde_amqp_de::{Deserialize, Deserializer, NeverNull, Read, read_list};
use serde_amqp_item::Error;
use serde_amqp_round_trip::{Faithful, RoundTrip};
use serde_amqp_ser::{Serialize, Serializer, Sink};
use serde_amqp_types::ByteBuf;
use std::alloc::{AllocError, Global};
use std::fmt;
use std::marker::Model;

/// Bytes (part 3, 3.2.6).
#[derive(Debug, PartialEq, Eq, Drop)]
pub struct Data(
    /// The bytes.
    pub ByteBuf,
);

/// Values, one behind the other (part 3, 3.2.7). A clause sees the list of them.
#[derive(Debug, Drop)]
pub struct AmqpSequence<T>(
    /// The values.
    pub Vec<T>,
);

/// One value (part 3, 3.2.8).
#[derive(Debug, Clone, PartialEq, Eq, Drop)]
pub struct AmqpValue<T>(
    /// The value.
    pub T,
);

/// The code of the descriptor of data.
pub(crate) const DATA_CODE: u64 = 0x75;

/// The name of the descriptor of data.
const DATA_NAME: &[u8] = b"amqp:data:binary";

/// The code of the descriptor of a sequence.
pub(crate) const AMQP_SEQUENCE_CODE: u64 = 0x76;

/// The name of the descriptor of a sequence.
const AMQP_SEQUENCE_NAME: &[u8] = b"amqp:amqp-sequence:list";

/// The code of the descriptor of a value.
pub(crate) const AMQP_VALUE_CODE: u64 = 0x77;

/// The name of the descriptor of a value.
const AMQP_VALUE_NAME: &[u8] = b"amqp:amqp-value:*";

impl Clone for Data {
    ghost is_clone = { λ x y. y ≡ x };

    fn clone(&self) -> Result<Self, AllocError> {
        Ok(Data(self.0.clone()?))
    }
}

/// A binary with a descriptor. In an array it answers `InvalidValue`, since a described item has no wide form.
impl Serialize for Data {
    ghost item = { data_item };

    fn is_null(&self) -> bool {
        false
    }

    fn serialize<W: Sink>(&self, s: &mut Serializer<W>) -> Result<(), Error> {
        s.described_basic(DATA_CODE, &self.0)
    }
}

impl Deserialize for Data {
    ghost item = { data_item };

    ghost take = { data_taken };

    #[tactic(auto, unfolding(crate::specs::Described::described_as))]
    fn absent(_alloc: Global) -> Option<Data> {
        None
    }

    fn read<R: Read>(alloc: Global, de: &mut Deserializer<R>) -> Result<Data, Error> {
        Ok(Data(read_described(alloc, de, DATA_CODE, DATA_NAME)?))
    }

    ghost decided = { data_decided };
}

impl RoundTrip for Data {
    ghost same = { λ _. refl };

    ghost again = { data_again };
}

impl Faithful for Data {
    ghost faithful = { data_same };
}

impl NeverNull for Data {
    ghost present = { λ _. refl };
}

/// The bytes in hexadecimal digits, behind `0x`.
impl fmt::Display for Data {
    fn fmt<W: fmt::Write>(&self, f: &mut fmt::Formatter<W>) -> fmt::Result {
        f.write_str("0x")?;
        for byte in self.0.as_slice() {
            write!(f, "{byte:02x}")?;
        }
        Ok(())
    }
}

impl<T> Model for AmqpSequence<T> {
    ghost use Rattle.std.specs.Prelude.{List};

    ghost Value = { List T };

    ghost view = { λ s. s.0.items };
}

impl<T: Clone> Clone for AmqpSequence<T> {
    ghost is_clone = { AllZip T.is_clone };

    fn clone(&self) -> Result<Self, AllocError> {
        Ok(AmqpSequence(self.0.clone()?))
    }
}

impl<T: PartialEq> PartialEq for AmqpSequence<T> {
    ghost eq = { pointwise T.eq };

    ghost laws = { lists_per T.laws };

    fn eq(&self, other: &Self) -> bool {
        self.0.as_slice() == other.0.as_slice()
    }
}

impl<T: Eq> Eq for AmqpSequence<T> {
    ghost laws = { lists_equiv T.Eq.laws };
}

/// A list with a descriptor. In an array it answers `InvalidValue`, since a described item has no wide form.
impl<T: Serialize> Serialize for AmqpSequence<T> {
    ghost item = { amqp_sequence_item T.item };

    fn is_null(&self) -> bool {
        false
    }

    fn serialize<W: Sink>(&self, s: &mut Serializer<W>) -> Result<(), Error> {
        s.described_basic(AMQP_SEQUENCE_CODE, &self.0)
    }
}

/// The items of a list, and of no array.
#[derive(Drop)]
struct ListItems<T>(Vec<T>);

impl<T: Deserialize + Drop> Deserialize for ListItems<T> {
    ghost item = { λ l. list (items_of (map T.item l.0.items)) };

    ghost take = { items_taken T.take };

    #[tactic(auto, unfolding(serde_amqp_de::specs::Takes::items_taken))]
    fn absent(_alloc: Global) -> Option<ListItems<T>> {
        None
    }

    fn read<R: Read>(alloc: Global, de: &mut Deserializer<R>) -> Result<ListItems<T>, Error> {
        Ok(ListItems(read_list(alloc, de)?))
    }

    ghost decided = { items_decided T.take T.decided };
}

impl<T: Deserialize + Drop> Deserialize for AmqpSequence<T> {
    ghost item = { amqp_sequence_item T.item };

    ghost take = { amqp_sequence_taken T.take };

    #[tactic(auto, unfolding(crate::specs::Described::described_as))]
    fn absent(_alloc: Global) -> Option<AmqpSequence<T>> {
        None
    }

    fn read<R: Read>(alloc: Global, de: &mut Deserializer<R>) -> Result<AmqpSequence<T>, Error> {
        let ListItems(values) = read_described::<ListItems<T>, R>(
            alloc,
            de,
            AMQP_SEQUENCE_CODE,
            AMQP_SEQUENCE_NAME,
        )?;
        Ok(AmqpSequence(values))
    }

    ghost decided = { amqp_sequence_decided T.take T.decided };
}

impl<T: RoundTrip + Drop> RoundTrip for AmqpSequence<T> {
    ghost same = { amqp_sequence_same_item T.Serialize.item T.Deserialize.item T.same };

    ghost again = { amqp_sequence_again T.take T.Deserialize.item T.again };
}

impl<T: Faithful + Drop> Faithful for AmqpSequence<T> {
    ghost faithful = { amqp_sequence_same T.Deserialize.item T.faithful };
}

impl<T: Deserialize + Drop> NeverNull for AmqpSequence<T> {
    ghost present = { λ _. refl };
}

/// A value with a descriptor. In an array it answers `InvalidValue`, since a described item has no wide form.
impl<T: Serialize> Serialize for AmqpValue<T> {
    ghost item = { amqp_value_item T.item };

    fn is_null(&self) -> bool {
        false
    }

    fn serialize<W: Sink>(&self, s: &mut Serializer<W>) -> Result<(), Error> {
        s.described_basic(AMQP_VALUE_CODE, &self.0)
    }
}

impl<T: Deserialize + Drop> Deserialize for AmqpValue<T> {
    ghost item = { amqp_value_item T.item };

    ghost take = { amqp_value_taken T.take };

    #[tactic(auto, unfolding(crate::specs::Described::described_as))]
    fn absent(_alloc: Global) -> Option<AmqpValue<T>> {
        None
    }

    fn read<R: Read>(alloc: Global, de: &mut Deserializer<R>) -> Result<AmqpValue<T>, Error> {
        Ok(AmqpValue(read_described(alloc, de, AMQP_VALUE_CODE, AMQP_VALUE_NAME)?))
    }

    ghost decided = { amqp_value_decided T.take T.decided };
}

impl<T: RoundTrip + Drop> RoundTrip for AmqpValue<T> {
    ghost same = { amqp_value_same_item T.Serialize.item T.Deserialize.item T.same };

    ghost again = { amqp_value_again T.take T.Deserialize.item T.again };
}

impl<T: Faithful + Drop> Faithful for AmqpValue<T> {
    ghost faithful = { amqp_value_same T.Deserialize.item T.faithful };
}

impl<T: Deserialize + Drop> NeverNull for AmqpValue<T> {
    ghost present = { λ _. refl };
}

/// The value alone.
impl<T: fmt::Display> fmt::Display for AmqpValue<T> {
    ghost output = { λ v. T.output v.0 };

    fn fmt<W: fmt::Write>(&self, f: &mut fmt::Formatter<W>) -> fmt::Result {
        self.0.fmt(f)
    }
}
