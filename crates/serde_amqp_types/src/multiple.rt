//! Fields of composite types that hold several values (part 1, 1.4, `multiple="true"`).
ghost use Rattle.std.specs.Prelude.{map};
ghost use Rattle.serde_amqp_de.specs.Takes.{several, multiple_taken};
ghost use Rattle.std.specs.Prelude.{List};
ghost use Rattle.std.proofs.Common.{ap};
ghost use Rattle.serde_amqp_de.specs.Deciding.{multiple_decided};
ghost use Rattle.serde_amqp_de.specs.Again.{multiple_again, several_faithful, several_same_item};

use crate::array::Array;
use serde_amqp_de::{Deserialize, Deserializer, Read, read_multiple};
use serde_amqp_item::Error;
use serde_amqp_round_trip::{Faithful, RoundTrip};
use serde_amqp_ser::{Serialize, Serializer, Sink};
use std::alloc::Global;

/// A field of several values: none is written as null, and several are an array.
#[derive(Debug, Drop)]
pub struct Multiple<A>(pub A);

impl<'a, T: Serialize> Serialize for Multiple<&'a Array<T>> {
    ghost item = { λ m. several (map T.item m.0.now) };

    #[tactic(auto, using(crate::proofs::Multiples::many))]
    fn is_null(&self) -> bool {
        self.0.is_empty()
    }

    #[tactic(auto, using(crate::proofs::Multiples::many))]
    fn serialize<W: Sink>(&self, s: &mut Serializer<W>) -> Result<(), Error> {
        if self.0.is_empty() {
            return s.serialize_unit();
        }
        s.serialize_array(self.0.as_slice())
    }
}

impl<T: Serialize> Serialize for Multiple<Array<T>> {
    ghost item = { λ m. several (map T.item m.0) };

    fn is_null(&self) -> bool {
        Multiple(&self.0).is_null()
    }

    fn serialize<W: Sink>(&self, s: &mut Serializer<W>) -> Result<(), Error> {
        Multiple(&self.0).serialize(s)
    }
}

/// Null is none, an array is its elements, and any other item is one value.
impl<T: Deserialize + Drop> Deserialize for Multiple<Array<T>> {
    ghost item = { λ m. several (map T.item m.0) };

    ghost take = { multiple_taken T.take };

    #[tactic(auto, unfolding(serde_amqp_de::specs::Takes::multiple_taken))]
    fn absent(alloc: Global) -> Option<Multiple<Array<T>>> {
        Some(Multiple(Array::new(alloc)))
    }

    fn read<R: Read>(alloc: Global, de: &mut Deserializer<R>) -> Result<Multiple<Array<T>>, Error> {
        Ok(Multiple(Array::from(read_multiple(alloc, de)?)))
    }

    ghost decided = { multiple_decided T.take T.decided };
}

impl<T: RoundTrip + Drop> RoundTrip for Multiple<Array<T>> {
    ghost same = { λ m. several_same_item T.Serialize.item T.Deserialize.item T.same m.0 };

    ghost again = { λ m. multiple_again T.take T.Deserialize.item T.again m.0 };
}

impl<T: Faithful + Drop> Faithful for Multiple<Array<T>> {
    ghost faithful = { λ x y e. ap (λ (a : List T). record { 0 = a }) (several_faithful T.Deserialize.item T.faithful x.0 y.0 e) };
}
