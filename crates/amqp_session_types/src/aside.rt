//! Fields that are read behind a pointer.
ghost use Rattle.std.specs.Prelude.{◌≡◌, IfOk, OnOk};
ghost use Rattle.serde_amqp_item.specs.Record.{option_item};
ghost use Rattle.serde_amqp_read.specs.Reads.{Unless};
ghost use Rattle.serde_amqp_de.specs.Deciding.{option_decided};
ghost use Rattle.serde_amqp_de.specs.Reads.{Refuses, Took, at_of};
ghost use Rattle.serde_amqp_de.specs.Takes.{option_taken};

use crate::boxed::Boxed;
use serde_amqp_de::{Deserialize, Deserializer, Read};
use serde_amqp_item::{EncodingCodes, Error};
use std::alloc::Global;

/// A field that is large and mostly absent, as it is read: behind a pointer, so that what holds it is small.
#[derive(Drop)]
pub struct Aside<T>(
    /// The field's value, if it is there.
    pub Option<Boxed<T>>,
);

impl<T: Deserialize + Drop> Deserialize for Aside<T> {
    ghost item = { λ a. option_item T.item a.0 };

    ghost take = { option_taken T.take };

    #[tactic(auto, unfolding(serde_amqp_de::specs::Takes::option_taken))]
    fn absent(_alloc: Global) -> Option<Aside<T>> {
        Some(Aside(None))
    }

    #[tactic(auto, using(serde_amqp_de::proofs::Values::optional))]
    fn read<R: Read>(alloc: Global, de: &mut Deserializer<R>) -> Result<Aside<T>, Error> {
        match de.peek()? {
            EncodingCodes::Null => {
                de.deserialize_unit()?;
                Ok(Aside(None))
            }
            _ => Ok(Aside(Some(read_boxed(alloc, de)?))),
        }
    }

    ghost decided = { option_decided T.take T.decided };
}

/// Reads a value, and puts it behind a pointer.
#[inline(never)]
fn read_boxed<T: Deserialize + Drop, R: Read>(
    alloc: Global,
    de: &mut Deserializer<R>,
) -> Result<Boxed<T>, Error>
    ensures ok { IfOk result (λ v. Took T.take de.old.element (at_of R.rest de.old)
        (at_of R.rest de.new) (T.item v)) }
    ensures element { OnOk result (de.new.element ≡ de.old.element) }
    ensures refused { Unless R.faulty result (Refuses T.take de.old.element (at_of R.rest de.old)) }
{
    let value = T::read(alloc, de)?;
    Ok(Boxed::new(alloc, value)?)
}
