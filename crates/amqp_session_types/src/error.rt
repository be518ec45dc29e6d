//! Details of an error (part 2, 2.8.14).
ghost use Rattle.std.specs.Prelude.{◌≡◌, Some, refl};
ghost use Rattle.amqp_session_types.specs.Error.{error_item, error_said, error_taken};
ghost use Rattle.amqp_session_types.specs.Deciding.{error_decided};
ghost use Rattle.amqp_session_types.specs.Again.{error_again};
ghost use Rattle.amqp_session_types.specs.Faithful.{error_same};

use crate::aside::Aside;
use crate::boxed::Boxed;
use crate::definitions::Fields as Info;
use serde_amqp_de::{Deserialize, Deserializer, NeverNull, Read, read_record};
use serde_amqp_round_trip::{Faithful, RoundTrip};
use serde_amqp_ser::{Serialize, Serializer, Sink, serialize_record};
use serde_amqp_types::{Symbol, Text};
use std::alloc::{AllocError, Global};
use std::fmt;

/// Details of an error (part 2, 2.8.14).
#[derive(Debug, PartialEq, Eq)]
pub struct Error {
    /// What kind of error it is.
    pub condition: Symbol,
    /// A text that says more. It is for a person to read.
    pub description: Option<Text>,
    /// More about the error, by names.
    pub info: Option<Boxed<Info>>,
}

impl Drop for Error {
    fn drop(self) {
        let Error {
            condition: _,
            description: _,
            info: _,
        } = self;
    }
}

/// The descriptor's code.
const CODE: u64 = 0x1d;

/// The descriptor's name.
const NAME: &[u8] = b"amqp:error:list";

/// The fields in their order.
type Fields = (Symbol, (Option<Text>, (Aside<Info>, ())));

impl Clone for Error {
    ghost is_clone = { λ x y. y ≡ x };

    fn clone(&self) -> Result<Self, AllocError> {
        Ok(Error {
            condition: self.condition.clone()?,
            description: self.description.clone()?,
            info: self.info.clone()?,
        })
    }
}

/// The condition, and behind a colon the description where there is one.
impl fmt::Display for Error {
    ghost output = { λ e. Some (error_said e) };

    fn fmt<W: fmt::Write>(&self, f: &mut fmt::Formatter<W>) -> fmt::Result {
        f.write_str(self.condition.as_str())?;
        if let Some(description) = &self.description {
            f.write_str(": ")?;
            f.write_str(description.as_str())?;
        }
        Ok(())
    }
}

impl std::error::Error for Error {}

impl Serialize for Error {
    ghost item = { error_item };

    fn is_null(&self) -> bool {
        false
    }

    fn serialize<W: Sink>(&self, s: &mut Serializer<W>) -> Result<(), serde_amqp_item::Error> {
        serialize_record(
            s,
            CODE,
            &(&self.condition, (&self.description, (&self.info, ()))),
        )
    }
}

impl Deserialize for Error {
    ghost item = { error_item };

    ghost take = { error_taken };

    #[tactic(auto, unfolding(serde_amqp_de::specs::Takes::record_taken))]
    fn absent(_alloc: Global) -> Option<Error> {
        None
    }

    fn read<R: Read>(
        alloc: Global,
        de: &mut Deserializer<R>,
    ) -> Result<Error, serde_amqp_item::Error> {
        let (condition, (description, (Aside(info), ()))) = read_record::<Fields, R>(
            alloc, de, CODE, NAME,
        )?;
        Ok(Error {
            condition,
            description,
            info,
        })
    }

    ghost decided = { error_decided };
}

impl RoundTrip for Error {
    ghost same = { λ _. refl };

    ghost again = { error_again };
}

impl Faithful for Error {
    ghost faithful = { error_same };
}

impl NeverNull for Error {
    ghost present = { λ _. refl };
}
