//! Large values behind a pointer.
ghost use Rattle.std.specs.Prelude.{◌≡◌, IfOk};

use serde_amqp_item::Error;
use serde_amqp_ser::{Serialize, Serializer, Sink};
use std::alloc::{AllocError, Global};
use std::marker::Model;
use std::ops::Deref;

/// A value behind a pointer, so that what holds it is small. A clause sees the value.
#[derive(Debug, Drop)]
pub struct Boxed<T> {
    value: Box<T>,
}

impl<T> Model for Boxed<T> {
    ghost Value = { T };

    ghost coded = { T.code };

    ghost view = { λ b. b.value.value };
}

impl<T> Boxed<T> {
    /// The value, behind a pointer. It is refused where there is no memory for it.
    pub fn new(alloc: Global, value: T) -> Result<Self, AllocError>
    where
        T: Drop,
        ensures { IfOk result (λ b. b ≡ value) }
    {
        Ok(Boxed {
            value: Box::new(alloc, value)?,
        })
    }

    /// The value.
    pub fn into_inner(self) -> T
        ensures { result ≡ self }
    {
        let Boxed { value } = self;
        Box::into_inner(value)
    }
}

impl<T> Deref for Boxed<T> {
    type Target = T;

    ghost deref_gives = { λ b x. x ≡ b };

    fn deref(&self) -> &T
        ensures { result.now ≡ self.now }
    {
        &self.value
    }
}

impl<T: Clone> Clone for Boxed<T> {
    ghost is_clone = { T.is_clone };

    fn clone(&self) -> Result<Self, AllocError> {
        Ok(Boxed {
            value: self.value.clone()?,
        })
    }
}

impl<T: PartialEq> PartialEq for Boxed<T> {
    ghost eq = { T.eq };

    ghost laws = { T.laws };

    fn eq(&self, other: &Self) -> bool {
        *self.value == *other.value
    }
}

impl<T: Eq> Eq for Boxed<T> {
    ghost laws = { T.Eq.laws };
}

impl<T: Serialize> Serialize for Boxed<T> {
    ghost item = { T.item };

    fn is_null(&self) -> bool {
        self.value.is_null()
    }

    fn serialize<W: Sink>(&self, s: &mut Serializer<W>) -> Result<(), Error> {
        self.value.serialize(s)
    }
}
