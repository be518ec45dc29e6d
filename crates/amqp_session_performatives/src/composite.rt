//! Composite types, each read as the list of its fields (part 1, 1.4).
ghost use Rattle.std.specs.Prelude.{◌≡◌, ℕ, List, IfOk, OnOk, Option, None};
ghost use Rattle.serde_amqp_item.specs.Item.{Item};
ghost use Rattle.serde_amqp_item.specs.Record.{record_item};
ghost use Rattle.serde_amqp_read.specs.Reads.{Unless};
ghost use Rattle.serde_amqp_de.specs.Reads.{Refuses, Took, at_of};
ghost use Rattle.serde_amqp_de.specs.Takes.{record_taken};
ghost use Rattle.serde_amqp_values.specs.Choice.{TookList, RefusesList};
ghost use Rattle.amqp_session_performatives.specs.Performative.{performative_item};

use crate::performative::Performative;
use serde_amqp_de::{Deserializer, Read, read_descriptor};
use serde_amqp_item::Error;
use std::alloc::Global;

/// A composite type.
pub(crate) trait Composite: Sized {
    /// Which items its fields take.
    ghost takes: { List (Item → Option Item) };

    /// The items of the fields of a value.
    ghost fields: { Self → List Item };

    /// Reads the list of the fields, which stands behind the descriptor.
    ///
    /// Errors: `Memory`; a fault of the reader itself; any other exactly where no front of what is left is a wire form
    /// of a list that the fields take.
    fn read_fields<R: Read>(alloc: Global, de: &mut Deserializer<R>) -> Result<Self, Error>
        requires { de.old.element ≡ None }
        ensures ok { IfOk result (λ v. TookList takes (at_of R.rest de.old) (at_of R.rest de.new)
            (fields v)) }
        ensures element { OnOk result (de.new.element ≡ None) }
        ensures refused { Unless R.faulty result (RefusesList takes (at_of R.rest de.old)) };
}

/// A composite type that is one of the performatives.
pub(crate) trait Performs: Composite {
    /// The code of its descriptor.
    ghost code: { ℕ };

    /// The performative that it is.
    fn into_performative(self) -> Performative
        ensures { performative_item result ≡ record_item code (Self.Composite.fields self) };
}

/// Reads a value of a composite type, which has this code and this name.
///
/// Errors: `Memory`; a fault of the reader itself; any other exactly where no front of what is left is a wire form of a
/// list with that descriptor that the fields take.
pub(crate) fn read_composite<C: Composite + Drop, R: Read>(
    alloc: Global,
    de: &mut Deserializer<R>,
    code: u64,
    name: &[u8],
) -> Result<C, Error>
    ensures ok { IfOk result (λ v. Took (record_taken code name.now C.takes) de.old.element
        (at_of R.rest de.old) (at_of R.rest de.new) (record_item code (C.fields v))) }
    ensures element { OnOk result (de.new.element ≡ de.old.element) }
    ensures refused { Unless R.faulty result
        (Refuses (record_taken code name.now C.takes) de.old.element (at_of R.rest de.old)) }
{
    let outer = de.element();
    de.described()?;
    read_descriptor(alloc, de, code, name)?;
    let value = C::read_fields(alloc, de)?;
    de.set_element(outer);
    Ok(value)
}
