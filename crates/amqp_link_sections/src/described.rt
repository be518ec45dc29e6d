//! Values with a descriptor that is given (part 1, 1.2 and 1.5).
ghost use Rattle.std.specs.Prelude.{◌≡◌, IfOk, OnOk};
ghost use Rattle.serde_amqp_read.specs.Reads.{Unless};
ghost use Rattle.serde_amqp_de.specs.Reads.{Took, Refuses, at_of};
ghost use Rattle.amqp_link_sections.specs.Described.{described_item, described_as};

use serde_amqp_de::{Deserialize, Deserializer, Read, read_descriptor};
use serde_amqp_item::Error;
use std::alloc::Global;

/// Reads a value with this code or this name as its descriptor (part 1, 1.2 and 1.5).
///
/// Errors: `Memory`; a fault of the reader itself; any other exactly where no front of what is left is a wire form of
/// such a value. `InvalidFormatCode` where it isn't described, and `InvalidValue` where it has another descriptor.
#[tactic(auto, using(crate::proofs::Descriptions::descriptions))]
pub(crate) fn read_described<T: Deserialize, R: Read>(
    alloc: Global,
    de: &mut Deserializer<R>,
    code: u64,
    name: &[u8],
) -> Result<T, Error>
    ensures ok { IfOk result (λ v. Took (described_as code name.now T.take)
        de.old.element (at_of R.rest de.old) (at_of R.rest de.new) (described_item code (T.item v))) }
    ensures element { OnOk result (de.new.element ≡ de.old.element) }
    ensures refused { Unless R.faulty result
        (Refuses (described_as code name.now T.take) de.old.element (at_of R.rest de.old)) }
{
    let outer = de.element();
    de.described()?;
    read_descriptor(alloc, de, code, name)?;
    let value = T::read(alloc, de)?;
    de.set_element(outer);
    Ok(value)
}
