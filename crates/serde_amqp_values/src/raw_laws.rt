//! What holds of each raw value.
// Laws of kept values. The functions do nothing: their contracts are the laws.
ghost use Rattle.serde_amqp_item.specs.Item.{raw};
ghost use Rattle.serde_amqp_item.specs.Wire.{IsStrict};
ghost use Rattle.serde_amqp_item.specs.Canon.{RawKept};
ghost use Rattle.serde_amqp_read.specs.Reads.{StrictBytes};

use crate::raw_value::RawValue;

/// A raw value is the bytes of one strict form, so that its item is one that can be written (part 1, section 1.2).
#[tactic(auto, using(crate::proofs::Strict::stricts))]
pub fn raw_value_is_strict(value: &RawValue)
    ensures strict { StrictBytes value.now }
    ensures kept { RawKept IsStrict (raw value.now) }
{
    let _ = value.as_bytes();
}
