//! Constructors, by their bytes.
ghost use Rattle.std.specs.Prelude.{◌≡◌};
ghost use Rattle.serde_amqp_item.specs.Wire.{code_of};

use serde_amqp_item::{EncodingCodes, code_of};

/// The constructor that a byte stands for (part 1, section 1.6), or none. Those that come most often are told without
/// the table of all.
#[inline(always)]
#[tactic(auto, unfolding(serde_amqp_item::specs::Wire::code_of))]
pub(crate) fn constructor_of(byte: u8) -> Option<EncodingCodes>
    ensures { result ≡ code_of byte }
{
    match byte {
        0x40 => Some(EncodingCodes::Null),
        0x52 => Some(EncodingCodes::SmallUInt),
        0x53 => Some(EncodingCodes::SmallULong),
        0xa1 => Some(EncodingCodes::Str8),
        0xa3 => Some(EncodingCodes::Sym8),
        0xc0 => Some(EncodingCodes::List8),
        _ => code_of(byte),
    }
}
