//! Values that are lent by what they were read from.
ghost use Rattle.std.specs.Prelude.{◌≡◌};
ghost use Rattle.serde_amqp_item.specs.Item.{scalar, binary, symbol};
ghost use Rattle.serde_amqp_de.specs.Takes.{binary_taken, symbol_taken};

use crate::bytes::ByteBuf;
use crate::symbol::Symbol;
use serde_amqp_de::{BorrowDeserialize, Deserializer, SliceReader};
use serde_amqp_item::Error;
use serde_amqp_ser::{Serialize, Serializer, Sink};

/// Bytes (part 1, 1.6.19) that are lent.
#[derive(Debug, Clone, Copy, PartialEq, Eq, PartialOrd, Ord, Hash)]
pub struct BinaryRef<'a>(pub &'a [u8]);

/// A symbol (part 1, 1.6.21) whose text is lent.
#[derive(Debug, Clone, Copy, PartialEq, Eq, PartialOrd, Ord, Hash)]
pub struct SymbolRef<'a>(pub &'a str);

impl<'a> SymbolRef<'a> {
    /// The text.
    pub fn as_str(&self) -> &'a str
        ensures { result.now ≡ self.now.0.now }
    {
        self.0
    }
}

impl<'a> From<&'a [u8]> for BinaryRef<'a> {
    ghost from_gives = { λ bs b. b.0.now ≡ bs.now };

    fn from(bytes: &'a [u8]) -> Self {
        BinaryRef(bytes)
    }
}

impl<'a> From<&'a ByteBuf> for BinaryRef<'a> {
    ghost from_gives = { λ bs b. b.0.now ≡ bs.now };

    fn from(bytes: &'a ByteBuf) -> Self {
        BinaryRef(bytes.as_slice())
    }
}

impl<'a> From<&'a str> for SymbolRef<'a> {
    ghost from_gives = { λ t s. s.0.now ≡ t.now };

    fn from(text: &'a str) -> Self {
        SymbolRef(text)
    }
}

impl<'a> From<&'a Symbol> for SymbolRef<'a> {
    ghost from_gives = { λ t s. s.0.now ≡ t.now };

    fn from(symbol: &'a Symbol) -> Self {
        SymbolRef(symbol.as_str())
    }
}

impl<'a> Serialize for BinaryRef<'a> {
    ghost item = { λ b. scalar (binary b.0.now) };

    fn is_null(&self) -> bool {
        false
    }

    fn serialize<W: Sink>(&self, s: &mut Serializer<W>) -> Result<(), Error> {
        s.serialize_bytes(self.0)
    }
}

impl<'a> Serialize for SymbolRef<'a> {
    ghost item = { λ t. scalar (symbol t.0.now) };

    fn is_null(&self) -> bool {
        false
    }

    fn serialize<W: Sink>(&self, s: &mut Serializer<W>) -> Result<(), Error> {
        s.symbol(self.0)
    }
}

/// Bytes that are lent from the slice that they are read from.
impl<'de> BorrowDeserialize<'de> for BinaryRef<'de> {
    ghost item = { λ b. scalar (binary b.0.now) };

    ghost take = { binary_taken };

    #[tactic(auto, using(serde_amqp_de::proofs::Values::taking))]
    fn read_borrowed(de: &mut Deserializer<SliceReader<'de>>) -> Result<BinaryRef<'de>, Error> {
        Ok(BinaryRef(de.borrow_bytes()?))
    }
}

/// A symbol whose text is lent from the slice that it is read from.
impl<'de> BorrowDeserialize<'de> for SymbolRef<'de> {
    ghost item = { λ t. scalar (symbol t.0.now) };

    ghost take = { symbol_taken };

    #[tactic(auto, using(serde_amqp_de::proofs::Values::taking))]
    fn read_borrowed(de: &mut Deserializer<SliceReader<'de>>) -> Result<SymbolRef<'de>, Error> {
        Ok(SymbolRef(de.borrow_symbol()?))
    }
}
