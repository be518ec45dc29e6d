//! AMQP 1.0's type system (OASIS AMQP 1.0, part 1): values are written to bytes and read from them.
//!
//! [`to_vec`] writes a value's canonical text, and [`from_slice`] reads a value from the front of bytes, exactly where a
//! front of them is a wire form of an item that the type takes. [`Serialize`] says which item a value is, and
//! [`Deserialize`] which items a type takes.
#![tactic(auto)]

pub use serde_amqp_de::{
    ArrayAccess, BorrowDeserialize, DescribedAccess, Deserialize, Deserializer, InMemory, IoReader,
    ListAccess, MapAccess, MapKey, NeverNull, Read, ReadFields, SliceReader, SortedKey,
    VariantAccess, borrow_from_slice, from_reader, from_slice, one_value, read_array,
    read_descriptor, read_list, read_map, read_multiple, read_record,
};
pub use serde_amqp_item::{
    Category, DESCRIBED_BASIC, DESCRIBED_LIST, DESCRIBED_MAP, DESCRIPTOR, Double, EncodingCodes,
    Error, Float, IsDescribed, MAX_ARRAY_COUNT, OFFSET_ARRAY8, OFFSET_ARRAY32, OFFSET_LIST8,
    OFFSET_LIST32, OFFSET_MAP8, OFFSET_MAP32, UNTAGGED_ENUM, VALUE,
};
pub use serde_amqp_round_trip::{Faithful, RoundTrip, written_is_read, written_is_read_equal};
pub use serde_amqp_ser::{
    Counter, Fields, IsArrayElement, MapSerializer, SeqSerializer, Serialize, Serializer, Sink,
    StructEncoding, StructSerializer, TupleSerializer, TupleStructSerializer, VariantSerializer,
    append_to_vec, serialize_record, serialized_size, to_vec,
};

// types, and what tells them apart
pub use serde_amqp_types::{
    Array, Binary, BinaryRef, BoolOr, Boolean, Byte, ByteBuf, Char, Dec32, Dec64, Dec128, Decimal,
    Described, Descriptor, Int, List, Long, Multiple, Short, Symbol, SymbolRef, Text, Timestamp,
    UByteOr, UIntOr, UShortOr, Ubyte, Uint, Ulong, Ushort, Uuid,
};
pub use serde_amqp_values::{
    Choice, OrderedMap, RawValue, raw_value_is_strict, read_choice, read_fields_of,
};

#[cfg(test)]
mod tests;
