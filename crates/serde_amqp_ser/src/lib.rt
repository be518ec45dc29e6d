//! Writing values in AMQP's canonical encoding: whole values with `to_vec` and `append_to_vec`, and with a
//! `Serializer` value by value, field by field or item by item. A value that is refused leaves all as it was
//! before that value, an element its compound as it was before that element.
#![tactic(auto)]

mod compound;
mod content;
mod described;
mod edge;
mod map_serializer;
mod maps;
mod opened;
mod place;
mod record;
mod scalars;
mod sequences;
mod serialize;
mod serializer;
mod sink;
mod struct_serializer;
mod tuples;
mod variant_serializer;

pub use content::Content;
pub use edge::{append_to_vec, serialized_size, to_vec};
pub use map_serializer::MapSerializer;
pub use opened::Opened;
pub use place::IsArrayElement;
pub use record::{Fields, serialize_record};
pub use sequences::{SeqSerializer, TupleSerializer, TupleStructSerializer};
pub use serialize::Serialize;
pub use serializer::Serializer;
pub use sink::{Counter, Sink};
pub use struct_serializer::{StructEncoding, StructSerializer};
pub use variant_serializer::VariantSerializer;
