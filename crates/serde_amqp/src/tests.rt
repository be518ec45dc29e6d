//! What rows of a table can't say: readers that refuse, want of memory, texts, generic calls at a type, and compound
//! serializers. The forms of each type are rows, which the crate `serde_amqp_lines` answers.
mod errors;
mod memory;
mod ordered_maps;
mod raw_values;
mod readers;
mod records;
mod round_trips;
mod serializers;
