//! The text of AMQP's values: one line that a person reads, and no two values have the same. docs/TRACE.md has its
//! grammar.

mod composites;
mod escapes;
mod leaves;
mod printer;
mod shapes;

pub use printer::text_of;
