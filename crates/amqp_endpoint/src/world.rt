//! Two endpoints joined by two streams of bytes, which may be cut anywhere and broken anywhere.
pub use amqp_endpoint_core::world::run;
pub use amqp_endpoint_core::{Did, End, Moved, Step, WorldReply};
