//! The sources that there are.
/// What the sources of this crate have, and no other type can have.
pub trait Sealed {}
