//! The bytes of a message.
ghost use Rattle.std.specs.Prelude.{◌≡◌, ◌<◌, ◌^◌, length};

use bytes::Bytes;
use std::marker::Model;

/// The bytes of a message that was received, which are fewer than 2^32.
#[derive(Drop)]
pub struct MessageBytes {
    bytes: Bytes,
}

impl Model for MessageBytes {
    ghost use Rattle.std.specs.Prelude.{List, ℕ, ◌<◌, ◌^◌, length};

    ghost Value = { List ℕ };

    ghost view = { λ m. m.bytes };

    ghost invariant = { λ m. length m.bytes < 2 ^ 32 };
}

impl MessageBytes {
    /// These bytes, which are fewer than 2^32.
    pub fn new(bytes: Bytes) -> Self
        requires { length bytes < 2 ^ 32 }
        ensures { result ≡ bytes }
    {
        MessageBytes { bytes }
    }

    /// The bytes, which can be shared.
    pub fn as_bytes(&self) -> &Bytes
        ensures bytes { result.now ≡ self.now }
        ensures short { length self.now < 2 ^ 32 }
    {
        &self.bytes
    }
}
