//! Types whose values are keys of maps that are read in their order.
ghost use Rattle.std.specs.Prelude.{refl};

use super::bytes::ByteBuf;
use super::symbol::Symbol;
use super::text::Text;
use super::timestamp::Timestamp;
use super::uuid::Uuid;
use serde_amqp_de::SortedKey;

impl SortedKey for Text {
    ghost ordered = { λ _ _. refl };
}

impl SortedKey for Symbol {
    ghost ordered = { λ _ _. refl };
}

impl SortedKey for ByteBuf {
    ghost ordered = { λ _ _. refl };
}

impl SortedKey for Timestamp {
    ghost ordered = { λ _ _. refl };
}

impl SortedKey for Uuid {
    ghost ordered = { λ _ _. refl };
}
