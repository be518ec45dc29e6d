//! The role of a link's end, and how deliveries are settled (part 2, 2.8.1 to 2.8.3).
ghost use Rattle.std.specs.Prelude.{◌≡◌, refl};
ghost use Rattle.serde_amqp_de.specs.Deciding.{boolean_decided, ubyte_decided};
ghost use Rattle.serde_amqp_de.specs.Takes.{ubyte_taken};
ghost use Rattle.serde_amqp_types.specs.Takes.{is_ubyte};
ghost use Rattle.amqp_session_types.specs.Limits.{is_ubyte_upto};
ghost use Rattle.amqp_session_types.specs.LimitLaws.{limited_decided};
ghost use Rattle.amqp_session_types.specs.Modes.{role_item, role_taken, sender_settle_mode_item};
ghost use Rattle.amqp_session_types.specs.Modes.{sender_settle_mode_taken, receiver_settle_mode_item};
ghost use Rattle.amqp_session_types.specs.Modes.{receiver_settle_mode_taken};
ghost use Rattle.amqp_session_types.specs.ModeLaws.{role_again, role_same, role_present, sender_mode_again};
ghost use Rattle.amqp_session_types.specs.ModeLaws.{sender_mode_same, sender_mode_present, sender_mode_one};
ghost use Rattle.amqp_session_types.specs.ModeLaws.{receiver_mode_again, receiver_mode_same, receiver_mode_present};
ghost use Rattle.amqp_session_types.specs.ModeLaws.{receiver_mode_one};

use crate::or_default::HasDefault;
use serde_amqp_de::{Deserialize, Deserializer, NeverNull, Read};
use serde_amqp_item::Error;
use serde_amqp_round_trip::{Faithful, RoundTrip};
use serde_amqp_ser::{Serialize, Serializer, Sink};
use std::alloc::Global;

/// Which end of a link it is (part 2, 2.8.1).
#[derive(Debug, Clone, Copy, PartialEq, Eq)]
pub enum Role {
    /// It sends messages.
    Sender,
    /// It receives messages.
    Receiver,
}

/// How a sender settles its deliveries (part 2, 2.8.2).
#[derive(Debug, Clone, Copy, PartialEq, Eq)]
pub enum SenderSettleMode {
    /// It sends all deliveries unsettled.
    Unsettled,
    /// It sends all deliveries settled.
    Settled,
    /// It may send each delivery settled or unsettled. This is the default.
    Mixed,
}

/// How a receiver settles its deliveries (part 2, 2.8.3).
#[derive(Debug, Clone, Copy, PartialEq, Eq)]
pub enum ReceiverSettleMode {
    /// It settles what comes by itself. This is the default.
    First,
    /// It settles only after the sender did.
    Second,
}

/// A boolean: false for a sender, true for a receiver.
impl Serialize for Role {
    ghost item = { role_item };

    fn is_null(&self) -> bool {
        false
    }

    fn serialize<W: Sink>(&self, s: &mut Serializer<W>) -> Result<(), Error> {
        match self {
            Role::Sender => s.serialize_bool(false),
            Role::Receiver => s.serialize_bool(true),
        }
    }
}

impl Deserialize for Role {
    ghost item = { role_item };

    ghost take = { role_taken };

    fn absent(_alloc: Global) -> Option<Role> {
        None
    }

    fn read<R: Read>(alloc: Global, de: &mut Deserializer<R>) -> Result<Role, Error> {
        if bool::read(alloc, de)? {
            return Ok(Role::Receiver);
        }
        Ok(Role::Sender)
    }

    ghost decided = { boolean_decided };
}

impl RoundTrip for Role {
    ghost same = { λ _. refl };

    ghost again = { role_again };
}

impl Faithful for Role {
    ghost faithful = { role_same };
}

impl NeverNull for Role {
    ghost present = { role_present };
}

/// A ubyte: 0 for unsettled, 1 for settled, 2 for mixed.
impl Serialize for SenderSettleMode {
    ghost item = { sender_settle_mode_item };

    fn is_null(&self) -> bool {
        false
    }

    fn serialize<W: Sink>(&self, s: &mut Serializer<W>) -> Result<(), Error> {
        match self {
            SenderSettleMode::Unsettled => s.serialize_u8(0),
            SenderSettleMode::Settled => s.serialize_u8(1),
            SenderSettleMode::Mixed => s.serialize_u8(2),
        }
    }
}

/// A ubyte above 2 answers `InvalidValue`.
impl Deserialize for SenderSettleMode {
    ghost item = { sender_settle_mode_item };

    ghost take = { sender_settle_mode_taken };

    #[tactic(auto, unfolding(crate::specs::Limits::limited))]
    fn absent(_alloc: Global) -> Option<SenderSettleMode> {
        None
    }

    #[tactic(auto, using(crate::proofs::Limiting::ubytes))]
    fn read<R: Read>(alloc: Global, de: &mut Deserializer<R>) -> Result<SenderSettleMode, Error> {
        match u8::read(alloc, de)? {
            0 => Ok(SenderSettleMode::Unsettled),
            1 => Ok(SenderSettleMode::Settled),
            2 => Ok(SenderSettleMode::Mixed),
            _ => Err(Error::InvalidValue),
        }
    }

    ghost decided = { limited_decided (is_ubyte_upto 2) ubyte_taken ubyte_decided };
}

impl RoundTrip for SenderSettleMode {
    ghost same = { λ _. refl };

    ghost again = { sender_mode_again };
}

impl Faithful for SenderSettleMode {
    ghost faithful = { sender_mode_same };
}

impl NeverNull for SenderSettleMode {
    ghost present = { sender_mode_present };
}

/// Mixed.
impl HasDefault for SenderSettleMode {
    ghost is_default_item = { is_ubyte 2 };

    fn default_value() -> SenderSettleMode {
        SenderSettleMode::Mixed
    }

    fn is_default(&self) -> bool {
        matches!(self, SenderSettleMode::Mixed)
    }

    ghost one_default = { sender_mode_one };
}

/// A ubyte: 0 for first, 1 for second.
impl Serialize for ReceiverSettleMode {
    ghost item = { receiver_settle_mode_item };

    fn is_null(&self) -> bool {
        false
    }

    fn serialize<W: Sink>(&self, s: &mut Serializer<W>) -> Result<(), Error> {
        match self {
            ReceiverSettleMode::First => s.serialize_u8(0),
            ReceiverSettleMode::Second => s.serialize_u8(1),
        }
    }
}

/// A ubyte above 1 answers `InvalidValue`.
impl Deserialize for ReceiverSettleMode {
    ghost item = { receiver_settle_mode_item };

    ghost take = { receiver_settle_mode_taken };

    #[tactic(auto, unfolding(crate::specs::Limits::limited))]
    fn absent(_alloc: Global) -> Option<ReceiverSettleMode> {
        None
    }

    #[tactic(auto, using(crate::proofs::Limiting::ubytes))]
    fn read<R: Read>(alloc: Global, de: &mut Deserializer<R>) -> Result<ReceiverSettleMode, Error> {
        match u8::read(alloc, de)? {
            0 => Ok(ReceiverSettleMode::First),
            1 => Ok(ReceiverSettleMode::Second),
            _ => Err(Error::InvalidValue),
        }
    }

    ghost decided = { limited_decided (is_ubyte_upto 1) ubyte_taken ubyte_decided };
}

impl RoundTrip for ReceiverSettleMode {
    ghost same = { λ _. refl };

    ghost again = { receiver_mode_again };
}

impl Faithful for ReceiverSettleMode {
    ghost faithful = { receiver_mode_same };
}

impl NeverNull for ReceiverSettleMode {
    ghost present = { receiver_mode_present };
}

/// First.
impl HasDefault for ReceiverSettleMode {
    ghost is_default_item = { is_ubyte 0 };

    fn default_value() -> ReceiverSettleMode {
        ReceiverSettleMode::First
    }

    fn is_default(&self) -> bool {
        matches!(self, ReceiverSettleMode::First)
    }

    ghost one_default = { receiver_mode_one };
}
