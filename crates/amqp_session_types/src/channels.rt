//! Channels of a connection (part 2, 2.1 and 2.3.1).
ghost use Rattle.std.specs.Prelude.{◌≡◌};

/// A channel on which the peer sends.
#[derive(Debug, Clone, Copy, PartialEq, Eq, PartialOrd, Ord, Hash)]
pub struct IncomingChannel(pub u16);

/// A channel on which is sent here.
#[derive(Debug, Clone, Copy, PartialEq, Eq, PartialOrd, Ord, Hash)]
pub struct OutgoingChannel(pub u16);

impl From<u16> for IncomingChannel {
    ghost from_gives = { λ n c. c.0 ≡ n };

    fn from(number: u16) -> Self {
        IncomingChannel(number)
    }
}

impl From<IncomingChannel> for u16 {
    ghost from_gives = { λ c n. n ≡ c.0 };

    fn from(channel: IncomingChannel) -> Self {
        channel.0
    }
}

impl From<u16> for OutgoingChannel {
    ghost from_gives = { λ n c. c.0 ≡ n };

    fn from(number: u16) -> Self {
        OutgoingChannel(number)
    }
}

impl From<OutgoingChannel> for u16 {
    ghost from_gives = { λ c n. n ≡ c.0 };

    fn from(channel: OutgoingChannel) -> Self {
        channel.0
    }
}
