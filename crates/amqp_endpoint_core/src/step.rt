//! The steps of a world.
use amqp_endpoint_model::Call;

/// One of the two ends of a world.
#[derive(Debug, Clone, Copy, PartialEq, Eq, Drop)]
pub enum End {
    /// The one whose settings are given first.
    A,
    /// The other one.
    B,
}

/// A step of a world.
#[derive(Debug, Drop)]
pub enum Step {
    /// A call at an end. One that feeds, pulls or breaks off is refused with `IllegalState` and does nothing: bytes
    /// and breaks are the world's own.
    Call(End, Call),
    /// All that an end has queued is pulled into its stream, and then the next bytes of the stream are fed to the
    /// other end in one piece: so many, or what there is. Where they find no connection there, they stay in the stream.
    /// Where the feed ends in a fault that breaks its end off, both ends break off behind it, as in `Break`.
    Move(End, u64),
    /// Both ends break off, and what was on its way is lost.
    Break,
}
