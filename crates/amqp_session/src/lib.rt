//! AMQP 1.0's transport without a network (OASIS AMQP 1.0, part 2): performatives and what stands in them, frames and
//! their bytes, the connection, and sessions over links of any type.
#![tactic(auto)]

#[cfg(test)]
mod tests;

/// The channel-max of an Open that names no other (part 2, 2.7.1).
pub const DEFAULT_CHANNEL_MAX: u16 = 255;
/// The incoming-window and the outgoing-window of a Begin that names no other, in transfers (part 2, 2.7.2).
pub const DEFAULT_WINDOW: u32 = 2_048;
/// The max-frame-size of an Open that names no other, in bytes (part 2, 2.7.1).
pub const DEFAULT_MAX_FRAME_SIZE: u32 = 262_144;

pub use amqp_session_core::{
    Batch, BehindFrame, DeliveryRuns, DispositionRoom, FewNumbers, LinkOwner, LinkRelay, Links,
    OUTGOING_WINDOW, Registration, RelayError, Session, SessionFields, SessionState, StateCopies,
    Touched, TransferAnswer, TransferFrame, TransferTaken, Unallocated, echoes,
};
pub use amqp_session_frames::{
    Connection, ConnectionState, Error as FrameError, Frame, FrameBody, FrameDecoder, FrameEncoder,
    Piece, Pieces,
};
pub use amqp_session_outgoing::{
    Behind, Delivery, DeliveryRange, Outbound, Outgoing, Part, Place, Sent, TransferError,
    Unsettled,
};
pub use amqp_session_performatives::{
    Attach, Begin, Close, Detach, Disposition, End, Flow, LinkFlow, LinkFrame, LinkTransfer,
    MissingHandle, Open, Performative, SessionFrame, SessionFrameBody, SessionOutgoingItem,
    Transfer, clear_continuation_fields,
};
pub use amqp_session_states::{
    Accepted, DeliveryState, DistributionMode, Modified, Outcome, Received, Rejected, Released,
    Source, Target, TargetArchetype, TerminusDurability, TerminusExpiryPolicy,
};
pub use amqp_session_types::{
    BeginError, Boxed, ConnectionError, ConnectionStopReason, DeliveryNumber, DeliveryTag, Fields,
    FilterSet, Handle, IncomingChannel, InputHandle, MessageFormat, Milliseconds, OpenError,
    OutgoingChannel, OutputHandle, ReceiverSettleMode, Role, Seconds, SenderSettleMode,
    SequenceNumber, SessionError, SessionStopReason, TransferNumber, TryCloseError, TryEndError,
    definitions,
};
