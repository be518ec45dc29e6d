//! An AMQP 1.0 endpoint without a network: bytes are fed in and events come out, calls are made and `pull` gives
//! bytes.
//!
//! What its sessions and their links do as their connection sees them (part 2, 2.5, 2.6), how they begin, hear their
//! peer, do what they are called for, and end, say the relations `linked` in specs/Does.antt, by what Hearing says of
//! frames, and Calling and Sending of calls; Counting says how messages are counted.
#![tactic(auto)]

mod attaching;
mod hearing;
mod linked;
pub mod scenario;
mod sending;
mod streams;
pub mod world;

/// One end of an AMQP connection, with its sessions, their links and the messages of these (part 2, 2.6.12). `send`
/// takes a message, and `Event::Outcome` tells what became of it. `Event::Message` hands out a message that came whole,
/// and `dispose` tells its sender the outcome.
pub type Endpoint = amqp_endpoint_core::Endpoint<LinkedSessions>;

pub use amqp_endpoint_core::CallerError;
pub use amqp_endpoint_core::Program;
pub use amqp_endpoint_core::play;
pub use amqp_endpoint_core::read_in;
pub use amqp_endpoint_core::serve;
pub use amqp_endpoint_core::turn;
pub use amqp_endpoint_core::write_out;
pub use amqp_endpoint_model::Answer;
pub use amqp_endpoint_model::Attached;
pub use amqp_endpoint_model::Attaching;
pub use amqp_endpoint_model::Begun;
pub use amqp_endpoint_model::Call;
pub use amqp_endpoint_model::Closed;
pub use amqp_endpoint_model::Detached;
pub use amqp_endpoint_model::Disposal;
pub use amqp_endpoint_model::Ended;
pub use amqp_endpoint_model::EndpointError;
pub use amqp_endpoint_model::Event;
pub use amqp_endpoint_model::Fed;
pub use amqp_endpoint_model::LinkAsked;
pub use amqp_endpoint_model::LinkSettings;
pub use amqp_endpoint_model::Message;
pub use amqp_endpoint_model::Opened;
pub use amqp_endpoint_model::Outcome;
pub use amqp_endpoint_model::Refused;
pub use amqp_endpoint_model::Reply;
pub use amqp_endpoint_model::Sending;
pub use amqp_endpoint_model::Sent;
pub use amqp_endpoint_model::SessionAsked;
pub use amqp_endpoint_model::SessionRelay;
pub use amqp_endpoint_model::Settings;
pub use amqp_link_base::AttachExchange;
pub use amqp_link_message::Body;
pub use amqp_link_message::Builder;
pub use amqp_link_message::Delivery;
pub use amqp_link_message::DeliveryInfo;
pub use amqp_link_message::MESSAGE_FORMAT;
pub use amqp_link_message::Message as MessageSections;
pub use amqp_link_message::NoMessage;
pub use amqp_link_message::OneOrMore;
pub use amqp_link_message::Raw;
pub use amqp_link_message::ReadBody;
pub use amqp_link_message::Sendable;
pub use amqp_link_message::WriteBody;
pub use amqp_link_sections::AmqpSequence;
pub use amqp_link_sections::AmqpValue;
pub use amqp_link_sections::Annotations;
pub use amqp_link_sections::ApplicationProperties;
pub use amqp_link_sections::Data;
pub use amqp_link_sections::DeliveryAnnotations;
pub use amqp_link_sections::Footer;
pub use amqp_link_sections::Header;
pub use amqp_link_sections::MessageAnnotations;
pub use amqp_link_sections::MessageId;
pub use amqp_link_sections::Properties;
pub use amqp_link_types::LinkError;
pub use amqp_link_types::LinkStateError;
pub use amqp_link_types::SendError;
pub use amqp_session_frames::Error as FrameError;
pub use amqp_session_frames::Frame;
pub use amqp_session_frames::FrameBody;
pub use amqp_session_frames::FrameDecoder;
pub use amqp_session_frames::FrameEncoder;
pub use amqp_session_frames::Piece;
pub use amqp_session_frames::Pieces;
pub use amqp_session_performatives::Attach;
pub use amqp_session_performatives::Begin;
pub use amqp_session_performatives::Close;
pub use amqp_session_performatives::Detach;
pub use amqp_session_performatives::Disposition;
pub use amqp_session_performatives::End;
pub use amqp_session_performatives::Flow;
pub use amqp_session_performatives::Open;
pub use amqp_session_performatives::Transfer;
pub use amqp_session_states::Accepted;
pub use amqp_session_states::DeliveryState;
pub use amqp_session_states::DistributionMode;
pub use amqp_session_states::Modified;
pub use amqp_session_states::Outcome as DeliveryOutcome;
pub use amqp_session_states::Received;
pub use amqp_session_states::Rejected;
pub use amqp_session_states::Released;
pub use amqp_session_states::Source;
pub use amqp_session_states::Target;
pub use amqp_session_states::TargetArchetype;
pub use amqp_session_states::TerminusDurability;
pub use amqp_session_states::TerminusExpiryPolicy;
pub use amqp_session_types::Boxed;
pub use amqp_session_types::ConnectionError;
pub use amqp_session_types::DeliveryTag;
pub use amqp_session_types::Fields;
pub use amqp_session_types::IncomingChannel;
pub use amqp_session_types::ReceiverSettleMode;
pub use amqp_session_types::Role;
pub use amqp_session_types::SenderSettleMode;
pub use amqp_session_types::SessionError;
pub use amqp_session_types::TryCloseError;
pub use amqp_session_types::TryEndError;
pub use amqp_session_types::definitions;
pub use bytes::Bytes;
pub use linked::LinkedSessions;
pub use serde_amqp_item::Error as CodecError;
pub use serde_amqp_types::Array;
pub use serde_amqp_types::ByteBuf;
pub use serde_amqp_types::Dec32;
pub use serde_amqp_types::Dec64;
pub use serde_amqp_types::Dec128;
pub use serde_amqp_types::Described;
pub use serde_amqp_types::Descriptor;
pub use serde_amqp_types::Symbol;
pub use serde_amqp_types::Text;
pub use serde_amqp_types::Timestamp;
pub use serde_amqp_types::Uuid;
pub use serde_amqp_values::OrderedMap;
pub use serde_amqp_values::RawValue;
