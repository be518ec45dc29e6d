//! What the calls of an endpoint answer.
ghost use Rattle.std.specs.Prelude.{◌≡◌};

use crate::error::EndpointError;
use crate::event::Event;
use amqp_session_states::Outcome;
use amqp_session_types::{DeliveryTag, TryCloseError, TryEndError};

/// What `feed` answers.
#[derive(Debug, Drop)]
pub struct Fed {
    /// What was found, in order.
    pub events: Vec<Event>,
    /// Why the feed ends the connection, or took no byte (`NotConnected`).
    pub fault: Option<EndpointError>,
}

/// What `attach_sender`, `attach_receiver` and `resume` answer.
#[derive(Debug, Drop)]
pub struct Attaching {
    /// The number that the link has from now on.
    pub link: u64,
    /// What comes of it at once: Attached where the peer asked for the link before (part 2, 2.6.3). Empty where its
    /// answer is awaited.
    pub events: Vec<Event>,
}

/// What `send` answers.
#[derive(Debug, Drop)]
pub struct Sent {
    /// The tag of the message's delivery, by which its outcome is told (part 2, 2.8.7).
    pub tag: DeliveryTag,
    /// Accepted where the message went settled; None where its outcome is awaited.
    pub outcome: Option<Outcome>,
}

/// What a call answers.
#[derive(Debug, Drop)]
pub enum Answer {
    /// Ok(()).
    Done,
    /// Err.
    Refused(EndpointError),
    /// What `feed` answers.
    Fed(Fed),
    /// What `pull` answers: the protocol header or one frame.
    Pulled(Option<Vec<u8>>),
    /// What `queued` or `held_back` answers.
    Count(usize),
    /// What `is_idle`, `is_closed` or `is_ended` answers.
    Truth(bool),
    /// What `try_close` answers.
    TriedClose(Result<(), TryCloseError>),
    /// What `begin` or `accept_begin` answers: the session's number.
    Session(u64),
    /// What `try_end` answers.
    TriedEnd(Result<(), TryEndError>),
    /// What `attach_sender`, `attach_receiver` or `resume` answers.
    Attaching(Attaching),
    /// What `close_link` answers: the outcomes that it fails.
    LinkClosed(Vec<Event>),
    /// What `credit` answers, or `grant`: the credit that was left before.
    Credit(u32),
    /// What `waiting` answers: the links of which transfers wait, in turn, each with how many.
    Waiting(Vec<(u64, u64)>),
    /// What `send` answers.
    Sent(Sent),
}

/// What a call answered, and how many answers of bytes `pull` still gives after it.
#[derive(Debug, Drop)]
pub struct Reply {
    /// The call's answer.
    pub answer: Answer,
    /// `queued()` after the call.
    pub queued: usize,
}
