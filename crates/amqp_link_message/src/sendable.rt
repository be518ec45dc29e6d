//! What is handed to a sender (part 2, 2.6.12 and 2.8.11).
ghost use Rattle.std.specs.Prelude.{◌≡◌, None};

use crate::message::Message;
use amqp_session_types::MessageFormat;

/// The message format of this standard's messages (part 2, 2.8.11; part 3, 3.2).
pub const MESSAGE_FORMAT: u32 = 0;

/// A message that is to be sent.
#[derive(Debug, Drop)]
pub struct Sendable<B> {
    /// The message.
    pub message: Message<B>,
    /// The format of the message (part 2, 2.8.11).
    pub message_format: MessageFormat,
    /// Whether the message is sent settled, where its link leaves that open (part 2, 2.8.2). Unsettled where this is
    /// absent.
    pub settled: Option<bool>,
}

/// A message that is not chosen yet.
#[derive(Debug, Clone, Copy, PartialEq, Eq)]
pub struct NoMessage;

impl Sendable<NoMessage> {
    /// Begins a message that is to be sent: of format 0, and without a word on how it is settled.
    pub fn builder() -> Builder<NoMessage>
        ensures { result ≡ record {
          message = record {};
          message_format = MESSAGE_FORMAT;
          settled = None;
        } }
    {
        Builder::new()
    }
}

/// Puts a message that is to be sent together.
#[derive(Debug, Drop)]
pub struct Builder<M> {
    /// The message, once it is chosen.
    pub message: M,
    /// The format of the message (part 2, 2.8.11).
    pub message_format: MessageFormat,
    /// Whether the message is sent settled, where its link leaves that open (part 2, 2.8.2).
    pub settled: Option<bool>,
}

impl Builder<NoMessage> {
    /// Begins a message that is to be sent: of format 0, and without a word on how it is settled.
    pub fn new() -> Self
        ensures { result ≡ record {
          message = record {};
          message_format = MESSAGE_FORMAT;
          settled = None;
        } }
    {
        Builder {
            message: NoMessage,
            message_format: MESSAGE_FORMAT,
            settled: None,
        }
    }
}

/// As [`Builder::new`].
impl Default for Builder<NoMessage> {
    ghost is_default = { λ b. b ≡ record { message = record {}; message_format = 0; settled = None } };

    fn default() -> Self {
        Builder::new()
    }
}

impl<M: Drop> Builder<M> {
    /// Chooses the message, in place of one that was chosen before.
    pub fn message<B, T: Into<Message<B>>>(self, message: T) -> Builder<Message<B>>
        ensures message { T.converts message result.message }
        ensures format { result.message_format ≡ self.message_format }
        ensures settled { result.settled ≡ self.settled }
    {
        let Builder {
            message: _,
            message_format,
            settled,
        } = self;
        Builder {
            message: message.into(),
            message_format,
            settled,
        }
    }
}

impl<M> Builder<M> {
    /// Chooses the format of the message (part 2, 2.8.11).
    pub fn message_format(self, message_format: MessageFormat) -> Self
        ensures { result ≡ record self { message_format = message_format } }
    {
        Builder {
            message: self.message,
            message_format,
            settled: self.settled,
        }
    }

    /// Chooses whether the message is sent settled, where its link leaves that open (part 2, 2.8.2).
    pub fn settled<T: Into<Option<bool>>>(self, settled: T) -> Self
        ensures settled { T.converts settled result.settled }
        ensures others { result ≡ record self { settled = result.settled } }
    {
        Builder {
            message: self.message,
            message_format: self.message_format,
            settled: settled.into(),
        }
    }
}

impl<B> Builder<Message<B>> {
    /// The message that is to be sent.
    pub fn build(self) -> Sendable<B>
        ensures { result ≡ record {
          message = self.message;
          message_format = self.message_format;
          settled = self.settled;
        } }
    {
        Sendable {
            message: self.message,
            message_format: self.message_format,
            settled: self.settled,
        }
    }
}

/// As [`Builder::build`].
impl<B> From<Builder<Message<B>>> for Sendable<B> {
    ghost from_gives = { λ b s. s ≡ record { message = b.message; message_format = b.message_format; settled = b.settled } };

    fn from(builder: Builder<Message<B>>) -> Self {
        builder.build()
    }
}
