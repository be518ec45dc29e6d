//! What the sessions of an endpoint are to its connection.
ghost use Rattle.std.specs.Prelude.{◌≡◌, ◌≤◌, ◌^◌, ◌++◌, ℕ, List, min, [], ◌∷◌, length, unwrap_or};
ghost use Rattle.std.specs.Prelude.{IfErr, IfNone, IfOk, IfSome, OnErr, OnOk, OnSome};
ghost use Rattle.std.specs.Borrow.{Lends};
ghost use types.Logic.{sem};
ghost use Rattle.amqp_session_frames.specs.State as channels;
ghost use Rattle.amqp_session_frames.specs.declared.frame.FrameBody.TheVariants as body;
ghost use Rattle.amqp_session_frames.specs.contracts.connection.Connection.{the_row as connection_row};
ghost use Rattle.amqp_endpoint_model.specs.Arriving.{SaysDelivery, arrived};
ghost use Rattle.amqp_endpoint_model.specs.Relay.{Called, IsOfSession, Refused, StandsStill, Taken};
ghost use Rattle.amqp_endpoint_model.specs.Said.{attaching, count, credit_is, done, link_closed, message_sent};
ghost use Rattle.amqp_endpoint_model.specs.Said.{session_begun};
ghost use Rattle.amqp_endpoint_model.specs.Said.{tried_end, truth, refusal_in, waiting};
ghost use Rattle.amqp_endpoint_model.specs.declared.call.Call.TheVariants.{AcceptBegin, AttachReceiver, AttachSender};
ghost use Rattle.amqp_endpoint_model.specs.declared.call.Call.TheVariants.{Begin, CloseLink, Credit, Detach, Drain};
ghost use Rattle.amqp_endpoint_model.specs.declared.call.Call.TheVariants.{End, Grant, HeldBack, IsEnded, TryEnd};
ghost use Rattle.amqp_endpoint_model.specs.declared.call.Call.TheVariants.{Dispose, DisposeAll, Resume, Send, Waiting};
ghost use Rattle.amqp_endpoint_model.specs.declared.call.Sending.{Sending};
ghost use Rattle.amqp_endpoint_model.specs.declared.error.EndpointError.TheVariants.{Memory};
ghost use Rattle.amqp_endpoint_model.specs.declared.event.Event.{Event};

use crate::LinkSettings;
use crate::answer::{Attaching, Sent};
use crate::arrival::Arrival;
use crate::call::{Disposal, Sending};
use crate::error::EndpointError;
use crate::event::Event;
use amqp_session_frames::{Connection, FrameBody};
use amqp_session_performatives::{SessionFrame, Transfer};
use amqp_session_types::{IncomingChannel, TryEndError};
use bytes::Bytes;
use std::alloc::{AllocError, Global};
use std::collections::VecDeque;

/// The sessions of an endpoint as its connection sees them (part 2, 2.5). They hold the connection, which gives them
/// their channels; the endpoint moves it on by headers, Open and Close, and hands them the peer's other frames and the
/// calls that concern sessions and their links. A type that stands for sessions says by its relations, `does`, what
/// these calls do, and an endpoint is proved for all of them.
///
/// A call that sends is handed the limit of written frames, which is 512 bytes at least (part 2, 2.4.1): what it hands
/// out is no longer, and no frame that waits in a session is. A call that is refused changes nothing. Where no session
/// goes on here, no call hands out anything but `begin` and `accept_begin`.
pub trait SessionRelay: Drop {
    ghost use Rattle.amqp_endpoint_model.specs.Relay.{Relations};

    /// What its calls do: the sessions before, what comes, and the sessions behind.
    ghost does: { Relations Self };

    /// No sessions yet, on this connection. Each session that comes numbers its transfers from `first_transfer_number`,
    /// and takes `incoming_window` transfers ahead (part 2, 2.5.6). `AllocError` where there is no memory.
    fn new(
        alloc: Global,
        connection: Connection,
        first_transfer_number: u32,
        incoming_window: u32,
    ) -> Result<Self, AllocError>
        ensures fresh { IfOk result (λ sessions. sessions
            ≡ does.fresh connection first_transfer_number incoming_window) }
        ensures connection { IfOk result (λ sessions. does.connection sessions ≡ connection) }
        ensures within { IfOk result (λ sessions. (limit : ℕ) → does.within limit sessions) }
        ensures idle { IfOk result does.idle };

    /// The connection.
    fn connection(&self) -> &Connection
        ensures { result.now ≡ does.connection self.now };

    /// The connection, for its headers, Open and Close.
    fn connection_mut(&mut self) -> &mut Connection
        ensures* writes_back { sem 𝓛 (Lends Self.row connection_row self.entry result
            (does.moved self.old)) }
        ensures value { result.now ≡ does.connection self.old }
        ensures moved { (c : channels.State) → does.connection (does.moved self.old c) ≡ c }
        ensures same { does.moved self.old (does.connection self.old) ≡ self.old }
        ensures within { (limit wider : ℕ) (c : channels.State) → limit ≤ wider → does.within limit self.old
            → does.within wider (does.moved self.old c) }
        ensures idle { (c : channels.State) → does.idle self.old →
            does.idle (does.moved self.old c) };

    /// Takes a frame of the peer that is neither Open nor Close, and hands out what is to be sent then: none of it is
    /// longer than `limit` bytes, the longest frame that the peer takes. What it tells is put behind `events`.
    ///
    /// Where the frame ends the connection it is refused, and nothing is handed out or told: with `Connection` where
    /// the connection doesn't allow it, with `Session` where a session that the peer asks for doesn't, with
    /// `NumbersUsedUp`, and with `Memory`.
    fn on_incoming(
        &mut self,
        alloc: Global,
        limit: u32,
        channel: IncomingChannel,
        body: FrameBody,
        out: &mut VecDeque<SessionFrame>,
        events: &mut Vec<Event>,
    ) -> Result<(), EndpointError>
        requires theirs { IsOfSession body }
        requires least { 512 ≤ limit }
        requires waiting { does.within limit self.old }
        ensures ok { OnOk result (Taken does self.old limit channel.0 body out.old.items events.old.items
            self.new out.new.items events.new.items) }
        ensures err { IfErr result (λ e. Refused does self.old limit channel.0 body e self.new) }
        ensures kept { OnErr result ((out.new.items ≡ out.old.items)
            × (events.new.items ≡ events.old.items)) }
        ensures within { does.within limit self.new }
        ensures still { StandsStill (does.connection self.old) (does.connection self.new) };

    /// Takes at once a Transfer that brings a whole message, as `on_incoming` takes it: its message is to be told then,
    /// behind all that was told. Where the answer is None nothing changes, and `on_incoming` takes the Transfer.
    fn takes_at_once(
        &mut self,
        limit: u32,
        channel: IncomingChannel,
        transfer: &Transfer,
        payload: &Bytes,
        out: &mut VecDeque<SessionFrame>,
    ) -> Option<Arrival>
        requires least { 512 ≤ limit }
        requires waiting { does.within limit self.old }
        ensures says { OnSome result (SaysDelivery transfer.now) }
        ensures taken { IfSome result (λ it. (told : List Event) → Taken does self.old limit channel.0
            (body.Transfer transfer.now payload.now) out.old.items told self.new out.new.items
            (told ++ arrived it transfer.now payload.now ∷ [])) }
        ensures none { IfNone result ((self.new ≡ self.old) × (out.new.items ≡ out.old.items)) }
        ensures within { does.within limit self.new }
        ensures still { StandsStill (does.connection self.old) (does.connection self.new) };

    /// Begins a session, and answers its number. Its Begin is handed out (part 2, 2.5.1, 2.7.2).
    fn begin(
        &mut self,
        alloc: Global,
        limit: u32,
        out: &mut VecDeque<SessionFrame>,
    ) -> Result<u64, EndpointError>
        requires least { 512 ≤ limit }
        requires waiting { does.within limit self.old }
        ensures ok { IfOk result (λ number. Called does self.old limit Begin (session_begun number)
            out.old.items self.new out.new.items) }
        ensures err { IfErr result (does.bars self.old limit Begin) }
        ensures kept { OnErr result ((self.new ≡ self.old) × (out.new.items ≡ out.old.items)) }
        ensures within { does.within limit self.new }
        ensures still { StandsStill (does.connection self.old) (does.connection self.new) };

    /// Accepts the session that the peer asks for on this channel of its, and answers its number. Its Begin is handed
    /// out (part 2, 2.5.1, 2.7.2).
    fn accept_begin(
        &mut self,
        alloc: Global,
        limit: u32,
        channel: IncomingChannel,
        out: &mut VecDeque<SessionFrame>,
    ) -> Result<u64, EndpointError>
        requires least { 512 ≤ limit }
        requires waiting { does.within limit self.old }
        ensures ok { IfOk result (λ number. Called does self.old limit (AcceptBegin channel)
            (session_begun number) out.old.items self.new out.new.items) }
        ensures err { IfErr result (does.bars self.old limit (AcceptBegin channel)) }
        ensures kept { OnErr result ((self.new ≡ self.old) × (out.new.items ≡ out.old.items)) }
        ensures within { does.within limit self.new }
        ensures still { StandsStill (does.connection self.old) (does.connection self.new) };

    /// Ends the session with this number. Its End is handed out (part 2, 2.5.2, 2.7.8).
    fn end(
        &mut self,
        limit: u32,
        number: u64,
        out: &mut VecDeque<SessionFrame>,
    ) -> Result<(), EndpointError>
        requires least { 512 ≤ limit }
        requires waiting { does.within limit self.old }
        ensures ok { OnOk result
            (Called does self.old limit (End number) done out.old.items self.new out.new.items) }
        ensures err { IfErr result (does.bars self.old limit (End number)) }
        ensures kept { OnErr result ((self.new ≡ self.old) × (out.new.items ≡ out.old.items)) }
        ensures within { (most : ℕ) → does.within most self.old → does.within most self.new }
        ensures quiet { does.idle self.old → out.new.items ≡ out.old.items }
        ensures idle { does.idle self.old → does.idle self.new }
        ensures still { StandsStill (does.connection self.old) (does.connection self.new) };

    /// Whether both End of the session with this number have passed, or its connection is over. False where there is
    /// none (part 2, 2.5.2).
    fn is_ended(&self, number: u64) -> bool
        ensures { (limit : ℕ) → does.calls self.now limit (IsEnded number) (truth result) []
            self.now };

    /// Tells once that the peer's End of the session with this number came (part 2, 2.5.2).
    ///
    /// It is refused with `RemoteEndNotReceived` where it did not come, or there is no such session, and with
    /// `AlreadyEnded` where that was told before. Nothing changes then.
    fn try_end(&mut self, number: u64) -> Result<(), TryEndError>
        ensures called { (limit : ℕ) →
            does.calls self.old limit (TryEnd number) (tried_end (refusal_in result)) [] self.new }
        ensures kept { OnErr result (self.new ≡ self.old) }
        ensures within { (limit : ℕ) → does.within limit self.old → does.within limit self.new }
        ensures idle { does.idle self.old → does.idle self.new }
        ensures still { StandsStill (does.connection self.old) (does.connection self.new) };

    /// Attaches a link as its sending end in the session with this number, and answers the link's number with what
    /// comes of it at once. Its Attach is handed out (part 2, 2.6.3, 2.7.3).
    fn attach_sender(
        &mut self,
        alloc: Global,
        limit: u32,
        session: u64,
        settings: &LinkSettings,
        out: &mut VecDeque<SessionFrame>,
    ) -> Result<Attaching, EndpointError>
        requires least { 512 ≤ limit }
        requires waiting { does.within limit self.old }
        ensures ok { IfOk result (λ a. Called does self.old limit (AttachSender session settings.now)
            (attaching a.link a.events.items) out.old.items self.new out.new.items) }
        ensures err { IfErr result (does.bars self.old limit (AttachSender session settings.now)) }
        ensures kept { OnErr result ((self.new ≡ self.old) × (out.new.items ≡ out.old.items)) }
        ensures within { does.within limit self.new }
        ensures none { does.idle self.old → (most : ℕ) → does.within most self.new }
        ensures quiet { does.idle self.old → out.new.items ≡ out.old.items }
        ensures idle { does.idle self.old → does.idle self.new }
        ensures still { StandsStill (does.connection self.old) (does.connection self.new) };

    /// Attaches a link as its receiving end, as `attach_sender` does as its sending end.
    fn attach_receiver(
        &mut self,
        alloc: Global,
        limit: u32,
        session: u64,
        settings: &LinkSettings,
        out: &mut VecDeque<SessionFrame>,
    ) -> Result<Attaching, EndpointError>
        requires least { 512 ≤ limit }
        requires waiting { does.within limit self.old }
        ensures ok { IfOk result (λ a. Called does self.old limit (AttachReceiver session settings.now)
            (attaching a.link a.events.items) out.old.items self.new out.new.items) }
        ensures err { IfErr result (does.bars self.old limit
            (AttachReceiver session settings.now)) }
        ensures kept { OnErr result ((self.new ≡ self.old) × (out.new.items ≡ out.old.items)) }
        ensures within { does.within limit self.new }
        ensures none { does.idle self.old → (most : ℕ) → does.within most self.new }
        ensures quiet { does.idle self.old → out.new.items ≡ out.old.items }
        ensures idle { does.idle self.old → does.idle self.new }
        ensures still { StandsStill (does.connection self.old) (does.connection self.new) };

    /// Attaches the link with this number again, which is at rest, in the session with that number, and answers its
    /// number with what comes of it at once, as `attach_sender` does. Its Attach is handed out; it lists the deliveries
    /// that it kept (part 2, 2.6.3, 2.6.13).
    fn resume(
        &mut self,
        alloc: Global,
        limit: u32,
        link: u64,
        session: u64,
        out: &mut VecDeque<SessionFrame>,
    ) -> Result<Attaching, EndpointError>
        requires least { 512 ≤ limit }
        requires waiting { does.within limit self.old }
        ensures ok { IfOk result (λ a. Called does self.old limit (Resume link session)
            (attaching a.link a.events.items) out.old.items self.new out.new.items) }
        ensures err { IfErr result (does.bars self.old limit (Resume link session)) }
        ensures kept { OnErr result ((self.new ≡ self.old) × (out.new.items ≡ out.old.items)) }
        ensures within { does.within limit self.new }
        ensures none { does.idle self.old → (most : ℕ) → does.within most self.new }
        ensures quiet { does.idle self.old → out.new.items ≡ out.old.items }
        ensures idle { does.idle self.old → does.idle self.new }
        ensures still { StandsStill (does.connection self.old) (does.connection self.new) };

    /// Detaches the link with this number, which keeps its deliveries and can be resumed. Its Detach is handed out, or
    /// waits behind the link's transfers (part 2, 2.6.5, 2.7.7).
    fn detach(
        &mut self,
        alloc: Global,
        limit: u32,
        link: u64,
        out: &mut VecDeque<SessionFrame>,
    ) -> Result<(), EndpointError>
        requires least { 512 ≤ limit }
        requires waiting { does.within limit self.old }
        ensures ok { OnOk result
            (Called does self.old limit (Detach link) done out.old.items self.new out.new.items) }
        ensures err { IfErr result (does.bars self.old limit (Detach link)) }
        ensures kept { OnErr result ((self.new ≡ self.old) × (out.new.items ≡ out.old.items)) }
        ensures within { (most : ℕ) → 512 ≤ most → does.within most self.old →
            does.within most self.new }
        ensures quiet { does.idle self.old → out.new.items ≡ out.old.items }
        ensures idle { does.idle self.old → does.idle self.new }
        ensures still { StandsStill (does.connection self.old) (does.connection self.new) };

    /// Closes the link with this number, and answers the outcomes that this fails. Its closing Detach is handed out, or
    /// waits behind the link's transfers; a link that is detached at both ends sends none (part 2, 2.6.6, 2.7.7).
    fn close_link(
        &mut self,
        alloc: Global,
        limit: u32,
        link: u64,
        out: &mut VecDeque<SessionFrame>,
    ) -> Result<Vec<Event>, EndpointError>
        requires least { 512 ≤ limit }
        requires waiting { does.within limit self.old }
        ensures ok { IfOk result (λ events. Called does self.old limit (CloseLink link) (link_closed events.items)
            out.old.items self.new out.new.items) }
        ensures err { IfErr result (does.bars self.old limit (CloseLink link)) }
        ensures kept { OnErr result ((self.new ≡ self.old) × (out.new.items ≡ out.old.items)) }
        ensures within { (most : ℕ) → 512 ≤ most → does.within most self.old →
            does.within most self.new }
        ensures quiet { does.idle self.old → out.new.items ≡ out.old.items }
        ensures idle { does.idle self.old → does.idle self.new }
        ensures still { StandsStill (does.connection self.old) (does.connection self.new) };

    /// Grants the sender of the link with this number so many messages, and answers the credit that was left before.
    /// Its Flow is handed out (part 2, 2.6.7, 2.7.4).
    fn grant(
        &mut self,
        alloc: Global,
        limit: u32,
        link: u64,
        credit: u32,
        out: &mut VecDeque<SessionFrame>,
    ) -> Result<u32, EndpointError>
        requires least { 512 ≤ limit }
        requires waiting { does.within limit self.old }
        ensures ok { IfOk result (λ left. Called does self.old limit (Grant link credit) (credit_is left)
            out.old.items self.new out.new.items) }
        ensures err { IfErr result (does.bars self.old limit (Grant link credit)) }
        ensures kept { OnErr result ((self.new ≡ self.old) × (out.new.items ≡ out.old.items)) }
        ensures within { (most : ℕ) → 512 ≤ most → does.within most self.old →
            does.within most self.new }
        ensures quiet { does.idle self.old → out.new.items ≡ out.old.items }
        ensures idle { does.idle self.old → does.idle self.new }
        ensures still { StandsStill (does.connection self.old) (does.connection self.new) };

    /// Asks the sender of the link with this number to use up its credit now. Its Flow is handed out (part 2, 2.6.7).
    fn drain(
        &mut self,
        alloc: Global,
        limit: u32,
        link: u64,
        out: &mut VecDeque<SessionFrame>,
    ) -> Result<(), EndpointError>
        requires least { 512 ≤ limit }
        requires waiting { does.within limit self.old }
        ensures ok { OnOk result
            (Called does self.old limit (Drain link) done out.old.items self.new out.new.items) }
        ensures err { IfErr result (does.bars self.old limit (Drain link)) }
        ensures kept { OnErr result ((self.new ≡ self.old) × (out.new.items ≡ out.old.items)) }
        ensures within { (most : ℕ) → 512 ≤ most → does.within most self.old →
            does.within most self.new }
        ensures quiet { does.idle self.old → out.new.items ≡ out.old.items }
        ensures idle { does.idle self.old → does.idle self.new }
        ensures still { StandsStill (does.connection self.old) (does.connection self.new) };

    /// Sends a message by the link with this number: all of its transfers are taken or none. What the peer's window
    /// lets leave of them is handed out, and the rest waits. Answers the tag of its delivery (part 2, 2.6.12, 2.6.14).
    fn send(
        &mut self,
        alloc: Global,
        limit: u32,
        link: u64,
        message: &Sending,
        out: &mut VecDeque<SessionFrame>,
    ) -> Result<Sent, EndpointError>
        requires least { 512 ≤ limit }
        requires waiting { does.within limit self.old }
        ensures ok { IfOk result (λ s. Called does self.old limit (Send link message.now) (message_sent s.tag s.outcome)
            out.old.items self.new out.new.items) }
        ensures err { IfErr result (does.bars self.old limit (Send link message.now)) }
        ensures kept { OnErr result ((self.new ≡ self.old) × (out.new.items ≡ out.old.items)) }
        ensures within { does.within limit self.new }
        ensures none { does.idle self.old → (most : ℕ) → does.within most self.new }
        ensures quiet { does.idle self.old → out.new.items ≡ out.old.items }
        ensures idle { does.idle self.old → does.idle self.new }
        ensures still { StandsStill (does.connection self.old) (does.connection self.new) };

    /// Why no message of so many bytes is sent by the link with this number, if one isn't, where 2^32 bytes stand for
    /// as many or more: the first reason that holds. Where none does, want of memory alone refuses one. It takes no
    /// memory.
    fn send_refusal(&self, alloc: Global, link: u64, size: usize) -> Option<EndpointError>
        ensures { (limit : ℕ) → (message : Sending) → min (length message.payload) (2 ^ 32) ≡ size →
            does.bars self.now limit (Send link message) (unwrap_or result Memory) };

    /// Disposes of the message with this number that came by the link with this number. Its Disposition is handed out
    /// (part 2, 2.6.12, 2.7.6).
    fn dispose(
        &mut self,
        alloc: Global,
        limit: u32,
        link: u64,
        message: u64,
        disposal: &Disposal,
        out: &mut VecDeque<SessionFrame>,
    ) -> Result<(), EndpointError>
        requires least { 512 ≤ limit }
        requires waiting { does.within limit self.old }
        ensures ok { OnOk result
            (Called does self.old limit (Dispose link message disposal.now) done out.old.items self.new out.new.items) }
        ensures err { IfErr result (does.bars self.old limit (Dispose link message disposal.now)) }
        ensures kept { OnErr result ((self.new ≡ self.old) × (out.new.items ≡ out.old.items)) }
        ensures within { (most : ℕ) → 512 ≤ most → does.within most self.old →
            does.within most self.new }
        ensures quiet { does.idle self.old → out.new.items ≡ out.old.items }
        ensures idle { does.idle self.old → does.idle self.new }
        ensures still { StandsStill (does.connection self.old) (does.connection self.new) };

    /// Disposes of the messages with these numbers that came by the link with this number, all of them or none. A
    /// Disposition is handed out for each run of consecutive deliveries that are settled alike (part 2, 2.6.12, 2.7.6).
    fn dispose_all(
        &mut self,
        alloc: Global,
        limit: u32,
        link: u64,
        messages: &[u64],
        disposal: &Disposal,
        out: &mut VecDeque<SessionFrame>,
    ) -> Result<(), EndpointError>
        requires least { 512 ≤ limit }
        requires waiting { does.within limit self.old }
        ensures ok { OnOk result (Called does self.old limit (DisposeAll link messages.now disposal.now) done
            out.old.items self.new out.new.items) }
        ensures err { IfErr result (does.bars self.old limit
            (DisposeAll link messages.now disposal.now)) }
        ensures kept { OnErr result ((self.new ≡ self.old) × (out.new.items ≡ out.old.items)) }
        ensures within { (most : ℕ) → 512 ≤ most → does.within most self.old →
            does.within most self.new }
        ensures quiet { does.idle self.old → out.new.items ≡ out.old.items }
        ensures idle { does.idle self.old → does.idle self.new }
        ensures still { StandsStill (does.connection self.old) (does.connection self.new) };

    /// How many messages may still go on the link with this number (part 2, 2.6.7).
    fn credit(&self, link: u64) -> Result<u32, EndpointError>
        ensures ok { IfOk result (λ left. (limit : ℕ) →
            does.calls self.now limit (Credit link) (credit_is left) [] self.now) }
        ensures err { IfErr result (λ e. (limit : ℕ) → does.bars self.now limit (Credit link) e) };

    /// How many transfers wait in the session with this number for the peer's window (part 2, 2.5.6).
    fn held_back(&self, session: u64) -> Result<usize, EndpointError>
        ensures ok { IfOk result (λ n. (limit : ℕ) →
            does.calls self.now limit (HeldBack session) (count n) [] self.now) }
        ensures err { IfErr result (λ e. (limit : ℕ) →
            does.bars self.now limit (HeldBack session) e) };

    /// The links of which transfers wait in the session with this number, in turn, each with how many.
    fn waiting(&self, alloc: Global, session: u64) -> Result<Vec<(u64, u64)>, EndpointError>
        ensures ok { IfOk result (λ turn. (limit : ℕ) →
            does.calls self.now limit (Waiting session) (waiting turn.items) [] self.now) }
        ensures err { IfErr result (λ e. (limit : ℕ) →
            does.bars self.now limit (Waiting session) e) };

    /// The own Close was sent: no session goes on here, and none sends anything more (part 2, 2.4.3). It takes no
    /// memory.
    fn leave(&mut self)
        ensures closes { does.closes self.old self.new }
        ensures idle { does.idle self.new }
        ensures within { (limit : ℕ) → does.within limit self.new }
        ensures still { StandsStill (does.connection self.old) (does.connection self.new) };

    /// The connection is over, and with it all sessions: nothing is sent. It takes no memory.
    fn finish(&mut self)
        ensures finishes { does.finishes self.old self.new }
        ensures idle { does.idle self.new }
        ensures within { (limit : ℕ) → does.within limit self.new }
        ensures still { StandsStill (does.connection self.old) (does.connection self.new) };
}
