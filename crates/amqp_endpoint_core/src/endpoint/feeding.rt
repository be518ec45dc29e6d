//! The peer's bytes are fed.
ghost use Rattle.std.specs.Prelude.{◌≡◌, ◌≤◌, ◌<◌, ◌++◌, ◌∷◌, [], true, Some, None, IsSome, IfOk, IfErr, IfNone, IfSome};
ghost use Rattle.std.specs.Prelude.{MatchOption, OnOk, OnSome, drop, length, take};
ghost use Rattle.std.specs.Vec.{vec_capacity, vec_len};
ghost use Rattle.amqp_session_frames.specs.Text.{FrameText, empty_on};
ghost use Rattle.amqp_endpoint_model.specs.Arriving.{SaysDelivery, arrived};
ghost use Rattle.amqp_endpoint_model.specs.State.{error_of, has_opened, own_close_with};
ghost use Rattle.amqp_endpoint_model.specs.Step.{ClosesBoth, FeedsIn, FrontRefused, FrontUnread, Greets, ReadsOn};
ghost use Rattle.amqp_endpoint_model.specs.Step.{SendsClose, Waits, closed, opened as opened_state, with_close};
ghost use Rattle.amqp_endpoint_model.specs.Relay.{IsOfSession};
ghost use Rattle.amqp_endpoint_model.specs.declared.error.EndpointError.TheVariants.{Memory};
ghost use Rattle.amqp_endpoint_model.specs.declared.phase.Phase.TheVariants.{Greeting, Running};
ghost use Rattle.amqp_endpoint_core.specs.Reading.{BodyRefused, BodyTaken, EndsBy, FrameSplit, FrontTaken, GreetedOff};
ghost use Rattle.amqp_endpoint_core.specs.Reading.{HeaderLeft, HeaderRefused, HeaderTaken, PieceOf, SizeRefused};
ghost use Rattle.amqp_endpoint_core.specs.Reading.{Tells, condition_text, says_too_little};

use super::Endpoint;
use crate::coding::{MIN_MAX_FRAME_SIZE, PROTOCOL_HEADER, decoded, error_of_condition};
use crate::condition::Condition;
use crate::connecting::{open, send_close, take_open, take_peers_close};
use crate::queued::gather;
use amqp_endpoint_model::{
    Arrival, Closed, EndpointError, Event, Fed, Opened, Phase, SessionRelay,
};
use amqp_session_frames::{Frame, FrameBody, FrameDecoder};
use amqp_session_performatives::{Close, Open, Transfer};
use amqp_session_types::IncomingChannel;
use bytes::{Buf, Bytes, BytesMut};
use std::alloc::Global;

/// The shortest frame: its header alone (part 2, 2.3.1).
const FRAME_HEADER: u32 = 8;

impl<S: SessionRelay> Endpoint<S> {
    /// Takes these bytes of the peer, and answers what the whole frames say, in order.
    ///
    /// The fault is `NotConnected` before `connect`, and nothing is taken then. Each other fault ends the
    /// connection: what is left of the bytes is dropped.
    /// - `ProtocolHeaderMismatch`: the first eight bytes are another header (part 2, 2.2). It is broken off,
    ///   without a frame.
    /// - `SizeUnder8`, `SizeOverLimit`: a size that may not be, as soon as its four bytes are there (part 2,
    ///   2.3.1).
    /// - `PeerLimitUnder512`: what the peer's Open says (part 2, 2.7.1).
    /// - `Frame`: a whole piece that is no frame. `Connection(IllegalState)`: a second Open.
    /// - `Connection`, `Session`, `NumbersUsedUp`: what the sessions refuse so that the connection ends.
    /// - `Memory`: there was no memory. It is broken off, without a frame, before the frame that met it; a link that
    ///   refused a Transfer, and for whose Detach there was none, stands as it did before that Transfer.
    ///
    /// At all of these but the first, `NumbersUsedUp` and the last the own Close is queued, with the error, unless it
    /// was queued before. The peer's Close ends the connection too, without a fault: it is answered by the own one.
    pub fn feed(&mut self, bytes: &[u8]) -> Fed
        ensures { FeedsIn S.does self.old.phase self.old bytes.now (result.events.items)
            result.fault self.new }
    {
        let mut events = Vec::new(self.alloc);
        let fault = self.feed_into(bytes, &mut events);
        Fed { events, fault }
    }

    /// `feed`, which puts what the frames say behind these events, and answers the fault.
    pub fn feed_into(&mut self, bytes: &[u8], events: &mut Vec<Event>) -> Option<EndpointError>
        ensures { Tells (λ told. FeedsIn S.does self.old.phase self.old bytes.now told result self.new)
            events.old.items events.new.items }
    {
        match self.phase {
            Phase::Unconnected => Some(EndpointError::NotConnected),
            Phase::Greeting => self.feed_header(bytes, events),
            Phase::Running => self.feed_frames(bytes, events),
            Phase::Over => None,
        }
    }

    #[inline(never)]
    fn feed_header(&mut self, bytes: &[u8], events: &mut Vec<Event>) -> Option<EndpointError>
        requires { self.old.phase ≡ Greeting }
        ensures { Tells (λ told. Greets S.does self.old (self.old.rest ++ bytes.now) told result self.new)
            events.old.items events.new.items }
    {
        match self.take_in_header(bytes) {
            Ok(true) => self.read_frames(events),
            Ok(false) => None,
            Err(fault) => {
                self.break_off();
                Some(fault)
            }
        }
    }

    /// Takes these bytes, and the peer's protocol header once it is whole.
    fn take_in_header(&mut self, bytes: &[u8]) -> Result<bool, EndpointError>
        requires { self.old.phase ≡ Greeting }
        ensures ok { IfOk result (λ whole.
            HeaderTaken S.does whole (record self.old { rest = self.old.rest ++ bytes.now }) self.new) }
        ensures err { IfErr result (λ e. HeaderLeft S.does self.old bytes.now e self.new) }
    {
        self.take_in(bytes)?;
        self.take_header()
    }

    /// Puts these bytes behind those that are no whole frame yet. Nothing changes where there is no memory.
    fn take_in(&mut self, bytes: &[u8]) -> Result<(), EndpointError>
        ensures ok { OnOk result (self.new ≡ record self.old
            { rest = self.old.rest ++ bytes.now }) }
        ensures err { IfErr result (λ e. (e ≡ Memory) × (self.new ≡ self.old)) }
    {
        self.input.extend_from_slice(bytes)?;
        Ok(())
    }

    /// Takes the peer's protocol header once it is whole, and queues the own Open.
    fn take_header(&mut self) -> Result<bool, EndpointError>
        requires { self.old.phase ≡ Greeting }
        ensures ok { IfOk result (λ whole. HeaderTaken S.does whole self.old self.new) }
        ensures err { IfErr result (λ e. HeaderRefused S.does self.old e self.new) }
    {
        let Some(header) = self.input.as_slice().get(..PROTOCOL_HEADER.len()) else {
            return Ok(false);
        };
        if header != PROTOCOL_HEADER {
            return Err(EndpointError::ProtocolHeaderMismatch);
        }
        self.send_open()?;
        self.input.advance(PROTOCOL_HEADER.len());
        Ok(true)
    }

    /// Queues the own Open, the headers being exchanged (part 2, 2.4.1): the connection begins.
    fn send_open(&mut self) -> Result<(), EndpointError>
        requires { self.old.phase ≡ Greeting }
        ensures ok { OnOk result (self.new ≡ record (opened_state S.does self.old)
            { rest = self.old.rest }) }
        ensures err { IfErr result (λ e. (e ≡ Memory) × GreetedOff S.does self.old self.new) }
    {
        gather(&mut self.queue, &mut self.out)?;
        let open = match open(&mut self.sessions) {
            Ok(open) => open,
            Err(_) => return Err(EndpointError::Memory),
        };
        self.queue.push_back_reserved(open);
        self.phase = Phase::Running;
        Ok(())
    }

    #[inline(never)]
    fn feed_frames(&mut self, bytes: &[u8], events: &mut Vec<Event>) -> Option<EndpointError>
        requires { self.old.phase ≡ Running }
        ensures { Tells (λ told. ReadsOn S.does self.old (self.old.rest ++ bytes.now) told result self.new)
            events.old.items events.new.items }
    {
        match self.take_in(bytes) {
            Ok(()) => self.read_frames(events),
            Err(fault) => {
                self.break_off();
                Some(fault)
            }
        }
    }

    /// Takes the whole frames of the input, up to the peer's Close or a fault.
    #[inline(always)]
    #[tactic(auto, using(crate::proofs::FeedLaws::behind_none, crate::proofs::FeedLaws::front_shorter, crate::proofs::FeedLaws::behind_closed))]
    fn read_frames(&mut self, events: &mut Vec<Event>) -> Option<EndpointError>
        requires { self.old.phase ≡ Running }
        ensures { Tells (λ told. ReadsOn S.does self.old self.old.rest told result self.new)
            events.old.items events.new.items }
    {
        while self.is_running() {
            match self.read_frame(events) {
                Ok(true) => {}
                Ok(false) => return None,
                Err(fault) => return Some(self.end_by(fault)),
            }
        }
        None
    }

    /// Takes the frame in front, if it is whole.
    #[tactic(auto, using(crate::proofs::ReadingLaws::front_size, crate::proofs::ReadingLaws::front_not_read))]
    fn read_frame(&mut self, events: &mut Vec<Event>) -> Result<bool, EndpointError>
        requires { self.old.phase ≡ Running }
        ensures ok { IfOk result (λ whole. FrontTaken S.does whole self.old events.old.items events.new.items
            self.new) }
        ensures err { IfErr result (λ e. FrontRefused S.does self.old self.old.rest e self.new.sessions
            × (events.new.items ≡ events.old.items)
            × (self.new ≡ record self.old { rest = self.new.rest; sessions = self.new.sessions })) }
    {
        let Some(size) = self.next_size()? else {
            return Ok(false);
        };
        if let Some(_channel) = self.empty_in_front(size) {
            self.skip(size);
            return Ok(true);
        }
        self.read_whole(size, events)?;
        Ok(true)
    }

    /// The channel of the frame in front, which has so many bytes, where it says nothing (part 2, 2.4.5). The peer
    /// may send many of these, and no frame is made of them.
    fn empty_in_front(&self, size: usize) -> Option<u16>
        requires { PieceOf self.now.settings.max_frame_size self.now.rest size }
        ensures { IfSome result (λ channel. FrameText (take size self.now.rest) (empty_on channel)) }
    {
        FrameDecoder::new().empty_frame(&self.input.as_slice()[..size])
    }

    /// Takes so many bytes off the input, unread.
    fn skip(&mut self, size: usize)
        requires { size ≤ length self.old.rest }
        ensures { self.new ≡ record self.old { rest = drop size self.old.rest } }
    {
        self.input.advance(size);
    }

    /// Takes the frame in front, which has so many bytes. A frame is large: what owns one stands apart from what runs
    /// where none is whole.
    #[inline(never)]
    #[tactic(auto, using(crate::proofs::ReadingLaws::front_not_read, crate::proofs::ReadingLaws::front_refused, crate::proofs::ReadingLaws::front_taken))]
    fn read_whole(&mut self, size: usize, events: &mut Vec<Event>) -> Result<(), EndpointError>
        requires running { self.old.phase ≡ Running }
        requires piece { PieceOf self.old.settings.max_frame_size self.old.rest size }
        ensures ok { OnOk result (FrontTaken S.does true self.old events.old.items events.new.items
            self.new) }
        ensures err { IfErr result (λ e. FrontRefused S.does self.old self.old.rest e self.new.sessions
            × (events.new.items ≡ events.old.items)
            × (self.new ≡ record self.old { rest = self.new.rest; sessions = self.new.sessions })) }
    {
        let frame = self.next_frame(size)?;
        self.take(frame, events)
    }

    /// Splits the frame in front, which has so many bytes, off the input.
    #[tactic(auto, using(crate::proofs::ReadingLaws::front_unread, crate::proofs::ReadingLaws::frame_split))]
    fn next_frame(&mut self, size: usize) -> Result<Frame, EndpointError>
        requires { PieceOf self.old.settings.max_frame_size self.old.rest size }
        ensures ok { IfOk result (λ f. FrameSplit self.old f self.new) }
        ensures err { IfErr result (λ e. FrontUnread self.old.settings.max_frame_size self.old.rest e
            × (self.new ≡ record self.old { rest = self.new.rest })) }
    {
        let piece = self.input.freeze_to(size)?;
        decoded(self.alloc, piece)
    }

    /// The size of the frame in front, if it is whole.
    fn next_size(&self) -> Result<Option<usize>, EndpointError>
        ensures ok { IfOk result (λ size. MatchOption size (Waits self.now.settings.max_frame_size self.now.rest)
            (PieceOf self.now.settings.max_frame_size self.now.rest)) }
        ensures err { IfErr result (SizeRefused self.now.settings.max_frame_size self.now.rest) }
    {
        let mut ahead = self.input.as_slice();
        let Ok(size) = ahead.try_get_u32() else {
            return Ok(None);
        };
        if size < FRAME_HEADER {
            return Err(EndpointError::SizeUnder8);
        }
        if size > self.settings.max_frame_size {
            return Err(EndpointError::SizeOverLimit);
        }
        if self.input.len() < size as usize {
            return Ok(None);
        }
        Ok(Some(size as usize))
    }

    /// Takes what a frame says.
    fn take(&mut self, frame: Frame, events: &mut Vec<Event>) -> Result<(), EndpointError>
        requires { self.old.phase ≡ Running }
        ensures ok { OnOk result (BodyTaken S.does self.old frame.channel frame.body events.old.items
            events.new.items self.new) }
        ensures err { IfErr result (λ e. BodyRefused S.does self.old frame.channel frame.body e self.new
            × (events.new.items ≡ events.old.items)) }
    {
        let channel = IncomingChannel(frame.channel);
        match frame.body {
            FrameBody::Empty => Ok(()),
            FrameBody::Open(open) => self.take_open(channel, open, events),
            FrameBody::Close(close) => self.take_close(channel, close, events),
            FrameBody::Transfer {
                performative,
                payload,
            } => self.take_transfer(channel, performative, payload, events),
            body => self.take_session(channel, body, events),
        }
    }

    /// The sessions take a Transfer: at once where it brings a whole message, and else as any frame of theirs.
    #[inline(never)]
    fn take_transfer(
        &mut self,
        channel: IncomingChannel,
        performative: Transfer,
        payload: Bytes,
        events: &mut Vec<Event>,
    ) -> Result<(), EndpointError>
        requires { self.old.phase ≡ Running }
        ensures ok { OnOk result (BodyTaken S.does self.old channel.0
            (FrameBody.Transfer performative payload) events.old.items events.new.items self.new) }
        ensures err { IfErr result (λ e. BodyRefused S.does self.old channel.0
            (FrameBody.Transfer performative payload) e self.new × (events.new.items ≡ events.old.items)) }
    {
        if let Some(arrival) = self.takes_at_once(channel, &performative, &payload, events) {
            events.push_reserved(arrival.told(performative, payload));
            return Ok(());
        }
        let body = FrameBody::Transfer {
            performative,
            payload,
        };
        self.take_session(channel, body, events)
    }

    /// The sessions take a Transfer at once, and its message is to be told. Where they don't nothing changes; there is
    /// room for the event where they do.
    fn takes_at_once(
        &mut self,
        channel: IncomingChannel,
        transfer: &Transfer,
        payload: &Bytes,
        events: &mut Vec<Event>,
    ) -> Option<Arrival>
        requires { self.old.phase ≡ Running }
        ensures says { OnSome result (SaysDelivery transfer.now) }
        ensures taken { IfSome result (λ it. BodyTaken S.does self.old channel.0
            (FrameBody.Transfer transfer.now payload.now) events.old.items
            (events.old.items ++ arrived it transfer.now payload.now ∷ []) self.new) }
        ensures none { IfNone result (self.new ≡ self.old) }
        ensures room { OnSome result (vec_len events.new < vec_capacity events.new) }
        ensures events { events.new.items ≡ events.old.items }
    {
        if events.reserve(1).is_err() {
            return None;
        }
        let limit = self.limit();
        self.sessions
            .takes_at_once(limit, channel, transfer, payload, &mut self.out)
    }

    /// The sessions take a frame of theirs.
    #[inline(never)]
    fn take_session(
        &mut self,
        channel: IncomingChannel,
        body: FrameBody,
        events: &mut Vec<Event>,
    ) -> Result<(), EndpointError>
        requires theirs { IsOfSession body }
        requires running { self.old.phase ≡ Running }
        ensures ok { OnOk result (BodyTaken S.does self.old channel.0 body events.old.items
            events.new.items self.new) }
        ensures err { IfErr result (λ e. BodyRefused S.does self.old channel.0 body e self.new
            × (events.new.items ≡ events.old.items)) }
    {
        let limit = self.limit();
        self.sessions
            .on_incoming(self.alloc, limit, channel, body, &mut self.out, events)?;
        Ok(())
    }

    fn take_open(
        &mut self,
        channel: IncomingChannel,
        peer: Open,
        events: &mut Vec<Event>,
    ) -> Result<(), EndpointError>
        requires { self.old.phase ≡ Running }
        ensures ok { OnOk result (BodyTaken S.does self.old channel.0 (FrameBody.Open peer) events.old.items
            events.new.items self.new) }
        ensures err { IfErr result (λ e. BodyRefused S.does self.old channel.0 (FrameBody.Open peer) e self.new
            × (events.new.items ≡ events.old.items)) }
    {
        if says_too_little(self.peer_limit, peer.max_frame_size) {
            return Err(EndpointError::PeerLimitUnder512);
        }
        events.reserve(1)?;
        take_open(&mut self.sessions, channel, &peer)?;
        self.peer_limit = Some(peer.max_frame_size);
        events.push_reserved(Event::Opened(Opened {
            container_id: peer.container_id,
            max_frame_size: peer.max_frame_size,
            channel_max: peer.channel_max,
            idle_time_out: peer.idle_time_out,
        }));
        Ok(())
    }

    fn take_close(
        &mut self,
        channel: IncomingChannel,
        close: Close,
        events: &mut Vec<Event>,
    ) -> Result<(), EndpointError>
        requires { self.old.phase ≡ Running }
        ensures ok { OnOk result (BodyTaken S.does self.old channel.0 (FrameBody.Close close) events.old.items
            events.new.items self.new) }
        ensures err { IfErr result (λ e. BodyRefused S.does self.old channel.0 (FrameBody.Close close) e self.new
            × (events.new.items ≡ events.old.items)) }
    {
        events.reserve(1)?;
        self.close_both(channel, &close)?;
        events.push_reserved(Event::Closed(Closed { error: close.error }));
        self.input = BytesMut::new(self.alloc);
        Ok(())
    }

    /// The peer's Close came: it is answered by the own one, unless that was queued.
    fn close_both(&mut self, channel: IncomingChannel, peer: &Close) -> Result<(), EndpointError>
        requires { self.old.phase ≡ Running }
        ensures ok { OnOk result (ClosesBoth S.does self.old.own_close self.old.sessions self.new.sessions
            × (self.new ≡ record (closed self.old self.new.sessions) { rest = self.old.rest })) }
        ensures err { IfErr result (λ e. (e ≡ Memory) × (self.new ≡ self.old)) }
    {
        if self.own_close() {
            take_peers_close(&mut self.sessions, channel, peer)?;
            self.sessions.finish();
            self.phase = Phase::Over;
            return Ok(());
        }
        gather(&mut self.queue, &mut self.out)?;
        take_peers_close(&mut self.sessions, channel, peer)?;
        let answer = send_close(&mut self.sessions, None)?;
        self.sessions.finish();
        self.queue.push_back_reserved(answer);
        self.phase = Phase::Over;
        Ok(())
    }

    /// Ends the connection by this fault, or by want of memory for the Close that tells of it.
    fn end_by(&mut self, fault: EndpointError) -> EndpointError
        requires { self.old.phase ≡ Running }
        ensures { EndsBy S.does fault result self.old self.new }
    {
        let Some(condition) = Condition::of(&fault) else {
            self.break_off();
            return fault;
        };
        if self.close_with(condition).is_err() {
            self.break_off();
            return EndpointError::Memory;
        }
        self.sessions.finish();
        self.phase = Phase::Over;
        self.input = BytesMut::new(self.alloc);
        fault
    }

    /// Queues the own Close with this condition, unless the own Close is queued.
    fn close_with(&mut self, condition: Condition) -> Result<(), EndpointError>
        requires { has_opened self.old.phase ≡ true }
        ensures ok { OnOk result (SendsClose S.does self.old.own_close true self.old.sessions self.new.sessions
            × (self.new ≡ record self.old {
              own_close = true;
              queue = with_close self.old (own_close_with (Some (error_of (condition_text condition))));
              sessions = self.new.sessions;
            })) }
        ensures err { IfErr result (λ e. (e ≡ Memory) × (self.new ≡ self.old)) }
    {
        if self.own_close() {
            return Ok(());
        }
        let error = error_of_condition(self.alloc, condition.as_str())?;
        self.send_close(Some(error))?;
        Ok(())
    }
}

/// Whether the peer's first Open has a limit of so many bytes that is too low.
fn says_too_little(limit: Option<u32>, most: u32) -> bool
    ensures { result ≡ says_too_little limit most }
{
    match limit {
        None => most < MIN_MAX_FRAME_SIZE,
        Some(_) => false,
    }
}
