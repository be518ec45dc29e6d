//! What the sessions do for their connection.
use crate::attaching::{attach_receiver, attach_sender, resume};
use crate::hearing::hear;
use crate::sending::{send, send_refusal};
use amqp_endpoint_conversation::Conversation;
use amqp_endpoint_link_calls as calls;
use amqp_endpoint_link_calls as messages;
use amqp_endpoint_link_calls::Again;
use amqp_endpoint_link_hearing::hear_at_once;
use amqp_endpoint_linking as linking;
use amqp_endpoint_links::Numbered;
use amqp_endpoint_model::{
    Arrival, Attaching, Disposal, EndpointError, Event, LinkSettings, Sending, Sent, SessionRelay,
};
use amqp_endpoint_tables::{Links, Sessions};
use amqp_link::LinkEnd;
use amqp_session_frames::{Connection, FrameBody};
use amqp_session_performatives::{SessionFrame, Transfer};
use amqp_session_types::{IncomingChannel, TryEndError};
use bytes::Bytes;
use std::alloc::{AllocError, Global};
use std::collections::VecDeque;

/// The sessions of an endpoint, and its links (part 2, 2.5, 2.6). A link is in a session under its own handle, or it is
/// at rest beside them; there it bears its number and its name all along.
///
/// Each message that is sent has a number of its own, which its tag says, and so has each that is handed out.
pub struct LinkedSessions {
    /// The sessions, by their numbers, and what is said in them.
    pub talk: Conversation<Numbered<LinkEnd>>,
    /// The links that aren't closed, by their numbers and their names.
    pub links: Links<LinkEnd>,
    /// How many messages were accepted to be sent.
    pub sent: u64,
    /// How many messages were handed out.
    pub given: u64,
}

impl Drop for LinkedSessions {
    fn drop(self) {
        let LinkedSessions {
            talk: _,
            links: _,
            sent: _,
            given: _,
        } = self;
    }
}

impl SessionRelay for LinkedSessions {
    ghost use Rattle.amqp_endpoint.specs.Does.{linked};

    ghost does = { linked };

    fn new(
        alloc: Global,
        connection: Connection,
        first_transfer_number: u32,
        incoming_window: u32,
    ) -> Result<Self, AllocError> {
        Ok(LinkedSessions {
            talk: Conversation {
                sessions: Sessions::new(alloc, connection),
                first_transfer_number,
                incoming_window,
            },
            links: Links::new(alloc),
            sent: 0,
            given: 0,
        })
    }

    fn connection(&self) -> &Connection {
        self.talk.sessions.connection()
    }

    fn connection_mut(&mut self) -> &mut Connection {
        let talk = &mut self.talk;
        let sessions = &mut talk.sessions;
        sessions.connection_mut()
    }

    fn on_incoming(
        &mut self,
        alloc: Global,
        limit: u32,
        channel: IncomingChannel,
        body: FrameBody,
        out: &mut VecDeque<SessionFrame>,
        events: &mut Vec<Event>,
    ) -> Result<(), EndpointError> {
        hear(
            &mut self.talk,
            &mut self.links,
            &mut self.given,
            alloc,
            limit,
            channel,
            body,
            out,
            events,
        )
    }

    fn takes_at_once(
        &mut self,
        _limit: u32,
        channel: IncomingChannel,
        transfer: &Transfer,
        payload: &Bytes,
        out: &mut VecDeque<SessionFrame>,
    ) -> Option<Arrival> {
        hear_at_once(
            &mut self.talk,
            &mut self.given,
            channel,
            transfer,
            payload,
            out,
        )
    }

    fn begin(
        &mut self,
        alloc: Global,
        _limit: u32,
        out: &mut VecDeque<SessionFrame>,
    ) -> Result<u64, EndpointError> {
        linking::begin(&mut self.talk, alloc, out)
    }

    fn accept_begin(
        &mut self,
        alloc: Global,
        _limit: u32,
        channel: IncomingChannel,
        out: &mut VecDeque<SessionFrame>,
    ) -> Result<u64, EndpointError> {
        linking::accept_begin(&mut self.talk, alloc, channel, out)
    }

    fn end(
        &mut self,
        _limit: u32,
        number: u64,
        out: &mut VecDeque<SessionFrame>,
    ) -> Result<(), EndpointError> {
        linking::end(&mut self.talk, &mut self.links, number, out)
    }

    fn is_ended(&self, number: u64) -> bool {
        self.talk.sessions.is_ended(number)
    }

    fn try_end(&mut self, number: u64) -> Result<(), TryEndError> {
        self.talk.sessions.try_end(number)
    }

    fn attach_sender(
        &mut self,
        alloc: Global,
        limit: u32,
        session: u64,
        settings: &LinkSettings,
        out: &mut VecDeque<SessionFrame>,
    ) -> Result<Attaching, EndpointError> {
        attach_sender(
            &mut self.talk,
            &mut self.links,
            alloc,
            limit,
            session,
            settings,
            out,
        )
    }

    fn attach_receiver(
        &mut self,
        alloc: Global,
        limit: u32,
        session: u64,
        settings: &LinkSettings,
        out: &mut VecDeque<SessionFrame>,
    ) -> Result<Attaching, EndpointError> {
        attach_receiver(
            &mut self.talk,
            &mut self.links,
            alloc,
            limit,
            session,
            settings,
            out,
        )
    }

    fn resume(
        &mut self,
        alloc: Global,
        limit: u32,
        link: u64,
        session: u64,
        out: &mut VecDeque<SessionFrame>,
    ) -> Result<Attaching, EndpointError> {
        let again = Again { link, session };
        resume(&mut self.talk, &mut self.links, alloc, limit, again, out)
    }

    fn detach(
        &mut self,
        alloc: Global,
        _limit: u32,
        link: u64,
        out: &mut VecDeque<SessionFrame>,
    ) -> Result<(), EndpointError> {
        calls::detach(&mut self.talk, alloc, &self.links, link, out)
    }

    fn close_link(
        &mut self,
        alloc: Global,
        _limit: u32,
        link: u64,
        out: &mut VecDeque<SessionFrame>,
    ) -> Result<Vec<Event>, EndpointError> {
        calls::close_link(&mut self.talk, alloc, &mut self.links, link, out)
    }

    fn grant(
        &mut self,
        alloc: Global,
        _limit: u32,
        link: u64,
        credit: u32,
        out: &mut VecDeque<SessionFrame>,
    ) -> Result<u32, EndpointError> {
        calls::grant(&mut self.talk, alloc, &self.links, link, credit, out)
    }

    fn drain(
        &mut self,
        alloc: Global,
        _limit: u32,
        link: u64,
        out: &mut VecDeque<SessionFrame>,
    ) -> Result<(), EndpointError> {
        calls::drain(&mut self.talk, alloc, &self.links, link, out)
    }

    fn send(
        &mut self,
        alloc: Global,
        limit: u32,
        link: u64,
        message: &Sending,
        out: &mut VecDeque<SessionFrame>,
    ) -> Result<Sent, EndpointError> {
        send(
            &mut self.talk,
            &self.links,
            &mut self.sent,
            alloc,
            limit,
            link,
            message,
            out,
        )
    }

    fn send_refusal(&self, alloc: Global, link: u64, size: usize) -> Option<EndpointError> {
        send_refusal(&self.talk, &self.links, alloc, self.sent, link, size)
    }

    fn dispose(
        &mut self,
        alloc: Global,
        limit: u32,
        link: u64,
        message: u64,
        disposal: &Disposal,
        out: &mut VecDeque<SessionFrame>,
    ) -> Result<(), EndpointError> {
        messages::dispose(
            &mut self.talk,
            alloc,
            &self.links,
            self.given,
            limit,
            link,
            message,
            disposal,
            out,
        )
    }

    fn dispose_all(
        &mut self,
        alloc: Global,
        limit: u32,
        link: u64,
        messages: &[u64],
        disposal: &Disposal,
        out: &mut VecDeque<SessionFrame>,
    ) -> Result<(), EndpointError> {
        messages::dispose_all(
            &mut self.talk,
            alloc,
            &self.links,
            self.given,
            limit,
            link,
            messages,
            disposal,
            out,
        )
    }

    fn credit(&self, link: u64) -> Result<u32, EndpointError> {
        calls::credit(&self.talk, &self.links, link)
    }

    fn held_back(&self, session: u64) -> Result<usize, EndpointError> {
        calls::held_back(&self.talk, session)
    }

    fn waiting(&self, alloc: Global, session: u64) -> Result<Vec<(u64, u64)>, EndpointError> {
        calls::waiting(&self.talk, alloc, session)
    }

    fn leave(&mut self) {
        linking::leave(&mut self.talk, &mut self.links);
    }

    fn finish(&mut self) {
        linking::finish(&mut self.talk, &mut self.links);
    }
}
