//! How the peer asks for sessions, and how one that it asks for is accepted (part 2, 2.5.1).
ghost use Rattle.std.specs.Prelude.{◌≡◌, Some, IfOk, IfErr, OnErr, slice_set};
ghost use Rattle.std.specs.FinMap as map;
ghost use Rattle.amqp_session_types.specs.declared.channels.IncomingChannel.{IncomingChannel};
ghost use Rattle.amqp_session_frames.specs.Steps.{RefusesSession};
ghost use Rattle.amqp_endpoint_tables.specs.State.{asked_channel_at, place_at};
ghost use Rattle.amqp_endpoint_tables.specs.Steps.{Step, Accepts, Asks, GivesChannel, RefusesAccept, RefusesAsk};

use crate::place::{Place, Unbegun};
use crate::sessions::{Sessions, forget, put};
use amqp_session_frames::Connection;
use amqp_session_types::{BeginError, ConnectionError, IncomingChannel, OutgoingChannel};

impl<A: Drop, S: Drop> Sessions<A, S> {
    /// The peer asks for a session on its channel: its Begin names no channel (part 2, 2.7.2). Answers the session's
    /// number.
    ///
    /// It is refused with `NotAllowed` where the channel reaches a session, and with `Memory`. Nothing changes then,
    /// and what was asked for is dropped.
    pub fn ask(&mut self, channel: IncomingChannel, session: A) -> Result<u64, ConnectionError>
        ensures ok { IfOk result (λ number. Step self.old (Asks number channel session) self.new) }
        ensures err { IfErr result (RefusesAsk self.old channel.0) }
        ensures kept { OnErr result (self.new ≡ self.old) }
    {
        if self.reached(channel).is_some() {
            return Err(ConnectionError::NotAllowed);
        }
        self.places.reserve(1)?;
        let number = self.next_number();
        self.asked.insert(channel.0, number)?;
        self.places.push_reserved(Place::Asked(channel, session));
        Ok(number)
    }

    /// Accepts the session with this number, for which the peer asks: it begins on the channel that
    /// `Connection::offered_channel` tells, and the peer's channel leads to it (part 2, 2.5.1). Answers that channel,
    /// and what was asked for.
    ///
    /// It is refused with `IllegalState` where the peer doesn't ask for it, then with what `offered_channel` is refused
    /// with, and with `Memory`. Nothing changes then, and the session comes back.
    pub fn accept(&mut self, number: u64, session: S) -> Result<(OutgoingChannel, A), Unbegun<S>>
        ensures ok { IfOk result (λ given. (incoming : IncomingChannel)
            × Step self.old (Accepts number incoming given.1 given.0 session) self.new) }
        ensures err { IfErr result (λ refused.
            RefusesAccept self.old number refused.error × (refused.session ≡ session)) }
        ensures kept { OnErr result (self.new ≡ self.old) }
    {
        let Some(channel) = self.asked_channel(number) else {
            return Err(Unbegun {
                error: BeginError::IllegalState,
                session,
            });
        };
        match give_channel(&mut self.connection, channel, number) {
            Ok(outgoing) => Ok((
                outgoing,
                self.begin_asked(number, channel, outgoing, session),
            )),
            Err(error) => Err(Unbegun { error, session }),
        }
    }

    /// The peer's channel of the session with this number, if the peer asks for it.
    fn asked_channel(&self, number: u64) -> Option<IncomingChannel>
        ensures { result ≡ asked_channel_at self.now number }
    {
        match self.place(number) {
            Some(Place::Asked(channel, _)) => Some(*channel),
            _ => None,
        }
    }

    /// A session for which the peer asks begins: what was asked for is handed out.
    fn begin_asked(
        &mut self,
        number: u64,
        channel: IncomingChannel,
        outgoing: OutgoingChannel,
        session: S,
    ) -> A
        requires asked { asked_channel_at self.old number ≡ Some channel }
        ensures value { place_at self.old number ≡ Some (Place.Asked channel result) }
        ensures rest { self.new ≡ record self.old {
          places = slice_set self.old.places number (Place.Live outgoing session);
          asked = map.remove self.old.asked channel.0;
        } }
    {
        forget(&mut self.asked, channel);
        match put(&mut self.places, number, Place::Live(outgoing, session)) {
            Some(Place::Asked(_, asked)) => asked,
            _ => unreachable!(),
        }
    }
}

/// The offered channel is given to a session, and the peer's channel is led to it.
fn give_channel(
    connection: &mut Connection,
    channel: IncomingChannel,
    number: u64,
) -> Result<OutgoingChannel, BeginError>
    ensures ok { IfOk result (λ outgoing.
        GivesChannel connection.old channel number outgoing connection.new) }
    ensures err { IfErr result (RefusesSession connection.old) }
    ensures kept { OnErr result (connection.new ≡ connection.old) }
{
    let outgoing = connection.allocate_session(number)?;
    match connection.route_accepted(channel, number) {
        Ok(()) => Ok(outgoing),
        Err(_) => {
            connection.deallocate_session(outgoing);
            Err(BeginError::Memory)
        }
    }
}
