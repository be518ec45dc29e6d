//! How sessions come to their end (part 2, 2.5.2).
ghost use Rattle.std.specs.Prelude.{◌≡◌, ℕ, Some, None, IsSome, MatchOption, ⊤, slice_set};
ghost use Rattle.std.specs.FinMap as map;
ghost use Rattle.amqp_session_performatives.specs.declared.end.End.{End};
ghost use Rattle.amqp_endpoint_tables.specs.State.{asked_on, channel_at, ended_place, is_complete, live_channel_at};
ghost use Rattle.amqp_endpoint_tables.specs.State.{place_at, routed};
ghost use Rattle.amqp_endpoint_tables.specs.Steps.{Step, EndAnswered, EndSent, EndTold, Finished, GivesBack};
ghost use Rattle.amqp_endpoint_tables.specs.Steps.{TakesChannelBack, TakesEnd};

use crate::place::{PeerEnd, Place};
use crate::sessions::{Sessions, forget, put};
use amqp_session_frames::Connection;
use amqp_session_performatives::End;
use amqp_session_types::{ConnectionError, IncomingChannel, OutgoingChannel, TryEndError};
use std::mem;

impl<A: Drop, S: Drop> Sessions<A, S> {
    /// Takes the peer's End (part 2, 2.5.2): the session that its channel reaches is over, and the channel leads
    /// nowhere any more. Answers its number and where it stood: what belonged to it is the caller's. The outgoing
    /// channel of one that has begun comes back, so the own End of a live one is to be sent before another session
    /// begins. It takes no memory.
    ///
    /// It is refused with `NotFound` where the channel reaches no session, and nothing changes then.
    pub fn on_incoming_end(
        &mut self,
        channel: IncomingChannel,
        end: &End,
    ) -> Result<(u64, Place<A, S>), ConnectionError>
        ensures { EndAnswered self.old channel end.now result self.new }
    {
        if let Some(number) = self.routed(channel) {
            return Ok((number, self.end_routed(number, channel, end)));
        }
        let Some(number) = self.asked_on(channel) else {
            return Err(ConnectionError::NotFound);
        };
        Ok((number, self.end_asked(number, channel)))
    }

    /// The own side of the session with this number is over, if it has begun: it is handed out with its channel, which
    /// it keeps until the peer's End comes (part 2, 2.5.2). Else nothing changes. An own End goes then where `own_end`
    /// says so; none does where the own Close ends the session (part 2, 2.4.3). It takes no memory.
    pub fn end(&mut self, number: u64, own_end: bool) -> Option<(OutgoingChannel, S)>
        ensures { EndSent own_end self.old number result self.new }
    {
        let channel = self.live_channel(number)?;
        match put(&mut self.places, number, Place::Ending(channel, own_end)) {
            Some(Place::Live(channel, session)) => Some((channel, session)),
            _ => None,
        }
    }

    /// The connection of the session with this number is over, and with it the session. Answers where it stood, and
    /// None where there is none: what belonged to it is the caller's, and its channels come back. It takes no memory.
    pub fn finish(&mut self, number: u64) -> Option<Place<A, S>>
        ensures { Finished self.old number result self.new }
    {
        let finished = self.place(number)?.finished();
        self.give_back(number);
        put(&mut self.places, number, finished)
    }

    /// Whether both End of the session with this number have passed, or its connection is over. False where there is
    /// none, and where the own Close ended the session, so that no own End passed, until the connection is over.
    pub fn is_ended(&self, number: u64) -> bool
        ensures { result ≡ is_complete (place_at self.now number) }
    {
        match self.place(number) {
            Some(Place::Over { complete, .. }) => *complete,
            _ => false,
        }
    }

    /// Tells once that the peer's End of the session with this number came (part 2, 2.5.2).
    ///
    /// It is refused with `RemoteEndNotReceived` where it did not come, or there is no such session, and with
    /// `AlreadyEnded` where that was told before. Nothing changes then.
    pub fn try_end(&mut self, number: u64) -> Result<(), TryEndError>
        ensures { EndTold self.old number result self.new }
    {
        let Some(Place::Over { peer_end, complete }) = self.place(number) else {
            return Err(TryEndError::RemoteEndNotReceived);
        };
        let (peer_end, complete) = (*peer_end, *complete);
        peer_end.told()?;
        let told = Place::Over {
            peer_end: PeerEnd::Told,
            complete,
        };
        let _ = put(&mut self.places, number, told);
        Ok(())
    }

    /// The outgoing channel of the session with this number, if it has begun.
    fn live_channel(&self, number: u64) -> Option<OutgoingChannel>
        ensures { result ≡ live_channel_at self.now number }
    {
        match self.place(number) {
            Some(Place::Live(channel, _)) => Some(*channel),
            _ => None,
        }
    }
}

impl<A: Drop, S: Drop> Sessions<A, S> {
    /// The session to which the channel was led is over: its channels come back.
    fn end_routed(&mut self, number: u64, channel: IncomingChannel, end: &End) -> Place<A, S>
        requires { routed self.old channel.0 ≡ Some number }
        ensures { Step self.old (TakesEnd number channel end.now result) self.new }
    {
        let Some(outgoing) = self.outgoing_channel(number) else {
            unreachable!()
        };
        take_channels(&mut self.connection, channel, end, outgoing);
        self.put_ended(number)
    }

    /// The session for which the peer asks on the channel is over.
    fn end_asked(&mut self, number: u64, channel: IncomingChannel) -> Place<A, S>
        requires not_led { routed self.old channel.0 ≡ None }
        requires asked { asked_on self.old channel.0 ≡ Some number }
        ensures { (end : End) → Step self.old (TakesEnd number channel end result) self.new }
    {
        forget(&mut self.asked, channel);
        self.put_ended(number)
    }

    /// The peer's End of the session with this number came. Answers where it stood.
    fn put_ended(&mut self, number: u64) -> Place<A, S>
        requires { IsSome (place_at self.old number) }
        ensures value { place_at self.old number ≡ Some result }
        ensures rest { self.new ≡ record self.old {
          places = slice_set self.old.places number (ended_place result);
        } }
    {
        match self.places.get_mut(number as usize) {
            Some(stood) => {
                let ended = stood.ended();
                mem::replace(stood, ended)
            }
            None => unreachable!(),
        }
    }

    /// The outgoing channel of the session with this number, if it has one.
    fn outgoing_channel(&self, number: u64) -> Option<OutgoingChannel>
        ensures { result ≡ channel_at self.now number }
    {
        self.place(number)?.channel()
    }

    /// The channels of the session with this number come back.
    fn give_back(&mut self, number: u64)
        ensures given { MatchOption (place_at self.old number) ⊤
            (λ stood. GivesBack self.old stood self.new.connection self.new.asked) }
        ensures rest { self.new ≡ record self.old {
          connection = self.new.connection;
          asked = self.new.asked;
        } }
    {
        match self.places.get(number as usize) {
            Some(Place::Asked(channel, _)) => forget(&mut self.asked, *channel),
            Some(Place::Live(channel, _) | Place::Ending(channel, _)) => {
                self.connection.deallocate_session(*channel);
            }
            _ => {}
        }
    }
}

/// The peer's channel leads nowhere any more, and the outgoing channel of the session to which it led comes back.
fn take_channels(
    connection: &mut Connection,
    channel: IncomingChannel,
    end: &End,
    outgoing: OutgoingChannel,
)
    requires led { IsSome (map.get connection.old.routes channel.0) }
    ensures { (number : ℕ) → map.get connection.old.routes channel.0 ≡ Some number →
        TakesChannelBack connection.old channel end.now number outgoing connection.new }
{
    match connection.on_incoming_end(channel, end) {
        Ok(_) => connection.deallocate_session(outgoing),
        Err(_) => unreachable!(),
    }
}
