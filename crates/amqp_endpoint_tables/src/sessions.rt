//! The sessions of an endpoint by their numbers, on its connection.
ghost use Rattle.std.specs.Prelude.{◌≡◌, ◌<◌, Ok, length, slice_get, slice_set, IfOk, IfErr, OnErr, OnSome, IfNone};
ghost use Rattle.std.specs.Prelude.{option_copied};
ghost use Rattle.std.specs.Option.{option_copied_mut};
ghost use types.Logic.{sem};
ghost use Rattle.std.specs.FinMap as map;
ghost use Rattle.std.specs.Vec.{vec_len, vec_capacity};
ghost use Rattle.amqp_session_frames.specs.Steps.{RefusesSession};
ghost use Rattle.amqp_session_frames.specs.Steps as connection_steps;
ghost use Rattle.amqp_endpoint_tables.specs.State.{fresh, asked_at, asked_on, live_at, place_at, reached, routed};
ghost use Rattle.amqp_endpoint_tables.specs.Lends.{lends_asked, lends_connection, lends_live};
ghost use Rattle.amqp_endpoint_tables.specs.Steps.{Step, Begins, TakesBegin};

use crate::place::{Place, Unbegun};
use amqp_session_frames::{Connection, Routes};
use amqp_session_performatives::Begin;
use amqp_session_types::{BeginError, ConnectionError, IncomingChannel, OutgoingChannel};
use std::alloc::Global;
use std::marker::Model;
use std::mem;

/// The sessions of an endpoint by their numbers, which count from 0 and never come back, on the connection that gives
/// them channels (part 2, 2.5.1).
///
/// A session that the peer asks for is an `A`, and one that has begun an `S`: what these do isn't known here. What was
/// over stays known by its number. Each call that is refused leaves all as it was.
///
/// A clause sees them as the record `State`: the room that they have taken is no part of their value.
pub struct Sessions<A, S> {
    pub(crate) connection: Connection,
    pub(crate) places: Vec<Place<A, S>>,
    pub(crate) asked: Routes,
}

impl<A: Drop, S: Drop> Drop for Sessions<A, S> {
    fn drop(self) {
        let Sessions {
            connection: _,
            places: _,
            asked: _,
        } = self;
    }
}

impl<A, S> Model for Sessions<A, S> {
    ghost use Rattle.std.specs.Coded.{codes};
    ghost use Rattle.amqp_session_frames.specs.State.{table_code};
    ghost use Rattle.amqp_endpoint_tables.specs.State.{State};

    ghost Value = { State A S };

    ghost coded = { Prim.hlevel (codes, table_code) };

    ghost view = { λ s. record { connection = s.connection; places = s.places.items; asked = s.asked } };
}

impl<A: Drop, S: Drop> Sessions<A, S> {
    /// No sessions, on this connection. It takes no memory.
    pub fn new(alloc: Global, connection: Connection) -> Self
        ensures { result ≡ fresh connection }
    {
        Sessions {
            connection,
            places: Vec::new(alloc),
            asked: Routes::new(alloc),
        }
    }

    /// The connection.
    pub fn connection(&self) -> &Connection
        ensures { result.now ≡ self.now.connection }
    {
        &self.connection
    }

    /// The connection, for its headers, Open and Close.
    pub fn connection_mut(&mut self) -> &mut Connection
        ensures* writes_back { sem 𝓛 (lends_connection A.row S.row self.entry result) }
        ensures value { result.now ≡ self.old.connection }
    {
        &mut self.connection
    }

    /// The number that the next session gets.
    pub fn next_number(&self) -> u64
        ensures { result ≡ length self.now.places }
    {
        self.places.len() as u64
    }

    /// Where the session with this number stands, if there is one.
    pub fn place(&self, number: u64) -> Option<&Place<A, S>>
        ensures { option_copied result ≡ place_at self.now number }
    {
        self.places.get(number as usize)
    }

    /// The session with this number, if the peer asks for it.
    pub fn asked(&self, number: u64) -> Option<&A>
        ensures { option_copied result ≡ asked_at self.now number }
    {
        match self.place(number) {
            Some(Place::Asked(_, session)) => Some(session),
            _ => None,
        }
    }

    /// The session with this number, if it has begun.
    pub fn live(&self, number: u64) -> Option<&S>
        ensures { option_copied result ≡ live_at self.now number }
    {
        match self.place(number) {
            Some(Place::Live(_, session)) => Some(session),
            _ => None,
        }
    }

    /// The session with this number, if the peer asks for it, to be changed by its owner.
    pub fn asked_mut(&mut self, number: u64) -> Option<&mut A>
        ensures* writes_back { sem 𝓛 (lends_asked A.row S.row self.entry number result) }
        ensures value { option_copied_mut result ≡ asked_at self.old number }
    {
        if self.asked(number).is_none() {
            return None;
        }
        Some(self.places[number as usize].asked_mut())
    }

    /// The session with this number, if it has begun, to be changed by its owner.
    pub fn live_mut(&mut self, number: u64) -> Option<&mut S>
        ensures* writes_back { sem 𝓛 (lends_live A.row S.row self.entry number result) }
        ensures value { option_copied_mut result ≡ live_at self.old number }
    {
        if self.live(number).is_none() {
            return None;
        }
        Some(self.places[number as usize].live_mut())
    }

    /// The number of the session that the peer's frames on a channel reach: of the one to which the peer's Begin led
    /// the channel, until both End have passed, and else of the one that the peer asks for on it (part 2, 2.5.1).
    pub fn reached(&self, channel: IncomingChannel) -> Option<u64>
        ensures { result ≡ reached self.now channel.0 }
    {
        if let Some(number) = self.routed(channel) {
            return Some(number);
        }
        self.asked_on(channel)
    }

    /// The number of the session that the peer asks for on a channel, if there is one.
    pub fn asked_on(&self, channel: IncomingChannel) -> Option<u64>
        ensures { result ≡ asked_on self.now channel.0 }
    {
        let number = self.asked.get(channel.0)?;
        self.asked(number)?;
        Some(number)
    }

    /// The number of the session to which the peer's Begin led a channel, if that has an outgoing channel.
    pub(crate) fn routed(&self, channel: IncomingChannel) -> Option<u64>
        ensures { result ≡ routed self.now channel.0 }
    {
        let number = self.connection.session_tx_by_incoming_channel(channel)?;
        self.place(number)?.channel()?;
        Some(number)
    }

    /// Begins a session on the channel that `Connection::offered_channel` tells, and answers its number (part 2,
    /// 2.5.1).
    ///
    /// It is refused with what that is refused with, and with `Memory`. The session comes back then.
    pub fn begin(&mut self, session: S) -> Result<u64, Unbegun<S>>
        ensures ok { IfOk result (λ number.
            Step self.old (Begins number (record { 0 = self.old.connection.offered }) session) self.new) }
        ensures err { IfErr result (λ refused.
            RefusesSession self.old.connection refused.error × (refused.session ≡ session)) }
        ensures kept { OnErr result (self.new ≡ self.old) }
    {
        match room_for_session(&mut self.connection, &mut self.places) {
            Ok((number, channel)) => {
                self.places.push_reserved(Place::Live(channel, session));
                Ok(number)
            }
            Err(error) => Err(Unbegun { error, session }),
        }
    }

    /// Takes the peer's Begin that names an outgoing channel: the peer's frames on its channel reach that channel's
    /// session from now on, whatever they reached before (part 2, 2.5.1). Answers the session's number.
    ///
    /// It is refused as `Connection::on_incoming_begin` is, and nothing changes then.
    pub fn on_incoming_begin(
        &mut self,
        channel: IncomingChannel,
        begin: &Begin,
    ) -> Result<u64, ConnectionError>
        ensures ok { IfOk result (λ number.
            Step self.old (TakesBegin number channel begin.now) self.new) }
        ensures err { IfErr result (λ e.
            connection_steps.RefusesBegin self.old.connection begin.now e × (self.new ≡ self.old)) }
    {
        self.connection.on_incoming_begin(channel, begin)
    }
}

/// The next number and the offered channel, which is given to it, once there is room for a place.
fn room_for_session<A: Drop, S: Drop>(
    connection: &mut Connection,
    places: &mut Vec<Place<A, S>>,
) -> Result<(u64, OutgoingChannel), BeginError>
    ensures ok { IfOk result (λ given.
        connection_steps.Step connection.old (connection_steps.AllocatesSession given.0 (Ok given.1)) connection.new
        × (given.0 ≡ length places.old.items)
        × (given.1 ≡ record { 0 = connection.old.offered })
        × (vec_len places.new < vec_capacity places.new)) }
    ensures err { IfErr result (λ e. RefusesSession connection.old e
        × (connection.new ≡ connection.old)) }
    ensures same { places.new.items ≡ places.old.items }
{
    let _ = connection.offered_channel()?;
    places.reserve(1)?;
    let number = places.len() as u64;
    let channel = connection.allocate_session(number)?;
    Ok((number, channel))
}

/// Puts a session in another place, and hands out the one that it had, if there is a session with this number.
pub(crate) fn put<A: Drop, S: Drop>(
    places: &mut Vec<Place<A, S>>,
    number: u64,
    place: Place<A, S>,
) -> Option<Place<A, S>>
    ensures value { result ≡ slice_get places.old.items number }
    ensures put { OnSome result (places.new.items ≡ slice_set places.old.items number place) }
    ensures none { IfNone result (places.new.items ≡ places.old.items) }
{
    let stood = places.get_mut(number as usize)?;
    Some(mem::replace(stood, place))
}

/// A channel on which the peer asks for a session no longer.
#[tactic(auto, using(crate::proofs::Places::forgotten))]
pub(crate) fn forget(asked: &mut Routes, channel: IncomingChannel)
    ensures { asked.new ≡ map.remove asked.old channel.0 }
{
    let _ = asked.remove(channel.0);
}
