//! Where a session stands with its endpoint.
ghost use Rattle.std.specs.Prelude.{◌≡◌, IsSome, Some};
ghost use Rattle.std.specs.Borrow.{Lends};
ghost use types.Logic.{sem};
ghost use Rattle.amqp_endpoint_tables.specs.Steps.{refusal_of_try_end};
ghost use Rattle.amqp_endpoint_tables.specs.State.{asked_of, channel_of, ended_place, finished_place, live_of};
ghost use Rattle.amqp_endpoint_tables.specs.State.{standing_of, with_asked, with_live};

use amqp_session_types::{BeginError, IncomingChannel, OutgoingChannel, TryEndError};

/// What came of the peer's End of a session (part 2, 2.5.2).
#[derive(Debug, Clone, Copy, PartialEq, Eq)]
pub enum PeerEnd {
    /// It has not come.
    Missing,
    /// It came.
    Received,
    /// It came, and the caller was told so.
    Told,
}

impl PeerEnd {
    /// Whether the caller can be told now that it came: once, and then `AlreadyEnded`; `RemoteEndNotReceived` before.
    pub(crate) fn told(self) -> Result<(), TryEndError>
        ensures { result ≡ refusal_of_try_end self }
    {
        match self {
            PeerEnd::Missing => Err(TryEndError::RemoteEndNotReceived),
            PeerEnd::Received => Ok(()),
            PeerEnd::Told => Err(TryEndError::AlreadyEnded),
        }
    }
}

/// Where a session stands with its endpoint, and what belongs to it there.
#[derive(Debug, Drop)]
pub enum Place<A, S> {
    /// The peer asks for it on this channel: its Begin came, and none answers it yet (part 2, 2.5.1).
    Asked(IncomingChannel, A),
    /// It has begun on this outgoing channel.
    Live(OutgoingChannel, S),
    /// Its own side is over, by an own End or, which the flag says not, by the own Close (part 2, 2.4.3, 2.5.2). It
    /// keeps its outgoing channel until the peer's End comes.
    Ending(OutgoingChannel, bool),
    /// It is over.
    Over {
        /// What came of the peer's End.
        peer_end: PeerEnd,
        /// Whether both End have passed, or the connection is over.
        complete: bool,
    },
}

/// Which place a session has.
#[derive(Debug, Clone, Copy, PartialEq, Eq)]
pub enum Standing {
    /// The peer asks for it.
    Asked,
    /// It has begun.
    Live,
    /// Its own side is over.
    Ending,
    /// It is over.
    Over,
}

/// A session that got no channel, and why.
#[derive(Debug, Drop)]
pub struct Unbegun<S> {
    /// Why it got none.
    pub error: BeginError,
    /// The session, as it was.
    pub session: S,
}

impl<A: Drop, S: Drop> Place<A, S> {
    ghost use Rattle.amqp_endpoint_tables.specs.contracts.place.Place.{the_row};

    /// Which place it is.
    pub fn standing(&self) -> Standing
        ensures { result ≡ standing_of self.now }
    {
        match self {
            Place::Asked(..) => Standing::Asked,
            Place::Live(..) => Standing::Live,
            Place::Ending(..) => Standing::Ending,
            Place::Over { .. } => Standing::Over,
        }
    }

    /// The outgoing channel that the session has, if it has one.
    pub(crate) fn channel(&self) -> Option<OutgoingChannel>
        ensures { result ≡ channel_of self.now }
    {
        match self {
            Place::Live(channel, _) | Place::Ending(channel, _) => Some(*channel),
            Place::Asked(..) | Place::Over { .. } => None,
        }
    }

    /// The place behind the peer's End: both End have passed where the session had begun here, and its own side isn't
    /// over without an End (part 2, 2.5.2).
    pub(crate) fn ended(&self) -> Place<A, S>
        ensures { result ≡ ended_place self.now }
    {
        match self {
            Place::Asked(..) => Place::Over {
                peer_end: PeerEnd::Received,
                complete: false,
            },
            Place::Live(..) => Place::Over {
                peer_end: PeerEnd::Received,
                complete: true,
            },
            Place::Ending(_, own_end) => Place::Over {
                peer_end: PeerEnd::Received,
                complete: *own_end,
            },
            Place::Over { peer_end, complete } => Place::Over {
                peer_end: *peer_end,
                complete: *complete,
            },
        }
    }

    /// The place once the connection is over.
    pub(crate) fn finished(&self) -> Place<A, S>
        ensures { result ≡ finished_place self.now }
    {
        let peer_end = match self {
            Place::Over { peer_end, .. } => *peer_end,
            _ => PeerEnd::Missing,
        };
        Place::Over {
            peer_end,
            complete: true,
        }
    }

    /// What is asked for, to be changed.
    pub(crate) fn asked_mut(&mut self) -> &mut A
        requires { IsSome (asked_of (Some self.old)) }
        ensures* lends { sem 𝓛 (Lends (the_row A.row S.row) A.row self.entry result
            (with_asked self.old)) }
        ensures value { asked_of (Some self.old) ≡ Some result.now }
    {
        match self {
            Place::Asked(_, session) => session,
            _ => unreachable!(),
        }
    }

    /// The session that has begun, to be changed.
    pub(crate) fn live_mut(&mut self) -> &mut S
        requires { IsSome (live_of (Some self.old)) }
        ensures* lends { sem 𝓛 (Lends (the_row A.row S.row) S.row self.entry result
            (with_live self.old)) }
        ensures value { live_of (Some self.old) ≡ Some result.now }
    {
        match self {
            Place::Live(_, session) => session,
            _ => unreachable!(),
        }
    }
}
