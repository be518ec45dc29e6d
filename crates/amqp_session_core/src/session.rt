//! A session over links of one type.
ghost use Rattle.std.specs.Prelude.{◌≡◌, []};
ghost use Rattle.amqp_session_core.specs.State.{fresh};

use crate::batch::{Batch, BehindFrame, TransferFrame};
use crate::fields::SessionFields;
use crate::routes::Routes;
use crate::state::SessionState;
use amqp_session_outgoing::{Outgoing, Place, Sent, Unsettled};
use amqp_session_types::{IncomingChannel, OutgoingChannel};
use slab::Slab;
use std::alloc::Global;
use std::marker::Model;
use std::mem;

/// How many transfers a batch has room for at most whose memory is kept.
const SPARE: usize = 64;

/// A session over links of one type (part 2, 2.5): its state, its windows, its links by their handles, what waits for
/// the peer's window, and the deliveries that aren't settled.
///
/// It neither reads nor writes bytes: what came is handed in as its performative, and what is to be sent is handed out
/// as frames, in the order in which they are to be sent. Each call that is refused for want of memory leaves the session
/// and what it handed out as they were.
///
/// A clause sees a session as the record `State`: the room that it has taken is no part of its value.
#[derive(Drop)]
pub struct Session<R> {
    pub(crate) local_state: SessionState,
    pub(crate) incoming_channel: Option<IncomingChannel>,
    pub(crate) fields: SessionFields,
    /// How many transfers were taken since a Flow left.
    pub(crate) taken: u32,
    pub(crate) handle_max: u32,
    pub(crate) links: Slab<R>,
    pub(crate) routes: Routes,
    pub(crate) outgoing: Outgoing<TransferFrame, BehindFrame>,
    /// Empty between calls: its memory is used again.
    pub(crate) sent: Vec<Sent<TransferFrame, BehindFrame>>,
    pub(crate) received: Unsettled,
    /// Room for the answer to a Flow behind what its link has waiting: it is used again.
    pub(crate) place: Place<BehindFrame>,
    /// A batch that was given back: its memory is used again.
    pub(crate) spare: Batch,
}

impl<R> Model for Session<R> {
    ghost use Rattle.std.specs.Coded.{codes};
    ghost use Rattle.amqp_session_outgoing.specs.Table.{table_code};
    ghost use Rattle.amqp_session_core.specs.Tables.{route_code};
    ghost use Rattle.amqp_session_core.specs.State.{State};
    ghost use Rattle.amqp_session_core.specs.Inside.{state_of, IsSound};

    ghost Value = { State R };

    ghost coded = { Prim.hlevel (codes, table_code, route_code) };

    ghost view = { state_of };

    ghost invariant = { IsSound };
}

impl<R> Session<R> {
    /// A session that has neither begun nor links, which sends on this channel, gives its first transfer this number,
    /// and tells this incoming-window in each of its Flows (part 2, 2.5.6). It takes no memory.
    pub fn new(
        alloc: Global,
        outgoing_channel: OutgoingChannel,
        first_transfer_number: u32,
        incoming_window: u32,
    ) -> Self
        ensures { result ≡ fresh outgoing_channel first_transfer_number incoming_window }
    {
        Session {
            local_state: SessionState::Unmapped,
            incoming_channel: None,
            fields: SessionFields {
                channel: outgoing_channel,
                next_incoming_id: None,
                incoming_window,
            },
            taken: 0,
            handle_max: u32::MAX,
            links: Slab::new(alloc),
            routes: Routes::new(alloc),
            outgoing: Outgoing::new(alloc, first_transfer_number),
            sent: Vec::new(alloc),
            received: Unsettled::new(alloc),
            place: Place::none(),
            spare: Batch::new(alloc),
        }
    }

    /// A batch without transfers, for those of a link. It has the memory of one that was given back, where there is one,
    /// so that to fill it may take none.
    pub fn take_batch(&mut self, alloc: Global) -> Batch
        ensures empty { result ≡ [] }
        ensures same { self.new ≡ self.old }
    {
        let mut batch = mem::replace(&mut self.spare, Batch::new(alloc));
        batch.clear();
        batch
    }

    /// Takes a batch back, whose transfers are dropped if it has any, so that its memory is used again; but where that is
    /// of many transfers, it is given up.
    pub fn give_batch_back(&mut self, batch: Batch)
        ensures { self.new ≡ self.old }
    {
        if batch.transfers.capacity() <= SPARE {
            self.spare = batch;
        }
    }
}
