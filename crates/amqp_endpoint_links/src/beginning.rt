//! How a session with its asked links begins (part 2, 2.5.1).
ghost use Rattle.std.specs.Prelude.{◌≡◌, [], None, Some, IsSome, is_ok, IfOk, OnOk, OnErr};
ghost use Rattle.std.specs.FinMap as map;
ghost use Rattle.amqp_session_core.specs.declared.state.SessionState.TheVariants.{BeginReceived};
ghost use Rattle.amqp_session_core.specs.Steps.{Step, SendsBegin};
ghost use Rattle.amqp_session_core.specs.Table.{after_send_begin, after_incoming_begin};
ghost use Rattle.amqp_endpoint_links.specs.Beginning.{Begun, Accepted, IsIdle, TakesBeginAlone, TakesKept, TakesAsked};

use crate::asking::AskingSession;
use crate::{AskedLinks, AskedSession, SessionFlow};
use amqp_session_core::{LinkRelay, Session};
use amqp_session_performatives::{Begin, SessionFrame};
use amqp_session_types::{IncomingChannel, OutgoingChannel};
use std::alloc::{AllocError, Global};
use std::collections::VecDeque;

impl<R: LinkRelay> AskingSession<R> {
    /// A session that begins (part 2, 2.5.1), with its Begin, which is to be sent: it sends on this channel, gives its
    /// first transfer this number, and tells this incoming-window in each of its Flows (part 2, 2.5.6). The peer asks
    /// for no link in it. It takes no memory.
    pub fn begin(
        alloc: Global,
        channel: OutgoingChannel,
        first_transfer_number: u32,
        incoming_window: u32,
    ) -> (Self, SessionFrame)
        ensures { Begun R.gives channel first_transfer_number incoming_window result.1 result.0 }
    {
        let mut session = Session::new(alloc, channel, first_transfer_number, incoming_window);
        let frame = send_begin(&mut session, alloc);
        let asked = AskedLinks::new(alloc);
        (AskingSession { session, asked }, frame)
    }

    /// The session that accepts one that the peer asks for (part 2, 2.5.1), with its Begin, which is to be sent: as
    /// `begin`, and it takes the peer's Begin, which came on this incoming channel, and then what was kept of a Flow.
    /// The links that the peer asks for in the asked session are to go over: whoever gives it up for this one moves
    /// them.
    ///
    /// It is refused where there is no memory.
    pub fn accept(
        alloc: Global,
        channel: OutgoingChannel,
        incoming: IncomingChannel,
        asked: &AskedSession,
        first_transfer_number: u32,
        incoming_window: u32,
    ) -> Result<(Self, SessionFrame), AllocError>
        ensures { IfOk result (λ accepted. Accepted R.gives asked.now channel incoming first_transfer_number
            incoming_window accepted.1 accepted.0) }
    {
        let mut session = Session::new(alloc, channel, first_transfer_number, incoming_window);
        take_asked(&mut session, alloc, incoming, &asked.begin, asked.flow)?;
        let frame = send_begin(&mut session, alloc);
        let asked = AskedLinks::new(alloc);
        Ok((AskingSession { session, asked }, frame))
    }
}

/// The own Begin, which the state allows.
fn send_begin<R: LinkRelay>(session: &mut Session<R>, alloc: Global) -> SessionFrame
    requires { IsSome (after_send_begin session.old.local_state) }
    ensures { Step R.gives session.old (SendsBegin result) session.new }
{
    let Ok(frame) = session.send_begin(alloc) else {
        unreachable!()
    };
    frame
}

/// A session in which nothing waits takes the peer's Begin and what was kept of a Flow. No frame leaves.
fn take_asked<R: LinkRelay>(
    session: &mut Session<R>,
    alloc: Global,
    incoming: IncomingChannel,
    begin: &Begin,
    flow: Option<SessionFlow>,
) -> Result<(), AllocError>
    requires idle { IsIdle session.old [] }
    requires unmapped { after_incoming_begin session.old.local_state ≡ Some BeginReceived }
    ensures step { OnOk result (TakesAsked R.gives session.old incoming begin.now flow
        session.new) }
    ensures received { OnOk result (session.new.local_state ≡ BeginReceived) }
{
    let mut out = VecDeque::new(alloc);
    take_begin(session, &mut out, incoming, begin)?;
    take_flow(session, alloc, &mut out, flow)
}

/// A session in which nothing waits takes the peer's Begin.
fn take_begin<R: LinkRelay>(
    session: &mut Session<R>,
    out: &mut VecDeque<SessionFrame>,
    incoming: IncomingChannel,
    begin: &Begin,
) -> Result<(), AllocError>
    requires idle { IsIdle session.old out.old.items }
    ensures step { OnOk result (TakesBeginAlone R.gives session.old incoming begin.now
        session.new) }
    ensures idle { OnOk result (IsIdle session.new out.new.items) }
{
    for_memory(session.on_incoming_begin(out, incoming, begin))
}

/// A session in which nothing waits takes what was kept of a Flow, if one came.
fn take_flow<R: LinkRelay>(
    session: &mut Session<R>,
    alloc: Global,
    out: &mut VecDeque<SessionFrame>,
    flow: Option<SessionFlow>,
) -> Result<(), AllocError>
    requires idle { IsIdle session.old out.old.items }
    ensures { OnOk result (TakesKept R.gives session.old flow session.new) }
{
    let Some(flow) = flow else {
        return Ok(());
    };
    for_memory(session.on_incoming_flow(alloc, out, flow.into_flow()))
}

/// The answer. Where it is a refusal there was no memory: a fresh session refuses for nothing else what it takes here.
fn for_memory<E: Drop>(answer: Result<(), E>) -> Result<(), AllocError>
    ensures { is_ok result ≡ is_ok answer }
{
    match answer {
        Ok(()) => Ok(()),
        Err(_) => Err(AllocError),
    }
}
