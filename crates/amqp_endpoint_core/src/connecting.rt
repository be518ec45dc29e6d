//! The connection of an endpoint: headers, Open and Close.
ghost use Rattle.std.specs.Prelude.{◌≡◌, ◌⊎◌, true, false, None, Some, is_some, IfOk, IfErr, OnOk, OnErr};
ghost use Rattle.amqp_session_types.specs.declared.refusals.ConnectionError.TheVariants.{IllegalState};
ghost use Rattle.amqp_session_frames.specs.State.{fresh};
ghost use Rattle.amqp_session_frames.specs.Steps.{frame_on};
ghost use Rattle.amqp_session_frames.specs.Table.{after_incoming_close, after_incoming_open, after_send_close};
ghost use Rattle.amqp_session_frames.specs.declared.state.ConnectionState.TheVariants.{Start, HeaderSent};
ghost use Rattle.amqp_session_frames.specs.declared.state.ConnectionState.TheVariants.{HeaderExchange, OpenSent};
ghost use Rattle.amqp_session_frames.specs.declared.frame.FrameBody.TheVariants as body;
ghost use Rattle.amqp_endpoint_model.specs.State.{fits, own_close_with, own_open, the_frame};
ghost use Rattle.amqp_endpoint_model.specs.Step as step;
ghost use Rattle.amqp_endpoint_model.specs.declared.error.EndpointError.TheVariants.{Memory, FrameTooLarge};
ghost use Rattle.amqp_endpoint_core.specs.Connected.{BeginsWith, IsGreeting, MovesBy, StayIdle, StayWithin, sent_close};
ghost use Rattle.amqp_endpoint_core.specs.Connected.{took_close};

use crate::coding::{goes_to_any, open_of};
use crate::queued::Queued;
use amqp_endpoint_model::{EndpointError, SessionRelay, Settings};
use amqp_session_frames::{Connection, ConnectionState};
use amqp_session_performatives::{Close, Open};
use amqp_session_types::{ConnectionError, IncomingChannel, definitions};
use std::alloc::Global;

/// A connection before its start, which sends the Open of these settings. `FrameTooLarge` where that has more than 512
/// bytes.
pub(crate) fn unopened(alloc: Global, settings: &Settings) -> Result<Connection, EndpointError>
    ensures ok { IfOk result (λ c. BeginsWith Start settings.now c
        × (fits 512 (own_open settings.now) ≡ true)) }
    ensures err { IfErr result (λ e. (e ≡ Memory)
        ⊎ ((e ≡ FrameTooLarge) × (fits 512 (own_open settings.now) ≡ false))) }
{
    let open = open_of(alloc, settings)?;
    if goes_to_any(&open) {
        return Ok(Connection::new(alloc, ConnectionState::Start, open));
    }
    Err(EndpointError::FrameTooLarge)
}

/// The connection begins anew, with its Open to send, and its header is sent.
#[tactic(auto, using(crate::proofs::ConnectedLaws::header_sent))]
pub(crate) fn greet(alloc: Global, connection: &mut Connection)
    ensures { connection.new ≡ fresh HeaderSent connection.old.local_open }
{
    connection.begin_anew(alloc);
    let _ = connection.send_header();
}

/// The peer's header came: the connection hands out its Open, as it is queued. `Memory` where there is no memory for
/// the copy that is handed out: the header is taken then, and the Open is still to be handed out.
#[tactic(auto, using(crate::proofs::ConnectedLaws::open_sent))]
pub(crate) fn hand_out_open(connection: &mut Connection) -> Result<Queued, EndpointError>
    requires { IsGreeting connection.old.local_state }
    ensures ok { OnOk result (connection.new ≡ record connection.old { local_state = OpenSent }) }
    ensures frame { IfOk result (λ q. q
        ≡ the_frame (frame_on 0 (body.Open connection.old.local_open))) }
    ensures err { IfErr result (λ e. e ≡ Memory) }
    ensures kept { OnErr result (connection.new
        ≡ record connection.old { local_state = HeaderExchange }) }
{
    take_header(connection);
    match connection.send_open() {
        Ok(frame) => Ok(Queued::frame(frame)),
        Err(_) => Err(EndpointError::Memory),
    }
}

/// The connection takes the peer's header, unless it did.
#[tactic(auto, using(crate::proofs::ConnectedLaws::header_taken))]
fn take_header(connection: &mut Connection)
    requires { IsGreeting connection.old.local_state }
    ensures { connection.new ≡ record connection.old { local_state = HeaderExchange } }
{
    let _ = connection.on_incoming_header();
}

/// The connection hands out its Close, with this error, as it is queued.
#[tactic(auto, using(crate::proofs::ConnectedLaws::close_is_sent, crate::proofs::ConnectedLaws::close_tells_nothing))]
pub(crate) fn close(
    connection: &mut Connection,
    error: Option<definitions::Error>,
) -> Result<Queued, EndpointError>
    ensures ok { OnOk result (MovesBy (after_send_close (is_some error)) connection.old
        connection.new) }
    ensures frame { IfOk result (λ q. q ≡ the_frame (own_close_with error)) }
    ensures own { OnOk result (sent_close connection.new.local_state ≡ true) }
    ensures peer { OnOk result (took_close connection.new.local_state
        ≡ took_close connection.old.local_state) }
    ensures err { IfErr result (λ e. (e ≡ EndpointError.Connection IllegalState)
        × (after_send_close (is_some error) connection.old.local_state ≡ None) × (connection.new ≡ connection.old)) }
{
    let close = connection.send_close(error)?;
    Ok(Queued::frame(close))
}

/// The connection takes the peer's Close.
pub(crate) fn take_close(
    connection: &mut Connection,
    channel: IncomingChannel,
    close: &Close,
) -> Result<(), EndpointError>
    ensures ok { OnOk result (MovesBy after_incoming_close connection.old connection.new) }
    ensures err { IfErr result (λ e. (e ≡ EndpointError.Connection IllegalState)
        × (after_incoming_close connection.old.local_state ≡ None) × (connection.new ≡ connection.old)) }
{
    connection.on_incoming_close(channel, close)?;
    Ok(())
}

/// The connection of these sessions begins anew.
pub(crate) fn greet_anew<S: SessionRelay>(alloc: Global, sessions: &mut S)
    ensures sessions { sessions.new ≡ step.anew S.does sessions.old }
    ensures connection { S.does.connection sessions.new
        ≡ fresh HeaderSent (S.does.connection sessions.old).local_open }
    ensures within { StayWithin S.does sessions.old sessions.new }
    ensures idle { StayIdle S.does sessions.old sessions.new }
{
    greet(alloc, sessions.connection_mut());
}

/// The connection of these sessions hands out its Open, as it is queued, behind the peer's header. Where there is no
/// memory the header alone is taken.
pub(crate) fn open<S: SessionRelay>(sessions: &mut S) -> Result<Queued, EndpointError>
    requires { IsGreeting (S.does.connection sessions.old).local_state }
    ensures ok { OnOk result (sessions.new ≡ step.at_state S.does sessions.old OpenSent) }
    ensures connection { OnOk result (S.does.connection sessions.new
        ≡ record (S.does.connection sessions.old) { local_state = OpenSent }) }
    ensures frame { IfOk result (λ q. q
        ≡ the_frame (frame_on 0 (body.Open (S.does.connection sessions.old).local_open))) }
    ensures err { IfErr result (λ e. e ≡ Memory) }
    ensures kept { OnErr result (sessions.new ≡ step.at_state S.does sessions.old HeaderExchange) }
    ensures still { OnErr result (S.does.connection sessions.new
        ≡ record (S.does.connection sessions.old) { local_state = HeaderExchange }) }
    ensures within { StayWithin S.does sessions.old sessions.new }
    ensures idle { StayIdle S.does sessions.old sessions.new }
{
    hand_out_open(sessions.connection_mut())
}

/// The connection of these sessions takes the peer's Open. It is refused where it took one.
pub(crate) fn take_open<S: SessionRelay>(
    sessions: &mut S,
    channel: IncomingChannel,
    peer: &Open,
) -> Result<(), EndpointError>
    ensures ok { OnOk result (step.MovesByOpen S.does peer.now sessions.old sessions.new) }
    ensures connection { OnOk result (S.does.connection sessions.new
        ≡ record (S.does.connection sessions.old) {
          local_state = (S.does.connection sessions.new).local_state;
          remote_channel_max = Some peer.now.channel_max;
        }) }
    ensures err { IfErr result (λ e. (e ≡ EndpointError.Connection IllegalState)
        × (after_incoming_open (S.does.connection sessions.old).local_state ≡ None) × (sessions.new ≡ sessions.old)) }
    ensures within { StayWithin S.does sessions.old sessions.new }
    ensures idle { StayIdle S.does sessions.old sessions.new }
{
    match sessions.connection_mut().on_incoming_open(channel, peer) {
        Ok(()) => Ok(()),
        Err(_) => Err(EndpointError::Connection(ConnectionError::IllegalState)),
    }
}

/// The connection of these sessions hands out its Close, with this error, as it is queued.
pub(crate) fn send_close<S: SessionRelay>(
    sessions: &mut S,
    error: Option<definitions::Error>,
) -> Result<Queued, EndpointError>
    ensures ok { OnOk result (step.MovesBy S.does (after_send_close (is_some error)) sessions.old
        sessions.new) }
    ensures connection { OnOk result (MovesBy (after_send_close (is_some error))
        (S.does.connection sessions.old) (S.does.connection sessions.new)) }
    ensures frame { IfOk result (λ q. q ≡ the_frame (own_close_with error)) }
    ensures own { OnOk result (sent_close (S.does.connection sessions.new).local_state ≡ true) }
    ensures peer { OnOk result (took_close (S.does.connection sessions.new).local_state
        ≡ took_close (S.does.connection sessions.old).local_state) }
    ensures err { IfErr result (λ e. (e ≡ EndpointError.Connection IllegalState)
        × (after_send_close (is_some error) (S.does.connection sessions.old).local_state ≡ None)
        × (sessions.new ≡ sessions.old)) }
    ensures within { StayWithin S.does sessions.old sessions.new }
    ensures idle { StayIdle S.does sessions.old sessions.new }
{
    close(sessions.connection_mut(), error)
}

/// The connection of these sessions takes the peer's Close.
pub(crate) fn take_peers_close<S: SessionRelay>(
    sessions: &mut S,
    channel: IncomingChannel,
    closing: &Close,
) -> Result<(), EndpointError>
    ensures ok { OnOk result (step.MovesBy S.does after_incoming_close sessions.old sessions.new) }
    ensures connection { OnOk result (MovesBy after_incoming_close
        (S.does.connection sessions.old) (S.does.connection sessions.new)) }
    ensures err { IfErr result (λ e. (e ≡ EndpointError.Connection IllegalState)
        × (after_incoming_close (S.does.connection sessions.old).local_state ≡ None) × (sessions.new ≡ sessions.old)) }
    ensures within { StayWithin S.does sessions.old sessions.new }
    ensures idle { StayIdle S.does sessions.old sessions.new }
{
    take_close(sessions.connection_mut(), channel, closing)
}
