//! A Transfer that brings a whole message, which is taken at once: beside `hear_transfer`, which takes each (part 2,
//! 2.5.6, 2.6.14, 2.7.5).
ghost use Rattle.std.specs.Prelude.{◌≡◌, ◌≤◌, ℕ, [], ◌∷◌, IfNone, IfSome, IsSome, OnSome, Some};
ghost use Rattle.amqp_session_core.specs.ToldAtOnce.{due_flow};
ghost use Rattle.amqp_endpoint_model.specs.Arriving.{SaysDelivery, arrived};
ghost use Rattle.amqp_endpoint_tables.specs.State.{live_at};
ghost use Rattle.amqp_endpoint_conversation.specs.Going.{Goes};
ghost use Rattle.amqp_endpoint_linking.specs.Handed.{Hands};
ghost use Rattle.amqp_endpoint_linking.specs.Linking.{Links, Session};
ghost use Rattle.amqp_endpoint_link_hearing.specs.Transferring.{HearsTransfer};

use crate::naming::number_of;
use crate::transferring::hand_out;
use amqp_endpoint_conversation::Conversation;
use amqp_endpoint_links::Numbered;
use amqp_endpoint_model::Arrival;
use amqp_link::LinkEnd;
use amqp_session_performatives::{SessionFrame, Transfer};
use amqp_session_types::IncomingChannel;
use bytes::Bytes;
use std::collections::VecDeque;

/// Takes at once a Transfer that brings a whole message, as `hear_transfer` takes it: its message is handed out under
/// the number that `given` is, which is one more from then on, and is to be told behind all that was told; behind it
/// the Flow of the session is handed out that the transfer makes due.
///
/// It answers None, and nothing changes, where there is more to it: where the channel's session, the link, or the
/// delivery that is under way speaks against it, where no number is left, and where there is no memory. `hear_transfer`
/// says what comes of the Transfer then.
pub fn hear_at_once(
    talk: &mut Conversation<Numbered<LinkEnd>>,
    given: &mut u64,
    channel: IncomingChannel,
    transfer: &Transfer,
    payload: &Bytes,
    out: &mut VecDeque<SessionFrame>,
) -> Option<Arrival>
    ensures says { OnSome result (SaysDelivery transfer.now) }
    ensures heard { IfSome result (λ it. Hands (λ frames. (links : Links) →
        HearsTransfer talk.old links given.old channel transfer.now payload.now frames
        (arrived it transfer.now payload.now ∷ []) talk.new links given.new) out.old.items out.new.items) }
    ensures none { IfNone result ((talk.new ≡ talk.old) × (given.new ≡ given.old)
        × (out.new.items ≡ out.old.items)) }
    ensures goes { (limit : ℕ) → 512 ≤ limit →
        Goes limit talk.old talk.new out.old.items out.new.items }
{
    let message = *given;
    if message == u64::MAX {
        return None;
    }
    if out.reserve(1).is_err() {
        return None;
    }
    let Some((session, taken)) = talk.takes_at_once(channel, transfer, payload, message) else {
        return None;
    };
    *given = message + 1;
    let arrival = Arrival {
        link: number_of(talk, session, taken.handle),
        message,
        handle: taken.handle,
    };
    hand_out(flow_of(talk, session, taken.is_due), out);
    Some(arrival)
}

/// The Flow of the session with this number, which has begun, where it is due (part 2, 2.7.4).
fn flow_of(
    talk: &Conversation<Numbered<LinkEnd>>,
    session: u64,
    is_due: bool,
) -> Option<SessionFrame>
    requires { IsSome (live_at talk.now.sessions session) }
    ensures { (s : Session) → live_at talk.now.sessions session ≡ Some s →
        result ≡ due_flow s.value.session is_due }
{
    if !is_due {
        return None;
    }
    Some(talk.flow_due(session))
}
