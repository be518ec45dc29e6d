//! A Disposition that settles one delivery, which is taken at once: beside `hear_disposition`'s general way, by which
//! each is taken (part 2, 2.6.12, 2.7.6).
ghost use Rattle.std.specs.Prelude.{◌≡◌, ◌<◌, ◌∷◌, [], ℕ, IsSome, IsTrue, List, Option, false};
ghost use Rattle.std.specs.Vec.{vec_capacity, vec_len};
ghost use Rattle.amqp_session_performatives.specs.declared.session_frame.SessionFrame.{SessionFrame};
ghost use Rattle.amqp_session_states.specs.declared.delivery_state.DeliveryState.{DeliveryState};
ghost use Rattle.amqp_endpoint_conversation.specs.Going.{Goes, Rests};
ghost use Rattle.amqp_endpoint_linking.specs.Handed.{Tells};
ghost use Rattle.amqp_endpoint_linking.specs.Linking.{Links};
ghost use Rattle.amqp_endpoint_tables.specs.State.{live_at};
ghost use Rattle.amqp_endpoint_link_hearing.specs.Disposing.{HearsDisposition, TellsAndEchoes};
ghost use Rattle.amqp_endpoint_link_hearing.specs.InSession.{GoesOn};

use amqp_endpoint_conversation::Conversation;
use amqp_endpoint_links::Numbered;
use amqp_endpoint_messages::tell_reached_one;
use amqp_endpoint_model::Event;
use amqp_link::LinkEnd;
use amqp_session_core::Touched;
use amqp_session_performatives::Disposition;
use amqp_session_types::IncomingChannel;

/// Takes a Disposition at once by which the peer settles one delivery, and says whether it did: as `hear_disposition`
/// takes it, the sending link tells what became of the message. Nothing goes back, and no link leaves. Nothing changes
/// where it didn't: the Disposition is to be taken in the general way then. There is room for one event. It takes no
/// memory but for what the message's state asks for.
pub(crate) fn hear_settled(
    talk: &mut Conversation<Numbered<LinkEnd>>,
    channel: IncomingChannel,
    disposition: &Disposition,
    events: &mut Vec<Event>,
) -> bool
    requires room { vec_len events.old < vec_capacity events.old }
    ensures hears { IsTrue result → (limit : ℕ) → (links : Links) → (out : List SessionFrame) →
        Tells (λ frames told.
        HearsDisposition talk.old links limit channel disposition.now frames told talk.new links)
        out events.old.items out events.new.items }
    ensures none { result ≡ false → (talk.new ≡ talk.old) × (events.new.items ≡ events.old.items) }
    ensures goes { (limit : ℕ) → (out : List SessionFrame) → Goes limit talk.old talk.new out out }
    ensures rests { (out : List SessionFrame) → Rests talk.old talk.new out out }
{
    let Some((session, settled)) = talk.settles_at_once(channel, disposition) else {
        return false;
    };
    tell_settled(talk, session, &settled.delivery, events);
    true
}

/// In the session with this number a link tells what became of the message of a delivery. There is room for it.
fn tell_settled(
    talk: &mut Conversation<Numbered<LinkEnd>>,
    session: u64,
    delivery: &Touched,
    events: &mut Vec<Event>,
)
    requires there { IsSome (live_at talk.old.sessions session) }
    requires room { vec_len events.old < vec_capacity events.old }
    ensures { (state : Option DeliveryState) → (out : List SessionFrame) → Tells (λ frames told. GoesOn
        (TellsAndEchoes (delivery.now ∷ []) state [] frames told)
        talk.old session talk.new) out events.old.items out events.new.items }
{
    let Some(session) = talk.sessions.live_mut(session) else {
        unreachable!()
    };
    tell_reached_one(session, delivery, events);
}
