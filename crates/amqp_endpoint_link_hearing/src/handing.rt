//! A message that came is handed out (part 2, 2.6.12, 2.7.5).
ghost use Rattle.std.specs.Prelude.{◌≡◌, ◌<◌, ◌+◌, ◌-◌, ◌^◌, ◌++◌, IsSome, Some};
ghost use Rattle.std.specs.Vec.{vec_capacity, vec_len};
ghost use Rattle.amqp_endpoint_attached.specs.Linked.{end_at};
ghost use Rattle.amqp_endpoint_linking.specs.Linking.{Link};
ghost use Rattle.amqp_endpoint_link_hearing.specs.InSession.{GoesOn};
ghost use Rattle.amqp_endpoint_link_hearing.specs.Naming.{link_of};
ghost use Rattle.amqp_endpoint_link_hearing.specs.Taking.{reached_of};
ghost use Rattle.amqp_endpoint_link_hearing.specs.Transferring.{Remembers, RemembersUnless, delivery_of, message_told};
ghost use Rattle.amqp_endpoint_link_hearing.specs.Transferring.{remembering};

use crate::naming::number_of;
use amqp_endpoint_attached::LinkSession;
use amqp_endpoint_conversation::Conversation;
use amqp_endpoint_links::Numbered;
use amqp_endpoint_model::Event;
use amqp_link::{End, LinkEnd};
use amqp_link_message::{Delivery, Raw};
use amqp_link_receiver::Message;
use amqp_session_types::{DeliveryTag, Handle, InputHandle, OutputHandle};
use std::alloc::Global;

/// The own handle of the link that the peer's handle reaches in the session with this number (part 2, 2.6.2).
pub(crate) fn own_handle(
    talk: &Conversation<Numbered<LinkEnd>>,
    session: u64,
    handle: Handle,
) -> OutputHandle
    requires { IsSome (reached_of talk.now session handle.0) }
    ensures reaches { reached_of talk.now session handle.0 ≡ Some result.0 }
    ensures there { IsSome (link_of talk.now session result) }
{
    let Some(session) = talk.sessions.live(session) else {
        unreachable!()
    };
    let Some(handle) = session.session.link_by_input_handle(InputHandle(handle.0)) else {
        unreachable!()
    };
    handle
}

/// The message of the link with this own handle is handed out under the next number, which the link remembers unless
/// the message is settled. There is room for what is told, and it takes no memory.
pub(crate) fn hand_over(
    talk: &mut Conversation<Numbered<LinkEnd>>,
    given: &mut u64,
    alloc: Global,
    session: u64,
    handle: OutputHandle,
    message: Message,
    events: &mut Vec<Event>,
)
    requires there { IsSome (link_of talk.old session handle) }
    requires left { given.old < 2 ^ 64 - 1 }
    requires room { vec_len events.old < vec_capacity events.old }
    ensures remembers { RemembersUnless message.settled handle message.delivery_tag given.old
        talk.old session talk.new }
    ensures tells { (link : Link) → link_of talk.old session handle ≡ Some link →
        events.new.items ≡ events.old.items ++ message_told link.number given.old handle message }
    ensures counted { given.new ≡ given.old + 1 }
{
    let link = number_of(talk, session, handle);
    let number = *given;
    remember_unless_settled(talk, alloc, session, handle, &message, number);
    *given = number + 1;
    tell_message(link, number, handle, message, events);
}

/// The link with this own handle remembers the number of its message, unless that is settled.
fn remember_unless_settled(
    talk: &mut Conversation<Numbered<LinkEnd>>,
    alloc: Global,
    session: u64,
    handle: OutputHandle,
    message: &Message,
    number: u64,
)
    requires { IsSome (link_of talk.old session handle) }
    ensures { RemembersUnless message.now.settled handle message.now.delivery_tag number talk.old
        session talk.new }
{
    if message.settled {
        return;
    }
    remember(talk, alloc, session, handle, &message.delivery_tag, number);
}

/// The link with this own handle remembers the number of its message with this tag.
fn remember(
    talk: &mut Conversation<Numbered<LinkEnd>>,
    alloc: Global,
    session: u64,
    handle: OutputHandle,
    tag: &DeliveryTag,
    number: u64,
)
    requires { IsSome (link_of talk.old session handle) }
    ensures { GoesOn (Remembers handle tag.now number) talk.old session talk.new }
{
    let Some(session) = talk.sessions.live_mut(session) else {
        unreachable!()
    };
    remember_in(session, alloc, handle, tag, number);
}

/// The same in its session.
fn remember_in(
    session: &mut LinkSession,
    alloc: Global,
    handle: OutputHandle,
    tag: &DeliveryTag,
    number: u64,
)
    requires { IsSome (end_at session.old handle) }
    ensures { Remembers handle tag.now number session.old session.new }
{
    let Some(link) = session.session.link_mut(handle) else {
        unreachable!()
    };
    remember_by(&mut link.link, alloc, tag, number);
}

/// The end of a link remembers the number of its message with this tag.
fn remember_by(link: &mut LinkEnd, alloc: Global, tag: &DeliveryTag, number: u64)
    ensures { link.new ≡ remembering link.old tag.now number }
{
    match link.end_mut() {
        End::Receiver(receiver) => receiver.number_message(alloc, tag, number),
        End::Sender(_) => {}
    }
}

/// Tells of a message that came whole, with its number. There is room for it.
fn tell_message(
    link: u64,
    number: u64,
    handle: OutputHandle,
    message: Message,
    events: &mut Vec<Event>,
)
    requires { vec_len events.old < vec_capacity events.old }
    ensures { events.new.items ≡ events.old.items ++ message_told link number handle message }
{
    let settled = message.settled;
    let delivery = delivery_of(handle, message);
    events.push_reserved(Event::Message(amqp_endpoint_model::Message {
        link,
        message: number,
        delivery,
        settled,
    }));
}

/// The message as it is handed out.
fn delivery_of(handle: OutputHandle, message: Message) -> Delivery<Raw>
    ensures { result ≡ delivery_of handle message }
{
    let Message {
        delivery_id,
        delivery_tag,
        message_format,
        rcv_settle_mode,
        settled: _,
        payload,
    } = message;
    Delivery {
        handle: Handle(handle.0),
        delivery_id,
        delivery_tag,
        message_format,
        rcv_settle_mode,
        message: amqp_link_message::Message::new(Raw(payload)),
    }
}
