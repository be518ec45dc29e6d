//! How sessions end with their connection, and their links with them (part 2, 2.4.3, 2.5.2).
ghost use Rattle.std.specs.Prelude.{◌≡◌, ℕ, length, None};
ghost use Rattle.amqp_endpoint_model.specs.Relay.{StandsStill};
ghost use Rattle.amqp_endpoint_tables.specs.State.{live_at, live_of};
ghost use Rattle.amqp_endpoint_conversation.specs.Going.{NoneLive};
ghost use Rattle.amqp_endpoint_linking.specs.Ending.{Finishes, FinishesFirst, FinishesOne, Leaves, LeavesFirst};
ghost use Rattle.amqp_endpoint_linking.specs.Ending.{LeavesOne, session_of};

use crate::back::give_back_if;
use amqp_endpoint_attached::LinkSession;
use amqp_endpoint_conversation::Conversation;
use amqp_endpoint_links::{AskedSession, Numbered};
use amqp_endpoint_tables::{Links, Place, Sessions};
use amqp_link::LinkEnd;
use amqp_session_types::OutgoingChannel;

/// The own Close was sent: each session that has begun is ending, without a frame, and its links are given back, as
/// `give_back` does (part 2, 2.4.3, 2.5.2). No session goes on here then. It takes no memory.
pub fn leave(talk: &mut Conversation<Numbered<LinkEnd>>, links: &mut Links<LinkEnd>)
    ensures left { Leaves talk.old links.old talk.new links.new }
    ensures none { NoneLive talk.new }
    ensures still { StandsStill talk.old.sessions.connection talk.new.sessions.connection }
{
    leave_all(&mut talk.sessions, links);
}

/// The connection is over, and with it all sessions. The links of each that had begun, and that its own side hadn't
/// ended, are given back, as `give_back` does (part 2, 2.5.2). No session goes on here then. It takes no memory.
pub fn finish(talk: &mut Conversation<Numbered<LinkEnd>>, links: &mut Links<LinkEnd>)
    ensures finished { Finishes talk.old links.old talk.new links.new }
    ensures none { NoneLive talk.new }
    ensures still { StandsStill talk.old.sessions.connection talk.new.sessions.connection }
{
    finish_all(&mut talk.sessions, links);
}

/// The own side of each session is over.
fn leave_all(
    sessions: &mut Sessions<Box<AskedSession>, Box<LinkSession>>,
    links: &mut Links<LinkEnd>,
)
    ensures left { LeavesFirst (length sessions.old.places) sessions.old links.old sessions.new
        links.new }
    ensures none { (number : ℕ) → live_at sessions.new number ≡ None }
    ensures still { StandsStill sessions.old.connection sessions.new.connection }
{
    for number in 0..sessions.next_number() {
        leave_one(sessions, links, number);
    }
}

/// The own side of the session with this number is over.
fn leave_one(
    sessions: &mut Sessions<Box<AskedSession>, Box<LinkSession>>,
    links: &mut Links<LinkEnd>,
    number: u64,
)
    ensures { LeavesOne sessions.old links.old number sessions.new links.new }
{
    give_back_if(links, left_session(sessions.end(number, false)));
}

/// The session alone.
fn left_session(left: Option<(OutgoingChannel, Box<LinkSession>)>) -> Option<Box<LinkSession>>
    ensures { result ≡ session_of left }
{
    match left {
        Some((_, session)) => Some(session),
        None => None,
    }
}

/// The connection of each session is over.
fn finish_all(
    sessions: &mut Sessions<Box<AskedSession>, Box<LinkSession>>,
    links: &mut Links<LinkEnd>,
)
    ensures finished { FinishesFirst (length sessions.old.places) sessions.old links.old
        sessions.new links.new }
    ensures none { (number : ℕ) → live_at sessions.new number ≡ None }
    ensures still { StandsStill sessions.old.connection sessions.new.connection }
{
    for number in 0..sessions.next_number() {
        finish_one(sessions, links, number);
    }
}

/// The connection of the session with this number is over.
fn finish_one(
    sessions: &mut Sessions<Box<AskedSession>, Box<LinkSession>>,
    links: &mut Links<LinkEnd>,
    number: u64,
)
    ensures { FinishesOne sessions.old links.old number sessions.new links.new }
{
    give_back_if(links, live_session(sessions.finish(number)));
}

/// The session that had begun and that its own side hadn't ended, if it stood so.
fn live_session(
    stood: Option<Place<Box<AskedSession>, Box<LinkSession>>>,
) -> Option<Box<LinkSession>>
    ensures { result ≡ live_of stood }
{
    match stood {
        Some(Place::Live(_, session)) => Some(session),
        _ => None,
    }
}
