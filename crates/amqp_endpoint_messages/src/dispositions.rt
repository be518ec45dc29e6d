//! How Dispositions are sent in a session (part 2, 2.7.6).
ghost use Rattle.std.specs.Prelude.{◌≡◌, ◌+◌, ◌≤◌, ◌<◌, ◌++◌, ◌∷◌, [], length};
ghost use Rattle.std.specs.VecDeque.{deque_len, deque_capacity};
ghost use Rattle.amqp_endpoint_fitting.specs.Read.{IsReadDisposition};
ghost use Rattle.amqp_endpoint_messages.specs.Dispositions.{SendsEach, SendsOne, frames_of, said_by};

use amqp_session_core::{LinkRelay, Session};
use amqp_session_performatives::{Disposition, SessionFrame};
use std::collections::VecDeque;

/// Sends each of these Dispositions, in their order. There is room for them; it takes no memory.
pub(crate) fn send_each<R: LinkRelay>(
    session: &mut Session<R>,
    told: Vec<Disposition>,
    out: &mut VecDeque<SessionFrame>,
)
    requires spare { deque_len out.old + length told.items ≤ deque_capacity out.old }
    ensures sent { SendsEach R.gives session.old told.items session.new }
    ensures added { out.new.items ≡ out.old.items ++ frames_of session.old.fields told.items }
    ensures capacity { deque_capacity out.new ≡ deque_capacity out.old }
{
    let mut rest = told.into_iter();
    while let Some(disposition) = rest.next() {
        send_one(session, disposition, out);
    }
}

/// Sends a Disposition. There is room for it; it takes no memory.
pub(crate) fn send_one<R: LinkRelay>(
    session: &mut Session<R>,
    disposition: Disposition,
    out: &mut VecDeque<SessionFrame>,
)
    requires spare { deque_len out.old < deque_capacity out.old }
    ensures sent { SendsOne R.gives session.old disposition session.new }
    ensures fields { session.new.fields ≡ session.old.fields }
    ensures added { out.new.items ≡ out.old.items ++ said_by session.old.fields disposition ∷ [] }
    ensures len { deque_len out.new ≡ deque_len out.old + 1 }
    ensures capacity { deque_capacity out.new ≡ deque_capacity out.old }
{
    let frame = session.on_outgoing_disposition(disposition);
    out.push_back_reserved(frame);
}

/// The numbers of a Disposition are read, and so lie in the ranges of their fields (part 2, 2.7.6).
pub(crate) fn is_read(disposition: &Disposition)
    ensures { IsReadDisposition disposition.now }
{
    let _first = disposition.first;
    if let Some(last) = disposition.last {
        let _last = last;
    }
}
