//! How messages are sent (part 2, 2.6.12, 2.7.5).
ghost use Rattle.std.specs.Prelude.{◌≡◌, ◌≤◌, ℕ, suc, IfErr, IfOk, OnErr, OnOk};
ghost use Rattle.amqp_endpoint_conversation.specs.Going.{Goes, Rests};
ghost use Rattle.amqp_endpoint_linking.specs.Handed.{Hands};
ghost use Rattle.amqp_endpoint.specs.Sending.{BarsSending, SendsMessage, number_refusal, outcome_of, send_refusal};
ghost use Rattle.amqp_endpoint.specs.Sending.{tag_of};

use amqp_endpoint_conversation::Conversation;
use amqp_endpoint_link_calls as messages;
use amqp_endpoint_links::Numbered;
use amqp_endpoint_model::{EndpointError, Sending, Sent};
use amqp_endpoint_tables::Links;
use amqp_link::LinkEnd;
use amqp_session_performatives::SessionFrame;
use amqp_session_states::{Accepted, Outcome};
use amqp_session_types::DeliveryTag;
use std::alloc::Global;
use std::collections::VecDeque;

/// Sends a message by the link with this number, and answers the tag of its delivery, and that it is accepted where it
/// went settled (part 2, 2.6.12, 2.7.5, 2.8.7). `sent` counts the messages that the endpoint accepted.
///
/// It is refused as `send_refusal` says, and with `Memory` only where that says nothing. Nothing changes then.
pub(crate) fn send(
    talk: &mut Conversation<Numbered<LinkEnd>>,
    links: &Links<LinkEnd>,
    sent: &mut u64,
    alloc: Global,
    limit: u32,
    link: u64,
    message: &Sending,
    out: &mut VecDeque<SessionFrame>,
) -> Result<Sent, EndpointError>
    ensures ok { IfOk result (λ s. Hands (λ frames. SendsMessage limit sent.old talk.old links.now link message.now
        s.tag s.outcome frames talk.new) out.old.items out.new.items) }
    ensures counted { OnOk result (sent.new ≡ suc sent.old) }
    ensures err { 512 ≤ limit →
        IfErr result (BarsSending sent.old talk.old links.now link message.now) }
    ensures kept { OnErr result
        ((talk.new ≡ talk.old) × (sent.new ≡ sent.old) × (out.new.items ≡ out.old.items)) }
    ensures goes { Goes limit talk.old talk.new out.old.items out.new.items }
    ensures rests { Rests talk.old talk.new out.old.items out.new.items }
{
    let Some(next) = sent.checked_add(1) else {
        let size = message.payload.len();
        let refusal = send_refusal(talk, links, alloc, *sent, link, size);
        return Err(refusal.unwrap_or(EndpointError::NumbersUsedUp));
    };
    let key = tag_of(alloc, *sent);
    let tag = tag_of(alloc, *sent);
    let settled = messages::send(talk, alloc, links, limit, link, key, message, out)?;
    *sent = next;
    Ok(Sent {
        tag,
        outcome: outcome_of(settled),
    })
}

/// Why no message of so many bytes is sent by the link with this number as the one of this serial number, if one isn't:
/// the first that holds of what `amqp_endpoint_link_calls::send` tests, and behind all of that `NumbersUsedUp`, where
/// the endpoint accepted 2^64 - 1 messages. It takes no memory, and asks for none.
#[tactic(auto, using(crate::proofs::Unsent::refusals))]
pub(crate) fn send_refusal(
    talk: &Conversation<Numbered<LinkEnd>>,
    links: &Links<LinkEnd>,
    alloc: Global,
    serial: u64,
    link: u64,
    size: usize,
) -> Option<EndpointError>
    ensures { result ≡ send_refusal serial talk.now links.now link size }
{
    match messages::send_refusal(talk, links, link, &tag_of(alloc, serial), size) {
        Some(refusal) => Some(refusal),
        None => number_refusal(serial),
    }
}

/// `NumbersUsedUp` where no serial number is left behind this one.
#[tactic(auto, using(crate::proofs::Unsent::refusals))]
fn number_refusal(serial: u64) -> Option<EndpointError>
    ensures { result ≡ number_refusal serial }
{
    if serial < u64::MAX {
        return None;
    }
    Some(EndpointError::NumbersUsedUp)
}

/// The tag of the message with this serial number. It takes no memory: its eight bytes lie in the tag itself.
fn tag_of(alloc: Global, serial: u64) -> DeliveryTag
    ensures { result ≡ tag_of serial }
{
    match DeliveryTag::from_slice(alloc, &serial.to_be_bytes()) {
        Ok(tag) => tag,
        Err(_) => unreachable!(),
    }
}

/// A message that went settled is accepted at once.
fn outcome_of(settled: bool) -> Option<Outcome>
    ensures { result ≡ outcome_of settled }
{
    if settled {
        return Some(Outcome::Accepted(Accepted {}));
    }
    None
}
