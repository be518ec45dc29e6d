//! What an endpoint sees of either end of a link, wherever it stands (part 2, 2.6).
ghost use Rattle.std.specs.Prelude.{◌≡◌};
ghost use Rattle.amqp_link.specs.Ends.{state_of};
ghost use Rattle.amqp_link.specs.Standing.{standing_of};
ghost use Rattle.amqp_endpoint_attached.specs.Ends.{broken, credit_of, is_closed_end, role_of};

use amqp_link::{End, LinkEnd, Standing};
use amqp_session_types::Role;

/// The link's connection or its session is over: it is detached, or closed where its closing Detach was sent (part 2,
/// 2.6.5). The messages of a sending link stay open, unless the link is closed. It takes no memory.
pub fn break_off(link: &mut LinkEnd)
    ensures { link.new ≡ broken link.old }
{
    match link.end_mut() {
        End::Sender(link) => link.on_break(),
        End::Receiver(link) => link.on_break(),
    }
}

/// Whether the link is closed for good (part 2, 2.6.6).
pub fn is_closed(link: &LinkEnd) -> bool
    ensures { result ≡ is_closed_end link.now }
{
    link.base().is_closed()
}

/// How many more deliveries may be sent by the link, as its end knows (part 2, 2.6.7).
pub fn credit(link: &LinkEnd) -> u32
    ensures { result ≡ credit_of link.now }
{
    match link.end() {
        End::Sender(link) => link.flow_state().link_credit(),
        End::Receiver(link) => link.flow_state().link_credit,
    }
}

/// Whether the link sends or receives (part 2, 2.8.1).
pub fn role(link: &LinkEnd) -> Role
    ensures { result ≡ role_of link.now }
{
    match link.end() {
        End::Sender(_) => Role::Sender,
        End::Receiver(_) => Role::Receiver,
    }
}

/// How the link stands to the frames of its peer (part 2, 2.6.3 to 2.6.6).
pub fn stands(link: &LinkEnd) -> Standing
    ensures { result ≡ standing_of (state_of link.now) }
{
    Standing::of(link.local_state())
}
