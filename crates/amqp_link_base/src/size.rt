//! The size of messages that both ends of a link take (part 2, 2.7.3).
ghost use Rattle.std.specs.Prelude.{◌≡◌};
ghost use Rattle.amqp_link_base.specs.Size.{agreed_size};

/// The size of the largest message, in bytes, that both ends take: the smaller of the two bounds, and the one where the
/// other end sets none, by 0 or by leaving it off. 0 where neither sets one (part 2, 2.7.3).
pub fn get_max_message_size(local: u64, remote: Option<u64>) -> u64
    ensures { result ≡ agreed_size local remote }
{
    match (local, remote.unwrap_or(0)) {
        (bound, 0) | (0, bound) => bound,
        (own, peer) => own.min(peer),
    }
}
