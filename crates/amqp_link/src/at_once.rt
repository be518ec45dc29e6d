//! Transfers that bring a whole message, taken at once by an end of a link: beside the general way of
//! `on_incoming_transfer`, which takes any transfer and owns it (part 2, 2.6.14 and 2.7.5).
ghost use Rattle.std.specs.Prelude.{◌≡◌};
ghost use Rattle.amqp_session_core.specs.AtOnce.{TakesAtOnce};
ghost use Rattle.amqp_link.specs.Ends.{state_of};
ghost use Rattle.amqp_link.specs.Gives.{names, tells, transfers};
ghost use Rattle.amqp_link.specs.Standing.{standing_of};
ghost use Rattle.amqp_link.specs.declared.standing.Standing.TheVariants.{Attached};

use crate::end::End;
use amqp_session_performatives::Transfer;
use bytes::Bytes;

/// An end of a link that is attached takes a transfer at once, if it receives and takes it so; and says whether it did.
/// Nothing changes where it didn't.
#[tactic(auto, using(crate::proofs::AtOnce::taken_by_receiver))]
pub(crate) fn receives_at_once(
    end: &mut End,
    transfer: &Transfer,
    payload: &Bytes,
    message: u64,
) -> bool
    requires { standing_of (state_of end.old) ≡ Attached }
    ensures { TakesAtOnce transfers tells names end.old transfer.now payload.now message result
        end.new }
{
    match end {
        End::Sender(_) => false,
        End::Receiver(link) => {
            if !link.takes_at_once(transfer, payload, message) {
                return false;
            }
            true
        }
    }
}
