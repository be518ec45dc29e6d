//! Whether the peer takes a frame that tells a state (part 2, 2.4.1, 2.7.6).
ghost use Rattle.std.specs.Prelude.{◌≡◌, ℕ, None, Some, false};
ghost use Rattle.amqp_session_types.specs.declared.modes.Role.TheVariants.{Receiver};
ghost use Rattle.amqp_session_performatives.specs.Disposition.{disposition_item};
ghost use Rattle.amqp_endpoint_messages.specs.Longest.{all_fit, disposition_fits, state_fits};
ghost use Rattle.amqp_endpoint_messages.specs.Refusals.{delivery_fits};

use amqp_link_receiver::{Disposable, ReceiverLink};
use amqp_link_unsettled::fits_text;
use amqp_session_performatives::Disposition;
use amqp_session_states::DeliveryState;
use amqp_session_types::Role;
use serde_amqp_item::Error;
use serde_amqp_ser::{Serialize, Serializer, Sink, serialize_record};
use serde_amqp_types::BoolOr;

/// The descriptor's code of a Disposition (part 2, 2.7.6).
const CODE: u64 = 0x15;

/// A Disposition by which a receiver tells a state, which is lent.
#[derive(Drop)]
struct Telling<'a> {
    first: u32,
    last: Option<u32>,
    settled: bool,
    state: &'a DeliveryState,
}

impl<'a> Serialize for Telling<'a> {
    ghost item = { λ told. disposition_item (record {
      role = Receiver;
      first = told.first;
      last = told.last;
      settled = told.settled;
      state = Some told.state.now;
      batchable = false;
    }) };

    fn is_null(&self) -> bool {
        false
    }

    fn serialize<W: Sink>(&self, s: &mut Serializer<W>) -> Result<(), Error> {
        serialize_record(
            s,
            CODE,
            &(
                Role::Receiver,
                (
                    self.first,
                    (
                        &self.last,
                        (
                            BoolOr::<false>(self.settled),
                            (Some(self.state), (BoolOr::<false>(false), ())),
                        ),
                    ),
                ),
            ),
        )
    }
}

/// Whether the longest Disposition by which a receiver tells the state fits the limit, whatever its channel: its
/// numbers are the largest (part 1, 1.6.5; part 2, 2.4.1, 2.7.6). It takes no memory.
pub(crate) fn state_fits(limit: u32, state: &DeliveryState) -> bool
    ensures { (channel : ℕ) → result ≡ state_fits limit channel state.now }
{
    let told = Telling {
        first: u32::MAX,
        last: Some(u32::MAX),
        settled: true,
        state,
    };
    fits_text(&told, limit)
}

/// Whether the Disposition by which a receiving link disposes of this delivery fits the limit, whatever its channel:
/// the delivery is settled as is asked, or by the mode of its transfer, or else the link's (part 2, 2.4.1, 2.7.6,
/// 2.8.3). It takes no memory.
pub fn delivery_fits(
    limit: u32,
    receiver: &ReceiverLink,
    delivery: &Disposable,
    state: &DeliveryState,
    settled: Option<bool>,
) -> bool
    ensures { result ≡ delivery_fits limit receiver.now delivery.now state.now settled }
{
    let at_once = receiver.settles(delivery, settled);
    let told = Telling {
        first: delivery.number,
        last: None,
        settled: at_once,
        state,
    };
    fits_text(&told, limit)
}

/// Whether a Disposition fits the limit, whatever its channel (part 2, 2.4.1, 2.7.6).
pub(crate) fn fits(limit: u32, disposition: &Disposition) -> bool
    ensures { result ≡ disposition_fits limit disposition.now }
{
    fits_text(disposition, limit)
}

/// Whether each of these Dispositions fits the limit, whatever its channel (part 2, 2.4.1, 2.7.6).
pub(crate) fn all_fit(limit: u32, told: &[Disposition]) -> bool
    ensures { result ≡ all_fit limit told.now }
{
    let mut rest = told;
    while let Some((disposition, others)) = rest.split_first() {
        if !fits(limit, disposition) {
            return false;
        }
        rest = others;
    }
    true
}
