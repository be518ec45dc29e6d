//! A part of a transfer that is divided over several frames.
ghost use Rattle.amqp_session_performatives.specs.Transfer.{transfer_item};
ghost use Rattle.amqp_session_frames.specs.Parts.{saying};

use amqp_session_performatives::Transfer;
use serde_amqp_item::Error;
use serde_amqp_ser::{Serialize, Serializer, Sink, serialize_record};
use serde_amqp_types::BoolOr;

/// The code of a transfer's descriptor (part 2, 2.7.5).
const TRANSFER: u64 = 0x14;

/// What one of several frames says of a transfer that is divided: the transfer, which is lent, but for whether more comes.
#[derive(Clone, Copy)]
pub(crate) struct Part<'a> {
    /// The transfer.
    pub(crate) transfer: &'a Transfer,
    /// Whether more comes.
    pub(crate) more: bool,
}

impl<'a> Serialize for Part<'a> {
    ghost item = { λ p. transfer_item (saying p.transfer.now p.more) };

    fn is_null(&self) -> bool {
        false
    }

    fn serialize<W: Sink>(&self, s: &mut Serializer<W>) -> Result<(), Error> {
        let transfer = self.transfer;
        serialize_record(
            s,
            TRANSFER,
            &(
                transfer.handle,
                (
                    &transfer.delivery_id,
                    (
                        &transfer.delivery_tag,
                        (
                            &transfer.message_format,
                            (
                                &transfer.settled,
                                (
                                    BoolOr::<false>(self.more),
                                    (
                                        &transfer.rcv_settle_mode,
                                        (
                                            &transfer.state,
                                            (
                                                BoolOr::<false>(transfer.resume),
                                                (
                                                    BoolOr::<false>(transfer.aborted),
                                                    (BoolOr::<false>(transfer.batchable), ()),
                                                ),
                                            ),
                                        ),
                                    ),
                                ),
                            ),
                        ),
                    ),
                ),
            ),
        )
    }
}
