//! A delivery of which transfers are still to come (part 2, 2.6.14 and 2.7.5).
ghost use Rattle.std.specs.Prelude.{◌≡◌, ◌+◌, ◌^◌, ◌<◌, ◌⊎◌, ◌++◌, length, take, true, false, Some, None, Ok, Err};
ghost use Rattle.std.specs.Prelude.{IsSome, IsOk, OnOk, OnErr, IfOk, IfErr, IfSome, unwrap_or};
ghost use Rattle.std.specs.List.{concat};
ghost use Rattle.amqp_link_base.specs.Starts.{place_at, read_at, kept_till};
ghost use Rattle.amqp_link_base.specs.Said.{begun, continued, resumed, whole, repeats, is_same_delivery, agrees};
ghost use Rattle.amqp_link_base.specs.Said.{unnamed, gathered, settled_by};

use crate::gathered::Gathered;
use amqp_link_types::ReceiverTransferError;
use amqp_session_performatives::Transfer;
use amqp_session_states::Received;
use amqp_session_types::DeliveryTag;
use bytes::Bytes;
use std::alloc::Global;
use std::marker::Model;

/// A delivery of which transfers are still to come (part 2, 2.6.14): what its first transfer says of it, and the bytes
/// of its message so far, which stay below 2^32.
///
/// A clause sees what the transfers so far say (`Said`): the performative of the first one, with `settled` as all of
/// them say it, and the bytes. The last transfer of a delivery is never appended: `finish` joins its bytes to those
/// that are held.
pub struct IncompleteTransfer {
    performative: Transfer,
    payload: Gathered,
}

impl Drop for IncompleteTransfer {
    fn drop(self) {
        let IncompleteTransfer {
            performative: _,
            payload: _,
        } = self;
    }
}

impl Model for IncompleteTransfer {
    ghost use Rattle.std.specs.Prelude.{IsSome};
    ghost use Rattle.amqp_link_base.specs.Said.{Said};

    ghost Value = { Said };

    ghost view = { λ s. record { performative = s.performative; payload = s.payload } };

    ghost invariant = { λ s. IsSome s.performative.delivery_id × IsSome s.performative.delivery_tag };
}

impl IncompleteTransfer {
    /// Starts with the first transfer of a delivery and the bytes that it carries.
    ///
    /// It is refused with `DeliveryIdIsNone` where the transfer has no delivery-id, else with `DeliveryTagIsNone` where
    /// it has no tag (part 2, 2.7.5), else with `Memory` where there is none.
    pub fn start(
        alloc: Global,
        transfer: Transfer,
        payload: Bytes,
    ) -> Result<Self, ReceiverTransferError>
        requires { length payload < 2 ^ 32 }
        ensures ok { IfOk result (λ held. gathered None transfer payload ≡ Ok held) }
        ensures refused { IfSome (unnamed transfer) (λ e. result ≡ Err e) }
        ensures only { IfErr result (λ e. (e ≡ ReceiverTransferError.Memory)
            ⊎ (unnamed transfer ≡ Some e)) }
    {
        let payload = first_piece(alloc, &transfer, payload)?;
        Ok(IncompleteTransfer {
            performative: transfer,
            payload,
        })
    }

    /// Whether a transfer is of this delivery: it repeats the tag, or leaves it out (part 2, 2.7.5).
    pub fn is_same_delivery_as(&self, transfer: &Transfer) -> bool
        ensures { result ≡ is_same_delivery self.now.performative transfer.now }
    {
        repeats(&self.performative.delivery_tag, &transfer.delivery_tag)
    }

    /// Whether a transfer goes on with this delivery: it doesn't say another delivery-id, tag or message-format than
    /// the first one (part 2, 2.7.5).
    pub fn accepts(&self, transfer: &Transfer) -> bool
        ensures { result ≡ agrees self.now.performative transfer.now }
    {
        agrees(&self.performative, transfer)
    }

    /// Goes on with a transfer of the same delivery, of which more are to come, and the bytes that it carries.
    ///
    /// It is refused with `InconsistentFieldInMultiFrameDelivery` exactly where `accepts` is false, else with `Memory`
    /// where there is none, and nothing changes then. Of what the transfer says `settled` alone counts: where it is
    /// true the delivery is settled from then on (part 2, 2.7.5).
    pub fn try_append(
        &mut self,
        transfer: Transfer,
        payload: Bytes,
    ) -> Result<(), ReceiverTransferError>
        requires { length self.old.payload + length payload < 2 ^ 32 }
        ensures ok { OnOk result (self.new ≡ continued self.old transfer payload) }
        ensures err { OnErr result (self.new ≡ self.old) }
        ensures agrees { OnOk result (agrees self.old.performative transfer ≡ true) }
        ensures differs { agrees self.old.performative transfer ≡ false →
            result ≡ Err ReceiverTransferError.InconsistentFieldInMultiFrameDelivery }
        ensures only { IfErr result (λ e. (e ≡ ReceiverTransferError.Memory)
            ⊎ ((e ≡ ReceiverTransferError.InconsistentFieldInMultiFrameDelivery)
            × (agrees self.old.performative transfer ≡ false))) }
    {
        if !agrees(&self.performative, &transfer) {
            return Err(ReceiverTransferError::InconsistentFieldInMultiFrameDelivery);
        }
        self.payload.push(payload)?;
        if transfer.settled.unwrap_or(false) {
            self.performative.settled = Some(true);
        }
        Ok(())
    }

    /// Goes on under a new first transfer, as a delivery is resumed (part 2, 2.6.13). The bytes stay.
    ///
    /// It is refused as by `start`, but takes no memory, and nothing changes then.
    pub fn resume(&mut self, transfer: Transfer) -> Result<(), ReceiverTransferError>
        ensures ok { OnOk result (self.new ≡ record self.old { performative = transfer }) }
        ensures err { OnErr result (self.new ≡ self.old) }
        ensures named { OnOk result (unnamed transfer ≡ None) }
        ensures refused { IfErr result (λ e. unnamed transfer ≡ Some e) }
    {
        named(&transfer)?;
        self.performative = transfer;
        Ok(())
    }

    /// Goes on under a new first transfer behind the first `kept` bytes, as a delivery is resumed (part 2, 2.6.13). The
    /// bytes that the transfer carries come behind them.
    ///
    /// It is refused as by `start`, and nothing changes then.
    pub fn resume_behind(
        &mut self,
        kept: usize,
        transfer: Transfer,
        payload: Bytes,
    ) -> Result<(), ReceiverTransferError>
        requires { length (take kept self.old.payload) + length payload < 2 ^ 32 }
        ensures ok { OnOk result (self.new ≡ resumed self.old kept transfer payload) }
        ensures err { OnErr result (self.new ≡ self.old) }
        ensures named { OnOk result (unnamed transfer ≡ None) }
        ensures refused { IfSome (unnamed transfer) (λ e. result ≡ Err e) }
        ensures only { IfErr result (λ e. (e ≡ ReceiverTransferError.Memory)
            ⊎ (unnamed transfer ≡ Some e)) }
    {
        named(&transfer)?;
        self.payload.push_behind(kept, payload)?;
        self.performative = transfer;
        Ok(())
    }

    /// What the delivery is called.
    pub fn delivery_tag(&self) -> &DeliveryTag
        ensures { Some result.now ≡ self.now.performative.delivery_tag }
    {
        let tag = &self.performative.delivery_tag;
        tag.as_ref().unwrap()
    }

    /// The number of the delivery.
    pub fn delivery_id(&self) -> u32
        ensures { Some result ≡ self.now.performative.delivery_id }
    {
        let number = self.performative.delivery_id;
        number.unwrap()
    }

    /// What the first transfer says, with `settled` as all transfers so far say it.
    pub fn performative(&self) -> &Transfer
        ensures { result.now ≡ self.now.performative }
    {
        &self.performative
    }

    /// Whether the delivery is settled once a transfer has come that goes on with it (part 2, 2.7.5).
    pub fn is_settled_by(&self, transfer: &Transfer) -> bool
        ensures { result ≡ unwrap_or (settled_by self.now.performative.settled transfer.now.settled)
            false }
    {
        transfer.settled.unwrap_or(false) || self.performative.settled.unwrap_or(false)
    }

    /// The place to which the bytes reach (part 3, 3.4.1).
    pub fn place(&self) -> Received
        ensures { result ≡ place_at self.now.payload (length self.now.payload) }
    {
        self.payload.place()
    }

    /// The section of the place to which the bytes reach. The first one is 0.
    pub fn section_number(&self) -> u32
        ensures { result ≡ (place_at self.now.payload (length self.now.payload)).section_number }
    {
        self.payload.place().section_number
    }

    /// How many bytes of that section there are.
    pub fn section_offset(&self) -> u64
        ensures { result ≡ (place_at self.now.payload (length self.now.payload)).section_offset }
    {
        self.payload.place().section_offset
    }

    /// How many of the bytes stand before a place (part 3, 3.4.1). None where it isn't among them.
    pub fn read_place(&self, place: Received) -> Option<usize>
        ensures { result ≡ read_at self.now.payload place }
    {
        self.payload.read_place(place)
    }

    /// How many bytes have come.
    pub fn accumulated_payload_size(&self) -> u64
        ensures size { result ≡ length self.now.payload }
        ensures small { result < 2 ^ 32 }
    {
        self.payload.size() as u64
    }

    /// Keeps the bytes before a place and no others (part 3, 3.4.1). Nothing changes where the place isn't among them.
    /// It takes no memory.
    pub fn keep_buffer_till_section_number_and_offset(
        &mut self,
        section_number: u32,
        section_offset: u64,
    )
        ensures { self.new ≡ record self.old {
          payload = kept_till self.old.payload
              (record { section_number = section_number; section_offset = section_offset });
        } }
    {
        let place = Received {
            section_number,
            section_offset,
        };
        if let Some(n) = self.payload.read_place(place) {
            self.payload.keep(n);
        }
    }

    /// The bytes of the message, once the last transfer has come with these: all in one new buffer.
    ///
    /// It is refused where there is no memory.
    pub fn finish(&self, alloc: Global, last: &Bytes) -> Result<Bytes, ReceiverTransferError>
        ensures ok { IfOk result (λ all. all ≡ self.now.payload ++ last.now) }
        ensures err { IfErr result (λ e. e ≡ ReceiverTransferError.Memory) }
    {
        Ok(self.payload.join(alloc, self.payload.size(), last)?)
    }

    /// The bytes of the message as the delivery is resumed behind the first `kept` bytes by a transfer that is the last
    /// one, and carries these: all in one new buffer.
    ///
    /// It is refused where there is no memory.
    pub fn finish_behind(
        &self,
        alloc: Global,
        kept: usize,
        last: &Bytes,
    ) -> Result<Bytes, ReceiverTransferError>
        ensures ok { IfOk result (λ all. all ≡ take kept self.now.payload ++ last.now) }
        ensures err { IfErr result (λ e. e ≡ ReceiverTransferError.Memory) }
    {
        Ok(self.payload.join(alloc, kept, last)?)
    }

    /// What the first transfer says, with `settled` as all transfers so far say it, and the pieces of the payload in
    /// their order.
    pub fn into_parts(self) -> (Transfer, Vec<Bytes>)
        ensures performative { result.0 ≡ self.performative }
        ensures payload { concat result.1.items ≡ self.payload }
    {
        let IncompleteTransfer {
            performative,
            payload,
        } = self;
        (performative, payload.into_pieces())
    }
}

/// Tests that a transfer says the number and the tag of a delivery.
fn named(transfer: &Transfer) -> Result<(), ReceiverTransferError>
    ensures ok { OnOk result (unnamed transfer.now ≡ None) }
    ensures err { IfErr result (λ e. unnamed transfer.now ≡ Some e) }
{
    if transfer.delivery_id.is_none() {
        return Err(ReceiverTransferError::DeliveryIdIsNone);
    }
    if transfer.delivery_tag.is_none() {
        return Err(ReceiverTransferError::DeliveryTagIsNone);
    }
    Ok(())
}

/// The bytes that a delivery starts with, where its first transfer says its number and its tag.
fn first_piece(
    alloc: Global,
    transfer: &Transfer,
    payload: Bytes,
) -> Result<Gathered, ReceiverTransferError>
    requires { length payload < 2 ^ 32 }
    ensures ok { IfOk result (λ bytes. (unnamed transfer.now ≡ None) × (bytes ≡ payload)) }
    ensures refused { IfSome (unnamed transfer.now) (λ e. result ≡ Err e) }
    ensures only { IfErr result (λ e. (e ≡ ReceiverTransferError.Memory)
        ⊎ (unnamed transfer.now ≡ Some e)) }
{
    named(transfer)?;
    let mut gathered = Gathered::new(alloc);
    gathered.push(payload)?;
    Ok(gathered)
}

/// Whether a transfer doesn't say another number, tag or format than the first one.
fn agrees(first: &Transfer, transfer: &Transfer) -> bool
    ensures { result ≡ agrees first.now transfer.now }
{
    if !repeats(&first.delivery_id, &transfer.delivery_id) {
        return false;
    }
    if !repeats(&first.delivery_tag, &transfer.delivery_tag) {
        return false;
    }
    repeats(&first.message_format, &transfer.message_format)
}

/// Whether what is said is what was said first, or nothing.
fn repeats<T: PartialEq>(first: &Option<T>, said: &Option<T>) -> bool
    ensures { result ≡ repeats T.eq first.now said.now }
{
    let Some(said) = said else {
        return true;
    };
    match first {
        Some(first) => first == said,
        None => false,
    }
}
