//! What a receiving end does with transfers, Flows and dispositions (part 2, 2.6.7 and 2.6.12 to 2.6.14).
ghost use Rattle.std.specs.Prelude.{◌≡◌, ◌<◌, ◌==◌, [], None, option_copied, if◌then◌else◌};
ghost use Rattle.amqp_link_types.specs.declared.refusals.ReceiverTransferError.TheVariants.{TransferLimitExceeded};
ghost use Rattle.amqp_link_receiver.specs.Receiving.{Answers, Receives, aborted, completed, disposed, ended};
ghost use Rattle.amqp_link_receiver.specs.Receiving.{half_kept, kept_on, number_of, parted, refusal as refused_as};
ghost use Rattle.amqp_link_receiver.specs.Receiving.{received, recounted, spent};
ghost use Rattle.amqp_link_receiver.specs.Foreseen.{is_message};
ghost use Rattle.amqp_link_receiver.specs.AtOnce.{ReceivesAtOnce};
ghost use Rattle.amqp_link_receiver.specs.Steps.{Completes, part_answer};
ghost use Rattle.amqp_link_receiver.specs.declared.answer.Registering.TheVariants.{Unchanged, Settled};
ghost use Rattle.amqp_link_receiver.specs.declared.answer.Told.TheVariants.{Dropped, Refused};
ghost use Rattle.amqp_link_receiver.specs.Deliveries.{delivery_of, found, with_last, with_part};
ghost use Rattle.amqp_link_receiver.specs.Disposals.{disposable, disposed_with};
ghost use Rattle.amqp_link_receiver.specs.Numbering.{message_named, tag_of};
ghost use Rattle.amqp_link_base.specs.Flows.{consumed, draining, granted, receiver_answer, attached, receiver_flowed};

use crate::answer::{Answer, Registering, Told};
use crate::arriving::Incoming;
use crate::at_once::{enters, is_alone};
use crate::attachment::Attachment;
use crate::completing::{finish, take_whole};
use crate::continuing::{begin, go_on};
use crate::disposable::{Disposable, DisposeRefusal, disposable_in, tell};
use crate::entry::Entry;
use crate::foreseeing::{finishes, is_whole};
use crate::head::{Head, head_of, start_of};
use crate::numbering::{name, tag_of};
use crate::resuming::put_half;
use amqp_link_base::{Gathered, LinkFlowState, LinkFlowStateInner, ReceiverMarker};
use amqp_link_types::ReceiverTransferError;
use amqp_link_unsettled::UnsettledMap;
use amqp_session_performatives::{LinkFlow, Transfer};
use amqp_session_states::DeliveryState;
use amqp_session_types::{DeliveryTag, OutputHandle};
use bytes::Bytes;
use std::alloc::{AllocError, Global};
use std::marker::Model;

/// A link's receiving end as transfers see it: its credit, the delivery of which transfers are coming in, and the
/// unsettled deliveries by their tags (part 2, 2.6.7, 2.6.12 and 2.6.14).
pub struct ReceivingEnd {
    flow: LinkFlowState<ReceiverMarker>,
    held: Option<Incoming<Gathered>>,
    unsettled: UnsettledMap<Entry>,
}

impl Drop for ReceivingEnd {
    fn drop(self) {
        let ReceivingEnd {
            flow: _,
            held: _,
            unsettled: _,
        } = self;
    }
}

impl Model for ReceivingEnd {
    ghost use Rattle.amqp_link_receiver.specs.Receiving.{Receiving};

    ghost Value = { Receiving };

    ghost view = { λ s. record { flow = s.flow; held = s.held; unsettled = s.unsettled.entries } };
}

impl ReceivingEnd {
    /// A receiving end without deliveries. It takes no memory.
    pub fn new(alloc: Global, flow: LinkFlowStateInner) -> Self
        ensures { result ≡ record { flow = flow; held = None; unsettled = [] } }
    {
        ReceivingEnd {
            flow: LinkFlowState::receiver(flow),
            held: None,
            unsettled: UnsettledMap::new(alloc),
        }
    }

    /// Takes a transfer with its payload (part 2, 2.7.5). What comes of it is in the answer, also where it is refused.
    ///
    /// Errors: want of memory alone. All is as before then.
    pub fn on_incoming_transfer(
        &mut self,
        alloc: Global,
        attachment: Attachment,
        transfer: Transfer,
        payload: Bytes,
    ) -> Result<Answer, AllocError>
        ensures { Receives attachment self.old transfer payload result self.new }
    {
        let head = head_of(transfer);
        if head.aborted {
            return Ok(self.give_up(attachment, head));
        }
        if head.more {
            return self.keep_on(alloc, attachment, head, payload);
        }
        self.complete(alloc, attachment, head, payload)
    }

    /// Takes a transfer with its payload at once, and says whether it did, where the transfer brings a whole message, as
    /// `on_incoming_transfer` takes it. A message that isn't settled bears this number of its owner's from then on.
    /// Nothing changes where it didn't, as where something speaks against the message, and where there is no memory.
    pub fn takes_at_once(
        &mut self,
        attachment: Attachment,
        transfer: &Transfer,
        payload: &Bytes,
        message: u64,
    ) -> bool
        ensures { ReceivesAtOnce attachment self.old transfer.now payload.now message result
            self.new }
    {
        if !is_alone(transfer) {
            return false;
        }
        let Some(number) = transfer.delivery_id else {
            return false;
        };
        let Some(tag) = &transfer.delivery_tag else {
            return false;
        };
        if self.held.is_some() {
            return false;
        }
        if self.flow.link_credit() == 0 {
            return false;
        }
        if attachment.is_passed(0, payload.len() as u64) {
            return false;
        }
        let unsettled = &mut self.unsettled;
        if !enters(
            attachment, unsettled, transfer, number, tag, payload, message,
        ) {
            return false;
        }
        spend(&mut self.flow);
        true
    }

    /// Takes a transfer by which the sender gives its delivery up. It takes no memory.
    fn give_up(&mut self, attachment: Attachment, head: Head) -> Answer
        ensures answer { result ≡ (aborted attachment self.old self.old.held head).0 }
        ensures state { self.new ≡ (aborted attachment self.old self.old.held head).1 }
    {
        match &self.held {
            Some(held) => {
                if !held.agrees(&head) {
                    return refusal(ReceiverTransferError::InconsistentFieldInMultiFrameDelivery);
                }
                let registering = ended_held(held);
                let _ = self.unsettled.remove(&held.delivery_tag);
                self.held = None;
                dropped(registering)
            }
            None => match start_of(head) {
                Err(error) => refusal(error),
                Ok(start) => {
                    let entry = self.unsettled.remove(&start.delivery_tag);
                    dropped(ended(attachment, entry))
                }
            },
        }
    }

    /// Takes a transfer that isn't the last of its delivery.
    fn keep_on(
        &mut self,
        alloc: Global,
        attachment: Attachment,
        head: Head,
        payload: Bytes,
    ) -> Result<Answer, AllocError>
        ensures { Answers (kept_on attachment self.old
            (with_part attachment payload (delivery_of self.old.held self.old.unsettled head)))
            self.old result self.new }
    {
        match &mut self.held {
            Some(held) => told(go_on(alloc, attachment, held, &mut self.unsettled, &head, payload)),
            None => match begin(alloc, attachment, &mut self.unsettled, head, payload) {
                Ok((delivery, registering)) => {
                    self.held = Some(delivery);
                    told(Ok(registering))
                }
                Err(error) => told(Err(error)),
            },
        }
    }

    /// Takes the last transfer of a delivery, which uses one credit.
    fn complete(
        &mut self,
        alloc: Global,
        attachment: Attachment,
        head: Head,
        payload: Bytes,
    ) -> Result<Answer, AllocError>
        ensures { Answers (if self.old.flow.link_credit == 0 then refused_as TransferLimitExceeded self.old
            else completed attachment (spent self.old) (with_last attachment payload (delivery_of self.old.held self.old.unsettled head))) self.old result self.new }
    {
        if self.flow.link_credit() == 0 {
            return Ok(refusal(ReceiverTransferError::TransferLimitExceeded));
        }
        match last(
            alloc,
            attachment,
            &self.held,
            &mut self.unsettled,
            head,
            payload,
        ) {
            Err(ReceiverTransferError::Memory) => Err(AllocError),
            Err(error) => {
                let _ = self.flow.consume(1);
                Ok(refusal(error))
            }
            Ok(answer) => {
                let _ = self.flow.consume(1);
                self.held = None;
                Ok(answer)
            }
        }
    }

    /// Whether it would hand out a message for a transfer with its payload, if there is memory (part 2, 2.7.5). It takes
    /// no memory.
    #[tactic(auto, using(crate::proofs::Foresight::foreseen))]
    pub fn completes(&self, attachment: Attachment, transfer: &Transfer, payload: &Bytes) -> bool
        ensures { result ≡ is_message (received attachment self.now transfer.now payload.now).0.told }
    {
        if transfer.aborted {
            return false;
        }
        if transfer.more {
            return false;
        }
        if self.flow.link_credit() == 0 {
            return false;
        }
        match &self.held {
            Some(held) => finishes(attachment, held, transfer, payload),
            None => is_whole(attachment, &self.unsettled, transfer, payload),
        }
    }

    /// Takes a Flow of the sender (part 2, 2.7.4). A Flow that asks for an echo is answered by the Flow that is to be
    /// sent on `output_handle`. It takes no memory.
    pub fn on_incoming_flow(
        &mut self,
        flow: LinkFlow,
        output_handle: OutputHandle,
    ) -> Option<LinkFlow>
        ensures state { self.new ≡ record self.old { flow = receiver_flowed self.old.flow flow } }
        ensures answer { result ≡ receiver_answer flow output_handle self.new.flow }
    {
        self.flow.on_incoming_flow(flow, output_handle)
    }

    /// Gives this credit, in place of what was left of the credit given before, and wants no drain any more (part 2,
    /// 2.6.7). The answer is the credit that was left.
    pub fn grant(&mut self, credit: u32) -> u32
        ensures state { self.new ≡ record self.old { flow = granted self.old.flow credit } }
        ensures left { result ≡ self.old.flow.link_credit }
    {
        self.flow.grant(credit)
    }

    /// Wants the credit used up (part 2, 2.6.7).
    pub fn drain(&mut self)
        ensures { self.new ≡ record self.old { flow = draining self.old.flow } }
    {
        self.flow.set_drain();
    }

    /// The count of deliveries and the credit are these from now on (part 2, 2.6.7).
    pub fn set_counts(&mut self, delivery_count: u32, link_credit: u32)
        ensures { self.new ≡ recounted self.old delivery_count link_credit }
    {
        self.flow.set_counts(delivery_count, link_credit);
    }

    /// Begins an attachment by the count that the sender's Attach tells (part 2, 2.6.3).
    pub fn attach(&mut self, initial_delivery_count: u32)
        ensures { self.new ≡ record self.old
            { flow = attached self.old.flow initial_delivery_count } }
    {
        self.flow.attach(initial_delivery_count);
    }

    /// The credit and the counts, which a Flow can show.
    pub fn flow(&self) -> &LinkFlowStateInner
        ensures { result.now ≡ self.now.flow }
    {
        self.flow.inner()
    }

    /// What the delivery with a tag is disposed of by: its number in the present attachment, and its own settle mode.
    ///
    /// Errors: `NotKept` where nothing is kept of it; `AlreadyDisposed` where its outcome was told; `NotAssociated` where
    /// it has no number in the present attachment, as one that hasn't come whole.
    pub fn disposable(
        &self,
        attachment: Attachment,
        tag: &DeliveryTag,
    ) -> Result<Disposable, DisposeRefusal>
        ensures { result ≡ disposable attachment.count (found self.now.unsettled tag.now) }
    {
        disposable_in(attachment.count, &self.unsettled, tag)
    }

    /// Disposes of the delivery with a tag: where it is settled nothing of it is kept any more, and else its state is
    /// noted. It takes no memory.
    pub fn dispose_reserved(
        &mut self,
        _alloc: Global,
        tag: &DeliveryTag,
        settled: bool,
        state: DeliveryState,
    )
        ensures { self.new ≡ disposed_with self.old tag.now settled state }
    {
        if settled {
            let _ = self.unsettled.remove(tag);
            return;
        }
        tell(&mut self.unsettled, tag, state);
    }

    /// The message with a tag bears this number of its owner's from now on, where it has come whole and is unsettled.
    /// It takes no memory.
    pub fn number_message(&mut self, _alloc: Global, tag: &DeliveryTag, message: u64)
        ensures { self.new ≡ record self.old
            { unsettled = message_named self.old.unsettled tag.now message } }
    {
        name(&mut self.unsettled, tag, message);
    }

    /// The tag of the unsettled message that bears this number of its owner's, of the first of them if more than one
    /// does. Where messages bear numbers that rise as the messages came, it takes hardly more time for many deliveries
    /// than for few.
    pub fn tag_of(&self, message: u64) -> Option<&DeliveryTag>
        ensures { option_copied result ≡ tag_of self.now.unsettled message }
    {
        tag_of(&self.unsettled, message)
    }

    /// Ends an attachment, by a Detach or by a loss (part 2, 2.6.5). What has come of a delivery is kept where that isn't
    /// settled. It takes no memory.
    pub fn part(&mut self)
        ensures { self.new ≡ parted self.old }
    {
        match self.held.take() {
            Some(delivery) => keep_half(&mut self.unsettled, delivery),
            None => {}
        }
    }

    /// The unsettled deliveries by their tags, in the order of their first transfers.
    pub fn unsettled(&self) -> &UnsettledMap<Entry>
        ensures { result.now.entries ≡ self.now.unsettled }
    {
        &self.unsettled
    }

    /// Takes a disposition of the sender's, of the delivery with a tag: where it settles the delivery nothing of it is
    /// kept (part 2, 2.6.12). It takes no memory.
    pub fn on_incoming_disposition(&mut self, tag: &DeliveryTag, settled: bool)
        ensures { self.new ≡ disposed self.old tag.now settled }
    {
        if settled {
            let _ = self.unsettled.remove(tag);
        }
    }
}

/// Uses one credit of those that are left.
fn spend(flow: &mut LinkFlowState<ReceiverMarker>)
    requires { 0 < flow.old.link_credit }
    ensures { flow.new ≡ consumed flow.old 1 }
{
    let _ = flow.consume(1);
}

/// The last transfer of a delivery.
fn last(
    alloc: Global,
    attachment: Attachment,
    held: &Option<Incoming<Gathered>>,
    unsettled: &mut UnsettledMap<Entry>,
    head: Head,
    payload: Bytes,
) -> Result<Answer, ReceiverTransferError>
    ensures { Completes attachment held.now unsettled.old.entries
        (with_last attachment payload (delivery_of held.now unsettled.old.entries head)) result
        unsettled.new.entries }
{
    match held {
        Some(held) => finish(alloc, attachment, held, unsettled, &head, &payload),
        None => take_whole(alloc, attachment, unsettled, head, payload),
    }
}

/// Keeps what has come of a delivery that isn't settled.
fn keep_half(unsettled: &mut UnsettledMap<Entry>, delivery: Incoming<Gathered>)
    ensures { unsettled.new.entries ≡ half_kept unsettled.old.entries delivery
        (found unsettled.old.entries delivery.delivery_tag) }
{
    let Incoming {
        delivery_id: _,
        delivery_tag,
        message_format: _,
        settled,
        rcv_settle_mode: _,
        payload,
        joins: _,
    } = delivery;
    match unsettled.get(&delivery_tag) {
        Some(Entry::Half(_)) => {}
        _ => return,
    }
    if settled {
        return;
    }
    put_half(unsettled, &delivery_tag, payload);
}

/// What of the delivery that is coming in ends in the session as it is given up.
fn ended_held(held: &Incoming<Gathered>) -> Registering
    ensures { result ≡ (if held.now.settled then Unchanged else Settled held.now.delivery_id) }
{
    if held.settled {
        return Registering::Unchanged;
    }
    Registering::Settled {
        number: held.delivery_id,
    }
}

/// What of a delivery ends in the session as it is given up.
fn ended(attachment: Attachment, entry: Option<Entry>) -> Registering
    ensures { result ≡ ended (number_of attachment entry) }
{
    match entry {
        Some(Entry::Whole(message)) => {
            if message.attachment == attachment.count {
                return Registering::Settled {
                    number: message.number,
                };
            }
            Registering::Unchanged
        }
        _ => Registering::Unchanged,
    }
}

/// What a refused transfer is answered.
fn refusal(error: ReceiverTransferError) -> Answer
    ensures { result ≡ record { registering = Unchanged; told = Refused error } }
{
    Answer {
        registering: Registering::Unchanged,
        told: Told::Refused(error),
    }
}

/// What a transfer is answered by which a delivery is given up.
fn dropped(registering: Registering) -> Answer
    ensures { result ≡ record { registering = registering; told = Dropped } }
{
    Answer {
        registering,
        told: Told::Dropped,
    }
}

/// What a transfer is answered that isn't the last of its delivery.
fn told(done: Result<Registering, ReceiverTransferError>) -> Result<Answer, AllocError>
    ensures { result ≡ part_answer done }
{
    match done {
        Ok(registering) => Ok(Answer {
            registering,
            told: Told::Nothing,
        }),
        Err(ReceiverTransferError::Memory) => Err(AllocError),
        Err(error) => Ok(refusal(error)),
    }
}
