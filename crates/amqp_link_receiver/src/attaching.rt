//! How an attachment of a receiving link begins (part 2, 2.6.3 and 2.6.13).
ghost use Rattle.std.specs.Prelude.{◌≡◌, IfOk, IfErr, Ok};
ghost use Rattle.amqp_link_base.specs.Terms.{adopted_by_receiver};
ghost use Rattle.amqp_link_unsettled.specs.Listing.{Lists, FitsNowhere};
ghost use Rattle.amqp_link_unsettled.specs.declared.listing.ListError.TheVariants.{TooLarge};
ghost use Rattle.amqp_link_receiver.specs.State.{MovesLink};
ghost use Rattle.amqp_link_receiver.specs.Attaching.{AttachTaken, MayWantMemory, attach_planned, attach_sent};
ghost use Rattle.amqp_link_receiver.specs.Attaching.{carried_out, planned, to_list, unlisted};

use crate::link::ReceiverLink;
use amqp_link_base::{
    AttachExchange, IllegalState, LinkState, Terms, both, get_max_message_size, merged_properties,
    put, verify_attach_as_receiver,
};
use amqp_link_types::ReceiverAttachError;
use amqp_link_unsettled::{ListError, with_entries};
use amqp_session_performatives::Attach;
use amqp_session_types::{Boxed, Fields, InputHandle, OutputHandle, Role};
use std::alloc::{AllocError, Global};
use std::marker::Model;

/// What comes of the peer's Attach.
#[derive(Debug, Drop)]
pub enum Attached {
    /// It is refused for this. Where the link's state allows no Attach the link is as before, and else its state and
    /// the peer's handle have moved.
    Refused(ReceiverAttachError),
    /// It is accepted.
    Attached {
        /// What is left to be done.
        exchange: AttachExchange,
    },
}

/// What the peer's Attach makes of a receiving link, made ready before anything changes. A clause sees all of it.
#[derive(Drop)]
pub struct PreparedAttach {
    state: LinkState,
    handle: InputHandle,
    taken: Taken,
    initial_delivery_count: u32,
    exchange: AttachExchange,
}

impl Model for PreparedAttach {
    ghost use Rattle.amqp_link_receiver.specs.Attaching.{Plan};

    ghost Value = { Plan };

    ghost view = { λ p. record {
      state = p.state;
      handle = p.handle;
      terms = p.taken.0;
      properties = p.taken.1;
      count = p.initial_delivery_count;
      exchange = p.exchange;
    } };
}

impl ReceiverLink {
    /// The own Attach under this own handle (part 2, 2.7.3). It lists the unsettled deliveries: what has come of one with the place to
    /// which it reaches, a whole message with the state that was told of it, or with the place of its end. Where that
    /// doesn't fit a frame of so many bytes it lists the first half of them, or the first quarter, and so on.
    ///
    /// Errors: `TooLarge` exactly where the Attach doesn't fit even without any of them, and `Memory`.
    pub fn attach_frame(
        &self,
        alloc: Global,
        handle: OutputHandle,
        limit: u32,
    ) -> Result<Attach, ListError>
        ensures ok { IfOk result (λ attach.
            Lists limit (unlisted self.now handle) (to_list self.now) attach) }
        ensures too_large { IfErr result (λ e. e ≡ TooLarge
            → FitsNowhere limit (unlisted self.now handle) (to_list self.now)) }
    {
        let list = self.end.unsettled().list(alloc)?;
        let count = self.end.flow().initial_delivery_count;
        let attach = self
            .base
            .attach_frame(alloc, handle, Role::Receiver, count)?;
        with_entries(attach, list, limit)
    }

    /// The own Attach is sent, which lists all unsettled deliveries or only a part of them: there is no credit and no
    /// drain in the attachment that it begins (part 2, 2.6.3 and 2.6.7). It takes no memory.
    ///
    /// Errors: `IllegalState` exactly where the state doesn't allow it. Nothing changes then.
    pub fn send_attach(&mut self, incomplete: bool) -> Result<(), IllegalState>
        ensures { MovesLink (attach_sent self.old incomplete) self.old result self.new }
    {
        self.base.send_attach(incomplete)?;
        let count = self.end.flow().initial_delivery_count;
        self.end.attach(count);
        Ok(())
    }

    /// Takes the peer's Attach: its terms, its count of deliveries and its properties are taken over, where none of
    /// the receiver's tests applies (part 2, 2.6.3 and 2.7.3).
    ///
    /// What refuses it is in the answer: `IllegalState` exactly where the state allows no Attach, and nothing changes
    /// then; else the error of the first test that applies, and the link's state and the peer's handle alone have
    /// moved then.
    ///
    /// Errors: want of memory alone. Nothing changes then.
    pub fn on_incoming_attach(
        &mut self,
        alloc: Global,
        attach: &Attach,
    ) -> Result<Attached, AllocError>
        ensures { AttachTaken self.old attach.now result self.new }
    {
        match self.prepare_attach(alloc, attach) {
            Ok(decided) => Ok(self.decide(attach, decided)),
            Err(error) => Err(error),
        }
    }

    /// The peer's Attach is accepted as it was made ready, or refused for this.
    #[tactic(auto, using(crate::proofs::Planning::rules))]
    fn decide(
        &mut self,
        attach: &Attach,
        decided: Result<PreparedAttach, ReceiverAttachError>,
    ) -> Attached
        requires { decided ≡ attach_planned self.old attach.now }
        ensures { AttachTaken self.old attach.now (Ok result) self.new }
    {
        match decided {
            Ok(prepared) => Attached::Attached {
                exchange: self.commit_attach(prepared),
            },
            Err(error) => {
                let _ = self.base.on_incoming_attach(attach);
                Attached::Refused(error)
            }
        }
    }

    /// What the peer's Attach makes of the link is made ready, or the answer is why it is refused: `IllegalState` where
    /// the link's state allows no Attach, else the error of the first test that applies. Nothing changes yet.
    ///
    /// Errors: want of memory alone, and only where the Attach isn't refused, or in place of a list of filters.
    pub fn prepare_attach(
        &self,
        alloc: Global,
        attach: &Attach,
    ) -> Result<Result<PreparedAttach, ReceiverAttachError>, AllocError>
        ensures ok { IfOk result (λ decided. decided ≡ attach_planned self.now attach.now) }
        ensures err { IfErr result (λ _. MayWantMemory (attach_planned self.now attach.now)) }
    {
        let incomplete = attach.incomplete_unsettled;
        let Some(state) = self.base.local_state.on_incoming_attach(incomplete) else {
            return Ok(Err(ReceiverAttachError::IllegalState));
        };
        let terms = &self.base.terms;
        match verify_attach_as_receiver(alloc, &terms.source, &terms.target, attach) {
            Ok(()) => Ok(Ok(self.prepare(alloc, attach, state)?)),
            Err(ReceiverAttachError::Memory) => Err(AllocError),
            Err(error) => Ok(Err(error)),
        }
    }

    /// What an Attach makes of the link that isn't refused and leads to this state.
    fn prepare(
        &self,
        alloc: Global,
        attach: &Attach,
        state: LinkState,
    ) -> Result<PreparedAttach, AllocError>
        ensures { IfOk result (λ plan. plan ≡ planned self.now state attach.now) }
    {
        let properties = merged_properties(alloc, &self.properties, &attach.properties);
        let taken = both(adopted(alloc, &self.base.terms, attach), properties)?;
        Ok(PreparedAttach {
            state,
            handle: InputHandle(attach.handle.0),
            taken,
            initial_delivery_count: attach.initial_delivery_count.unwrap_or(0),
            exchange: AttachExchange::of_receiver(state, &attach.unsettled),
        })
    }

    /// The Attach is taken that was made ready, and what is left to be done is answered. It takes no memory.
    pub fn commit_attach(&mut self, prepared: PreparedAttach) -> AttachExchange
        ensures link { self.new ≡ carried_out self.old prepared }
        ensures left { result ≡ prepared.exchange }
    {
        let PreparedAttach {
            state,
            handle,
            taken,
            initial_delivery_count,
            exchange,
        } = prepared;
        let (terms, properties) = taken;
        self.base.adopt(handle, state, terms);
        self.end.attach(initial_delivery_count);
        put(&mut self.properties, properties);
        exchange
    }
}

/// The terms and the properties of a link once an Attach is taken over.
type Taken = (Boxed<Terms>, Option<Boxed<Fields>>);

/// The own terms with those of the peer's Attach where the sender's word counts.
fn adopted(alloc: Global, own: &Terms, attach: &Attach) -> Result<Boxed<Terms>, AllocError>
    ensures { IfOk result (λ terms. terms ≡ adopted_by_receiver own.now attach.now) }
{
    let (source, target) = both(attach.source.clone(), own.target.clone())?;
    Boxed::new(
        alloc,
        Terms {
            source,
            target,
            snd_settle_mode: attach.snd_settle_mode,
            rcv_settle_mode: own.rcv_settle_mode,
            max_message_size: get_max_message_size(own.max_message_size, attach.max_message_size),
        },
    )
}
