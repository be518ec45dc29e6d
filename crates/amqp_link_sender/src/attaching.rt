//! How an attachment of a sending link begins (part 2, 2.6.3 and 2.6.13).
ghost use Rattle.std.specs.Prelude.{◌≡◌, length, IfErr, IfOk, IsOk, Ok};
ghost use Rattle.std.specs.VecDeque.Iter.{deque_iter_rest};
ghost use Rattle.amqp_link_base.specs.Attach.{sender_tests};
ghost use Rattle.amqp_link_base.specs.Terms.{adopted_by_sender};
ghost use Rattle.amqp_link_base.specs.Tests.{FirstOf};
ghost use Rattle.amqp_link_sender.specs.Attaching.{TakesAttach, TellsAttach, abort_transfer, attach_planned, attach_sent};
ghost use Rattle.amqp_link_sender.specs.Attaching.{attach_sent_anew, carried_out, left_by, planned};
ghost use Rattle.amqp_link_sender.specs.Sending.{MovesLink};

use crate::link::SenderLink;
use amqp_link_base::{
    AttachExchange, IllegalState, LinkState, Terms, both, get_max_message_size, merged_properties,
    put, verify_attach_as_sender,
};
use amqp_link_types::SenderAttachError;
use amqp_link_unsettled::{Abort, Failure, ListError, PreparedExchange, Waiting, with_entries};
use amqp_session_performatives::{Attach, Transfer};
use amqp_session_types::{Boxed, Fields, Handle, InputHandle, OutputHandle, Role};
use serde_amqp_types::Array;
use std::alloc::{AllocError, Global};
use std::collections::vec_deque;
use std::marker::Model;

/// What is told of the receiver's Attach.
#[derive(Debug, Drop)]
pub enum AttachAnswer {
    /// It is refused. The link is to be closed, or the attach that asked for it stays asked.
    Refused(SenderAttachError),
    /// It is taken.
    Attached(Attaching),
}

/// What an Attach that is taken leaves to be done (part 2, 2.6.13).
#[derive(Debug, Drop)]
pub struct Attaching {
    /// What is left to be done for unsettled messages.
    pub exchange: AttachExchange,
    /// The deliveries that are given up, in the order in which their transfers go: own ones, then those that only the
    /// receiver knows.
    pub aborts: Array<Abort>,
}

/// What the receiver's Attach makes of a sending link, made ready before anything changes. A clause sees all of it.
#[derive(Drop)]
pub struct PreparedAttach {
    state: LinkState,
    handle: InputHandle,
    taken: Taken,
    messages: PreparedExchange,
    exchange: AttachExchange,
}

impl Model for PreparedAttach {
    ghost use Rattle.amqp_link_sender.specs.Attaching.{Plan};

    ghost Value = { Plan };

    ghost view = { λ p. record {
      state = p.state;
      handle = p.handle;
      terms = p.taken.0;
      properties = p.taken.1;
      messages = p.messages;
      exchange = p.exchange;
    } };
}

impl PreparedAttach {
    /// The deliveries that are given up as the Attach is taken, in the order in which their transfers go: own ones, then
    /// those that only the receiver knows (part 2, 2.6.13).
    pub fn aborts(&self) -> &[Abort]
        ensures { result.now ≡ (self.now).messages.aborts }
    {
        self.messages.aborts()
    }

    /// How many messages end as the Attach is taken (part 2, 2.6.13).
    pub fn ended_len(&self) -> usize
        ensures { result ≡ length (self.now).messages.ended }
    {
        self.messages.ended_len()
    }

    /// The messages that wait to be sent on once the Attach is taken, in the order in which they go.
    pub(crate) fn waiting(&self) -> vec_deque::Iter<'_, Waiting>
        ensures { deque_iter_rest result ≡ (self.now).messages.waiting }
    {
        self.messages.waiting()
    }
}

impl SenderLink {
    /// The own Attach under this own handle, which lists the open messages with the states that the receiver told of them (part 2, 2.7.3): all of
    /// them where the frame has at most `limit` bytes so, else the first half of them, a quarter, and so on.
    ///
    /// Errors: `TooLarge` exactly where the frame has more bytes even without any of them; `Memory`.
    pub fn attach_frame(
        &self,
        alloc: Global,
        handle: OutputHandle,
        limit: u32,
    ) -> Result<Attach, ListError>
        ensures { TellsAttach limit handle self.now result }
    {
        let list = self.messages.list(alloc)?;
        let count = self.flow.delivery_count();
        let attach = self.base.attach_frame(alloc, handle, Role::Sender, count)?;
        with_entries(attach, list, limit)
    }

    /// The own Attach is sent, which lists all unsettled messages or only a part of them: there is no credit and no drain in
    /// the attachment that it begins, and its count of deliveries begins where the link's stands (part 2, 2.6.3 and 2.6.7).
    /// It takes no memory.
    ///
    /// Errors: `IllegalState` exactly where the state doesn't allow it. Nothing changes then.
    pub fn send_attach(&mut self, incomplete: bool) -> Result<(), IllegalState>
        ensures { MovesLink (attach_sent self.old incomplete) self.old result self.new }
    {
        self.base.send_attach(incomplete)?;
        self.flow.attach();
        Ok(())
    }

    /// The own Attach is sent anew, and lists nothing: the open messages end without an outcome (part 2, 2.6.4). It takes no
    /// memory.
    ///
    /// Errors: `IllegalState` exactly where the state doesn't allow it. Nothing changes then.
    pub fn send_attach_anew(&mut self) -> Result<(), IllegalState>
        ensures { MovesLink (attach_sent_anew self.old) self.old result self.new }
    {
        self.base.send_attach(false)?;
        self.flow.attach();
        self.messages.fail(Failure::Closed);
        Ok(())
    }

    /// Takes the receiver's Attach (part 2, 2.6.3, 2.6.13 and 2.7.3). What comes of it is in the answer, also where it is
    /// refused: by a state that doesn't allow it, and nothing changes then; or by the first test that it fails, and the
    /// link's state and the peer's handle alone are new then.
    ///
    /// Where it is taken the receiver's target, its settle mode and the smaller bound of messages are the link's, and its
    /// properties are merged into the link's. The open messages come to what the receiver lists of them: they are to be sent
    /// on, or they end, or they are given up. What isn't listed is left open where the list is incomplete.
    ///
    /// Errors: want of memory alone. All is as before then.
    pub fn on_incoming_attach(
        &mut self,
        alloc: Global,
        attach: &Attach,
    ) -> Result<AttachAnswer, AllocError>
        ensures { TakesAttach self.old attach.now result self.new }
    {
        match self.prepare_attach(alloc, attach) {
            Ok(decided) => Ok(self.decide(attach, decided)),
            Err(error) => Err(error),
        }
    }

    /// The receiver's Attach is taken as it was made ready, or refused for this.
    #[tactic(auto, using(crate::proofs::Planning::rules))]
    fn decide(
        &mut self,
        attach: &Attach,
        decided: Result<PreparedAttach, SenderAttachError>,
    ) -> AttachAnswer
        requires { decided ≡ attach_planned self.old attach.now }
        ensures { TakesAttach self.old attach.now (Ok result) self.new }
    {
        match decided {
            Ok(prepared) => AttachAnswer::Attached(self.commit_attach(prepared)),
            Err(error) => {
                let _ = self.base.on_incoming_attach(attach);
                AttachAnswer::Refused(error)
            }
        }
    }

    /// What the receiver's Attach makes of the link is made ready, or the answer is why it is refused: `IllegalState` where
    /// the link's state doesn't allow it, else the error of the first test that it fails. Nothing changes yet.
    ///
    /// Errors: want of memory alone, and only where the Attach isn't refused.
    pub fn prepare_attach(
        &self,
        alloc: Global,
        attach: &Attach,
    ) -> Result<Result<PreparedAttach, SenderAttachError>, AllocError>
        ensures ok { IfOk result (λ decided. decided ≡ attach_planned self.now attach.now) }
        ensures err { IfErr result (λ _. IsOk (attach_planned self.now attach.now)) }
    {
        let incomplete = attach.incomplete_unsettled;
        let Some(state) = self.base.local_state.on_incoming_attach(incomplete) else {
            return Ok(Err(SenderAttachError::IllegalState));
        };
        match verify(&self.base.terms, attach) {
            Err(error) => Ok(Err(error)),
            Ok(()) => Ok(Ok(self.prepare(alloc, attach, state)?)),
        }
    }

    /// What an Attach makes of the link that isn't refused and leads to this state.
    fn prepare(
        &self,
        alloc: Global,
        attach: &Attach,
        state: LinkState,
    ) -> Result<PreparedAttach, AllocError>
        ensures { IfOk result (λ plan. plan ≡ planned self.now state attach.now) }
    {
        let properties = merged_properties(alloc, self.flow.properties(), &attach.properties);
        let taken = both(adopted(alloc, &self.base.terms, attach), properties);
        let incomplete = attach.incomplete_unsettled;
        let messages = self
            .messages
            .prepare_exchange(alloc, &attach.unsettled, incomplete);
        let (taken, messages) = both(taken, messages)?;
        let own_is_empty = self.messages.len() == 0;
        Ok(PreparedAttach {
            state,
            handle: InputHandle(attach.handle.0),
            taken,
            messages,
            exchange: AttachExchange::of_sender(state, own_is_empty, &attach.unsettled),
        })
    }

    /// The Attach is taken that was made ready, and what is left to be done is answered. It takes no memory.
    pub fn commit_attach(&mut self, prepared: PreparedAttach) -> Attaching
        ensures link { self.new ≡ carried_out self.old prepared }
        ensures left { result ≡ left_by prepared }
    {
        let PreparedAttach {
            state,
            handle,
            taken,
            messages,
            exchange,
        } = prepared;
        let (terms, properties) = taken;
        self.base.adopt(handle, state, terms);
        put(self.flow.properties_mut(), properties);
        let aborts = self.messages.commit_exchange(messages);
        Attaching {
            exchange,
            aborts: Array::from(aborts),
        }
    }

    /// The transfer that gives a delivery up (part 2, 2.6.13 and 2.7.5). Its session writes its link and its number into
    /// it.
    pub fn abort_transfer(abort: Abort) -> Transfer
        ensures { result ≡ abort_transfer abort }
    {
        Transfer {
            handle: Handle(0),
            delivery_id: None,
            delivery_tag: Some(abort.tag),
            message_format: Some(abort.message_format),
            settled: None,
            more: false,
            rcv_settle_mode: None,
            state: None,
            resume: true,
            aborted: true,
            batchable: false,
        }
    }
}

/// The terms and the properties of a link once an Attach is taken over.
type Taken = (Boxed<Terms>, Option<Boxed<Fields>>);

/// What a sending link answers to the receiver's Attach, by its terms.
fn verify(terms: &Terms, attach: &Attach) -> Result<(), SenderAttachError>
    ensures { FirstOf (sender_tests terms.now.source terms.now.target terms.now.snd_settle_mode
        attach.now) result }
{
    verify_attach_as_sender(&terms.source, &terms.target, terms.snd_settle_mode, attach)
}

/// The terms of a sending link, with what the receiver's Attach says of them.
fn adopted(alloc: Global, own: &Terms, attach: &Attach) -> Result<Boxed<Terms>, AllocError>
    ensures { IfOk result (λ terms. terms ≡ adopted_by_sender own.now attach.now) }
{
    let (source, target) = both(own.source.clone(), attach.target.clone())?;
    Boxed::new(
        alloc,
        Terms {
            source,
            target,
            snd_settle_mode: own.snd_settle_mode,
            rcv_settle_mode: attach.rcv_settle_mode,
            max_message_size: get_max_message_size(own.max_message_size, attach.max_message_size),
        },
    )
}
