//! The transfers that a link hands to its session at once.
ghost use Rattle.std.specs.Prelude.{◌≡◌, [], ◌∷◌, ◌++◌, length, OnOk, OnErr, IfOk, IsTrue, ◌↔◌};
ghost use Rattle.amqp_session_core.specs.Batch.{first_of, continuation_of, first_part, whole_of, is_flow, IsWhole};

use amqp_session_outgoing::{Behind, Outbound, Part};
use amqp_session_performatives::{Detach, LinkFlow, Transfer};
use bytes::Bytes;
use std::alloc::{AllocError, Global};
use std::collections::VecDeque;
use std::marker::Model;

/// A transfer that a link sends (part 2, 2.7.5).
#[derive(Debug, Drop)]
pub struct TransferFrame {
    /// What it says of the delivery. The session writes the link's handle and the delivery's number into it as it
    /// leaves.
    pub performative: Transfer,
    /// The bytes that it carries.
    pub payload: Bytes,
}

/// A frame of a link that waits behind the transfers that the link has waiting.
#[derive(Debug, Drop)]
pub enum BehindFrame {
    /// The state of the link. The session's state is added as it leaves (part 2, 2.7.4).
    Flow(LinkFlow),
    /// The link is detached (part 2, 2.7.7).
    Detach(Detach),
}

impl BehindFrame {
    /// Whether it is a Flow.
    pub(crate) fn is_flow(&self) -> bool
        ensures { result ≡ is_flow self.now }
    {
        match self {
            BehindFrame::Flow(_) => true,
            BehindFrame::Detach(_) => false,
        }
    }
}

/// The transfers that a link hands to its session at once, in order: they are accepted whole or not at all.
#[derive(Drop)]
pub struct Batch {
    pub(crate) transfers: VecDeque<Outbound<TransferFrame, BehindFrame>>,
}

impl Model for Batch {
    ghost use Rattle.amqp_session_core.specs.Batch.{Transfers, AreWhole};

    ghost Value = { Transfers };

    ghost view = { λ b. b.transfers.items };

    ghost invariant = { λ b. AreWhole b.transfers.items };
}

impl Batch {
    /// No transfers. It takes no memory.
    pub fn new(alloc: Global) -> Self
        ensures { result ≡ [] }
    {
        Batch {
            transfers: VecDeque::new(alloc),
        }
    }

    /// How many transfers there are.
    pub fn len(&self) -> usize
        ensures { result ≡ length self.now }
    {
        self.transfers.len()
    }

    /// Whether there is none.
    pub fn is_empty(&self) -> bool
        ensures { IsTrue result ↔ (self.now ≡ []) }
    {
        self.transfers.is_empty()
    }

    /// Drops all transfers. The memory stays, for others.
    pub fn clear(&mut self)
        ensures { self.new ≡ [] }
    {
        self.transfers.clear();
    }

    /// Puts the first transfer of a delivery last. It leaves settled where it says so, and where it gives the delivery
    /// up (part 2, 2.7.5). It is refused where there is no memory, and nothing changes then.
    #[inline(always)]
    pub fn push_first(
        &mut self,
        alloc: Global,
        performative: Transfer,
        payload: Bytes,
    ) -> Result<(), AllocError>
        ensures ok { OnOk result (self.new ≡ self.old ++ first_of performative payload ∷ []) }
        ensures err { OnErr result (self.new ≡ self.old) }
    {
        let part = first_part(&performative)?;
        self.push(alloc, part, performative, payload)
    }

    /// Puts a later transfer of the delivery before it last. It is refused where there is no memory, and nothing
    /// changes then.
    pub fn push_continuation(
        &mut self,
        alloc: Global,
        performative: Transfer,
        payload: Bytes,
    ) -> Result<(), AllocError>
        ensures ok { OnOk result (self.new ≡ self.old ++ continuation_of performative payload
            ∷ []) }
        ensures err { OnErr result (self.new ≡ self.old) }
    {
        self.push(alloc, Part::Continuation, performative, payload)
    }

    /// Puts a transfer last.
    #[inline(always)]
    fn push(
        &mut self,
        alloc: Global,
        part: Part,
        performative: Transfer,
        payload: Bytes,
    ) -> Result<(), AllocError>
        requires { IsWhole part (whole_of part performative payload) }
        ensures ok { OnOk result (self.new ≡ self.old ++ whole_of part performative payload ∷ []) }
        ensures err { OnErr result (self.new ≡ self.old) }
    {
        self.transfers.reserve(1)?;
        self.transfers.push_back_reserved(Outbound {
            part,
            transfer: TransferFrame {
                performative,
                payload,
            },
            behind: Behind::new(alloc),
        });
        Ok(())
    }
}

/// What a session keeps of a delivery that this transfer begins.
#[inline(always)]
fn first_part(transfer: &Transfer) -> Result<Part, AllocError>
    ensures { IfOk result (λ part. part ≡ first_part transfer.now) }
{
    let Some(tag) = &transfer.delivery_tag else {
        return Ok(Part::Untagged);
    };
    if transfer.settled.unwrap_or(false) | transfer.aborted {
        return Ok(Part::Settled);
    }
    Ok(Part::Unsettled(tag.clone()?))
}
