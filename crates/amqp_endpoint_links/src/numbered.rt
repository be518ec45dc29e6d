//! A link that bears the number by which its endpoint names it.
ghost use Rattle.amqp_endpoint_links.specs.Numbering.{naming, numbered};

use amqp_session_core::{LinkRelay, RelayError, TransferAnswer};
use amqp_session_performatives::{Attach, Detach, LinkFlow, Transfer};
use amqp_session_states::DeliveryState;
use amqp_session_types::{DeliveryTag, Role};
use bytes::Bytes;
use std::alloc::Global;

/// A link with the number by which its endpoint names it, wherever it stands: in a session, by its handles, or at rest.
///
/// It takes each frame as the link does, and its number stays.
#[derive(Debug, Drop)]
pub struct Numbered<R> {
    /// The number of the link. No other link of the endpoint has it, nor ever gets it.
    pub number: u64,
    /// The link.
    pub link: R,
}

impl<R: LinkRelay> LinkRelay for Numbered<R> {
    ghost use Rattle.amqp_endpoint_links.specs.Numbering.{naming, numbered};

    type Attached = R::Attached;

    type Transferred = R::Transferred;

    type Detached = R::Detached;

    ghost gives = { numbered R.gives };

    ghost tells = { R.tells };

    ghost names = { naming R.names };

    fn on_incoming_attach(
        &mut self,
        alloc: Global,
        attach: &Attach,
    ) -> Result<R::Attached, RelayError> {
        self.link.on_incoming_attach(alloc, attach)
    }

    fn on_incoming_flow(
        &mut self,
        alloc: Global,
        flow: LinkFlow,
    ) -> Result<Option<LinkFlow>, RelayError> {
        self.link.on_incoming_flow(alloc, flow)
    }

    fn on_incoming_transfer(
        &mut self,
        alloc: Global,
        transfer: Transfer,
        payload: Bytes,
    ) -> Result<TransferAnswer<R::Transferred>, RelayError> {
        self.link.on_incoming_transfer(alloc, transfer, payload)
    }

    fn takes_at_once(&mut self, transfer: &Transfer, payload: &Bytes, message: u64) -> bool {
        if !self.link.takes_at_once(transfer, payload, message) {
            return false;
        }
        true
    }

    fn on_incoming_disposition(
        &mut self,
        tag: &DeliveryTag,
        role: Role,
        settled: bool,
        state: Option<DeliveryState>,
    ) -> bool {
        self.link.on_incoming_disposition(tag, role, settled, state)
    }

    fn on_incoming_detach(
        &mut self,
        alloc: Global,
        detach: &Detach,
    ) -> Result<R::Detached, RelayError> {
        self.link.on_incoming_detach(alloc, detach)
    }
}
