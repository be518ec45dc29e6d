//! The state of a link (part 2, 2.6.7).
ghost use Rattle.std.specs.Prelude.{◌≡◌, MatchResult, Some, None};
ghost use Rattle.amqp_session_performatives.specs.LinkFlow.{link_flow};

use crate::Flow;
use amqp_session_types::{Boxed, Fields, Handle};
use std::alloc::AllocError;
use thiserror::Error;

/// The state of a link: a flow without the fields that tell its session's (part 2, 2.7.4).
#[derive(Debug, PartialEq, Drop)]
pub struct LinkFlow {
    /// The link.
    pub handle: Handle,
    /// The delivery count of the link's sending end, as the sender of the flow knows it.
    pub delivery_count: Option<u32>,
    /// How many more deliveries the receiving end takes.
    pub link_credit: Option<u32>,
    /// How many deliveries the sending end has.
    pub available: Option<u32>,
    /// Whether the sending end is to use up its credit.
    pub drain: bool,
    /// Whether the receiver of the flow is to answer with its own state.
    pub echo: bool,
    /// More about the link's state, by names.
    pub properties: Option<Boxed<Fields>>,
}

/// A flow has no handle, so that it tells the state of its session alone.
#[derive(Debug, Clone, Copy, PartialEq, Eq, Error)]
pub enum MissingHandle {
    /// There is no handle.
    #[error("the flow has no handle")]
    MissingHandle,
}

impl Clone for LinkFlow {
    ghost is_clone = { λ x y. y ≡ x };

    fn clone(&self) -> Result<Self, AllocError> {
        Ok(LinkFlow {
            handle: self.handle,
            delivery_count: self.delivery_count,
            link_credit: self.link_credit,
            available: self.available,
            drain: self.drain,
            echo: self.echo,
            properties: self.properties.clone()?,
        })
    }
}

impl TryFrom<Flow> for LinkFlow {
    type Error = MissingHandle;

    ghost try_from_gives = { λ f r. MatchResult r (λ l. link_flow f ≡ Some l) (λ _. link_flow f ≡ None) };

    /// The state of the link that a flow has the handle of.
    ///
    /// Errors: `MissingHandle` exactly where it has none.
    fn try_from(flow: Flow) -> Result<Self, MissingHandle> {
        let Flow {
            handle,
            delivery_count,
            link_credit,
            available,
            drain,
            echo,
            properties,
            ..
        } = flow;
        match handle {
            Some(handle) => Ok(LinkFlow {
                handle,
                delivery_count,
                link_credit,
                available,
                drain,
                echo,
                properties,
            }),
            None => Err(MissingHandle::MissingHandle),
        }
    }
}
