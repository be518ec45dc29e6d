//! The flow state of a link's end that is known to be the sending or the receiving one (part 2, 2.6.7).
ghost use Rattle.std.specs.Prelude.{◌≡◌};
ghost use types.Logic.{sem};
ghost use Rattle.amqp_link_base.specs.Lends.{lends_properties};

use crate::inner::LinkFlowStateInner;
use amqp_session_types::{Boxed, Fields};
use std::marker::{Model, PhantomData};

/// The flow state of an end of a link, which `R` marks as the sending or the receiving one (part 2, 2.6.7).
///
/// A clause sees it as the state itself.
#[derive(Drop)]
pub struct LinkFlowState<R> {
    pub(crate) inner: LinkFlowStateInner,
    role: PhantomData<R>,
}

impl<R> Model for LinkFlowState<R> {
    ghost use Rattle.amqp_link_base.specs.declared.inner.LinkFlowStateInner.{LinkFlowStateInner};

    ghost Value = { LinkFlowStateInner };

    ghost view = { λ s. s.inner };
}

impl<R> LinkFlowState<R> {
    /// An end of a link in this state.
    pub fn new(inner: LinkFlowStateInner) -> Self
        ensures { result ≡ inner }
    {
        LinkFlowState {
            inner,
            role: PhantomData,
        }
    }

    /// The state, which a Flow can show.
    pub fn inner(&self) -> &LinkFlowStateInner
        ensures { result.now ≡ self.now }
    {
        &self.inner
    }

    /// The sender's count as the link was attached.
    pub fn initial_delivery_count(&self) -> u32
        ensures { result ≡ self.now.initial_delivery_count }
    {
        self.inner.initial_delivery_count
    }

    /// How many deliveries were sent, counted from where the sender began: at a receiver, as far as it knows.
    pub fn delivery_count(&self) -> u32
        ensures { result ≡ self.now.delivery_count }
    {
        self.inner.delivery_count
    }

    /// How many more deliveries may be sent.
    pub fn link_credit(&self) -> u32
        ensures { result ≡ self.now.link_credit }
    {
        self.inner.link_credit
    }

    /// Whether the receiver wants the credit used up.
    pub fn drain(&self) -> bool
        ensures { result ≡ self.now.drain }
    {
        self.inner.drain
    }

    /// More about the link's state, by names.
    pub fn properties(&self) -> &Option<Boxed<Fields>>
        ensures { result.now ≡ self.now.properties }
    {
        &self.inner.properties
    }

    /// More about the link's state, by names, to be changed.
    pub fn properties_mut(&mut self) -> &mut Option<Boxed<Fields>>
        ensures* writes_back { sem 𝓛 (lends_properties R.row self.entry result) }
        ensures value { result.now ≡ self.old.properties }
    {
        &mut self.inner.properties
    }

    /// Puts what `f` makes of the initial delivery count in its place.
    pub fn initial_delivery_count_mut<F: Fn(u32) -> u32>(&mut self, f: F)
        requires { F.pre f self.old.initial_delivery_count }
        ensures put { F.post f self.old.initial_delivery_count self.new.initial_delivery_count }
        ensures others { self.new ≡ record self.old
            { initial_delivery_count = self.new.initial_delivery_count } }
    {
        self.inner.initial_delivery_count = f(self.inner.initial_delivery_count);
    }

    /// Puts what `f` makes of the delivery count in its place.
    pub fn delivery_count_mut<F: Fn(u32) -> u32>(&mut self, f: F)
        requires { F.pre f self.old.delivery_count }
        ensures put { F.post f self.old.delivery_count self.new.delivery_count }
        ensures others { self.new ≡ record self.old { delivery_count = self.new.delivery_count } }
    {
        self.inner.delivery_count = f(self.inner.delivery_count);
    }
}
