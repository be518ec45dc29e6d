//! Two endpoints with the streams between them.
ghost use Rattle.std.specs.Prelude.{◌≡◌, ◌⊎◌, length, Some, None, IfErr, IfOk, OnOk};
ghost use Rattle.amqp_endpoint_model.specs.Said.{said};
ghost use Rattle.amqp_endpoint_model.specs.Step.{refusal_of_settings};
ghost use Rattle.amqp_endpoint_model.specs.declared.error.EndpointError.TheVariants.{Memory};
ghost use Rattle.amqp_endpoint_core.specs.WorldSaid.{did_said, feed_said, texts};
ghost use Rattle.amqp_endpoint_core.specs.WorldState.{IsNewWorld, stream_to, way_from};
ghost use Rattle.amqp_endpoint_core.specs.WorldStep.{BreaksBoth, CallsAt, CallsOne, Carries, MovesFrom, WorldStep};
ghost use Rattle.amqp_endpoint_core.specs.WorldStep.{fault_breaks_off, has_broken_off, is_the_worlds};
ghost use Rattle.amqp_endpoint_core.specs.WorldStep.{refusal_of_either};

use crate::Endpoint;
use crate::carrying::carry;
use crate::reply::{Did, Moved};
use crate::step::{End, Step};
use amqp_endpoint_model::{Answer, Call, EndpointError, Fed, SessionRelay, Settings};
use bytes::BytesMut;
use std::alloc::Global;
use std::marker::Model;

/// Two endpoints, and for each the bytes pulled of the other one that it is still to be fed. A clause sees it as a
/// `WorldState`.
pub(crate) struct World<S: SessionRelay> {
    alloc: Global,
    a: Endpoint<S>,
    b: Endpoint<S>,
    to_a: BytesMut,
    to_b: BytesMut,
}

impl<S: SessionRelay> Drop for World<S> {
    fn drop(self) {
        let World {
            alloc: _,
            a: _,
            b: _,
            to_a: _,
            to_b: _,
        } = self;
    }
}

impl<S: SessionRelay> Model for World<S> {
    ghost use Rattle.amqp_endpoint_core.specs.WorldState.{WorldState};

    ghost Value = { WorldState S };

    ghost view = { λ w. record { a = w.a; b = w.b; to_a = w.to_a.items; to_b = w.to_b.items } };
}

impl<S: SessionRelay> World<S> {
    /// Two new endpoints, with nothing on its way. The refusals are those of `Endpoint::new` with the first settings,
    /// and then with the second ones.
    pub(crate) fn new(
        alloc: Global,
        settings_a: Settings,
        settings_b: Settings,
    ) -> Result<Self, EndpointError>
        ensures accepted { OnOk result ((refusal_of_settings settings_a ≡ None)
            × (refusal_of_settings settings_b ≡ None)) }
        ensures ok { IfOk result (λ w. IsNewWorld S.does settings_a settings_b w) }
        ensures err { IfErr result (λ e. (e ≡ Memory)
            ⊎ (refusal_of_either settings_a settings_b ≡ Some e)) }
    {
        let a = Endpoint::new(alloc, settings_a)?;
        let b = Endpoint::new(alloc, settings_b)?;
        Ok(World {
            alloc,
            a,
            b,
            to_a: BytesMut::new(alloc),
            to_b: BytesMut::new(alloc),
        })
    }

    /// One step, and what it did.
    pub(crate) fn step(&mut self, step: &Step) -> Did
        ensures { WorldStep S.does self.old step.now (did_said result) self.new }
    {
        match step {
            Step::Call(end, call) => Did::Called(self.call(*end, call)),
            Step::Move(from, count) => Did::Moved(self.move_from(*from, *count)),
            Step::Break => {
                self.break_off();
                Did::Broken
            }
        }
    }

    /// How many answers of bytes the end `A` still gives.
    pub(crate) fn queued_a(&self) -> usize
        ensures { result ≡ length self.now.a.queue }
    {
        self.a.queued()
    }

    /// How many answers of bytes the end `B` still gives.
    pub(crate) fn queued_b(&self) -> usize
        ensures { result ≡ length self.now.b.queue }
    {
        self.b.queued()
    }

    fn call(&mut self, end: End, call: &Call) -> Answer
        ensures { CallsAt S.does end call.now (said result) self.old self.new }
    {
        match end {
            End::A => call_at(&mut self.a, call),
            End::B => call_at(&mut self.b, call),
        }
    }

    /// Bytes are moved. Where the feed broke its end off, both ends break off behind it.
    fn move_from(&mut self, from: End, count: u64) -> Moved
        ensures { MovesFrom S.does from count (texts result.pulled.items) (feed_said result.answer)
            self.old self.new }
    {
        let moved = self.carry(from, count);
        if has_broken_off(&moved.answer) {
            self.break_off();
        }
        moved
    }

    fn carry(&mut self, from: End, count: u64) -> Moved
        ensures carries { Carries S.does count (texts result.pulled.items) (feed_said result.answer)
            (way_from from self.old) (way_from from self.new) }
        ensures back { stream_to from self.new ≡ stream_to from self.old }
    {
        match from {
            End::A => carry(self.alloc, &mut self.a, &mut self.to_b, &mut self.b, count),
            End::B => carry(self.alloc, &mut self.b, &mut self.to_a, &mut self.a, count),
        }
    }

    /// Both ends break off, and what was on its way is lost.
    fn break_off(&mut self)
        ensures { BreaksBoth S.does self.old self.new }
    {
        self.a.break_off();
        self.b.break_off();
        self.to_a = BytesMut::new(self.alloc);
        self.to_b = BytesMut::new(self.alloc);
    }
}

/// A call of an end, if it isn't the world's own.
fn call_at<S: SessionRelay>(end: &mut Endpoint<S>, call: &Call) -> Answer
    ensures { CallsOne S.does end.old call.now (said result) end.new }
{
    if is_the_worlds(call) {
        return Answer::Refused(EndpointError::IllegalState);
    }
    end.call(call)
}

/// Whether a call is the world's own: it feeds, pulls or breaks off.
fn is_the_worlds(call: &Call) -> bool
    ensures { result ≡ is_the_worlds call.now }
{
    match call {
        Call::Feed(_) | Call::Pull | Call::BreakOff => true,
        _ => false,
    }
}

/// Whether a feed broke its end off.
fn has_broken_off(answer: &Result<Fed, EndpointError>) -> bool
    ensures { result ≡ has_broken_off (feed_said answer.now) }
{
    match answer {
        Ok(fed) => breaks_off(&fed.fault),
        Err(_) => false,
    }
}

/// Whether a feed ended so that there is no connection any more: by a fault of which no Close tells.
fn breaks_off(fault: &Option<EndpointError>) -> bool
    ensures { result ≡ fault_breaks_off fault.now }
{
    match fault {
        Some(
            EndpointError::Memory
            | EndpointError::NumbersUsedUp
            | EndpointError::ProtocolHeaderMismatch,
        ) => true,
        _ => false,
    }
}
