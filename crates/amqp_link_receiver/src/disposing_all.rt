//! How a receiving link disposes of several deliveries at once (part 2, 2.6.12, 2.7.6 and 2.8.3).
ghost use Rattle.std.specs.Prelude.{◌≡◌, map, Ok, IfOk, IfErr, OnErr};
ghost use Rattle.amqp_link_receiver.specs.DisposingAll.{AllDisposed, AllPrepared, InOrder, NotNamed, committed};
ghost use Rattle.amqp_link_receiver.specs.DisposingAll.{each_disposed, goes_on, named_all, one_disposed};
ghost use Rattle.amqp_link_receiver.specs.DisposingAll.{run_disposition, run_of, runs_of, same_mode};

use crate::disposing::{DisposeError, is_settled};
use crate::link::ReceiverLink;
use crate::{Disposable, DisposeRefusal};
use amqp_link_unsettled::{Iter, UnsettledMap};
use amqp_session_performatives::Disposition;
use amqp_session_states::DeliveryState;
use amqp_session_types::{DeliveryTag, ReceiverSettleMode, Role};
use std::alloc::{AllocError, Global};
use std::marker::Model;

/// How many deliveries a disposition reaches at most (part 2, 2.8.10).
const LONGEST_RUN: u32 = 1 << 31;

/// Deliveries whose numbers follow each other, and whose transfers name the same settle mode.
#[derive(Clone, Copy)]
pub(crate) struct Run {
    first: u32,
    last: u32,
    rcv_settle_mode: Option<ReceiverSettleMode>,
}

impl Run {
    /// The run of one delivery.
    fn of(delivery: &Disposable) -> Self
        ensures { result ≡ run_of delivery.now }
    {
        Run {
            first: delivery.number,
            last: delivery.number,
            rcv_settle_mode: delivery.rcv_settle_mode,
        }
    }

    /// Whether the delivery is the next of the run.
    fn goes_on(&self, delivery: &Disposable) -> bool
        ensures { result ≡ goes_on self.now delivery.now }
    {
        self.last < delivery.number
            && delivery.number - self.last == 1
            && same_mode(self.rcv_settle_mode, delivery.rcv_settle_mode)
            && delivery.number.saturating_sub(self.first) < LONGEST_RUN
    }

    /// The disposition that tells the state of the deliveries.
    fn disposition(
        &self,
        link: ReceiverSettleMode,
        state: &DeliveryState,
        settled: Option<bool>,
    ) -> Result<Disposition, AllocError>
        ensures { IfOk result (λ d. d ≡ run_disposition link state.now settled self.now) }
    {
        Ok(Disposition {
            role: Role::Receiver,
            first: self.first,
            last: Some(self.last),
            settled: is_settled(link, self.rcv_settle_mode, settled),
            state: Some(state.clone()?),
            batchable: false,
        })
    }
}

/// Deliveries that are to be disposed of at once, with all that this takes. A clause sees all of it.
#[derive(Drop)]
pub struct PreparedDisposal {
    named: UnsettledMap<Disposable>,
    states: Vec<DeliveryState>,
    told: Vec<Disposition>,
    settled: Option<bool>,
}

impl Model for PreparedDisposal {
    ghost use Rattle.amqp_link_receiver.specs.DisposingAll.{Prepared};

    ghost Value = { Prepared };

    ghost view = { λ p. record {
      named = p.named.entries;
      states = p.states.items;
      told = p.told.items;
      asked = p.settled;
    } };
}

impl PreparedDisposal {
    /// The Dispositions that are to be sent, in the order of the numbers of the deliveries (part 2, 2.7.6).
    pub fn told(&self) -> &[Disposition]
        ensures { result.now ≡ self.now.told }
    {
        &self.told
    }
}

impl ReceiverLink {
    /// Disposes of the deliveries with these tags, all of them or none, and answers the Dispositions that are to be
    /// sent, in the order of the numbers of the deliveries (part 2, 2.7.6): one for each run of numbers that follow
    /// each other and of which the transfers name the same settle mode; of more than 2^31 such deliveries one for
    /// each 2^31. Of no tags there is none.
    ///
    /// Each delivery is settled as is asked; where that says nothing, it is by the mode of its transfer, or else the
    /// link's: `First` settles, and `Second` doesn't (part 2, 2.8.3). Of what is settled nothing is kept, and of the
    /// others the state is noted.
    ///
    /// Errors: `Refused` for the first tag that `disposable` refuses, with what that says, or that was named before,
    /// with `AlreadyDisposed`; and `Memory`. Nothing changes then.
    pub fn dispose_all(
        &mut self,
        alloc: Global,
        tags: &[DeliveryTag],
        state: DeliveryState,
        settled: Option<bool>,
    ) -> Result<Vec<Disposition>, DisposeError>
        ensures ok { IfOk result (λ told. AllDisposed (named_all self.old tags.now) self.old state
            settled told.items self.new) }
        ensures refused { IfErr result (λ error. NotNamed (named_all self.old tags.now) error) }
        ensures err { OnErr result (self.new ≡ self.old) }
    {
        let prepared = self.prepare_dispose_all(alloc, tags, state, settled)?;
        Ok(self.commit_dispose_all(alloc, prepared))
    }

    /// Makes ready what `dispose_all` does, with the Dispositions that it answers. Nothing changes yet.
    ///
    /// Errors: those of `dispose_all`.
    pub fn prepare_dispose_all(
        &self,
        alloc: Global,
        tags: &[DeliveryTag],
        state: DeliveryState,
        settled: Option<bool>,
    ) -> Result<PreparedDisposal, DisposeError>
        ensures ok { IfOk result (λ prepared.
            AllPrepared (named_all self.now tags.now) self.now state settled prepared) }
        ensures refused { IfErr result (λ error. NotNamed (named_all self.now tags.now) error) }
    {
        let named = self.name_all(alloc, tags)?;
        let link = self.base.terms.rcv_settle_mode;
        let runs = runs_of(alloc, &in_order(alloc, named.iter())?)?;
        let told = dispositions(alloc, &runs, link, &state, settled)?;
        let states = vec![in alloc; state; named.len()]?;
        Ok(PreparedDisposal {
            named,
            states,
            told,
            settled,
        })
    }

    /// Disposes of the deliveries as it was made ready by this link, and answers the Dispositions that are to be sent.
    /// It takes no memory.
    pub fn commit_dispose_all(
        &mut self,
        alloc: Global,
        prepared: PreparedDisposal,
    ) -> Vec<Disposition>
        ensures told { result.items ≡ prepared.told }
        ensures link { self.new ≡ committed self.old prepared }
    {
        let PreparedDisposal {
            named,
            states,
            told,
            settled,
        } = prepared;
        self.dispose_each(alloc, &named, states, settled);
        told
    }

    /// What each delivery is disposed of by, in the order in which they are named.
    #[tactic(auto, using(crate::proofs::Naming::rules))]
    fn name_all(
        &self,
        alloc: Global,
        tags: &[DeliveryTag],
    ) -> Result<UnsettledMap<Disposable>, DisposeError>
        ensures ok { IfOk result (λ named. named_all self.now tags.now ≡ Ok named.entries) }
        ensures refused { IfErr result (λ error. NotNamed (named_all self.now tags.now) error) }
    {
        let mut named = UnsettledMap::new(alloc);
        named.reserve(tags.len())?;
        let mut rest = tags;
        while let Some((tag, others)) = rest.split_first() {
            if named.contains(tag) {
                return Err(DisposeError::Refused(DisposeRefusal::AlreadyDisposed));
            }
            let delivery = self.disposable(tag)?;
            named.insert_reserved(tag.clone()?, delivery);
            rest = others;
        }
        Ok(named)
    }

    /// Disposes of each delivery, by a state for each.
    fn dispose_each(
        &mut self,
        alloc: Global,
        named: &UnsettledMap<Disposable>,
        states: Vec<DeliveryState>,
        settled: Option<bool>,
    )
        ensures { self.new ≡ each_disposed self.old named.now.entries states.items settled }
    {
        let mut rest = named.iter();
        let mut states = states.into_iter();
        while let Some((tag, delivery)) = rest.next() {
            let Some(state) = states.next() else {
                return;
            };
            self.dispose_one(alloc, tag, *delivery, state, settled);
        }
    }

    /// Disposes of the delivery with this tag.
    fn dispose_one(
        &mut self,
        alloc: Global,
        tag: &DeliveryTag,
        delivery: Disposable,
        state: DeliveryState,
        settled: Option<bool>,
    )
        ensures { self.new ≡ one_disposed self.old (tag.now, delivery) state settled }
    {
        let link = self.base.terms.rcv_settle_mode;
        let settled = is_settled(link, delivery.rcv_settle_mode, settled);
        self.end.dispose_reserved(alloc, tag, settled, state);
    }
}

/// Whether the transfers of two deliveries name the same settle mode.
fn same_mode(one: Option<ReceiverSettleMode>, other: Option<ReceiverSettleMode>) -> bool
    ensures { result ≡ same_mode one other }
{
    match (one, other) {
        (None, None) => true,
        (Some(one), Some(other)) => one == other,
        _ => false,
    }
}

/// Deliveries in the order of their numbers.
fn in_order(alloc: Global, named: Iter<'_, Disposable>) -> Result<Vec<Disposable>, AllocError>
    ensures { IfOk result (λ v. InOrder (map (λ e. e.1) named.entry) v.items) }
{
    let mut deliveries = collected(alloc, named)?;
    deliveries.sort_unstable_by_key(
        |delivery: &Disposable| -> u32
            ensures { result ≡ delivery.now.number }
        { delivery.number },
    );
    Ok(deliveries)
}

/// What each delivery is disposed of by.
fn collected(alloc: Global, named: Iter<'_, Disposable>) -> Result<Vec<Disposable>, AllocError>
    ensures { IfOk result (λ v. v.items ≡ map (λ e. e.1) named.entry) }
{
    let mut deliveries = Vec::new(alloc);
    let mut rest = named;
    while let Some((_, delivery)) = rest.next() {
        deliveries.push(*delivery)?;
    }
    Ok(deliveries)
}

/// The runs of deliveries in the order of their numbers.
fn runs_of(alloc: Global, deliveries: &[Disposable]) -> Result<Vec<Run>, AllocError>
    ensures { IfOk result (λ v. v.items ≡ runs_of deliveries.now) }
{
    let mut runs = Vec::new(alloc);
    let Some((first, mut rest)) = deliveries.split_first() else {
        return Ok(runs);
    };
    let mut run = Run::of(first);
    while let Some((delivery, others)) = rest.split_first() {
        rest = others;
        if run.goes_on(delivery) {
            run.last = delivery.number;
        } else {
            runs.push(run)?;
            run = Run::of(delivery);
        }
    }
    runs.push(run)?;
    Ok(runs)
}

/// The disposition of each run.
fn dispositions(
    alloc: Global,
    runs: &[Run],
    link: ReceiverSettleMode,
    state: &DeliveryState,
    settled: Option<bool>,
) -> Result<Vec<Disposition>, AllocError>
    ensures { IfOk result (λ v. v.items ≡ map (run_disposition link state.now settled) runs.now) }
{
    let mut told = Vec::new(alloc);
    let mut rest = runs;
    while let Some((run, others)) = rest.split_first() {
        told.push(run.disposition(link, state, settled)?)?;
        rest = others;
    }
    Ok(told)
}
