//! How a session takes dispositions and sends them (part 2, 2.7.6).
ghost use Rattle.std.specs.Prelude.{◌≡◌, ℕ, List, ◌≤◌, [], ◌<◌, length, map, All, IfOk, IfErr, IfSome, OnOk, vec_len};
ghost use Rattle.std.specs.Prelude.{vec_capacity, option_copied};
ghost use Rattle.smallvec.specs.SmallVec.{small_vec_len};
ghost use Rattle.amqp_session_core.specs.Echoes.{echo_of, opposite, runs_of, without};
ghost use Rattle.amqp_session_core.specs.Disposing.{AreTouched, StandsIn, each_number, HasRoomFor, Walked, AreCopies};
ghost use Rattle.amqp_session_core.specs.Disposing.{behind_runs, deliveries_of, settled_own, ReachesOne};
ghost use Rattle.amqp_session_core.specs.Steps.{table_of, with_table};
ghost use Rattle.amqp_session_outgoing.specs.Outside.{outside};
ghost use Rattle.amqp_session_outgoing.specs.Range.{range_of};
ghost use Rattle.amqp_session_outgoing.specs.Table.{IsUnsettled};
ghost use Rattle.amqp_session_outgoing.specs.Touched.{Touches};
ghost use Rattle.amqp_session_core.specs.Told.{DispositionTaken, DispositionSent};

use crate::batch::{BehindFrame, TransferFrame};
use crate::relay::LinkRelay;
use crate::session::Session;
use amqp_session_outgoing::{Delivery, DeliveryRange, Outgoing, Unsettled};
use amqp_session_performatives::{Disposition, SessionFrame, SessionFrameBody};
use amqp_session_states::DeliveryState;
use amqp_session_types::{DeliveryTag, OutputHandle, Role, SessionError};
use slab::Slab;
use smallvec::SmallVec;
use std::alloc::{AllocError, Global};

/// A delivery that a disposition touches (part 2, 2.7.6).
#[derive(Debug, Drop)]
pub struct Touched {
    /// Its number.
    pub number: u32,
    /// The own handle of its link.
    pub handle: OutputHandle,
    /// What the link calls it.
    pub tag: DeliveryTag,
}

/// How many numbers or runs lie in a value itself: a disposition mostly touches one delivery or a few.
const FEW: usize = 4;

/// Numbers of deliveries, of which up to 4 lie in the value itself.
pub type FewNumbers = SmallVec<u32, FEW>;

/// Runs of consecutive deliveries, each as its first and its last number, of which up to 4 lie in the value itself.
pub type DeliveryRuns = SmallVec<(u32, u32), FEW>;

/// The state of a disposition, once for each delivery, of which one lies in the value itself: a state is large.
pub type StateCopies = SmallVec<Option<DeliveryState>, 1>;

/// The room that a disposition takes on its way to the links. Where it touches one delivery, all but that one's number
/// lies in the value itself; a state that is copied may ask for memory of its own.
#[derive(Debug, Drop)]
pub struct DispositionRoom {
    /// The numbers of the deliveries that it touches, each once, in order from the first of its range.
    pub numbers: Vec<u32>,
    /// Empty, with room for the numbers that are echoed.
    pub echoed: FewNumbers,
    /// Empty, with room for the runs of these.
    pub runs: DeliveryRuns,
    /// The disposition's state, once for each delivery.
    pub states: StateCopies,
}

impl<R: LinkRelay> Session<R> {
    /// The deliveries that a disposition touches, each once, in order from the first of its range (part 2, 2.7.6). It
    /// takes time by the range or by the deliveries that there are, whichever are fewer. It is refused with `Memory`
    /// alone; nothing changes in any case.
    pub fn touched(
        &self,
        alloc: Global,
        disposition: &Disposition,
    ) -> Result<Vec<Touched>, SessionError>
        ensures ok { IfOk result
            (λ touched.
            AreTouched disposition.now (table_of disposition.now.role self.now)
            touched.items) }
        ensures err { IfErr result (λ e. e ≡ SessionError.Memory) }
    {
        let numbers = self.numbers(alloc, disposition)?;
        let mut touched = Vec::with_capacity(alloc, numbers.len())?;
        let deliveries = deliveries_of(disposition.role, &self.outgoing, &self.received);
        tell_touched(deliveries, &numbers, &mut touched)?;
        Ok(touched)
    }

    /// The room that a disposition takes: all memory for its way to the links. It serves as long as the deliveries stay
    /// as they are. It is refused with `Memory` alone; nothing changes in any case.
    pub fn reserve_disposition(
        &self,
        alloc: Global,
        disposition: &Disposition,
    ) -> Result<DispositionRoom, SessionError>
        ensures ok { IfOk result
            (λ room. HasRoomFor disposition.now (table_of disposition.now.role self.now) room) }
        ensures err { IfErr result (λ e. e ≡ SessionError.Memory) }
    {
        let numbers = self.numbers(alloc, disposition)?;
        let echoed = FewNumbers::with_capacity(alloc, numbers.len())?;
        let runs = DeliveryRuns::with_capacity(alloc, numbers.len())?;
        let states = copies(alloc, &disposition.state, numbers.len())?;
        Ok(DispositionRoom {
            numbers,
            echoed,
            runs,
            states,
        })
    }

    /// Takes a disposition for which there is room (part 2, 2.7.6): each unsettled delivery of its range reaches its link,
    /// in order from the first. Answers the runs of consecutive deliveries whose links want an echo, each as its first
    /// and its last number: for each a disposition is to go back (`echoes`). Deliveries that the peer settled, or that
    /// are echoed, are forgotten. It takes no memory.
    pub fn on_incoming_disposition(
        &mut self,
        disposition: &Disposition,
        room: DispositionRoom,
    ) -> DeliveryRuns
        requires { HasRoomFor disposition.now (table_of disposition.now.role self.old) room }
        ensures { DispositionTaken R.gives self.old disposition.now
            (map (echo_of disposition.now) result.items) self.new }
    {
        let DispositionRoom {
            numbers,
            mut echoed,
            mut runs,
            mut states,
        } = room;
        self.walk(disposition, &numbers, &mut states, &mut echoed);
        let settled = if disposition.settled {
            numbers.as_slice()
        } else {
            echoed.as_slice()
        };
        self.settle(disposition.role, settled);
        gather_runs(&echoed, &mut runs);
        runs
    }

    /// Sends a disposition of an own link (part 2, 2.7.6). The deliveries that it settles are forgotten. It takes no
    /// memory, and time by the range or by the deliveries that there are, whichever are fewer: so several dispositions
    /// are sent, all or none, by a caller that has them made before the first.
    pub fn on_outgoing_disposition(&mut self, disposition: Disposition) -> SessionFrame
        ensures { DispositionSent R.gives self.old disposition result self.new }
    {
        self.settle_own(&disposition);
        self.fields
            .frame(SessionFrameBody::Disposition(disposition))
    }

    /// The deliveries that an own disposition settles are forgotten.
    fn settle_own(&mut self, disposition: &Disposition)
        ensures { self.new ≡ settled_own disposition.now self.old }
    {
        if !disposition.settled {
            return;
        }
        let range = DeliveryRange::new(disposition.first, disposition.last);
        self.settle_range(opposite(disposition.role), range);
    }

    /// The deliveries of a range are forgotten, where the peer has this role.
    fn settle_range(&mut self, role: Role, range: DeliveryRange)
        ensures { self.new ≡ with_table role (outside range (table_of role self.old)) self.old }
    {
        match role {
            Role::Receiver => self.outgoing.settle_range(range),
            Role::Sender => self.received.settle_range(range),
        }
    }

    /// The numbers of the unsettled deliveries that a disposition of the peer names.
    fn numbers(&self, alloc: Global, disposition: &Disposition) -> Result<Vec<u32>, AllocError>
        ensures { IfOk result
            (λ numbers.
            Touches (range_of disposition.now.first disposition.now.last)
            (table_of disposition.now.role self.now) numbers.items) }
    {
        let range = DeliveryRange::new(disposition.first, disposition.last);
        match disposition.role {
            Role::Receiver => self.outgoing.touched(alloc, range),
            Role::Sender => self.received.touched(alloc, range),
        }
    }

    /// These deliveries are forgotten, where the peer has this role.
    fn settle(&mut self, role: Role, numbers: &[u32])
        ensures { self.new ≡ with_table role (without (table_of role self.old) numbers.now)
            self.old }
    {
        match role {
            Role::Receiver => settle_sent(&mut self.outgoing, numbers),
            Role::Sender => settle_received(&mut self.received, numbers),
        }
    }

    /// Deliveries reach their links, in order, each with its copy of the disposition's state.
    fn walk(
        &mut self,
        disposition: &Disposition,
        numbers: &[u32],
        states: &mut StateCopies,
        echoed: &mut FewNumbers,
    )
        requires copies { AreCopies disposition.now.state states.old.items (length numbers.now) }
        requires empty { echoed.old.items ≡ [] }
        requires room { length numbers.now ≤ echoed.old.capacity }
        requires there { All (λ n. IsUnsettled (table_of disposition.now.role self.old) n)
            numbers.now }
        ensures walked { Walked R.gives.disposes disposition.now (table_of disposition.now.role self.old)
            numbers.now self.old.links echoed.new.items self.new.links }
        ensures rest { self.new ≡ record self.old { links = self.new.links } }
    {
        let deliveries = deliveries_of(disposition.role, &self.outgoing, &self.received);
        walk(
            &mut self.links,
            deliveries,
            disposition,
            numbers,
            states,
            echoed,
        );
    }
}

/// The unsettled deliveries, where the peer has this role.
fn deliveries_of<'a>(
    role: Role,
    outgoing: &'a Outgoing<TransferFrame, BehindFrame>,
    received: &'a Unsettled,
) -> &'a Unsettled
    ensures { result.now.table ≡ deliveries_of role outgoing.now received.now }
{
    match role {
        Role::Receiver => outgoing.deliveries(),
        Role::Sender => received,
    }
}

/// The other end of a link.
fn opposite(role: Role) -> Role
    ensures { result ≡ opposite role }
{
    match role {
        Role::Sender => Role::Receiver,
        Role::Receiver => Role::Sender,
    }
}

/// So many copies of a state.
fn copies(
    alloc: Global,
    state: &Option<DeliveryState>,
    count: usize,
) -> Result<StateCopies, AllocError>
    ensures { IfOk result (λ states. AreCopies state.now states.items count) }
{
    let mut states = StateCopies::with_capacity(alloc, count)?;
    for _ in 0..count {
        states.push_reserved(state.clone()?);
    }
    Ok(states)
}

/// Deliveries reach their links, in order.
fn walk<R: LinkRelay>(
    links: &mut Slab<R>,
    deliveries: &Unsettled,
    disposition: &Disposition,
    numbers: &[u32],
    states: &mut StateCopies,
    echoed: &mut FewNumbers,
)
    requires copies { AreCopies disposition.now.state states.old.items (length numbers.now) }
    requires empty { echoed.old.items ≡ [] }
    requires room { length numbers.now ≤ echoed.old.capacity }
    requires there { All (λ n. IsUnsettled deliveries.now.table n) numbers.now }
    ensures walked { Walked R.gives.disposes disposition.now deliveries.now.table numbers.now links.old.slots
        echoed.new.items links.new.slots }
    ensures rest { links.new ≡ record links.old { slots = links.new.slots } }
{
    for number in numbers {
        let state = states.pop().flatten();
        if reach_one(links, deliveries.get(*number), disposition, state) {
            echoed.push_reserved(*number);
        }
    }
}

/// A delivery reaches its link. Where that is gone, nothing changes.
pub(crate) fn reach_one<R: LinkRelay>(
    links: &mut Slab<R>,
    delivery: Option<&Delivery>,
    disposition: &Disposition,
    state: Option<DeliveryState>,
) -> bool
    ensures step { IfSome (option_copied delivery.entry)
        (λ d.
        ReachesOne R.gives.disposes d disposition.now state links.old.slots result
        links.new.slots) }
    ensures rest { links.new ≡ record links.old { slots = links.new.slots } }
{
    let Some(delivery) = delivery else {
        return false;
    };
    match links.get_mut(delivery.handle.0 as usize) {
        Some(link) => link.on_incoming_disposition(
            &delivery.tag,
            disposition.role,
            disposition.settled,
            state,
        ),
        None => false,
    }
}

/// Deliveries that were sent are forgotten.
fn settle_sent(outgoing: &mut Outgoing<TransferFrame, BehindFrame>, numbers: &[u32])
    ensures { outgoing.new
        ≡ record outgoing.old { unsettled = without outgoing.old.unsettled numbers.now } }
{
    for number in numbers {
        outgoing.settle(*number);
    }
}

/// Deliveries that came are forgotten.
fn settle_received(received: &mut Unsettled, numbers: &[u32])
    ensures { received.new ≡ record received.old
        { table = without received.old.table numbers.now } }
{
    for number in numbers {
        received.settle(*number);
    }
}

/// The runs of consecutive numbers, each as its first and its last.
fn gather_runs(numbers: &[u32], runs: &mut DeliveryRuns)
    requires empty { runs.old.items ≡ [] }
    requires room { length numbers.now ≤ runs.old.capacity }
    ensures { runs.new.items ≡ runs_of numbers.now }
{
    for number in numbers {
        add_to_runs(*number, runs);
    }
}

/// A number goes on with the last run, or begins another.
fn add_to_runs(number: u32, runs: &mut DeliveryRuns)
    requires room { small_vec_len runs.old < runs.old.capacity }
    ensures added { runs.new.items ≡ behind_runs runs.old.items number }
    ensures room { runs.new.capacity ≡ runs.old.capacity }
{
    let Some((first, last)) = runs.pop() else {
        runs.push_reserved((number, number));
        return;
    };
    if last.wrapping_add(1) == number {
        runs.push_reserved((first, number));
        return;
    }
    runs.push_reserved((first, last));
    runs.push_reserved((number, number));
}

/// The dispositions that go back for these runs: settled, with the same state (part 2, 2.7.6). The state is copied once
/// for each. It is refused where there is no memory; the runs are there still.
pub fn echoes(
    alloc: Global,
    disposition: &Disposition,
    runs: &[(u32, u32)],
) -> Result<Vec<Disposition>, AllocError>
    ensures { IfOk result (λ echoes. echoes.items ≡ map (echo_of disposition.now) runs.now) }
{
    let mut echoes = Vec::with_capacity(alloc, runs.len())?;
    for run in runs {
        echoes.push_reserved(echo(disposition, *run)?);
    }
    Ok(echoes)
}

/// A run goes back, settled.
fn echo(disposition: &Disposition, run: (u32, u32)) -> Result<Disposition, AllocError>
    ensures { IfOk result (λ echo. echo ≡ echo_of disposition.now run) }
{
    let state = disposition.state.clone()?;
    Ok(Disposition {
        role: opposite(disposition.role),
        first: run.0,
        last: Some(run.1),
        settled: true,
        state,
        batchable: false,
    })
}

/// The deliveries of these numbers, each with the own handle of its link and what that calls it. It is refused where
/// there is no memory.
fn tell_touched(
    deliveries: &Unsettled,
    numbers: &[u32],
    touched: &mut Vec<Touched>,
) -> Result<(), AllocError>
    requires empty { touched.old.items ≡ [] }
    requires room { length numbers.now ≤ vec_capacity touched.old }
    requires there { All (λ n. IsUnsettled deliveries.now.table n) numbers.now }
    ensures numbers { OnOk result (each_number touched.new.items ≡ numbers.now) }
    ensures deliveries { OnOk result (All (StandsIn deliveries.now.table) touched.new.items) }
{
    for number in numbers {
        touched.push_reserved(touched_at(deliveries, *number)?);
    }
    Ok(())
}

/// The delivery of this number, with the own handle of its link and what that calls it. It is refused where there is no
/// memory.
fn touched_at(deliveries: &Unsettled, number: u32) -> Result<Touched, AllocError>
    requires { IsUnsettled deliveries.now.table number }
    ensures number { IfOk result (λ touched. touched.number ≡ number) }
    ensures stands { IfOk result (StandsIn deliveries.now.table) }
{
    let delivery = deliveries.get(number).unwrap();
    let handle = delivery.handle;
    let tag = delivery.tag.clone()?;
    Ok(Touched {
        number,
        handle,
        tag,
    })
}
