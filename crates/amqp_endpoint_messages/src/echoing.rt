//! What goes back to a receiver that settles once the sender did (part 2, 2.6.12, 2.7.6, 2.8.3).
ghost use Rattle.std.specs.Prelude.{◌≡◌, ◌+◌, ◌≤◌, ◌<◌, ◌++◌, ◌∷◌, [], All, IfOk, false, true, if◌then◌else◌};
ghost use Rattle.std.specs.Prelude.{length};
ghost use Rattle.std.specs.Vec.{vec_capacity, vec_len};
ghost use Rattle.std.specs.VecDeque.{deque_capacity, deque_len};
ghost use Rattle.amqp_session_core.specs.Disposing.{AreCopies};
ghost use Rattle.amqp_endpoint_messages.specs.Dispositions.{SendsEach, frames_of};
ghost use Rattle.amqp_endpoint_attached.specs.Linked.{gives};
ghost use Rattle.amqp_endpoint_messages.specs.Echoing.{ServesFor, barred, each_fits, echo, echoes_of, going};

use crate::dispositions::{is_read, send_one};
use crate::measuring::{fits, state_fits};
use amqp_endpoint_attached::LinkSession;
use amqp_session_core::{LinkRelay, Session};
use amqp_session_performatives::{Disposition, SessionFrame};
use amqp_session_states::DeliveryState;
use amqp_session_types::Role;
use std::alloc::{AllocError, Global};
use std::collections::VecDeque;

/// What is made ready for what goes back of a disposition of the peer.
#[derive(Drop)]
pub struct Echoes {
    /// Whether the peer takes each Disposition that may go back, whichever run it settles (part 2, 2.4.1).
    pub(crate) fits: bool,
    /// The state that is told back.
    pub(crate) state: Option<DeliveryState>,
    /// Copies of it, one for each Disposition that may go back.
    pub(crate) copies: Vec<Option<DeliveryState>>,
    /// Room for the runs of which none goes back. None is there yet.
    pub(crate) barred: Vec<(u32, u32)>,
}

impl Echoes {
    /// Whether the peer takes each Disposition that may go back, whichever run it settles (part 2, 2.4.1).
    pub fn fit(&self) -> bool
        ensures { result ≡ self.now.fits }
    {
        self.fits
    }
}

/// Makes ready what goes back of a disposition of the peer that tells this state, for so many runs of deliveries at
/// most (part 2, 2.6.12, 2.8.3): copies of the state, and room for the runs of which nothing may go back. It is refused
/// where there is no memory.
pub fn make_echoes(
    alloc: Global,
    limit: u32,
    state: &Option<DeliveryState>,
    count: usize,
) -> Result<Echoes, AllocError>
    ensures state { IfOk result (λ echoes. echoes.state ≡ state.now) }
    ensures fits { IfOk result (λ echoes. echoes.fits ≡ each_fits limit state.now) }
    ensures serves { IfOk result (ServesFor limit count) }
{
    let fits = each_fits(limit, state);
    let told = state.clone()?;
    let copies = copies(alloc, &told, count)?;
    let barred = Vec::with_capacity(alloc, barred_most(fits, count))?;
    Ok(Echoes {
        fits,
        state: told,
        copies,
        barred,
    })
}

/// Whether the peer takes each Disposition that tells the state back, whichever run it settles (part 2, 2.4.1).
fn each_fits(limit: u32, state: &Option<DeliveryState>) -> bool
    ensures { result ≡ each_fits limit state.now }
{
    match state {
        Some(state) => state_fits(limit, state),
        None => 512 <= limit,
    }
}

/// Of how many of so many runs nothing goes back at most.
fn barred_most(fits: bool, count: usize) -> usize
    ensures { result ≡ (if fits then 0 else count) }
{
    if fits { 0 } else { count }
}

/// The Disposition by which a sender settles a run of deliveries, and tells this state of them.
fn echo(run: (u32, u32), state: Option<DeliveryState>) -> Disposition
    ensures { result ≡ echo state run }
{
    Disposition {
        role: Role::Sender,
        first: run.0,
        last: Some(run.1),
        settled: true,
        state,
        batchable: false,
    }
}

/// So many copies of a state.
fn copies(
    alloc: Global,
    state: &Option<DeliveryState>,
    count: usize,
) -> Result<Vec<Option<DeliveryState>>, AllocError>
    ensures { IfOk result (λ copies. AreCopies state.now copies.items count) }
{
    let mut copies = Vec::with_capacity(alloc, count)?;
    for _ in 0..count {
        copies.push_reserved(state.clone()?);
    }
    Ok(copies)
}

/// Settles those of these runs of deliveries, each told by its first and its last number, which a disposition of the
/// peer wants echoed (part 2, 2.6.12, 2.7.6, 2.8.3): for each, in order, a Disposition of the sender goes back,
/// settled, with the state that was made ready, where it fits the limit. Answers the others, in order: nothing goes
/// back of them. There are none where what was made ready fits whichever run it settles.
/// There must be room for as many frames as there are runs, and what was made ready serves. It takes no memory.
pub fn send_echoes(
    session: &mut LinkSession,
    limit: u32,
    runs: &[(u32, u32)],
    echoes: Echoes,
    out: &mut VecDeque<SessionFrame>,
) -> Vec<(u32, u32)>
    requires serves { ServesFor limit (length runs.now) echoes }
    requires spare { deque_len out.old + length runs.now ≤ deque_capacity out.old }
    ensures sent { SendsEach gives session.old.session (echoes_of echoes.state (going limit echoes.state runs.now))
        session.new.session }
    ensures rest { session.new ≡ record session.old { session = session.new.session } }
    ensures added { out.new.items ≡ out.old.items
        ++ frames_of session.old.session.fields (echoes_of echoes.state (going limit echoes.state runs.now)) }
    ensures barred { result.items ≡ barred limit echoes.state runs.now }
    ensures none { echoes.fits ≡ true → result.items ≡ [] }
    ensures few { deque_len out.new ≤ deque_len out.old + length runs.now }
    ensures capacity { deque_capacity out.new ≡ deque_capacity out.old }
{
    let Echoes {
        fits,
        state,
        mut copies,
        mut barred,
    } = echoes;
    send_each(
        &mut session.session,
        limit,
        fits,
        runs,
        &state,
        &mut copies,
        &mut barred,
        out,
    );
    barred
}

/// The same of the session alone, with copies of this state: where each Disposition fits, none is measured.
fn send_each<R: LinkRelay>(
    session: &mut Session<R>,
    limit: u32,
    fit: bool,
    runs: &[(u32, u32)],
    _state: &Option<DeliveryState>,
    copies: &mut Vec<Option<DeliveryState>>,
    bars: &mut Vec<(u32, u32)>,
    out: &mut VecDeque<SessionFrame>,
)
    requires each { All (λ s. s ≡ _state.now) copies.old.items }
    requires enough { length runs.now ≤ length copies.old.items }
    requires fit { fit ≡ true → each_fits limit _state.now ≡ true }
    requires room { fit ≡ false → vec_len bars.old + length runs.now ≤ vec_capacity bars.old }
    requires spare { deque_len out.old + length runs.now ≤ deque_capacity out.old }
    ensures sent { SendsEach R.gives session.old (echoes_of _state.now (going limit _state.now runs.now))
        session.new }
    ensures added { out.new.items ≡ out.old.items
        ++ frames_of session.old.fields (echoes_of _state.now (going limit _state.now runs.now)) }
    ensures barred { bars.new.items ≡ bars.old.items ++ barred limit _state.now runs.now }
    ensures none { fit ≡ true → bars.new.items ≡ bars.old.items }
    ensures few { deque_len out.new ≤ deque_len out.old + length runs.now }
    ensures capacity { deque_capacity out.new ≡ deque_capacity out.old }
{
    for run in runs {
        let state = copies.pop().flatten();
        send_or_bar(session, limit, fit, *run, state, bars, out);
    }
}

/// The Disposition that settles a run goes back, where it fits the limit. Else the run is barred. There is room for
/// either.
fn send_or_bar<R: LinkRelay>(
    session: &mut Session<R>,
    limit: u32,
    fit: bool,
    run: (u32, u32),
    state: Option<DeliveryState>,
    bars: &mut Vec<(u32, u32)>,
    out: &mut VecDeque<SessionFrame>,
)
    requires fit { fit ≡ true → each_fits limit state ≡ true }
    requires room { fit ≡ false → vec_len bars.old < vec_capacity bars.old }
    requires spare { deque_len out.old < deque_capacity out.old }
    ensures sent { SendsEach R.gives session.old (echoes_of state (going limit state (run ∷ []))) session.new }
    ensures fields { session.new.fields ≡ session.old.fields }
    ensures added { out.new.items ≡ out.old.items
        ++ frames_of session.old.fields (echoes_of state (going limit state (run ∷ []))) }
    ensures barred { bars.new.items ≡ bars.old.items ++ barred limit state (run ∷ []) }
    ensures none { fit ≡ true → bars.new.items ≡ bars.old.items }
    ensures len { deque_len out.new ≤ deque_len out.old + 1 }
    ensures capacity { deque_capacity out.new ≡ deque_capacity out.old }
    ensures barred_len { vec_len bars.new ≤ vec_len bars.old + 1 }
    ensures barred_capacity { vec_capacity bars.new ≡ vec_capacity bars.old }
{
    let told = echo(run, state);
    is_read(&told);
    if fit {
        send_one(session, told, out);
        return;
    }
    if fits(limit, &told) {
        send_one(session, told, out);
        return;
    }
    bars.push_reserved(run);
}
