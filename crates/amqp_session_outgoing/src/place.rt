//! Room for frames behind the transfers that a link has waiting.
ghost use Rattle.std.specs.Prelude.{◌≡◌, ◌+◌, ◌<◌, ◌≤◌, [], length, IsOk, OnOk, OnErr, vec_len, vec_capacity};
ghost use Rattle.amqp_session_outgoing.specs.Fields.{capacity_of, HoldsNone};

use std::alloc::{AllocError, Global};
use std::marker::Model;
use std::mem;

/// Room for Flows and Detaches behind the transfers that a link has waiting. A contract sees how many frames it holds
/// at most: those that stand there already, and those that come.
#[derive(Drop)]
pub struct Place<F> {
    frames: Option<Vec<F>>,
}

impl<F> Model for Place<F> {
    ghost use Rattle.std.specs.Prelude.{ℕ};
    ghost use Rattle.amqp_session_outgoing.specs.Fields.{capacity_of, HoldsNone};

    ghost Value = { ℕ };

    ghost view = { λ p. capacity_of p.frames };

    ghost invariant = { λ p. HoldsNone p.frames };
}

impl<F: Drop> Place<F> {
    /// No room. It takes no memory.
    pub fn none() -> Self
        ensures { result ≡ 0 }
    {
        Place { frames: None }
    }

    /// Gets room for so many frames behind others. Where it has it, it takes no memory. It is refused where there is no
    /// memory, and nothing changes then.
    pub(crate) fn widen(
        &mut self,
        alloc: Global,
        others: usize,
        count: usize,
    ) -> Result<(), AllocError>
        ensures ok { OnOk result (others + count ≤ self.new) }
        ensures grown { self.old ≤ self.new }
        ensures err { OnErr result (self.new ≡ self.old) }
        ensures enough { others + count ≤ self.old → IsOk result }
        ensures kept { others + count ≤ self.old → self.new ≡ self.old }
    {
        widen(&mut self.frames, alloc, others, count)
    }

    /// One more frame finds room behind these, which move into the place where they get no more memory of their own.
    /// Their own stays in the place then.
    pub(crate) fn take_in(&mut self, frames: &mut Vec<F>) -> Result<(), AllocError>
        ensures items { frames.new.items ≡ frames.old.items }
        ensures room { OnOk result (vec_len frames.new < vec_capacity frames.new) }
        ensures refused { OnErr result (self.old ≤ length frames.old.items) }
    {
        if frames.reserve(1).is_ok() {
            return Ok(());
        }
        match &mut self.frames {
            Some(ready) => move_over(ready, frames),
            None => Err(AllocError),
        }
    }
}

/// How many frames these have room for.
fn capacity<F>(frames: &Option<Vec<F>>) -> usize
    ensures { result ≡ capacity_of frames.now }
{
    match frames {
        Some(ready) => ready.capacity(),
        None => 0,
    }
}

/// Gets room for so many frames behind others, where there is less.
fn widen<F: Drop>(
    frames: &mut Option<Vec<F>>,
    alloc: Global,
    others: usize,
    count: usize,
) -> Result<(), AllocError>
    requires empty { HoldsNone frames.old }
    ensures empty { HoldsNone frames.new }
    ensures ok { OnOk result (others + count ≤ capacity_of frames.new) }
    ensures grown { capacity_of frames.old ≤ capacity_of frames.new }
    ensures err { OnErr result (capacity_of frames.new ≡ capacity_of frames.old) }
    ensures enough { others + count ≤ capacity_of frames.old → IsOk result }
    ensures kept { others + count ≤ capacity_of frames.old →
        capacity_of frames.new ≡ capacity_of frames.old }
{
    let room = others.checked_add(count).ok_or(AllocError)?;
    if room <= capacity(frames) {
        return Ok(());
    }
    match frames {
        Some(ready) => ready.reserve(room),
        None => {
            *frames = Some(Vec::with_capacity(alloc, room)?);
            Ok(())
        }
    }
}

/// These frames move into the other list, which is empty, and take its place where it has room for one more.
fn move_over<F: Drop>(ready: &mut Vec<F>, frames: &mut Vec<F>) -> Result<(), AllocError>
    requires empty { ready.old.items ≡ [] }
    ensures empty { ready.new.items ≡ [] }
    ensures items { frames.new.items ≡ frames.old.items }
    ensures room { OnOk result (vec_len frames.new < vec_capacity frames.new) }
    ensures refused { OnErr result (vec_capacity ready.old ≤ length frames.old.items) }
{
    if ready.capacity() <= frames.len() {
        return Err(AllocError);
    }
    let _ = ready.append(frames);
    mem::swap(ready, frames);
    Ok(())
}
