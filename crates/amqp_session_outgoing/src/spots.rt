//! At which spots the queues stand of the links that wait.
ghost use Rattle.std.specs.Prelude.{◌≡◌, ℕ, ◌+◌, ◌<◌, ◌≤◌, Some, None, cond, nat_eq, OnOk, IsOk};
ghost use Rattle.amqp_session_outgoing.specs.Spots.{spot_of, notes_left};

use amqp_session_types::OutputHandle;
use std::alloc::{AllocError, Global};
use std::collections::HashMap;

/// At which spots the queues stand of the links that wait, by the links' handles.
#[derive(Drop)]
pub(crate) struct Spots {
    noted: HashMap<u32, usize>,
}

impl Spots {
    /// Nothing is noted. It takes no memory.
    pub(crate) fn new(alloc: Global) -> Self
        ensures { (handle : ℕ) → spot_of result handle ≡ None }
    {
        Spots {
            noted: HashMap::new(alloc),
        }
    }

    /// The spot that is noted for a link.
    pub(crate) fn get(&self, handle: OutputHandle) -> Option<usize>
        ensures { result ≡ spot_of self.now handle.0 }
    {
        if self.noted.is_empty() {
            return None;
        }
        self.noted.get(&handle.0).copied()
    }

    /// Makes room for so many more links.
    pub(crate) fn reserve(&mut self, count: usize) -> Result<(), AllocError>
        ensures same { (handle : ℕ) → spot_of self.new handle ≡ spot_of self.old handle }
        ensures ok { OnOk result (count ≤ notes_left self.new) }
        ensures enough { count ≤ notes_left self.old → IsOk result }
        ensures kept { notes_left self.old ≤ notes_left self.new }
    {
        self.noted.reserve(count)
    }

    /// Notes the spot of a link for which there is room.
    pub(crate) fn insert_reserved(&mut self, handle: OutputHandle, spot: usize)
        requires { 0 < notes_left self.old }
        ensures noted { (other : ℕ) → spot_of self.new other
            ≡ cond (nat_eq handle.0 other) (Some spot) (spot_of self.old other) }
        ensures room { notes_left self.old ≤ notes_left self.new + 1 }
    {
        let _ = self.noted.insert(handle.0, spot);
    }

    /// A link waits no longer.
    pub(crate) fn remove(&mut self, handle: OutputHandle)
        ensures noted { (other : ℕ) → spot_of self.new other
            ≡ cond (nat_eq handle.0 other) None (spot_of self.old other) }
        ensures room { notes_left self.old ≤ notes_left self.new }
    {
        let _ = self.noted.remove(&handle.0);
    }
}
