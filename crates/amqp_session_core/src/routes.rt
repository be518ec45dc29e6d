//! The links by their peer's handles.
ghost use Rattle.std.specs.Prelude.{◌≡◌, ℕ, Some, OnOk, OnErr, not, ◌==◌};
ghost use Rattle.std.specs.FinMap as map;
ghost use Rattle.amqp_session_core.specs.Tables.{is_to, leads, unless_to};

use amqp_session_types::OutputHandle;
use indexmap::IndexMap;
use std::alloc::{AllocError, Global};
use std::marker::Model;

/// Handles by handles.
#[derive(Debug, Drop)]
struct Handles {
    handles: IndexMap<u32, u32>,
}

impl Model for Handles {
    ghost use Rattle.std.specs.FinMap as map;
    ghost use Rattle.amqp_session_core.specs.Tables.{RouteTable, route_code};

    ghost Value = { RouteTable };

    ghost coded = { route_code };

    ghost view = { λ r. map.from_entries r.handles.entries };
}

impl Handles {
    /// No handles.
    fn new(alloc: Global) -> Self
        ensures { result ≡ map.empty }
    {
        Handles {
            handles: IndexMap::new(alloc),
        }
    }

    /// The handle under this one.
    #[tactic(auto, using(crate::proofs::Tables::rules))]
    fn get(&self, handle: u32) -> Option<u32>
        ensures { result ≡ map.get self.now handle }
    {
        self.handles.get(&handle).copied()
    }

    /// Puts a handle under this one.
    #[tactic(auto, using(crate::proofs::Tables::rules))]
    fn insert(&mut self, handle: u32, to: u32) -> Result<(), AllocError>
        ensures ok { OnOk result (self.new ≡ map.insert self.old handle to) }
        ensures err { OnErr result (self.new ≡ self.old) }
    {
        self.handles.insert(handle, to)?;
        Ok(())
    }

    /// Takes away what is under this handle, and answers it.
    #[tactic(auto, using(crate::proofs::Tables::rules))]
    fn remove(&mut self, handle: u32) -> Option<u32>
        ensures value { result ≡ map.get self.old handle }
        ensures rest { self.new ≡ map.remove self.old handle }
    {
        self.handles.swap_remove(&handle)
    }

    /// Takes away each handle under which this one is.
    fn forget(&mut self, link: u32)
        ensures { (handle : ℕ) → map.get self.new handle
            ≡ unless_to link (map.get self.old handle) }
    {
        let _ = self.handles.len();
        self.handles.retain(
            |_handle: &u32, to: &mut u32| -> bool
                ensures { (result ≡ not (to.old == link)) × (to.new ≡ to.old) }
            { *to != link },
        );
    }
}

/// The own handle of a link, by the handle that the peer gave it (part 2, 2.6.2).
#[derive(Debug, Drop)]
pub(crate) struct Routes {
    handles: Handles,
    /// The handle of the peer that was the last to lead to a link, by the own one. It may lead there no longer.
    noted: Handles,
    /// Whether several of the peer's handles led to one link once. Then others may lead there than the noted one.
    has_several: bool,
}

impl Model for Routes {
    ghost use Rattle.amqp_session_core.specs.Tables.{IsSole, RouteTable, route_code};

    ghost Value = { RouteTable };

    ghost coded = { route_code };

    ghost view = { λ r. r.handles };

    ghost invariant = { λ r. IsSole r.handles r.noted r.has_several };
}

impl Routes {
    /// No routes.
    pub(crate) fn new(alloc: Global) -> Self
        ensures { result ≡ map.empty }
    {
        Routes {
            handles: Handles::new(alloc),
            noted: Handles::new(alloc),
            has_several: false,
        }
    }

    /// The link of the peer's handle.
    pub(crate) fn get(&self, handle: u32) -> Option<u32>
        ensures { result ≡ map.get self.now handle }
    {
        self.handles.get(handle)
    }

    /// Makes a route.
    pub(crate) fn insert(&mut self, handle: u32, link: OutputHandle) -> Result<(), AllocError>
        ensures ok { OnOk result (self.new ≡ map.insert self.old handle link.0) }
        ensures err { OnErr result (self.new ≡ self.old) }
    {
        let has_several = self.has_several || leads(&self.handles, &self.noted, link.0);
        self.noted.insert(link.0, handle)?;
        self.has_several = has_several;
        self.handles.insert(handle, link.0)
    }

    /// Takes a route away, if there is one.
    pub(crate) fn remove(&mut self, handle: u32)
        ensures { self.new ≡ map.remove self.old handle }
    {
        let _ = self.handles.remove(handle);
    }

    /// Takes all routes to a link away.
    pub(crate) fn forget(&mut self, link: OutputHandle)
        ensures { (handle : ℕ) → map.get self.new handle
            ≡ unless_to link.0 (map.get self.old handle) }
    {
        let noted = self.noted.remove(link.0);
        if self.has_several {
            self.handles.forget(link.0);
        } else {
            forget_noted(&mut self.handles, noted, link.0);
        }
    }
}

/// Takes the route to a link away, where no handle leads there but the one that is noted for it.
fn forget_noted(handles: &mut Handles, noted: Option<u32>, link: u32)
    requires sole { (handle : ℕ) → map.get handles.old handle ≡ Some link → noted ≡ Some handle }
    ensures { (handle : ℕ) → map.get handles.new handle
        ≡ unless_to link (map.get handles.old handle) }
{
    if let Some(handle) = noted {
        if is_to(handles.get(handle), link) {
            let _ = handles.remove(handle);
        }
    }
}

/// Whether the handle that is noted for a link leads to it.
fn leads(handles: &Handles, noted: &Handles, link: u32) -> bool
    ensures { result ≡ leads handles.now noted.now link }
{
    match noted.get(link) {
        Some(handle) => is_to(handles.get(handle), link),
        None => false,
    }
}

/// Whether a route leads to this link.
fn is_to(route: Option<u32>, link: u32) -> bool
    ensures { result ≡ is_to link route }
{
    match route {
        Some(to) => to == link,
        None => false,
    }
}
