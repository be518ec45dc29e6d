//! The links that a peer asks for, by their handles and their names.
ghost use Rattle.std.specs.Prelude.{◌≡◌, is_some, IsSome, IfErr, OnOk, OnErr, option_copied, option_map, Ok, Err, None};
ghost use Rattle.std.specs.Prelude.{Some};
ghost use Rattle.std.specs.FinMap as map;
ghost use Rattle.amqp_endpoint_links.specs.Asked.{Asks, Names, asked_with, is_asked, told_at, told_of};
ghost use Rattle.amqp_endpoint_links.specs.Inside.{AreNamed, PutsUnder, TakesAway};
ghost use Rattle.amqp_endpoint_links.specs.declared.links.AskRefusal.TheVariants.{Memory};

use crate::table::Table;
use amqp_session_performatives::{Attach, Flow, LinkFlow};
use amqp_session_types::{Boxed, Handle, InputHandle};
use indexmap::IndexMap;
use serde_amqp_types::Text;
use std::alloc::{AllocError, AllocFailed, Global};
use std::marker::Model;
use thiserror::Error;

/// A link that the peer asks for.
#[derive(Debug)]
pub struct AskedLink {
    /// The peer's Attach.
    pub attach: Boxed<Attach>,
    /// What the latest Flow for the link told of it, if one came.
    pub flow: Option<LinkFlow>,
}

impl Drop for AskedLink {
    fn drop(self) {
        let AskedLink { attach: _, flow: _ } = self;
    }
}

/// Why a link can't be asked for.
#[derive(Debug, Clone, Copy, PartialEq, Eq, Error)]
pub enum AskRefusal {
    /// A link that is asked for has the handle (part 2, 2.8.17).
    #[error("the handle is in use")]
    HandleInUse,
    /// A link that is asked for has the name.
    #[error("the name is in use")]
    NameInUse,
    /// There was no memory.
    #[error("out of memory")]
    Memory,
}

impl<T: Drop> From<AllocFailed<T>> for AskRefusal {
    ghost from_gives = { λ e r. r ≡ Memory };

    fn from(_: AllocFailed<T>) -> Self {
        AskRefusal::Memory
    }
}

impl From<AllocError> for AskRefusal {
    ghost from_gives = { λ e r. r ≡ Memory };

    fn from(_: AllocError) -> Self {
        AskRefusal::Memory
    }
}

/// The links that the peer asks for in a session: those that it attached, and that no link here answers yet. No two
/// have one handle, nor one name.
///
/// A clause sees them as a map from the handles that the peer gave them.
#[derive(Debug)]
pub struct AskedLinks {
    links: Table,
    /// The handle of each, by its name.
    handles: IndexMap<Text, u32>,
}

impl Drop for AskedLinks {
    fn drop(self) {
        let AskedLinks {
            links: _,
            handles: _,
        } = self;
    }
}

impl Model for AskedLinks {
    ghost use Rattle.amqp_endpoint_links.specs.Asked.{Asked};
    ghost use Rattle.amqp_endpoint_links.specs.Inside.{AreNamed};
    ghost use Rattle.std.specs.Coded.{codes, coded_ℕ};
    ghost use Rattle.std.specs.FinMap as map;

    ghost Value = { Asked };

    ghost coded = { map.code coded_ℕ (Prim.hlevel (codes)) };

    ghost view = { λ a. a.links };

    ghost invariant = { λ a. AreNamed a.links a.handles.entries };
}

impl AskedLinks {
    /// No links. It takes no memory.
    pub fn new(alloc: Global) -> Self
        ensures { result ≡ map.empty }
    {
        AskedLinks {
            links: Table::new(alloc),
            handles: IndexMap::new(alloc),
        }
    }

    /// The asked link with this handle, if there is one.
    pub fn get(&self, handle: InputHandle) -> Option<&AskedLink>
        ensures { option_copied result ≡ map.get self.now handle.0 }
    {
        self.links.get(handle.0)
    }

    /// Whether a frame that may have a handle has that of an asked link.
    pub fn is_asked(&self, handle: Option<Handle>) -> bool
        ensures { result ≡ is_asked self.now handle }
    {
        match handle {
            Some(handle) => self.get(InputHandle(handle.0)).is_some(),
            None => false,
        }
    }

    /// The handle of the asked link with this name, if there is one.
    pub fn named(&self, name: &Text) -> Option<InputHandle>
        ensures { Names self.now name.now result }
    {
        handle_named(&self.links, &self.handles, name)
    }

    /// The peer asks for a link (part 2, 2.7.3).
    ///
    /// It is refused with `HandleInUse` where an asked link has the handle (part 2, 2.8.17), with `NameInUse` where
    /// one has the name, and with `Memory`. Nothing changes then.
    pub fn ask(&mut self, attach: Boxed<Attach>) -> Result<(), AskRefusal>
        ensures { Asks self.old attach result self.new }
    {
        if self.get(InputHandle(attach.handle.0)).is_some() {
            return Err(AskRefusal::HandleInUse);
        }
        if self.named(&attach.name).is_some() {
            return Err(AskRefusal::NameInUse);
        }
        enter(&mut self.links, &mut self.handles, attach)
    }

    /// Keeps what a Flow tells of the asked link with its handle, and answers whether there is one. It takes no memory.
    pub fn on_incoming_flow(&mut self, flow: LinkFlow) -> bool
        ensures asked { result ≡ is_some (map.get self.old flow.handle.0) }
        ensures told { self.new ≡ told_at self.old flow.handle.0 flow }
    {
        if self.get(InputHandle(flow.handle.0)).is_none() {
            return false;
        }
        tell(&mut self.links, &self.handles, flow);
        true
    }

    /// Keeps what a Flow tells of its link (part 2, 2.7.4), where its handle is that of an asked one. It takes no
    /// memory.
    pub fn keep(&mut self, flow: Flow)
        ensures { self.new ≡ told_of self.old flow flow.handle }
    {
        if let Ok(flow) = LinkFlow::try_from(flow) {
            self.on_incoming_flow(flow);
        }
    }

    /// The peer asks for the link with this handle no longer, or a link here answers it. The link is handed out, if
    /// there is one. It takes no memory.
    pub fn withdraw(&mut self, handle: InputHandle) -> Option<AskedLink>
        ensures value { result ≡ map.get self.old handle.0 }
        ensures rest { self.new ≡ map.remove self.old handle.0 }
    {
        take_out(&mut self.links, &mut self.handles, handle.0)
    }
}

/// The handle of the link with this name.
fn handle_named(links: &Table, handles: &IndexMap<Text, u32>, name: &Text) -> Option<InputHandle>
    requires named { AreNamed links.now handles.now.entries }
    ensures { Names links.now name.now result }
{
    match handles.get(name) {
        Some(handle) => Some(InputHandle(*handle)),
        None => None,
    }
}

/// Enters a link, whose handle and name no other has.
fn enter(
    links: &mut Table,
    handles: &mut IndexMap<Text, u32>,
    attach: Boxed<Attach>,
) -> Result<(), AskRefusal>
    requires named { AreNamed links.old handles.old.entries }
    requires vacant { map.get links.old (attach.handle).0 ≡ None }
    requires unused { Names links.old attach.name None }
    ensures asks { Asks links.old attach result links.new }
    ensures named { AreNamed links.new handles.new.entries }
{
    let name = attach.name.clone()?;
    let handle = attach.handle.0;
    links.insert(handle, AskedLink { attach, flow: None })?;
    let Err(refusal) = name_it(handles, name, handle) else {
        return Ok(());
    };
    let _ = links.remove(handle);
    Err(refusal)
}

/// The handle stands under the name, which none did.
fn name_it(handles: &mut IndexMap<Text, u32>, name: Text, handle: u32) -> Result<(), AskRefusal>
    ensures ok { OnOk result (PutsUnder name handle handles.old.entries handles.new.entries) }
    ensures err { IfErr result (λ e. e ≡ Memory) }
    ensures kept { OnErr result (handles.new.entries ≡ handles.old.entries) }
{
    handles.insert(name, handle)?;
    Ok(())
}

/// No handle stands under the name any more.
fn forget_name(handles: &mut IndexMap<Text, u32>, name: &Text)
    ensures { TakesAway name.now handles.old.entries handles.new.entries }
{
    let _ = handles.swap_remove(name);
}

/// Keeps what a Flow tells of the link with its handle, which there must be.
fn tell(links: &mut Table, handles: &IndexMap<Text, u32>, flow: LinkFlow)
    requires named { AreNamed links.old handles.now.entries }
    requires there { IsSome (map.get links.old flow.handle.0) }
    ensures told { links.new ≡ told_at links.old flow.handle.0 flow }
    ensures named { AreNamed links.new handles.now.entries }
{
    links.keep_flow(flow.handle.0, flow);
}

/// Takes the link with this handle out, if there is one.
fn take_out(links: &mut Table, handles: &mut IndexMap<Text, u32>, handle: u32) -> Option<AskedLink>
    requires named { AreNamed links.old handles.old.entries }
    ensures value { result ≡ map.get links.old handle }
    ensures rest { links.new ≡ map.remove links.old handle }
    ensures named { AreNamed links.new handles.new.entries }
{
    let link = links.remove(handle)?;
    forget_name(handles, &link.attach.name);
    Some(link)
}
