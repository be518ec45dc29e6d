//! Asked links by the handles that the peer gave them.
ghost use Rattle.std.specs.Prelude.{◌≡◌, nat_eq, IfSome, IsSome, Some, option_copied, OnOk, OnErr};
ghost use Rattle.std.specs.FinMap as map;
ghost use Rattle.std.specs.Map.{lookup, set_value};

use crate::links::AskedLink;
use amqp_session_performatives::LinkFlow;
use indexmap::IndexMap;
use std::alloc::{AllocError, Global};
use std::marker::Model;

/// Asked links by the handles that the peer gave them.
#[derive(Debug, Drop)]
pub(crate) struct Table {
    links: IndexMap<u32, AskedLink>,
}

impl Model for Table {
    ghost use Rattle.std.specs.FinMap as map;
    ghost use Rattle.amqp_endpoint_links.specs.Asked.{Asked};
    ghost use Rattle.std.specs.Coded.{codes, coded_ℕ};

    ghost Value = { Asked };

    ghost coded = { map.code coded_ℕ (Prim.hlevel (codes)) };

    ghost view = { λ t. map.from_entries t.links.entries };
}

impl Table {
    /// No links.
    pub(crate) fn new(alloc: Global) -> Self
        ensures { result ≡ map.empty }
    {
        Table {
            links: IndexMap::new(alloc),
        }
    }

    /// The link with this handle.
    #[tactic(auto, using(crate::proofs::Tables::rules))]
    pub(crate) fn get(&self, handle: u32) -> Option<&AskedLink>
        ensures { option_copied result ≡ map.get self.now handle }
    {
        self.links.get(&handle)
    }

    /// Gives a link this handle.
    #[tactic(auto, using(crate::proofs::Tables::rules))]
    pub(crate) fn insert(&mut self, handle: u32, link: AskedLink) -> Result<(), AllocError>
        ensures ok { OnOk result (self.new ≡ map.insert self.old handle link) }
        ensures err { OnErr result (self.new ≡ self.old) }
    {
        self.links.insert(handle, link)?;
        Ok(())
    }

    /// Takes the link with this handle out, if there is one.
    #[tactic(auto, using(crate::proofs::Tables::rules))]
    pub(crate) fn remove(&mut self, handle: u32) -> Option<AskedLink>
        ensures value { result ≡ map.get self.old handle }
        ensures rest { self.new ≡ map.remove self.old handle }
    {
        self.links.swap_remove(&handle)
    }

    /// Keeps what a Flow tells of a link, which there must be.
    #[tactic(auto, using(crate::proofs::Tables::rules))]
    pub(crate) fn keep_flow(&mut self, handle: u32, flow: LinkFlow)
        requires { IsSome (map.get self.old handle) }
        ensures { IfSome (map.get self.old handle) (λ link. self.new
            ≡ map.insert self.old handle (record link { flow = Some flow })) }
    {
        keep_in(&mut self.links, handle, flow);
    }
}

/// Keeps what a Flow tells of a link, which there must be.
fn keep_in(links: &mut IndexMap<u32, AskedLink>, handle: u32, flow: LinkFlow)
    requires { IsSome (lookup (nat_eq handle) links.old.entries) }
    ensures { IfSome (lookup (nat_eq handle) links.old.entries) (λ link. links.new.entries
        ≡ set_value (nat_eq handle) links.old.entries (record link { flow = Some flow })) }
{
    let Some(link) = links.get_mut(&handle) else {
        unreachable!()
    };
    link.flow = Some(flow);
}
