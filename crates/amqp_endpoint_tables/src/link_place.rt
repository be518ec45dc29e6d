//! Where a link is, and its name.
ghost use Rattle.std.specs.Prelude.{◌≡◌, IfErr, IfOk, IsSome, Some, option_copied};
ghost use Rattle.std.specs.Borrow.{Lends};
ghost use types.Logic.{sem};
ghost use Rattle.amqp_endpoint_tables.specs.LinkState.{rest_of};
ghost use Rattle.amqp_endpoint_tables.specs.declared.link_place.LinkRefusal.TheVariants.{Memory};

use amqp_session_types::OutputHandle;
use serde_amqp_types::Text;
use std::alloc::{AllocError, AllocFailed};
use std::marker::Model;
use thiserror::Error;

/// Where a link is that isn't closed.
#[derive(Debug, Drop)]
pub enum LinkPlace<L> {
    /// In a session: it is attached there, or attaches (part 2, 2.6.3).
    Held {
        /// The session's number.
        session: u64,
        /// The own handle that it has in the session (part 2, 2.6.2).
        handle: OutputHandle,
    },
    /// Here, until it attaches again: it is detached, or its session is over (part 2, 2.6.4).
    AtRest(L),
}

/// A link that isn't closed, with its name (part 2, 2.6.1).
#[derive(Debug, Drop)]
pub struct Named<L> {
    /// Its name.
    pub name: Text,
    /// Where it is.
    pub place: LinkPlace<L>,
}

/// The name of a link that is to be entered: copied, so that entering the link takes no memory.
///
/// A clause sees its bytes.
#[derive(Debug, Drop)]
pub struct NewName {
    pub(crate) own: Text,
    /// The same once more, for the place where the link is found by its name.
    pub(crate) key: Text,
}

impl Model for NewName {
    ghost use Rattle.std.specs.Prelude.{◌≡◌, List, ℕ};

    ghost Value = { List ℕ };

    ghost view = { λ n. n.own };

    ghost invariant = { λ n. n.key ≡ n.own };
}

impl NewName {
    /// A copy of this name.
    pub(crate) fn copied(name: &Text) -> Result<Self, LinkRefusal>
        ensures ok { IfOk result (λ copy. copy ≡ name.now) }
        ensures err { IfErr result (λ e. e ≡ Memory) }
    {
        let own = name.clone()?;
        let key = name.clone()?;
        Ok(NewName { own, key })
    }

    /// The name.
    pub fn name(&self) -> &Text
        ensures { result.now ≡ self.now }
    {
        &self.own
    }
}

/// Why there is no new link.
#[derive(Debug, Clone, Copy, PartialEq, Eq, Error)]
pub enum LinkRefusal {
    /// A link that isn't closed has the name (part 2, 2.6.1).
    #[error("the name is in use")]
    NameInUse,
    /// There was no memory.
    #[error("out of memory")]
    Memory,
}

impl<T: Drop> From<AllocFailed<T>> for LinkRefusal {
    ghost from_gives = { λ e r. r ≡ Memory };

    fn from(_: AllocFailed<T>) -> Self {
        LinkRefusal::Memory
    }
}

impl From<AllocError> for LinkRefusal {
    ghost from_gives = { λ e r. r ≡ Memory };

    fn from(_: AllocError) -> Self {
        LinkRefusal::Memory
    }
}

impl<L: Drop> Named<L> {
    ghost use Rattle.amqp_endpoint_tables.specs.contracts.link_place.Named.{the_row};
    ghost use Rattle.amqp_endpoint_tables.specs.declared.link_place.LinkPlace.TheVariants.{AtRest};

    /// The link, which is at rest, to be changed.
    pub(crate) fn at_rest_mut(&mut self) -> &mut L
        requires { IsSome (rest_of (Some (self.old).place)) }
        ensures* lends { sem 𝓛 (Lends (the_row L.row) L.row self.entry result
            (λ link. record self.old { place = AtRest link })) }
        ensures value { rest_of (Some (self.old).place) ≡ Some result.now }
    {
        self.place.at_rest_mut()
    }
}

impl<L: Drop> LinkPlace<L> {
    ghost use Rattle.amqp_endpoint_tables.specs.contracts.link_place.LinkPlace.{the_row};
    ghost use Rattle.amqp_endpoint_tables.specs.declared.link_place.LinkPlace.TheVariants.{AtRest};
    ghost use Rattle.amqp_endpoint_tables.specs.LinkState.{held_of};

    /// The session in which the link is held, and its handle there.
    pub(crate) fn held(&self) -> Option<(u64, OutputHandle)>
        ensures { result ≡ held_of (Some self.now) }
    {
        match self {
            LinkPlace::Held { session, handle } => Some((*session, *handle)),
            LinkPlace::AtRest(_) => None,
        }
    }

    /// The link, where it is at rest.
    pub(crate) fn at_rest(&self) -> Option<&L>
        ensures { option_copied result ≡ rest_of (Some self.now) }
    {
        match self {
            LinkPlace::Held { .. } => None,
            LinkPlace::AtRest(link) => Some(link),
        }
    }

    /// The link, which is at rest, to be changed.
    pub(crate) fn at_rest_mut(&mut self) -> &mut L
        requires { IsSome (rest_of (Some self.old)) }
        ensures* lends { sem 𝓛 (Lends (the_row L.row) L.row self.entry result
            (λ link. AtRest link)) }
        ensures value { rest_of (Some self.old) ≡ Some result.now }
    {
        match self {
            LinkPlace::AtRest(link) => link,
            LinkPlace::Held { .. } => unreachable!(),
        }
    }
}
