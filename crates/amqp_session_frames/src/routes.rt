//! The sessions by their peer's channels.
ghost use Rattle.std.specs.Prelude.{◌≡◌, OnOk, OnErr, OnSome, IfNone};
ghost use Rattle.std.specs.FinMap as map;

use indexmap::IndexMap;
use std::alloc::{AllocError, Global};
use std::marker::Model;

/// The session to which the peer's frames go, by the channel that they come on.
#[derive(Debug, Drop)]
pub struct Routes {
    sessions: IndexMap<u16, u64>,
}

impl Model for Routes {
    ghost use Rattle.std.specs.FinMap as map;
    ghost use Rattle.amqp_session_frames.specs.State.{Table, table_code};

    ghost Value = { Table };

    ghost coded = { table_code };

    ghost view = { λ r. map.from_entries r.sessions.entries };
}

impl Routes {
    /// No routes.
    pub fn new(alloc: Global) -> Self
        ensures { result ≡ map.empty }
    {
        Routes {
            sessions: IndexMap::new(alloc),
        }
    }

    /// The session to which a channel's frames go.
    #[tactic(auto, using(crate::proofs::Tables::rules))]
    pub fn get(&self, channel: u16) -> Option<u64>
        ensures { result ≡ map.get self.now channel }
    {
        self.sessions.get(&channel).copied()
    }

    /// Makes a route, in place of an older one of the channel.
    #[tactic(auto, using(crate::proofs::Tables::rules))]
    pub fn insert(&mut self, channel: u16, session: u64) -> Result<(), AllocError>
        ensures ok { OnOk result (self.new ≡ map.insert self.old channel session) }
        ensures err { OnErr result (self.new ≡ self.old) }
    {
        self.sessions.insert(channel, session)?;
        Ok(())
    }

    /// Takes a channel's route away and answers its session. Where there is none nothing changes.
    #[tactic(auto, using(crate::proofs::Tables::rules))]
    pub fn remove(&mut self, channel: u16) -> Option<u64>
        ensures value { result ≡ map.get self.old channel }
        ensures taken { OnSome result (self.new ≡ map.remove self.old channel) }
        ensures absent { IfNone result (self.new ≡ self.old) }
    {
        self.sessions.swap_remove(&channel)
    }
}
