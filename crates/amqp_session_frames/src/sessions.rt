//! The sessions by their outgoing channels.
ghost use Rattle.std.specs.Prelude.{◌≡◌, None, IsSome, OnOk, OnErr, IfOk};
ghost use Rattle.std.specs.FinMap as map;

use slab::Slab;
use std::alloc::{AllocError, Global};
use std::marker::Model;

/// The sessions that have an outgoing channel, by that channel.
#[derive(Debug, Drop)]
pub struct Sessions {
    slab: Slab<u64>,
}

impl Model for Sessions {
    ghost use Rattle.std.specs.Prelude.{ℕ};
    ghost use Rattle.std.specs.FinMap as map;
    ghost use Rattle.std.specs.Coded.{codes};
    ghost use Rattle.slab.specs.Slab.{entries};
    ghost use Rattle.amqp_session_frames.specs.State.{Channels, table_code};

    ghost Value = { Channels };

    ghost coded = { Prim.hlevel (codes, table_code) };

    ghost view = { λ s. record { sessions = map.from_entries (entries s.slab); offered = s.slab.vacant_key } };
}

impl Sessions {
    /// No sessions.
    pub fn new(alloc: Global) -> Self
        ensures { result ≡ record { sessions = map.empty; offered = 0 } }
    {
        Sessions {
            slab: Slab::new(alloc),
        }
    }

    /// The vacant channel that the next session gets.
    #[tactic(auto, using(crate::proofs::Tables::rules))]
    pub fn offered(&self) -> usize
        ensures value { result ≡ self.now.offered }
        ensures vacant { map.get self.now.sessions result ≡ None }
    {
        self.slab.vacant_key()
    }

    /// The session that has a channel.
    #[tactic(auto, using(crate::proofs::Tables::rules))]
    pub fn get(&self, channel: u16) -> Option<u64>
        ensures { result ≡ map.get self.now.sessions channel }
    {
        self.slab.get(usize::from(channel)).copied()
    }

    /// Gives the offered channel to a session.
    #[tactic(auto, using(crate::proofs::Tables::rules))]
    pub fn insert(&mut self, session: u64) -> Result<(), AllocError>
        ensures ok { OnOk result (self.new ≡ record self.old {
          sessions = map.insert self.old.sessions self.old.offered session;
          offered = self.new.offered;
        }) }
        ensures err { OnErr result (self.new ≡ self.old) }
    {
        self.slab.insert(session)?;
        Ok(())
    }

    /// Takes a channel back and offers it next. One that no session has changes nothing.
    #[tactic(auto, using(crate::proofs::Tables::rules))]
    pub fn remove(&mut self, channel: u16)
        ensures found { IsSome (map.get self.old.sessions channel) →
            self.new ≡ record {
              sessions = map.remove self.old.sessions channel;
              offered = channel;
            } }
        ensures absent { map.get self.old.sessions channel ≡ None → self.new ≡ self.old }
    {
        self.slab.try_remove(usize::from(channel));
    }
}
