//! What a session that is over hands back.
ghost use Rattle.std.specs.Prelude.{◌≡◌};
ghost use Rattle.amqp_session_core.specs.State.{links_in};

use crate::session::Session;
use slab::IntoIter;
use std::marker::Model;

/// The links of a session that is over, by rising own handle. They are handed back one by one, and that takes no
/// memory.
#[derive(Drop)]
pub struct Links<R> {
    left: IntoIter<R>,
}

impl<R> Model for Links<R> {
    ghost use Rattle.std.specs.Prelude.{List, map};

    ghost Value = { List R };

    ghost view = { λ l. map (λ e. e.1) l.left };
}

impl<R: Drop> Iterator for Links<R> {
    ghost use Rattle.std.specs.Iterator.{YieldsFirst, item_count};

    type Item = R;

    ghost next_gives = { YieldsFirst (λ rest. rest) };

    ghost remaining = { item_count (λ rest. rest) };

    fn next(&mut self) -> Option<R> {
        let (_, link) = self.left.next()?;
        Some(link)
    }
}

impl<R: Drop> Session<R> {
    /// The links of a session that is over, each once, by rising own handle. What waits is dropped, and the deliveries
    /// that aren't settled are forgotten. It takes no memory, and time by the links and by the deliveries, each once.
    pub fn into_links(self) -> Links<R>
        ensures { result ≡ links_in self.links }
    {
        let Session { links, .. } = self;
        Links {
            left: links.into_iter(),
        }
    }
}
