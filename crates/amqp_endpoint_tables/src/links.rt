//! The links of an endpoint by their numbers and names.
ghost use Rattle.std.specs.Prelude.{◌≡◌, ◌<◌, length, option_copied, IsOk};
ghost use Rattle.std.specs.Option.{option_copied_mut};
ghost use types.Logic.{sem};
ghost use Rattle.amqp_endpoint_tables.specs.LinkState.{AreApart, IsNewName, Names, fresh, held_at, link_at, name_at};
ghost use Rattle.amqp_endpoint_tables.specs.LinkState.{place_at, rest_at};
ghost use Rattle.amqp_endpoint_tables.specs.LendsLinks.{lends_at_rest};
ghost use Rattle.amqp_endpoint_tables.specs.LinkSteps.{Closed, Entered, HandedOut, LowersRoom, Rested, RoomMade, Step};

use crate::link_place::{LinkPlace, LinkRefusal, Named, NewName};
use crate::moving;
use crate::numbered::Numbered;
use amqp_session_types::OutputHandle;
use indexmap::IndexMap;
use serde_amqp_types::Text;
use std::alloc::Global;
use std::marker::Model;

/// The links of an endpoint by their numbers, which count from 0 and never come back, and by their names
/// (part 2, 2.6.1).
///
/// A link that isn't closed is held by a session or is at rest here. What it is, an `L`, isn't known here. No two
/// links that aren't closed have one name. A link that is closed is unknown from then on, and its name is free. Each
/// call that is refused leaves all as it was.
///
/// A clause sees them as the record `State`: the memory that they have taken is no part of their value, but for how
/// many links more are sure to find room.
pub struct Links<L> {
    links: Numbered<Named<L>>,
    /// The number of each that isn't closed, by its name.
    numbers: IndexMap<Text, u64>,
    room: usize,
}

impl<L: Drop> Drop for Links<L> {
    fn drop(self) {
        let Links {
            links: _,
            numbers: _,
            room: _,
        } = self;
    }
}

impl<L> Model for Links<L> {
    ghost use Rattle.std.specs.Prelude.{◌+◌, ◌^◌, ◌<◌, ◌≤◌, length};
    ghost use Rattle.std.specs.Coded.{codes};
    ghost use Rattle.indexmap.specs.IndexMap.{spare};
    ghost use Rattle.amqp_endpoint_tables.specs.LinkState.{State};
    ghost use Rattle.amqp_endpoint_tables.specs.Inside.{AreNamed};

    ghost Value = { State L };

    ghost coded = { Prim.hlevel (codes) };

    ghost view = { λ s. record { links = s.links.items; room = s.room } };

    ghost invariant = { λ s. AreNamed s.links.items s.numbers.entries
        × (s.room ≤ s.links.spare) × (s.room ≤ spare s.numbers) × (length s.links.items + s.room < 2 ^ 64) };
}

impl<L: Drop> Links<L> {
    /// No links. It takes no memory.
    pub fn new(alloc: Global) -> Self
        ensures { result ≡ fresh }
    {
        Links {
            links: Numbered::new(alloc),
            numbers: IndexMap::new(alloc),
            room: 0,
        }
    }

    /// The number that the next link gets.
    pub fn next_number(&self) -> u64
        ensures { result ≡ length self.now.links }
    {
        self.links.next()
    }

    /// How many links more are sure to find room, as `make_room` made it.
    pub fn room(&self) -> usize
        ensures { result ≡ self.now.room }
    {
        self.room
    }

    /// Where the link with this number is. None where no link has it, or that is closed.
    pub fn place(&self, number: u64) -> Option<&LinkPlace<L>>
        ensures { option_copied result ≡ place_at self.now number }
    {
        match self.link(number) {
            Some(link) => Some(&link.place),
            None => None,
        }
    }

    /// The name of the link with this number (part 2, 2.6.1). None where no link has it, or that is closed.
    pub fn name(&self, number: u64) -> Option<&Text>
        ensures { option_copied result ≡ name_at self.now number }
    {
        match self.link(number) {
            Some(link) => Some(&link.name),
            None => None,
        }
    }

    /// The session that holds the link with this number, and the own handle that it has there, if one does.
    pub fn held(&self, number: u64) -> Option<(u64, OutputHandle)>
        ensures { result ≡ held_at self.now number }
    {
        self.place(number)?.held()
    }

    /// The link with this number, if it is at rest.
    pub fn at_rest(&self, number: u64) -> Option<&L>
        ensures { option_copied result ≡ rest_at self.now number }
    {
        self.place(number)?.at_rest()
    }

    /// The link with this number, if it is at rest, to be changed by its owner.
    pub fn at_rest_mut(&mut self, number: u64) -> Option<&mut L>
        ensures* writes_back { sem 𝓛 (lends_at_rest L.row self.entry number result) }
        ensures value { option_copied_mut result ≡ rest_at self.old number }
    {
        if self.at_rest(number).is_none() {
            return None;
        }
        Some(self.links.at_mut(number).at_rest_mut())
    }

    /// The number of the link that isn't closed and has this name, if there is one (part 2, 2.6.1).
    pub fn named(&self, name: &Text) -> Option<u64>
        ensures number { Names self.now.links name.now result }
        ensures apart { AreApart self.now.links }
    {
        moving::number_named(&self.links, &self.numbers, name)
    }

    /// Makes room for one link more, and copies the name that it is to have. Nothing else changes.
    ///
    /// It is refused with `NameInUse` where a link that isn't closed has the name (part 2, 2.6.1), and with `Memory`,
    /// also where no number would be left for it. Nothing changes then.
    pub fn make_room(&mut self, name: &Text) -> Result<NewName, LinkRefusal>
        ensures { RoomMade self.old name.now result self.new }
    {
        if self.named(name).is_some() {
            return Err(LinkRefusal::NameInUse);
        }
        let room = self.room.max(1);
        if self.links.next() > u64::MAX - room as u64 {
            return Err(LinkRefusal::Memory);
        }
        self.links.reserve(room)?;
        self.numbers.reserve(room)?;
        let new_name = NewName::copied(name)?;
        self.room = room;
        Ok(new_name)
    }

    /// Gives up room that was made: at most so many links more are sure to find room then. Nothing else changes, and it
    /// takes no memory.
    pub fn lower_room(&mut self, room: usize)
        ensures { Step self.old (LowersRoom room) self.new }
    {
        self.room = self.room.min(room);
    }

    /// Enters a new link, which the session with this number holds by this own handle (part 2, 2.6.3). Answers the
    /// link's number. It takes no memory, and uses up room for one link.
    ///
    /// It is refused with `NameInUse` where a link that isn't closed has the name (part 2, 2.6.1), and with `Memory`
    /// where no room was made. Nothing changes then.
    pub fn enter(
        &mut self,
        name: NewName,
        session: u64,
        handle: OutputHandle,
    ) -> Result<u64, LinkRefusal>
        ensures entered { Entered self.old name session handle result self.new }
        ensures room { 0 < self.old.room → IsNewName self.old.links name → IsOk result }
    {
        if self.named(name.name()).is_some() {
            return Err(LinkRefusal::NameInUse);
        }
        if self.room == 0 {
            return Err(LinkRefusal::Memory);
        }
        let number = self.next_number();
        let place = LinkPlace::Held { session, handle };
        moving::enter(&mut self.links, &mut self.numbers, name, place);
        self.room -= 1;
        Ok(number)
    }

    /// The link with this number comes back from the session that held it: it is detached there, or the session is
    /// over (part 2, 2.6.4). It takes no memory. Where no session holds it nothing changes, and it is handed back.
    pub fn rest(&mut self, number: u64, link: L) -> Result<(), L>
        ensures { Rested self.old number link result self.new }
    {
        if self.held(number).is_none() {
            return Err(link);
        }
        let _ = moving::put(&mut self.links, number, LinkPlace::AtRest(link));
        Ok(())
    }

    /// The link with this number is handed out, if it is at rest, and the session with that number holds it by this own
    /// handle from now on: it attaches again (part 2, 2.6.3). Else nothing changes. It takes no memory.
    pub fn hold(&mut self, number: u64, session: u64, handle: OutputHandle) -> Option<L>
        ensures { HandedOut self.old number session handle result self.new }
    {
        self.at_rest(number)?;
        let place = LinkPlace::Held { session, handle };
        match moving::put(&mut self.links, number, place) {
            Some(LinkPlace::AtRest(link)) => Some(link),
            _ => None,
        }
    }

    /// The link with this number is closed: its name is free, and it is unknown from now on (part 2, 2.6.6). Answers
    /// where it was. None where no link has the number or it was closed before, and nothing changes then. It takes no
    /// memory.
    pub fn close(&mut self, number: u64) -> Option<LinkPlace<L>>
        ensures { Closed self.old number result self.new }
    {
        moving::take_out(&mut self.links, &mut self.numbers, number)
    }

    /// The link with this number, if it isn't closed.
    fn link(&self, number: u64) -> Option<&Named<L>>
        ensures { option_copied result ≡ link_at self.now.links number }
    {
        self.links.get(number)
    }
}
