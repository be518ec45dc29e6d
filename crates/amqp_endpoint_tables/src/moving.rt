//! How links come and go, by their numbers and their names.
ghost use Rattle.std.specs.Prelude.{◌≡◌, ◌+◌, ◌^◌, ◌<◌, ◌≤◌, ◌++◌, [], ◌∷◌, IfNone, OnSome, None, Some, length};
ghost use Rattle.std.specs.Prelude.{slice_set};
ghost use Rattle.indexmap.specs.IndexMap.{spare};
ghost use Rattle.amqp_endpoint_tables.specs.LinkState.{AreApart, IsNewName, Names, link_at, place_of, put_in};
ghost use Rattle.amqp_endpoint_tables.specs.Inside.{AreNamed, PutsUnder, TakesAway};

use crate::link_place::{LinkPlace, Named, NewName};
use crate::numbered::Numbered;
use indexmap::IndexMap;
use serde_amqp_types::Text;
use std::mem;

/// The number of the link that has this name.
pub(crate) fn number_named<L: Drop>(
    links: &Numbered<Named<L>>,
    numbers: &IndexMap<Text, u64>,
    name: &Text,
) -> Option<u64>
    requires named { AreNamed links.now.items numbers.now.entries }
    ensures number { Names links.now.items name.now result }
    ensures apart { AreApart links.now.items }
{
    match numbers.get(name) {
        Some(number) => Some(*number),
        None => None,
    }
}

/// Enters a link, whose name no other has.
pub(crate) fn enter<L: Drop>(
    links: &mut Numbered<Named<L>>,
    numbers: &mut IndexMap<Text, u64>,
    name: NewName,
    place: LinkPlace<L>,
)
    requires named { AreNamed links.old.items numbers.old.entries }
    requires unused { IsNewName links.old.items name }
    requires next { length links.old.items + 1 < 2 ^ 64 }
    requires room { 0 < links.old.spare }
    requires spare { 0 < spare numbers.old }
    ensures links { links.new.items ≡ links.old.items
        ++ Some (record { name = name; place = place }) ∷ [] }
    ensures named { AreNamed links.new.items numbers.new.entries }
    ensures room { links.old.spare ≤ links.new.spare + 1 }
    ensures spare { spare numbers.old ≤ spare numbers.new + 1 }
{
    let NewName { own, key } = name;
    put_name(numbers, key, links.next());
    links.push(Named { name: own, place });
}

/// The number stands under the name, for which there is room.
fn put_name(numbers: &mut IndexMap<Text, u64>, name: Text, number: u64)
    requires { 0 < spare numbers.old }
    ensures put { PutsUnder name number numbers.old.entries numbers.new.entries }
    ensures spare { spare numbers.old ≤ spare numbers.new + 1 }
{
    match numbers.insert(name, number) {
        Ok(_) => {}
        Err(_) => unreachable!(),
    }
}

/// No number stands under the name any more.
fn forget_name(numbers: &mut IndexMap<Text, u64>, name: &Text)
    ensures away { TakesAway name.now numbers.old.entries numbers.new.entries }
    ensures spare { spare numbers.old ≤ spare numbers.new }
{
    let _ = numbers.swap_remove(name);
}

/// Puts a link in another place, and hands out the one that it had, if it isn't closed.
pub(crate) fn put<L: Drop>(
    links: &mut Numbered<Named<L>>,
    number: u64,
    place: LinkPlace<L>,
) -> Option<LinkPlace<L>>
    ensures value { result ≡ place_of (link_at links.old.items number) }
    ensures put { OnSome result (links.new.items ≡ put_in links.old.items number place) }
    ensures none { IfNone result (links.new.items ≡ links.old.items) }
    ensures room { links.new.spare ≡ links.old.spare }
{
    let link = links.get_mut(number)?;
    Some(mem::replace(&mut link.place, place))
}

/// Takes the link with this number out, with its name, and hands out where it was, if it isn't closed.
pub(crate) fn take_out<L: Drop>(
    links: &mut Numbered<Named<L>>,
    numbers: &mut IndexMap<Text, u64>,
    number: u64,
) -> Option<LinkPlace<L>>
    requires named { AreNamed links.old.items numbers.old.entries }
    ensures value { result ≡ place_of (link_at links.old.items number) }
    ensures taken { OnSome result (links.new.items ≡ slice_set links.old.items number None) }
    ensures none { IfNone result (links.new.items ≡ links.old.items) }
    ensures named { AreNamed links.new.items numbers.new.entries }
    ensures room { links.old.spare ≤ links.new.spare }
    ensures spare { spare numbers.old ≤ spare numbers.new }
{
    let Named { name, place } = links.take(number)?;
    forget_name(numbers, &name);
    Some(place)
}
