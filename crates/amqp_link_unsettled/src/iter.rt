//! The unsettled deliveries of a link, one after the other.
ghost use Rattle.std.specs.Prelude.{◌≡◌, ◌<◌, ◌^◌, length};
ghost use Rattle.std.specs.List.{IsDistinct};
ghost use Rattle.std.specs.Map.{keys_of};
ghost use Rattle.std.specs.Map.Iter.{TakesFirst, ShowsInOrder, deref_pair};
ghost use Rattle.std.specs.Iterator.{at_most};
ghost use Rattle.std.specs.Str.{bytes_eq};
ghost use Rattle.amqp_link_unsettled.specs.Rising.{standing};

use crate::map::UnsettledMap;
use crate::slot::Slot;
use amqp_session_types::DeliveryTag;
use indexmap::map;
use std::marker::Model;

/// What is left of the deliveries of an [`UnsettledMap`], in the order in which they were registered.
#[derive(Drop)]
pub struct Iter<'a, M> {
    pub(crate) slots: map::Iter<'a, DeliveryTag, Slot<M>>,
}

impl<'a, M> Model for Iter<'a, M> {
    ghost use Rattle.std.specs.Prelude.{List, ℕ};
    ghost use Rattle.amqp_link_unsettled.specs.Rising.{standing};

    ghost Value = { List (List ℕ × M) };

    ghost view = { λ i. standing i.slots };
}

impl<'a, M> Iterator for Iter<'a, M> {
    type Item = (&'a DeliveryTag, &'a M);

    ghost next_gives = { TakesFirst deref_pair };

    ghost remaining = { λ s. at_most (length s) };

    fn next(&mut self) -> Option<(&'a DeliveryTag, &'a M)> {
        next_live(&mut self.slots)
    }
}

/// The next tag that has a value, with that.
fn next_live<'a, M>(
    slots: &mut map::Iter<'a, DeliveryTag, Slot<M>>,
) -> Option<(&'a DeliveryTag, &'a M)>
    ensures { TakesFirst deref_pair (standing slots.old) result (standing slots.new) }
{
    while let Some((tag, slot)) = slots.next() {
        if let Some(message) = &slot.kept {
            return Some((tag, message));
        }
    }
    None
}
