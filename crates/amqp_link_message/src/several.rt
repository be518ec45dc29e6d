//! One section or more of one type (part 3, 3.2).
ghost use Rattle.std.specs.Prelude.{◌≡◌, [], IfOk, OnOk, Some};
ghost use Rattle.serde_amqp_item.specs.Item.{items_of};
ghost use Rattle.serde_amqp_item.specs.Canon.{alone};
ghost use Rattle.serde_amqp_ser.specs.Puts.{listed, place_of, OnlyWhere, WantsMemory};
ghost use Rattle.amqp_link_message.specs.Several.{each_item};

use crate::writing::put_all;
use serde_amqp_item::Error;
use serde_amqp_ser::{Serialize, Serializer, Sink};
use std::alloc::Global;

/// Sections of one type that stand one behind the other: one or more (part 3, 3.2).
#[derive(Debug, Drop)]
pub struct OneOrMore<S> {
    /// The first.
    pub first: S,
    /// Those behind it, in order.
    pub others: Vec<S>,
}

impl<S> OneOrMore<S> {
    /// One section alone.
    pub fn one(alloc: Global, section: S) -> Self
        ensures first { result.first ≡ section }
        ensures others { result.others.items ≡ [] }
    {
        OneOrMore {
            first: section,
            others: Vec::new(alloc),
        }
    }
}

/// Writes the sections. After an error the first of them may stand there.
///
/// Errors: `Memory`; any other exactly where an item has no canonical text.
#[tactic(auto, using(crate::proofs::Listing::several))]
pub(crate) fn put_several<S: Serialize, W: Sink>(
    sections: &OneOrMore<S>,
    s: &mut Serializer<W>,
) -> Result<(), Error>
    requires { place_of s.old.element ≡ alone }
    ensures place { OnOk result (place_of s.new.element ≡ alone) }
    ensures ok { OnOk result (listed (W.written s.old.writer) (items_of (each_item S.item sections.now))
        ≡ Some (W.written s.new.writer)) }
    ensures refused { OnlyWhere result (listed (W.written s.old.writer)
        (items_of (each_item S.item sections.now))) }
    ensures memory { WantsMemory W.takes_memory result }
{
    sections.first.serialize(s)?;
    put_all(sections.others.as_slice(), s)?;
    Ok(())
}
