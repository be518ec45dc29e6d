//! The parts of a message, written one behind the other (part 3, 3.2).
ghost use Rattle.std.specs.Prelude.{◌≡◌, ◌++◌, List, map, Some, OnOk};
ghost use Rattle.serde_amqp_item.specs.Item.{Item, items_of};
ghost use Rattle.serde_amqp_item.specs.Canon.{alone};
ghost use Rattle.serde_amqp_ser.specs.Puts.{listed, place_of, OnlyWhere, WantsMemory};
ghost use Rattle.amqp_link_message.specs.Parts.{if_there};

use serde_amqp_item::Error;
use serde_amqp_ser::{Serialize, Serializer, Sink};

/// Parts of a message that are written one behind the other.
pub(crate) trait WriteParts {
    /// Their items in order.
    ghost items: { Self → List Item };

    /// Writes the canonical texts of the items, outside of arrays. After an error the first of them may stand there.
    ///
    /// Errors: `Memory`; any other exactly where an item has no canonical text.
    fn put<W: Sink>(&self, s: &mut Serializer<W>) -> Result<(), Error>
        requires { place_of s.old.element ≡ alone }
        ensures place { OnOk result (place_of s.new.element ≡ alone) }
        ensures ok { OnOk result (listed (W.written s.old.writer) (items_of (items self.now))
            ≡ Some (W.written s.new.writer)) }
        ensures refused { OnlyWhere result (listed (W.written s.old.writer)
            (items_of (items self.now))) }
        ensures memory { WantsMemory W.takes_memory result };
}

/// Writes a section, where there is one. After an error the beginning of it may stand there.
///
/// Errors: `Memory`; any other exactly where its item has no canonical text.
#[tactic(auto, using(crate::proofs::Listing::listing))]
pub(crate) fn put_section<S: Serialize, W: Sink>(
    section: &Option<S>,
    s: &mut Serializer<W>,
) -> Result<(), Error>
    requires { place_of s.old.element ≡ alone }
    ensures place { OnOk result (place_of s.new.element ≡ alone) }
    ensures ok { OnOk result (listed (W.written s.old.writer) (items_of (if_there S.item section.now))
        ≡ Some (W.written s.new.writer)) }
    ensures refused { OnlyWhere result (listed (W.written s.old.writer)
        (items_of (if_there S.item section.now))) }
    ensures memory { WantsMemory W.takes_memory result }
{
    match section {
        Some(section) => {
            section.serialize(s)?;
            Ok(())
        }
        None => Ok(()),
    }
}

/// A section that may be absent, and the parts behind it.
impl<'a, S: Serialize, T: WriteParts> WriteParts for (&'a Option<S>, T) {
    ghost items = { λ p. if_there S.item p.0.now ++ T.items p.1 };

    #[tactic(auto, using(crate::proofs::Listing::listing))]
    fn put<W: Sink>(&self, s: &mut Serializer<W>) -> Result<(), Error> {
        put_section(self.0, s)?;
        self.1.put(s)?;
        Ok(())
    }
}

/// Nothing.
impl WriteParts for () {
    ghost use Rattle.std.specs.Prelude.{[]};

    ghost items = { λ _. [] };

    #[tactic(auto, using(crate::proofs::Listing::listing))]
    fn put<W: Sink>(&self, _s: &mut Serializer<W>) -> Result<(), Error> {
        Ok(())
    }
}

/// Writes sections of one type. After an error the first of them may stand there.
///
/// Errors: `Memory`; any other exactly where an item has no canonical text.
#[tactic(auto, using(crate::proofs::Listing::listing))]
pub(crate) fn put_all<S: Serialize, W: Sink>(
    sections: &[S],
    s: &mut Serializer<W>,
) -> Result<(), Error>
    requires { place_of s.old.element ≡ alone }
    ensures place { OnOk result (place_of s.new.element ≡ alone) }
    ensures ok { OnOk result (listed (W.written s.old.writer) (items_of (map S.item sections.now))
        ≡ Some (W.written s.new.writer)) }
    ensures refused { OnlyWhere result (listed (W.written s.old.writer)
        (items_of (map S.item sections.now))) }
    ensures memory { WantsMemory W.takes_memory result }
{
    for section in sections {
        section.serialize(s)?;
    }
    Ok(())
}
