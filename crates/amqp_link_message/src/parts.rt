//! The parts of a message, read one behind the other (part 3, 3.2).
ghost use Rattle.std.specs.Prelude.{◌≡◌, ◌<◌, ◌&&◌, ◌∷◌, [], ℕ, nat_lt, Bool, true, List, map, IfOk, IfErr, IfSome};
ghost use Rattle.std.specs.Prelude.{Option, None};
ghost use Rattle.serde_amqp_item.specs.Item.{Item};
ghost use Rattle.serde_amqp_read.specs.Reads.{Unless, faultless};
ghost use Rattle.amqp_link_message.specs.Sections.{TakesCode};
ghost use Rattle.amqp_link_message.specs.Parts.{at_most_one, exactly_one, any_number, one_or_more, if_there};
ghost use Rattle.amqp_link_message.specs.Parts.{ReadsParts, NoParts, EndsOrBegins};
ghost use Rattle.amqp_link_message.specs.Front.{HasNoFront, AllTaken};
ghost use Rattle.amqp_link_message.specs.Several.{each_item, NotSeveral};
ghost use Rattle.amqp_link_message.specs.PartLaws.{nothing_begins, part_begins_in_order};

use crate::front::take_front;
use crate::several::OneOrMore;
use serde_amqp_de::Deserialize;
use serde_amqp_item::Error;
use std::alloc::Global;

/// A section of a message.
pub(crate) trait Section: Deserialize + Drop {
    /// The code of its descriptor.
    ghost code: { ℕ };

    /// Only sections with that descriptor are taken.
    ghost coded: { TakesCode Self.take code };
}

/// Parts of a message that stand one behind the other to the end of its payload.
pub(crate) trait ReadParts: Sized {
    /// The items of each part.
    ghost parts: { Self → List (List Item) };

    /// Which items each part takes.
    ghost takes: { List (List Item → Option (List Item)) };

    /// The least code that they begin with.
    ghost least: { ℕ };

    /// Whether each section's code is below those behind it.
    ghost in_order: { Bool };

    /// Reads them.
    ///
    /// Errors: `Memory`; any other exactly where the bytes say no items that are taken as these parts.
    fn read(alloc: Global, bytes: &[u8]) -> Result<Self, Error>
        requires { in_order ≡ true }
        ensures ok { IfOk result (λ v. ReadsParts takes bytes.now (parts v)) }
        ensures refused { Unless faultless result (NoParts takes bytes.now) };

    /// They begin with a section of that code, or of a higher one.
    ghost begins: { in_order ≡ true → (bytes : List ℕ) (ps : List (List Item)) → ReadsParts takes bytes ps
        → EndsOrBegins least bytes };
}

/// The end of the payload.
impl ReadParts for () {
    ghost parts = { λ _. [] };

    ghost takes = { [] };

    ghost least = { 0x79 };

    ghost in_order = { true };

    #[tactic(auto, using(crate::proofs::Ending::ending))]
    fn read(_alloc: Global, bytes: &[u8]) -> Result<(), Error> {
        if bytes.is_empty() {
            return Ok(());
        }
        Err(Error::SequenceLengthMismatch)
    }

    ghost begins = { nothing_begins };
}

/// A section that may be absent, and the parts behind it.
impl<S: Section, T: ReadParts> ReadParts for (Option<S>, T) {
    ghost parts = { λ p. if_there S.item p.0 ∷ T.parts p.1 };

    ghost takes = { at_most_one S.take ∷ T.takes };

    ghost least = { S.code };

    ghost in_order = { nat_lt S.code T.least && T.in_order };

    fn read(alloc: Global, bytes: &[u8]) -> Result<(Option<S>, T), Error> {
        let (section, rest) = take_front::<S>(alloc, bytes)?;
        let others = T::read(alloc, rest)?;
        Ok((section, others))
    }

    ghost begins = { part_begins_in_order S.take T.takes S.code T.least T.in_order S.coded T.begins };
}

/// Reads a section that has to be there, and the parts behind it.
///
/// Errors: `Memory`; any other exactly where the bytes say no such items.
pub(crate) fn read_one<S: Section, T: ReadParts>(
    alloc: Global,
    bytes: &[u8],
) -> Result<(S, T), Error>
    requires { T.in_order ≡ true }
    ensures ok { IfOk result (λ p. ReadsParts (exactly_one S.take ∷ T.takes) bytes.now
        ((S.item p.0 ∷ []) ∷ T.parts p.1)) }
    ensures refused { Unless faultless result (NoParts (exactly_one S.take ∷ T.takes) bytes.now) }
{
    let (section, rest) = take_front::<S>(alloc, bytes)?;
    match section {
        Some(section) => {
            let others = T::read(alloc, rest)?;
            Ok((section, others))
        }
        None => Err(Error::InvalidValue),
    }
}

/// Takes all sections of a type from the front.
///
/// Errors: `Memory` alone.
fn take_all<'a, S: Deserialize + Drop>(
    alloc: Global,
    bytes: &'a [u8],
) -> Result<(Vec<S>, &'a [u8]), Error>
    ensures ok { IfOk result (λ p. AllTaken S.take S.item bytes.now p.1.now p.0.items) }
    ensures memory { IfErr result (λ e. e ≡ Error.Memory) }
{
    let mut sections = Vec::new(alloc);
    let mut rest = bytes;
    'sections: loop {
        let (section, behind) = take_front::<S>(alloc, rest)?;
        match section {
            Some(section) => {
                sections.push(section)?;
                rest = behind;
            }
            None => return Ok((sections, rest)),
        }
    }
}

/// Reads all sections of a type in front, and the parts behind them.
///
/// Errors: `Memory`; any other exactly where the bytes say no such items.
fn read_more<S: Section, T: ReadParts>(alloc: Global, bytes: &[u8]) -> Result<(Vec<S>, T), Error>
    requires below { S.code < T.least }
    requires in_order { T.in_order ≡ true }
    ensures ok { IfOk result (λ p. ReadsParts (any_number S.take ∷ T.takes) bytes.now
        (map S.item p.0.items ∷ T.parts p.1)) }
    ensures refused { Unless faultless result (NoParts (any_number S.take ∷ T.takes) bytes.now) }
{
    let (sections, rest) = take_all(alloc, bytes)?;
    let others = T::read(alloc, rest)?;
    Ok((sections, others))
}

/// Reads one section of a type or more, and the parts behind them, where such a section stands in front.
///
/// Errors: `Memory`; any other exactly where such a section stands in front and the bytes say no such items.
pub(crate) fn read_several<S: Section, T: ReadParts>(
    alloc: Global,
    bytes: &[u8],
) -> Result<Option<(OneOrMore<S>, T)>, Error>
    requires below { S.code < T.least }
    requires in_order { T.in_order ≡ true }
    ensures some { IfOk result (λ o. IfSome o (λ p. ReadsParts (one_or_more S.take ∷ T.takes) bytes.now
        (each_item S.item p.0 ∷ T.parts p.1))) }
    ensures none { IfOk result (λ o. o ≡ None → HasNoFront S.take bytes.now) }
    ensures refused { Unless faultless result (NotSeveral S.take T.takes bytes.now) }
{
    let (section, rest) = take_front::<S>(alloc, bytes)?;
    match section {
        Some(first) => {
            let (others, behind) = read_more::<S, T>(alloc, rest)?;
            Ok(Some((OneOrMore { first, others }, behind)))
        }
        None => Ok(None),
    }
}
