//! Tuples, as lists of exactly their parts.
ghost use Rattle.std.specs.Prelude.{◌≡◌, ◌∷◌, [], List, length, IfOk, OnOk, Option, None, refl};
ghost use Rattle.serde_amqp_item.specs.Item.{Item, list, items_of};
ghost use Rattle.serde_amqp_read.specs.Reads.{Unless};
ghost use Rattle.serde_amqp_de.specs.Reads.{Took, Refuses, at_of, TookAll, RefusesAll, TookSized, RefusesSized};
ghost use Rattle.serde_amqp_de.specs.Takes.{row_taken, tuple_taken};
ghost use Rattle.serde_amqp_de.specs.Deciding.{tuple_decided};

use crate::deserialize::{Deserialize, NeverNull};
use crate::deserializer::Deserializer;
use serde_amqp_item::Error;
use serde_amqp_read::Read;
use std::alloc::Global;

/// The parts of a tuple, as a pair of the first and the others.
trait ReadParts: Sized {
    /// The items of the parts.
    ghost items: { Self → List Item };

    /// Which items each part takes.
    ghost takes: { List (Item → Option Item) };

    /// Reads the parts, one behind the other.
    fn read<R: Read>(alloc: Global, de: &mut Deserializer<R>) -> Result<Self, Error>
        requires { de.old.element ≡ None }
        ensures ok { IfOk result (λ v. TookAll (row_taken takes) (length takes) None
            (at_of R.rest de.old) (at_of R.rest de.new) (items v)) }
        ensures element { OnOk result (de.new.element ≡ None) }
        ensures refused { Unless R.faulty result
            (RefusesAll (row_taken takes) (length takes) None (at_of R.rest de.old)) };
}

impl ReadParts for () {
    ghost items = { λ _. [] };

    ghost takes = { [] };

    #[tactic(auto, using(crate::proofs::Tuples::parts))]
    fn read<R: Read>(_alloc: Global, _de: &mut Deserializer<R>) -> Result<(), Error> {
        Ok(())
    }
}

impl<H: Deserialize + Drop, T: ReadParts> ReadParts for (H, T) {
    ghost items = { λ p. H.item p.0 ∷ T.items p.1 };

    ghost takes = { H.take ∷ T.takes };

    #[tactic(auto, using(crate::proofs::Tuples::parts))]
    fn read<R: Read>(alloc: Global, de: &mut Deserializer<R>) -> Result<(H, T), Error> {
        let first = H::read(alloc, de)?;
        let others = T::read(alloc, de)?;
        Ok((first, others))
    }
}

/// Reads the parts, which fill so many bytes.
#[tactic(auto, using(crate::proofs::Several::sizes))]
fn read_sized_parts<P: ReadParts + Drop, R: Read>(
    alloc: Global,
    de: &mut Deserializer<R>,
    size: usize,
) -> Result<P, Error>
    requires { de.old.element ≡ None }
    ensures ok { IfOk result (λ v. TookSized (row_taken P.takes) (length P.takes) size None
        (at_of R.rest de.old) (at_of R.rest de.new) (P.items v)) }
    ensures refused { Unless R.faulty result
        (RefusesSized (row_taken P.takes) (length P.takes) size None (at_of R.rest de.old)) }
{
    let start = de.pos();
    let parts = P::read(alloc, de)?;
    if de.pos() - start != size {
        return Err(Error::InvalidLength);
    }
    Ok(parts)
}

/// Reads a list of exactly these parts, of which there are so many (part 1, section 1.6.22).
#[tactic(auto, using(crate::proofs::Tuples::tuples))]
fn read_parts<P: ReadParts + Drop, R: Read>(
    alloc: Global,
    de: &mut Deserializer<R>,
    parts: usize,
) -> Result<P, Error>
    requires { parts ≡ length P.takes }
    ensures ok { IfOk result (λ v. Took (tuple_taken P.takes) de.old.element (at_of R.rest de.old)
        (at_of R.rest de.new) (list (items_of (P.items v)))) }
    ensures element { OnOk result (de.new.element ≡ de.old.element) }
    ensures refused { Unless R.faulty result
        (Refuses (tuple_taken P.takes) de.old.element (at_of R.rest de.old)) }
{
    let outer = de.element();
    let (count, size) = de.list_head()?;
    if count != parts {
        return Err(Error::SequenceLengthMismatch);
    }
    de.set_element(None);
    let values = read_sized_parts::<P, R>(alloc, de, size)?;
    de.set_element(outer);
    Ok(values)
}

/// A list of exactly one item.
///
/// Errors: as for every value; `SequenceLengthMismatch` for a list of another number of items, and
/// `InvalidLength` where its items do not fill its size.
impl<A: Deserialize + Drop> Deserialize for (A,) {
    ghost item = { λ p. list (items_of (A.item p.0 ∷ [])) };

    ghost take = { tuple_taken (A.take ∷ []) };

    #[tactic(auto, unfolding(crate::specs::Takes::tuple_taken))]
    fn absent(_alloc: Global) -> Option<(A,)> {
        None
    }

    fn read<R: Read>(alloc: Global, de: &mut Deserializer<R>) -> Result<(A,), Error> {
        let (first, ()) = read_parts::<(A, ()), R>(alloc, de, 1)?;
        Ok((first,))
    }

    ghost decided = { tuple_decided (A.take ∷ []) (A.decided, tt) };
}

impl<A: Deserialize + Drop> NeverNull for (A,) {
    ghost present = { λ _. refl };
}

/// A list of exactly two items.
///
/// Errors: as for every value; `SequenceLengthMismatch` for a list of another number of items, and
/// `InvalidLength` where its items do not fill its size.
impl<A: Deserialize + Drop, B: Deserialize + Drop> Deserialize for (A, B) {
    ghost item = { λ p. list (items_of (A.item p.0 ∷ B.item p.1 ∷ [])) };

    ghost take = { tuple_taken (A.take ∷ B.take ∷ []) };

    #[tactic(auto, unfolding(crate::specs::Takes::tuple_taken))]
    fn absent(_alloc: Global) -> Option<(A, B)> {
        None
    }

    fn read<R: Read>(alloc: Global, de: &mut Deserializer<R>) -> Result<(A, B), Error> {
        let (first, (second, ())) = read_parts::<(A, (B, ())), R>(alloc, de, 2)?;
        Ok((first, second))
    }

    ghost decided = { tuple_decided (A.take ∷ B.take ∷ []) (A.decided, (B.decided, tt)) };
}

impl<A: Deserialize + Drop, B: Deserialize + Drop> NeverNull for (A, B) {
    ghost present = { λ _. refl };
}

/// A list of exactly three items.
///
/// Errors: as for every value; `SequenceLengthMismatch` for a list of another number of items, and
/// `InvalidLength` where its items do not fill its size.
impl<A: Deserialize + Drop, B: Deserialize + Drop, C: Deserialize + Drop> Deserialize
    for (A, B, C) {
    ghost item = { λ p. list (items_of (A.item p.0 ∷ B.item p.1 ∷ C.item p.2 ∷ [])) };

    ghost take = { tuple_taken (A.take ∷ B.take ∷ C.take ∷ []) };

    #[tactic(auto, unfolding(crate::specs::Takes::tuple_taken))]
    fn absent(_alloc: Global) -> Option<(A, B, C)> {
        None
    }

    fn read<R: Read>(alloc: Global, de: &mut Deserializer<R>) -> Result<(A, B, C), Error> {
        let (first, (second, (third, ()))) = read_parts::<(A, (B, (C, ()))), R>(alloc, de, 3)?;
        Ok((first, second, third))
    }

    ghost decided = { tuple_decided (A.take ∷ B.take ∷ C.take ∷ []) (A.decided, (B.decided, (C.decided, tt))) };
}

impl<A: Deserialize + Drop, B: Deserialize + Drop, C: Deserialize + Drop> NeverNull for (A, B, C) {
    ghost present = { λ _. refl };
}

/// A list of exactly four items.
///
/// Errors: as for every value; `SequenceLengthMismatch` for a list of another number of items, and
/// `InvalidLength` where its items do not fill its size.
impl<
    A: Deserialize + Drop,
    B: Deserialize + Drop,
    C: Deserialize + Drop,
    D: Deserialize + Drop,
> Deserialize for (A, B, C, D) {
    ghost item = { λ p. list (items_of (A.item p.0 ∷ B.item p.1 ∷ C.item p.2 ∷ D.item p.3 ∷ [])) };

    ghost take = { tuple_taken (A.take ∷ B.take ∷ C.take ∷ D.take ∷ []) };

    #[tactic(auto, unfolding(crate::specs::Takes::tuple_taken))]
    fn absent(_alloc: Global) -> Option<(A, B, C, D)> {
        None
    }

    fn read<R: Read>(alloc: Global, de: &mut Deserializer<R>) -> Result<(A, B, C, D), Error> {
        let (first, (second, (third, (fourth, ())))) = read_parts::<(A, (B, (C, (D, ())))), R>(
            alloc, de, 4,
        )?;
        Ok((first, second, third, fourth))
    }

    ghost decided = { tuple_decided (A.take ∷ B.take ∷ C.take ∷ D.take ∷ []) (A.decided, (B.decided, (C.decided, (D.decided, tt)))) };
}

impl<
    A: Deserialize + Drop,
    B: Deserialize + Drop,
    C: Deserialize + Drop,
    D: Deserialize + Drop,
> NeverNull for (A, B, C, D) {
    ghost present = { λ _. refl };
}
