//! Composite types: described lists of fields (part 1, section 1.4).
ghost use Rattle.std.specs.Prelude.{◌≡◌, ◌∷◌, [], ℕ, List, IfOk, OnOk, MatchOption, Option, Some, None, Bool};
ghost use Rattle.serde_amqp_item.specs.Item.{Item, scalar, null, ulong, no_items};
ghost use Rattle.serde_amqp_item.specs.Kind.{kind_at};
ghost use Rattle.serde_amqp_item.specs.Record.{record_item};
ghost use Rattle.serde_amqp_read.specs.Reads.{Unless};
ghost use Rattle.serde_amqp_de.specs.Reads.{Took, Refuses, at_of, TookAll, RefusesAll, TookSized, RefusesSized};
ghost use Rattle.serde_amqp_de.specs.Takes.{fields_taken, descriptor_taken, record_taken, is_symbol};
ghost use Rattle.serde_amqp_de.specs.Decides.{AllDecided};

use crate::deserialize::Deserialize;
use crate::deserializer::Deserializer;
use serde_amqp_item::{EncodingCodes, Error};
use serde_amqp_read::Read;
use std::alloc::Global;

/// The fields of a composite type, as a pair of the first and the others.
pub trait ReadFields: Sized {
    /// The items of the fields.
    ghost items: { Self → List Item };

    /// Which items each field takes.
    ghost takes: { List (Item → Option Item) };

    /// The values of fields that are all absent; none where one of them is mandatory.
    fn absent(alloc: Global) -> Option<Self>
        ensures { MatchOption result (fields_taken takes no_items ≡ None)
            (λ v. fields_taken takes no_items ≡ Some (items v)) };

    /// Reads so many fields. The others are absent.
    ///
    /// Errors: `Memory`; a fault of the reader itself; any other exactly where no front of what is left
    /// is so many items that the fields take.
    fn read<R: Read>(alloc: Global, de: &mut Deserializer<R>, count: usize) -> Result<Self, Error>
        requires { de.old.element ≡ None }
        ensures ok { IfOk result (λ v. TookAll (fields_taken takes) count None (at_of R.rest de.old)
            (at_of R.rest de.new) (items v)) }
        ensures element { OnOk result (de.new.element ≡ None) }
        ensures refused { Unless R.faulty result
            (RefusesAll (fields_taken takes) count None (at_of R.rest de.old)) };

    /// Bytes give one value of each field.
    ghost decided: { AllDecided takes };
}

impl ReadFields for () {
    ghost items = { λ _. [] };

    ghost takes = { [] };

    fn absent(_alloc: Global) -> Option<()> {
        Some(())
    }

    #[tactic(auto, using(crate::proofs::Several::fields))]
    fn read<R: Read>(_alloc: Global, _de: &mut Deserializer<R>, count: usize) -> Result<(), Error> {
        if count == 0 {
            return Ok(());
        }
        Err(Error::SequenceLengthMismatch)
    }

    ghost decided = { tt };
}

impl<H: Deserialize + Drop, T: ReadFields> ReadFields for (H, T) {
    ghost items = { λ p. H.item p.0 ∷ T.items p.1 };

    ghost takes = { H.take ∷ T.takes };

    fn absent(alloc: Global) -> Option<(H, T)> {
        let first = H::absent(alloc)?;
        let others = T::absent(alloc)?;
        Some((first, others))
    }

    #[tactic(auto, using(crate::proofs::Several::fields))]
    fn read<R: Read>(
        alloc: Global,
        de: &mut Deserializer<R>,
        count: usize,
    ) -> Result<(H, T), Error> {
        if count == 0 {
            return match Self::absent(alloc) {
                Some(fields) => Ok(fields),
                None => Err(Error::SequenceLengthMismatch),
            };
        }
        let first = H::read(alloc, de)?;
        let others = T::read(alloc, de, count - 1)?;
        Ok((first, others))
    }

    ghost decided = { (H.decided, T.decided) };
}

/// Whether it is a symbol's constructor.
fn is_symbol(code: EncodingCodes) -> bool
    ensures { result ≡ is_symbol (kind_at code) }
{
    match code {
        EncodingCodes::Sym8 => true,
        EncodingCodes::Sym32 => true,
        _ => false,
    }
}

/// Reads the descriptor of a composite type, as its code or as its name (part 1, section 1.5).
///
/// Errors: `Memory`; a fault of the reader itself; any other exactly where no front of what is left is a
/// wire form of that code or that name. `InvalidValue` where it is another code or name.
#[tactic(auto, using(crate::proofs::Descriptors::descriptors))]
pub fn read_descriptor<R: Read>(
    alloc: Global,
    de: &mut Deserializer<R>,
    code: u64,
    name: &[u8],
) -> Result<(), Error>
    ensures ok { OnOk result (Took (descriptor_taken code name.now) de.old.element
        (at_of R.rest de.old) (at_of R.rest de.new) (scalar (ulong code))) }
    ensures element { OnOk result (de.new.element ≡ de.old.element) }
    ensures refused { Unless R.faulty result
        (Refuses (descriptor_taken code name.now) de.old.element (at_of R.rest de.old)) }
{
    if is_symbol(de.peek()?) {
        let text = de.deserialize_symbol(alloc)?;
        if text.as_bytes() == name {
            return Ok(());
        }
        return Err(Error::InvalidValue);
    }
    let number = de.deserialize_u64()?;
    if number == code {
        return Ok(());
    }
    Err(Error::InvalidValue)
}

/// Reads a composite type: a described list with this code or this name, and these fields (part 1,
/// section 1.4). Fields that are left off at the end are null.
///
/// Errors: `Memory`; a fault of the reader itself; any other exactly where no front of what is left is a
/// wire form of such a list. `SequenceLengthMismatch` where it has more items than fields, or a mandatory
/// field is left off; `InvalidLength` where its items do not fill its size.
#[tactic(auto, using(crate::proofs::Records::records))]
pub fn read_record<F: ReadFields + Drop, R: Read>(
    alloc: Global,
    de: &mut Deserializer<R>,
    code: u64,
    name: &[u8],
) -> Result<F, Error>
    ensures ok { IfOk result (λ v. Took (record_taken code name.now F.takes) de.old.element
        (at_of R.rest de.old) (at_of R.rest de.new) (record_item code (F.items v))) }
    ensures element { OnOk result (de.new.element ≡ de.old.element) }
    ensures refused { Unless R.faulty result
        (Refuses (record_taken code name.now F.takes) de.old.element (at_of R.rest de.old)) }
{
    let outer = de.element();
    de.described()?;
    read_descriptor(alloc, de, code, name)?;
    let (count, size) = de.list_head()?;
    de.set_element(None);
    let fields = read_fields::<F, R>(alloc, de, count, size)?;
    de.set_element(outer);
    Ok(fields)
}

/// Reads so many fields that fill so many bytes.
fn read_fields<F: ReadFields + Drop, R: Read>(
    alloc: Global,
    de: &mut Deserializer<R>,
    count: usize,
    size: usize,
) -> Result<F, Error>
    requires { de.old.element ≡ None }
    ensures ok { IfOk result (λ v. TookSized (fields_taken F.takes) count size None
        (at_of R.rest de.old) (at_of R.rest de.new) (F.items v)) }
    ensures refused { Unless R.faulty result
        (RefusesSized (fields_taken F.takes) count size None (at_of R.rest de.old)) }
{
    let start = de.pos();
    let fields = F::read(alloc, de, count)?;
    if de.pos() - start != size {
        return Err(Error::InvalidLength);
    }
    Ok(fields)
}
