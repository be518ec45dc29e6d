//! One of several composite types, told apart by their descriptors (part 1, sections 1.4 and 1.5).
//!
//! A type of several is an enum that implements [`Choice`]: its `table` has a row for each composite type, in
//! `specs/`, with the code and the name of its descriptor and what its fields take. [`read_choice`] then reads one
//! of them, once, and takes exactly the items of `choice_taken table`.
//!
//! ```text
//! -- specs/Shape.antt
//! abbrev pub point_row : Row
//! point_row = record { code = 0x71; name = point_name; takes = uint_taken ∷ option_taken uint_taken ∷ [] }
//!
//! abbrev pub shape_table : List Row
//! shape_table = point_row ∷ light_row ∷ []
//!
//! abbrev pub shape_item : Shape → Item
//! shape_item (Point x y) = record_item 0x71 (point_fields x y)
//! shape_item (Light on) = record_item 0x72 (light_fields on)
//!
//! abbrev pub shape_taken : Item → Option Item
//! shape_taken = choice_taken shape_table
//!
//! -- of each row what its fields are decided by
//! pub shape_rows : RowsDecided shape_table
//! shape_rows = ((uint_decided, (option_decided uint_taken uint_decided, tt)), ((boolean_decided, tt), tt))
//!
//! pub shape_decided : Decided shape_taken
//! shape_decided = choice_decided shape_table shape_rows
//!
//! pub shape_again : (s : Shape) → shape_taken (shape_item s) ≡ Some (shape_item s)
//! shape_again (Point x y) = choice_again shape_table 0x71 point_row (point_fields x y) refl refl (refl, (.., tt))
//! shape_again (Light on) = choice_again shape_table 0x72 light_row (light_fields on) refl refl (refl, tt)
//!
//! pub shape_faithful : (s t : Shape) → shape_item s ≡ shape_item t → s ≡ t
//! shape_faithful (Point x y) (Point v w) e = .. record_faithful 0x71 (point_fields x y) (point_fields v w) refl e ..
//! shape_faithful (Point x y) t e = absurd (items_apart _ _ _ _ refl e)
//! ..
//! ```
//!
//! ```text
//! impl Choice for Shape {
//!     ghost table = { shape_table };
//!     ghost item = { shape_item };
//!
//!     fn code_of_name(name: &[u8]) -> Option<u64> {
//!         if name == POINT_NAME {
//!             return Some(POINT);
//!         }
//!         ..
//!         None
//!     }
//!
//!     #[tactic(auto, using(serde_amqp_values::proofs::Choosing::chosen))]
//!     fn read_fields<R: Read>(alloc: Global, de: &mut Deserializer<R>, code: u64) -> Result<Shape, Error> {
//!         match code {
//!             POINT => {
//!                 let (x, (y, ())) = read_fields_of::<(u32, (Option<u32>, ())), R>(alloc, de)?;
//!                 Ok(Shape::Point { x, y })
//!             }
//!             ..
//!             _ => Err(Error::InvalidValue),
//!         }
//!     }
//!
//!     ghost decided = { shape_rows };
//!     ghost differ = { refl };
//! }
//!
//! impl Serialize for Shape {
//!     ghost item = { shape_item };
//!
//!     fn serialize<W: Sink>(&self, s: &mut Serializer<W>) -> Result<(), Error> {
//!         match self {
//!             Shape::Point { x, y } => serialize_record(s, POINT, &(x, (y, ()))),
//!             ..
//!         }
//!     }
//!     .. // `is_null` is false
//! }
//!
//! impl Deserialize for Shape {
//!     ghost item = { shape_item };
//!     ghost take = { shape_taken };
//!
//!     #[tactic(auto, using(serde_amqp_values::proofs::Choosing::absents))]
//!     fn absent(_alloc: Global) -> Option<Shape> {
//!         None
//!     }
//!
//!     fn read<R: Read>(alloc: Global, de: &mut Deserializer<R>) -> Result<Shape, Error> {
//!         read_choice::<Shape, R>(alloc, de)
//!     }
//!
//!     ghost decided = { shape_decided };
//! }
//!
//! // RoundTrip: same = { λ _. refl }, again = { shape_again }; Faithful: shape_faithful; NeverNull: by cases, each refl
//! ```
ghost use Rattle.std.specs.Prelude.{◌≡◌, ℕ, List, IfOk, OnOk, Option, Some, None, true};
ghost use Rattle.serde_amqp_item.specs.Item.{Item, scalar, ulong};
ghost use Rattle.serde_amqp_read.specs.Reads.{Unless};
ghost use Rattle.serde_amqp_de.specs.Reads.{Took, Refuses, TookSized, RefusesSized, at_of};
ghost use Rattle.serde_amqp_de.specs.Takes.{fields_taken};
ghost use Rattle.serde_amqp_values.specs.Choice.{Row, code_named, code_said, name_said, fields_chosen, choice_taken};
ghost use Rattle.serde_amqp_values.specs.Choice.{TookList, RefusesList, RowsDecided, codes_differ};

use serde_amqp_de::{Deserializer, Read, ReadFields};
use serde_amqp_item::{EncodingCodes, Error};
use std::alloc::Global;

/// One of several composite types, told apart by their descriptors (part 1, sections 1.4 and 1.5).
pub trait Choice: Sized {
    /// The composite types: their codes and names, and which items their fields take.
    ghost table: { List Row };

    /// The item that a value is.
    ghost item: { Self → Item };

    /// The code of the first composite type with this name; none where none has it.
    fn code_of_name(name: &[u8]) -> Option<u64>
        ensures { result ≡ code_named table name.now };

    /// Reads the fields of the composite type with this code: a list (part 1, section 1.4). It is called
    /// behind the descriptor.
    ///
    /// Errors: `Memory`; a fault of the reader itself; any other exactly where no composite type has this
    /// code, or no front of what is left is a wire form of a list that its fields take. `InvalidValue` where
    /// none has the code.
    fn read_fields<R: Read>(
        alloc: Global,
        de: &mut Deserializer<R>,
        code: u64,
    ) -> Result<Self, Error>
        requires { de.old.element ≡ None }
        ensures ok { IfOk result (λ v. Took (fields_chosen table code) None (at_of R.rest de.old)
            (at_of R.rest de.new) (item v)) }
        ensures element { OnOk result (de.new.element ≡ None) }
        ensures refused { Unless R.faulty result
            (Refuses (fields_chosen table code) None (at_of R.rest de.old)) };

    /// Bytes give one value of each field.
    ghost decided: { RowsDecided table };

    /// No two of the composite types have the same code.
    ghost differ: { codes_differ table ≡ true };
}

/// Reads the list of these fields, which stands behind the descriptor of a composite type (part 1,
/// section 1.4). Fields that are left off at the end are null.
///
/// Errors: `Memory`; a fault of the reader itself; any other exactly where no front of what is left is a
/// wire form of a list that the fields take. `SequenceLengthMismatch` where it has more items than fields,
/// or a mandatory field is left off; `InvalidLength` where its items do not fill its size.
#[tactic(auto, using(crate::proofs::Choosing::lists))]
pub fn read_fields_of<F: ReadFields + Drop, R: Read>(
    alloc: Global,
    de: &mut Deserializer<R>,
) -> Result<F, Error>
    requires { de.old.element ≡ None }
    ensures ok { IfOk result (λ v. TookList F.takes (at_of R.rest de.old) (at_of R.rest de.new)
        (F.items v)) }
    ensures element { OnOk result (de.new.element ≡ None) }
    ensures refused { Unless R.faulty result (RefusesList F.takes (at_of R.rest de.old)) }
{
    let (count, size) = de.list_head()?;
    read_sized::<F, R>(alloc, de, count, size)
}

/// Reads so many fields that fill so many bytes.
fn read_sized<F: ReadFields + Drop, R: Read>(
    alloc: Global,
    de: &mut Deserializer<R>,
    count: usize,
    size: usize,
) -> Result<F, Error>
    requires { de.old.element ≡ None }
    ensures ok { IfOk result (λ v. TookSized (fields_taken F.takes) count size None
        (at_of R.rest de.old) (at_of R.rest de.new) (F.items v)) }
    ensures element { OnOk result (de.new.element ≡ None) }
    ensures refused { Unless R.faulty result
        (RefusesSized (fields_taken F.takes) count size None (at_of R.rest de.old)) }
{
    let start = de.pos();
    let fields = F::read(alloc, de, count)?;
    if de.pos() - start != size {
        return Err(Error::InvalidLength);
    }
    Ok(fields)
}

/// Reads one of several composite types: a described list with the code or the name of one of them, and its
/// fields (part 1, sections 1.4 and 1.5). Fields that are left off at the end are null.
///
/// Errors: `Memory`; a fault of the reader itself; any other exactly where no front of what is left is a
/// wire form of such a list. `InvalidValue` where the descriptor is of none of them.
#[tactic(auto, using(crate::proofs::Choosing::choices))]
pub fn read_choice<C: Choice + Drop, R: Read>(
    alloc: Global,
    de: &mut Deserializer<R>,
) -> Result<C, Error>
    ensures ok { IfOk result (λ v. Took (choice_taken C.table) de.old.element (at_of R.rest de.old)
        (at_of R.rest de.new) (C.item v)) }
    ensures element { OnOk result (de.new.element ≡ de.old.element) }
    ensures refused { Unless R.faulty result
        (Refuses (choice_taken C.table) de.old.element (at_of R.rest de.old)) }
{
    let outer = de.element();
    de.described()?;
    let code = read_code::<C, R>(alloc, de)?;
    let value = C::read_fields(alloc, de, code)?;
    de.set_element(outer);
    Ok(value)
}

/// Reads a descriptor, as the code of a composite type or as its name (part 1, section 1.5), and gives the
/// code. Any code is read; a name is that of one of these types.
#[tactic(auto, using(crate::proofs::Choosing::codes))]
fn read_code<C: Choice, R: Read>(alloc: Global, de: &mut Deserializer<R>) -> Result<u64, Error>
    ensures ok { IfOk result (λ code. Took (code_said C.table) de.old.element (at_of R.rest de.old)
        (at_of R.rest de.new) (scalar (ulong code))) }
    ensures element { OnOk result (de.new.element ≡ de.old.element) }
    ensures refused { Unless R.faulty result
        (Refuses (code_said C.table) de.old.element (at_of R.rest de.old)) }
{
    match de.peek()? {
        EncodingCodes::Sym8 | EncodingCodes::Sym32 => read_name::<C, R>(alloc, de),
        _ => de.deserialize_u64(),
    }
}

/// Reads a descriptor as the name of one of these composite types, and gives its code.
#[tactic(auto, using(crate::proofs::Choosing::names))]
fn read_name<C: Choice, R: Read>(alloc: Global, de: &mut Deserializer<R>) -> Result<u64, Error>
    ensures ok { IfOk result (λ code. Took (name_said C.table) de.old.element (at_of R.rest de.old)
        (at_of R.rest de.new) (scalar (ulong code))) }
    ensures element { OnOk result (de.new.element ≡ de.old.element) }
    ensures refused { Unless R.faulty result
        (Refuses (name_said C.table) de.old.element (at_of R.rest de.old)) }
{
    let name = de.deserialize_symbol(alloc)?;
    match C::code_of_name(name.as_bytes()) {
        Some(code) => Ok(code),
        None => Err(Error::InvalidValue),
    }
}
