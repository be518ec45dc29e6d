//! Laws of wire forms (part 1, 1.2).
// Laws of the wire forms and of the canonical texts. The functions do nothing: their contracts are the laws.
ghost use Rattle.std.specs.Prelude.{◌≡◌, ◌<◌, ℕ, List, ◌∷◌, Option, Some, None, ◌++◌, length};
ghost use Rattle.serde_amqp_item.specs.Item.{Item, raw};
ghost use Rattle.serde_amqp_item.specs.Wire.{Wire, Width, Form, IsCapped, IsStrict, HasSize, NoRaw, AnyCount, field};
ghost use Rattle.serde_amqp_item.specs.Wire.{own, room, row_of, code_of, byte_of};
ghost use Rattle.serde_amqp_item.specs.Kind.{kind_of, kind_at, raw_kind};
ghost use Rattle.serde_amqp_item.specs.Canon.{canon, wide, AllWithin, RawKept, WithoutRaw};
ghost use Rattle.serde_amqp_item.specs.declared.codes.EncodingCodes.{EncodingCodes};

/// No wire form begins another (part 1, section 1.2): bytes have at most one front that is a wire form,
/// be it behind a constructor of its own or behind one that an array gives it.
pub fn one_front()
    ensures { (m n : Item) (k : Option ℕ) (a b x y : List ℕ) → Wire m k a → Wire n k b →
        a ++ x ≡ b ++ y → a ≡ b }
{}

/// That front is a wire form of one item only, where no raw items are meant.
pub fn one_item()
    ensures { (m n : Item) (k : Option ℕ) (a b x y : List ℕ) → WithoutRaw m → WithoutRaw n →
        Wire m k a → Wire n k b → a ++ x ≡ b ++ y → m ≡ n }
{}

/// Every wire form is a wire form of an item without raw ones too, but for the bounds on counts.
pub fn wire_is_strict()
    ensures { (x : Item) (c : ℕ) (rest : List ℕ) → Wire x None (c ∷ rest) → IsStrict c rest }
{}

/// A raw item has one wire form, its bytes, where they are a wire form of an item without raw ones (but for the
/// bounds on counts).
pub fn raw_item_is_its_bytes()
    ensures bytes { (text bytes : List ℕ) → Wire (raw text) None bytes → bytes ≡ text }
    ensures strict { (c : ℕ) (rest : List ℕ) → IsStrict c rest →
        Wire (raw (c ∷ rest)) None (c ∷ rest) }
{}

/// A raw item is no element of an array.
pub fn raw_item_in_no_array()
    ensures { (text bytes : List ℕ) (c : ℕ) → Wire (raw text) (Some c) bytes → ⊥ }
{}

/// A size is exact: so many bytes stand behind it (part 1, sections 1.2.2 to 1.2.4).
pub fn size_is_exact()
    ensures { (w : Width) (x : Item) (c n : ℕ) (rest : List ℕ) → HasSize w (row_of c) → n < room w →
        Wire x None (c ∷ (field w n ++ rest)) → length rest ≡ n }
{}

/// A constructor is of the type of each item that stands behind it (part 1, section 1.6).
pub fn constructor_gives_type()
    ensures { (x : Item) (code : EncodingCodes) (rest : List ℕ) → WithoutRaw x →
        Wire x None (byte_of code ∷ rest) → kind_of x ≡ kind_at code }
{}

/// The canonical text of an item is a wire form of it, where its counts are in their bounds and its raw items are
/// wire forms.
pub fn canon_is_wire()
    ensures { (x : Item) (bytes : List ℕ) → AllWithin IsCapped x → RawKept IsStrict x →
        canon x ≡ Some bytes → Wire x None bytes }
{}

/// The wide form of an item, which it has as an element of an array, is a wire form of it behind the array's
/// constructor, with the same premises (part 1, section 1.6.24).
pub fn wide_is_wire()
    ensures { (x : Item) (p : ℕ × List ℕ) → AllWithin IsCapped x → RawKept IsStrict x →
        wide x ≡ Some p → Wire x (Some p.0) p.1 }
{}

/// Different items without raw ones have different canonical texts.
pub fn canon_is_injective()
    ensures { (x y : Item) (bytes : List ℕ) → WithoutRaw x → WithoutRaw y → canon x ≡ Some bytes →
        canon y ≡ Some bytes → x ≡ y }
{}

/// A byte stands for one constructor, and each constructor has one byte (part 1, section 1.6).
pub fn constructor_has_one_byte()
    ensures forward { (code : EncodingCodes) → code_of (byte_of code) ≡ Some code }
    ensures back { (code : EncodingCodes) (c : ℕ) → code_of c ≡ Some code → c ≡ byte_of code }
{}
