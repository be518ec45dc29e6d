//! The names of encodings, and the bounds that the standard leaves open.
/// The name of the encoding of a described value of a basic type.
pub const DESCRIBED_BASIC: &str = "DESCRIBED_BASIC";
/// The name of the encoding of a described list (part 1, section 1.4).
pub const DESCRIBED_LIST: &str = "DESCRIBED_LIST";
/// The name of the encoding of a described map.
pub const DESCRIBED_MAP: &str = "DESCRIBED_MAP";
/// The name of the descriptor of a described value (part 1, section 1.2).
pub const DESCRIPTOR: &str = "DESCRIPTOR";
/// The name of the encoding of an enum by its value alone.
pub const UNTAGGED_ENUM: &str = "UNTAGGED_ENUM";
/// The name of the value of a described value.
pub const VALUE: &str = "VALUE";

/// The most elements of a list or an array that are read, and the most keys and values of a map.
pub const MAX_ARRAY_COUNT: usize = 65_536;

/// The bytes that the size of a `list8` counts besides its items: its count (part 1, section 1.6.22).
pub const OFFSET_LIST8: usize = 1;
/// The bytes that the size of a `list32` counts besides its items: its count.
pub const OFFSET_LIST32: usize = 4;
/// The bytes that the size of a `map8` counts besides its items: its count (part 1, section 1.6.23).
pub const OFFSET_MAP8: usize = 1;
/// The bytes that the size of a `map32` counts besides its items: its count.
pub const OFFSET_MAP32: usize = 4;
/// The bytes that the size of an `array8` counts besides its elements: its count and its constructor (part 1, section 1.6.24).
pub const OFFSET_ARRAY8: usize = 2;
/// The bytes that the size of an `array32` counts besides its elements: its count and its constructor.
pub const OFFSET_ARRAY32: usize = 5;
