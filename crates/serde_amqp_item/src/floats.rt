//! Floating point numbers as their bits (part 1, 1.6.11 and 1.6.12).
ghost use Rattle.std.specs.Prelude.{◌≡◌};

/// A binary floating point number of 32 bits, as the bits of its IEEE 754 encoding (part 1, section 1.6.11).
/// Two are equal where their bits are.
#[derive(Debug, Clone, Copy, PartialEq, Eq)]
pub struct Float(pub u32);

impl Float {
    /// The number with these bits.
    pub fn from_bits(bits: u32) -> Float
        ensures { result.0 ≡ bits }
    {
        Float(bits)
    }

    /// The bits of the number.
    pub fn to_bits(self) -> u32
        ensures { result ≡ self.0 }
    {
        self.0
    }
}

/// A binary floating point number of 64 bits, as the bits of its IEEE 754 encoding (part 1, section 1.6.12).
/// Two are equal where their bits are.
#[derive(Debug, Clone, Copy, PartialEq, Eq)]
pub struct Double(pub u64);

impl Double {
    /// The number with these bits.
    pub fn from_bits(bits: u64) -> Double
        ensures { result.0 ≡ bits }
    {
        Double(bits)
    }

    /// The bits of the number.
    pub fn to_bits(self) -> u64
        ensures { result ≡ self.0 }
    {
        self.0
    }
}
