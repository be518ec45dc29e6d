//! Where a value is written.
/// Where a value is written: in an array only the first element has a constructor before it
/// (part 1, 1.2.4).
#[derive(Debug, Clone, Copy, PartialEq, Eq)]
pub enum IsArrayElement {
    /// Outside of an array.
    False,
    /// As the first element of an array.
    FirstElement,
    /// Behind an element with this constructor.
    OtherElement(u8),
}
