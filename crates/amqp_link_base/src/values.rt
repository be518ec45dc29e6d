//! Values that take the place of others.
ghost use Rattle.std.specs.Prelude.{◌≡◌, Ok, IfOk};

use std::alloc::AllocError;

/// Both values, where there was memory for each.
///
/// What makes a large value of several others takes them by one `?` so, with none of them in hand where it leaves.
pub fn both<A: Drop, B: Drop>(
    first: Result<A, AllocError>,
    second: Result<B, AllocError>,
) -> Result<(A, B), AllocError>
    ensures { IfOk result (λ c. (first ≡ Ok c.0) × (second ≡ Ok c.1)) }
{
    let second = second?;
    Ok((first?, second))
}

/// Puts a value in the place of another.
pub fn put<T: Drop>(place: &mut T, value: T)
    ensures { place.new ≡ value }
{
    *place = value;
}
