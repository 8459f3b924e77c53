//! Owned values that are let go, or kept in pairs, by a call.
ghost use Rattle.std.specs.Prelude.{◌≡◌, IfOk};

use std::alloc::AllocError;

/// Lets go of the value. A place that has many ways out calls this, in place of having the value's
/// drop written out at each of them.
pub fn let_go<T: Drop>(value: T) {
    let _ = value;
}

/// Both values, where both are there; else one of the errors.
pub fn both<A: Drop, B: Drop>(
    first: Result<A, AllocError>,
    second: Result<B, AllocError>,
) -> Result<(A, B), AllocError>
    ensures { IfOk result (λ pair. (first ≡ Ok pair.0) × (second ≡ Ok pair.1)) }
{
    Ok((first?, second?))
}
