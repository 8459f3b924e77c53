//! What is found, against what is wanted.

use std::alloc::AllocError;
use std::fmt::Debug;
use std::process::Abort;

/// Ends the test where something else is found than is wanted.
pub fn same<T: PartialEq + Debug + Drop>(rt: &impl Abort, what: &str, found: T, wanted: T) {
    assert_eq!(rt; found, wanted, "{what}");
}

/// The same of two lists, where there was memory for both.
pub fn same_lists<T: PartialEq + Debug + Drop>(
    rt: &impl Abort,
    what: &str,
    found: Result<Vec<T>, AllocError>,
    wanted: Result<Vec<T>, AllocError>,
) -> Result<(), AllocError> {
    let found = found?;
    same(rt, what, found.as_slice(), wanted?.as_slice());
    Ok(())
}
