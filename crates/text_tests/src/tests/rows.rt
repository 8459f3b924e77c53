//! Rows of tables.

use std::fmt::Debug;
use std::process::Abort;

/// Ends the test where a row finds anything but what it wants.
pub fn same<T: PartialEq + Debug + Drop>(rt: &impl Abort, row: &str, found: T, wanted: T) {
    assert_eq!(rt; found, wanted, "{row}");
}
