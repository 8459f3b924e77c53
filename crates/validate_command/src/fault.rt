//! Why two files were not validated.
use crate::BadInput;

/// Why two files were not validated.
#[derive(Debug, Drop)]
pub enum ValidateFault {
    /// A file could not be read.
    ReadFault,
    /// A file has more than 16,777,216 bytes. The data is file 1, and the shapes are file 2.
    TooLong { file: u32 },
    /// The texts of the files aren't what they should be.
    BadInput(BadInput),
    /// Memory ran out.
    Memory,
}
