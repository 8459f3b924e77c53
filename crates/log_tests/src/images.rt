//! Images of logs, byte by byte, and which record of a bad one is to blame.

use commit_log::{RecordFault, read_records};
use record_text::write_record;
use std::alloc::Global;
use std::test::Fail;

// What an image opens to: the texts of its records, or the number of the record to blame.
fn outcome(alloc: Global, image: &[u8]) -> Result<String, Fail> {
    let mut found = String::new(alloc);
    match read_records(alloc, image) {
        Ok(records) => {
            for next in &records {
                let text = write_record(alloc, next)?;
                write!(found, "{text}")?;
            }
        }
        Err(RecordFault::BadLog(number)) => write!(found, "bad {number}")?,
        Err(RecordFault::Memory) => write!(found, "memory")?,
    }
    Ok(found)
}

// Each row: an image, and what it opens to.
const IMAGES: [(&[u8], &str); 30] = [
    (b"", "bad 0"),
    (b"SGLOG 1", "bad 0"),
    (b"SGLOG 2\n\0", "bad 0"),
    (b"SGLOG 1\n", "bad 0"),
    (b"SGLOG 1\n\0", ""),
    (b"SGLOG 1\n\0any bytes", ""),
    (b"SGLOG 1\n\x01", "bad 1"),
    (b"SGLOG 1\n\x01\0\0\0\0\0\0\0", "bad 1"),
    (b"SGLOG 1\n\x01\0\0\0\0\0\0\0\0\0", "bad 1"),
    (b"SGLOG 1\n\x01\0\0\0\0\0\0\0\x09commit 1", "bad 1"),
    (b"SGLOG 1\n\x01\0\0\0\0\0\0\0\x09commit 1\n", "bad 1"),
    (b"SGLOG 1\n\x01\0\0\0\0\0\0\0\x09commit 1\n\0", "commit 1\n"),
    (b"SGLOG 1\n\xFF\0\0\0\0\0\0\0\x09commit 1\n\0", "commit 1\n"),
    (
        b"SGLOG 1\n\x01\0\0\0\0\0\0\0\x09commit 1\n\0\xFF\xFF",
        "commit 1\n",
    ),
    (b"SGLOG 1\n\x01\0\0\0\0\0\0\0\x09commit 2\n\0", "bad 1"),
    (b"SGLOG 1\n\x01\0\0\0\0\0\0\0\x08commit 1\n\0", "bad 1"),
    (b"SGLOG 1\n\x01\0\0\0\0\0\0\0\x0Acommit 1\n\0", "bad 1"),
    (b"SGLOG 1\n\x01\x09\0\0\0\0\0\0\0commit 1\n\0", "bad 1"),
    (b"SGLOG 1\n\x01\x01\0\0\0\0\0\0\x09commit 1\n\0", "bad 1"),
    (b"SGLOG 1\n\x01\0\0\0\0\0\0\0\x09commit 1\n\x01", "bad 2"),
    (
        b"SGLOG 1\n\x01\0\0\0\0\0\0\0\x09commit 1\n\x01\0\0\0\0\0\0\0\x09commit 2\n",
        "bad 2",
    ),
    (
        b"SGLOG 1\n\x01\0\0\0\0\0\0\0\x09commit 1\n\x02\0\0\0\0\0\0\0\x09commit 2\n\0",
        "commit 1\ncommit 2\n",
    ),
    (
        b"SGLOG 1\n\x01\0\0\0\0\0\0\0\x09commit 1\n\x01\0\0\0\0\0\0\0\x09commit 1\n\0",
        "bad 2",
    ),
    (
        b"SGLOG 1\n\x01\0\0\0\0\0\0\0\x09commit 1\n\x01\0\0\0\0\0\0\0\x09commit 3\n\0",
        "bad 2",
    ),
    (
        b"SGLOG 1\n\x01\0\0\0\0\0\0\0\x09commit 1\n\0\0\0\0\0\0\0\0\x09commit 2\n\0",
        "commit 1\n",
    ),
    (
        b"SGLOG 1\n\x01\0\0\0\0\0\0\0\x1Fcommit 1\n+ <e:a> <e:p> <e:b> .\n\0",
        "commit 1\n+ <e:a> <e:p> <e:b> .\n",
    ),
    (
        b"SGLOG 1\n\x01\0\0\0\0\0\0\0\x1Ecommit 1\n+ <e:a> <e:p> <e:b> .\n\0",
        "bad 1",
    ),
    (
        b"SGLOG 1\n\x01\0\0\0\0\0\0\0\x1Fcommit 1\n+ <e:a> <e:p> \"\xFF\xFF\xFF\" .\n\0",
        "bad 1",
    ),
    (
        b"SGLOG 1\n\x01\0\0\0\0\0\0\0\x12commit 1\nshapes 0\n\0",
        "commit 1\nshapes 0\n",
    ),
    (
        b"SGLOG 1\n\x01\0\0\0\0\0\0\0\x09commit 2\n\x01\0\0\0\0\0\0\0\x09commit 1\n",
        "bad 1",
    ),
];

#[test]
fn images_of_logs(rt: HostRuntime) -> Result<(), Fail> {
    for (image, wanted) in IMAGES {
        let found = outcome(rt.alloc(), image)?;
        assert_eq!(rt; found.as_str(), wanted, "{image:?}");
    }
    Ok(())
}
