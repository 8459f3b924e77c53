// Logs that are followed in an order, and what is printed.
use follow_command::{FollowFault, FollowedFiles, follow_files};
use outside::{MemFile, MemFiles};
use rdf_text::Text;
use std::alloc::{AllocError, Global};
use std::test::Fail;

// A log of two records: the first adds a triple, and the second changes nothing.
const LOG: &[u8] =
    b"SGLOG 1\n\x01\0\0\0\0\0\0\0\x1fcommit 1\n+ <e:a> <e:p> <e:b> .\n\x01\0\0\0\0\0\0\0\x09commit 2\n\0";

// The second record of this one adds the triple again, and the third takes out another.
const MISFITS: &[u8] =
    b"SGLOG 1\n\x01\0\0\0\0\0\0\0\x1fcommit 1\n+ <e:a> <e:p> <e:b> .\n\x01\0\0\0\0\0\0\0\x1fcommit 2\n+ <e:a> <e:p> <e:b> .\n\x01\0\0\0\0\0\0\0\x1fcommit 3\n- <e:a> <e:p> <e:c> .\n\0";

// A log, an order, a version, and what is printed.
type Row = (&'static [u8], &'static str, u64, &'static str);

const ROWS: [Row; 9] = [
    (
        LOG,
        "order 2 2 1 1",
        2,
        "waiting 0\nknown 0\napplied 2\nknown 2\nversion 2\ntriples 1\n<e:a> <e:p> <e:b> .\n",
    ),
    (LOG, "order 2", 1, "waiting 0\nversion 0\nunserved\n"),
    (LOG, "order", 0, "version 0\ntriples 0\n"),
    (LOG, "order 1\n", 0, "applied 1\nversion 1\ntriples 0\n"),
    (
        MISFITS,
        "order 2 1 2",
        1,
        "waiting 0\napplied 1 misfit 2\nmisfit 2\nversion 1\ntriples 1\n<e:a> <e:p> <e:b> .\n",
    ),
    (
        MISFITS,
        "order 3 1",
        9,
        "waiting 0\napplied 1\nversion 1\nunserved\n",
    ),
    (LOG, "order 3", 2, "error order 1"),
    (LOG, "orders 1", 2, "error order 0"),
    (LOG, "order 1  2", 2, "error order 2"),
];

// More orders and logs that aren't followed.
const FAULTS: [(&[u8], &str, FollowFault); 8] = [
    (LOG, "", FollowFault::BadOrder { place: 0 }),
    (LOG, "order ", FollowFault::BadOrder { place: 1 }),
    (LOG, "order 0", FollowFault::BadOrder { place: 1 }),
    (LOG, "order 1 01", FollowFault::BadOrder { place: 2 }),
    (LOG, "order 2 +1", FollowFault::BadOrder { place: 2 }),
    (LOG, "order 1\n\n", FollowFault::BadOrder { place: 1 }),
    (b"SGLOG 1\n", "order 9", FollowFault::BadLog { record: 0 }),
    (
        b"SGLOG 1\n\x01\0\0\0\0\0\0\0\x09commit 2\n\0",
        "order 9",
        FollowFault::BadLog { record: 1 },
    ),
];

fn file(alloc: Global, name: &str, bytes: &[u8]) -> Result<MemFile, AllocError> {
    Ok(MemFile {
        name: String::from_str(alloc, name)?,
        bytes: bytes.to_vec(alloc)?,
    })
}

// What is printed of a log and an order.
fn follow(
    alloc: Global,
    log: &[u8],
    order: &str,
    version: u64,
) -> Result<Result<String, FollowFault>, AllocError> {
    let held = vec![in alloc;
        file(alloc, "log", log)?,
        file(alloc, "order", order.as_bytes())?,
    ]?;
    let mut files = MemFiles::new(alloc, held, Vec::new(alloc));
    let followed = FollowedFiles {
        log_file: Text::new(alloc, "log")?,
        order_file: Text::new(alloc, "order")?,
        version,
    };
    Ok(follow_files(alloc, &followed, &mut files))
}

// The text, or the line of a place of the order.
fn told(alloc: Global, printed: Result<String, FollowFault>) -> Result<String, Fail> {
    match printed {
        Ok(text) => Ok(text),
        Err(FollowFault::BadOrder { place }) => Ok(format!(in alloc; "error order {place}")?),
        Err(fault) => Ok(format!(in alloc; "{fault:?}")?),
    }
}

#[test]
fn answers_are_printed_in_order(rt: HostRuntime) -> Result<(), Fail> {
    let alloc = rt.alloc();
    for (log, order, version, wanted) in ROWS {
        let printed = follow(alloc, log, order, version)?;
        let found = told(alloc, printed)?;
        assert_eq!(rt; found.as_str(), wanted);
    }
    Ok(())
}

#[test]
fn logs_and_orders_are_refused(rt: HostRuntime) -> Result<(), Fail> {
    let alloc = rt.alloc();
    for (log, order, wanted) in FAULTS {
        match follow(alloc, log, order, 0)? {
            Ok(text) => panic!(rt; "{text}"),
            Err(fault) => assert_eq!(rt; fault, wanted),
        }
    }
    Ok(())
}
