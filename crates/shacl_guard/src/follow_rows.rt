// Logs that are followed, through `run` with the forms in memory.
use crate::log_rows::{TWO, ended};
use crate::tests::file_of;
use std::test::Fail;

// Each row: a log, an order, a version, the status, and what is printed. The log is looked at before the order.
const ROWS: [(&[u8], &str, &str, u8, &str); 8] = [
    (
        TWO,
        "order 2 2 1 1",
        "2",
        0,
        "waiting 0\nknown 0\napplied 2\nknown 2\nversion 2\ntriples 1\n<e:a> <e:p> <e:b> .\n",
    ),
    (TWO, "order 2", "1", 0, "waiting 0\nversion 0\nunserved\n"),
    (TWO, "order", "0", 0, "version 0\ntriples 0\n"),
    (
        TWO,
        "order 1",
        "1000000",
        0,
        "applied 1\nversion 1\nunserved\n",
    ),
    (TWO, "order 3", "1", 15, "error order 1\n"),
    (b"SGLOG 1\n", "order 9", "1", 11, "error log record 0\n"),
    (TWO, "order 1", "01", 2, "error usage\n"),
    (TWO, "order 1", "1000001", 2, "error usage\n"),
];

#[test]
fn logs_are_followed(rt: HostRuntime) -> Result<(), Fail> {
    let alloc = rt.alloc();
    for (log, order, version, code, printed) in ROWS {
        let words = ["shacl_guard", "follow", "l", "o", version];
        let held = vec![in alloc;
            file_of(alloc, "l", log)?,
            file_of(alloc, "o", order.as_bytes())?,
        ]?;
        let (status, out, _) = ended(&rt, alloc, &words, held, b"", 0)?;
        assert_eq!(rt; status.code(), code);
        assert_eq!(rt; out.taken(), printed.as_bytes());
    }
    Ok(())
}
