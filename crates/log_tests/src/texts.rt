//! Texts of records, and texts that are none.

use record_text::{TextFault, read_record, write_record};
use std::alloc::Global;
use std::test::Fail;

// The text of the record with this number that a text is, or why it is none.
fn outcome(alloc: Global, number: u64, text: &str) -> Result<String, Fail> {
    let mut found = String::new(alloc);
    match read_record(alloc, number, text.as_bytes()) {
        Ok(next) => found = write_record(alloc, &next)?,
        Err(TextFault::NoRecord) => write!(found, "none")?,
        Err(TextFault::Memory) => write!(found, "memory")?,
    }
    Ok(found)
}

// Texts of record 12.
const RECORDS: [&str; 8] = [
    "commit 12\n",
    "commit 12\n+ <e:a> <e:p> <e:b> .\n",
    "commit 12\n- <e:a> <e:p> <e:b> .\n",
    "commit 12\n- <e:a> <e:p> <e:b> .\n- <e:a> <e:p> <e:c> .\n+ _:s1x2 <e:p> _:s64x4294967295 .\n+ <e:a> <e:p> \"x\\ny\"@en .\n",
    "commit 12\nshapes 0\n",
    "commit 12\n+ <e:a> <e:p> \"- \\\"+ \\\\\" .\nshapes 1\n<e:S> <e:p> \"1\"^^<http://www.w3.org/2001/XMLSchema#integer> .\n",
    "commit 12\n- <e:a> <e:p> <e:b> .\nshapes 2\n_:s2x1 <e:p> <e:b> .\n<e:S> <e:p> <e:b> .\n",
    "commit 12\n- <e:a> <e:p> <e:b> .\n+ <e:a> <e:p> <e:b> .\n",
];

// Texts that are no record 12.
const NONE: [&str; 26] = [
    "",
    "commit 12",
    "commit 012\n",
    "commit 11\n",
    "commit 12 \n",
    "Commit 12\n",
    "commit 12\r\n",
    "commit 12\n\n",
    "commit 12\n+ <e:a> <e:p> <e:b> .",
    "commit 12\n+ <e:a> <e:p> <e:b>.\n",
    "commit 12\n+ <e:a>  <e:p> <e:b> .\n",
    "commit 12\n+ <e:a> <e:p> <e:b> . # c\n",
    "commit 12\n+<e:a> <e:p> <e:b> .\n",
    "commit 12\n+ <e:a> <e:p> <e:b> .\n+ <e:a> <e:p> <e:b> .\n",
    "commit 12\n+ <e:a> <e:p> <e:c> .\n+ <e:a> <e:p> <e:b> .\n",
    "commit 12\n+ <e:a> <e:p> <e:b> .\n- <e:a> <e:p> <e:c> .\n",
    "commit 12\n+ <a> <e:p> <e:b> .\n",
    "commit 12\n+ _:b <e:p> <e:b> .\n",
    "commit 12\n+ _:s65x1 <e:p> <e:b> .\n",
    "commit 12\n+ <e:a> <e:p> \"x\"@EN .\n",
    "commit 12\n+ <e:a> <e:p> \"1\"^^<http://www.w3.org/2001/XMLSchema#double> .\n",
    "commit 12\nshapes 1\n",
    "commit 12\nshapes 0\n<e:S> <e:p> <e:b> .\n",
    "commit 12\nshapes 01\n<e:S> <e:p> <e:b> .\n",
    "commit 12\nshapes 1\n+ <e:S> <e:p> <e:b> .\n",
    "commit 12\nshapes 0\n+ <e:S> <e:p> <e:b> .\n",
];

#[test]
fn texts_of_records(rt: HostRuntime) -> Result<(), Fail> {
    for text in RECORDS {
        let found = outcome(rt.alloc(), 12, text)?;
        assert_eq!(rt; found.as_str(), text);
    }
    Ok(())
}

#[test]
fn texts_of_no_record(rt: HostRuntime) -> Result<(), Fail> {
    for text in NONE {
        let found = outcome(rt.alloc(), 12, text)?;
        assert_eq!(rt; found.as_str(), "none", "{text}");
    }
    Ok(())
}
