//! A log in a file of the system.

use commit_log::{CreateFault, OpenLogFault, create, open};
use disk::{Disk, HostDisk};
use record_text::read_record;
use std::test::Fail;

#[test]
fn a_log_in_a_file(rt: HostRuntime) -> Result<(), Fail> {
    let alloc = rt.alloc();
    let name = "log_tests_file.log";
    let mut disk = HostDisk::new(&rt);
    assert!(rt; disk.choose(alloc, name).is_ok());
    let Ok(mut log) = create(disk) else {
        panic!(rt; "a new file")
    };
    let Ok(next) = read_record(alloc, 1, b"commit 1\n+ <e:a> <e:p> <e:b> .\n") else {
        panic!(rt; "a record")
    };
    assert!(rt; log.count() == 0);
    assert_eq!(rt; log.append(alloc, &next), Ok(()));
    let mut disk = HostDisk::new(&rt);
    assert!(rt; disk.choose(alloc, name).is_ok());
    assert_eq!(rt; disk.len(), Ok(49));
    let Ok((log, records)) = open(alloc, disk) else {
        panic!(rt; "a file with a log")
    };
    assert_eq!(rt; records.len(), 1);
    let answer = create(log.into_disk()).err();
    assert!(rt; matches!(answer, Some((_, CreateFault::NotEmpty))));
    let bytes = std::fs::read(&rt, name)?;
    assert_eq!(rt;
        bytes.as_slice(),
        b"SGLOG 1\n\x01\0\0\0\0\0\0\0\x1Fcommit 1\n+ <e:a> <e:p> <e:b> .\n\0".as_slice()
    );
    std::fs::remove_file(&rt, name)?;
    Ok(())
}

#[test]
fn names_that_give_no_log(rt: HostRuntime) -> Result<(), Fail> {
    let alloc = rt.alloc();
    let mut disk = HostDisk::new(&rt);
    assert!(rt; disk.choose(alloc, "log_tests_missing.log").is_ok());
    let answer = open(alloc, disk).err();
    assert!(rt; matches!(answer, Some((_, OpenLogFault::BadLog(0)))));
    let mut disk = HostDisk::new(&rt);
    assert!(rt; disk.choose(alloc, "log_tests_missing_folder/a.log").is_ok());
    let answer = create(disk).err();
    assert!(rt; matches!(answer, Some((_, CreateFault::Failed))));
    let mut disk = HostDisk::new(&rt);
    assert!(rt; disk.choose(alloc, "..").is_err());
    Ok(())
}
