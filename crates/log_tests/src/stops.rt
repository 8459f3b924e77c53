//! A log on a disk in memory whose calls fail: the bytes that are written, and a stop at each call of two appends.

use commit_log::{AppendFault, CreateFault, Log, OpenLogFault, create, open};
use disk::{Disk, MemDisk, MemMoment};
use record_text::{read_record, write_record};
use std::alloc::{AllocError, Global};
use std::process::Abort;
use std::test::Fail;

// A log without a record, on a disk that fails at one call and then puts only the first bytes of a piece. To make it takes the
// calls 1 to 3.
fn new_log(rt: &impl Abort, alloc: Global, fail: u64, short: usize) -> Result<Log<MemDisk>, Fail> {
    let mut numbers = Vec::new(alloc);
    numbers.push(fail)?;
    let disk = MemDisk::new(alloc, Vec::new(alloc), numbers, short)?;
    match create(disk) {
        Ok(log) => Ok(log),
        Err((_, fault)) => panic!(rt; "{fault:?}"),
    }
}

// Appends the next record, which has this text, and tells the answer.
fn append(
    rt: &impl Abort,
    alloc: Global,
    log: &mut Log<MemDisk>,
    text: &str,
) -> Result<(), AppendFault> {
    assert!(rt; log.count() < 1000);
    let number = log.count() + 1;
    match read_record(alloc, number, text.as_bytes()) {
        Ok(next) => log.append(alloc, &next),
        Err(fault) => panic!(rt; "{fault:?} {text}"),
    }
}

#[test]
fn bytes_that_are_written(rt: HostRuntime) -> Result<(), Fail> {
    let alloc = rt.alloc();
    let mut log = new_log(&rt, alloc, 0, 0)?;
    let first = append(&rt, alloc, &mut log, "commit 1\n+ <e:a> <e:p> <e:b> .\n");
    assert_eq!(rt; first, Ok(()));
    let disk = log.into_disk();
    assert_eq!(rt;
        disk.bytes(),
        b"SGLOG 1\n\x01\0\0\0\0\0\0\0\x1Fcommit 1\n+ <e:a> <e:p> <e:b> .\n\0".as_slice()
    );
    assert_eq!(rt; disk.bytes().len(), 49);
    let Ok((mut log, records)) = open(alloc, disk) else {
        panic!(rt; "the log of one record")
    };
    assert_eq!(rt; records.len(), 1);
    let second = append(&rt, alloc, &mut log, "commit 2\n");
    assert_eq!(rt; second, Ok(()));
    let disk = log.into_disk();
    assert_eq!(rt;
        disk.bytes(),
        b"SGLOG 1\n\x01\0\0\0\0\0\0\0\x1Fcommit 1\n+ <e:a> <e:p> <e:b> .\n\x01\0\0\0\0\0\0\0\x09commit 2\n\0".as_slice()
    );
    assert_eq!(rt; disk.bytes().len(), 67);
    Ok(())
}

// The records of the two appends, whose texts a log then has.
const TEXTS: [&str; 2] = [
    "commit 1\n+ <e:a> <e:p> <e:b> .\n",
    "commit 2\n- <e:a> <e:p> <e:b> .\nshapes 1\n<e:S> <e:p> _:s1x1 .\n",
];

// How a crash tears a range: its first bytes, so many, are those that a read gives, and the others are one byte.
type Tear = (u64, u8);

const TEARS: [Tear; 12] = [
    (0, 0),
    (0, 1),
    (0, 255),
    (1, 0),
    (1, 43),
    (8, 0),
    (8, 1),
    (9, 0),
    (9, 255),
    (20, 0),
    (20, 43),
    (1000, 0),
];

// Tears a range of an image.
fn tear_range(
    rt: &impl Abort,
    image: &mut Vec<u8>,
    range: (u64, u64),
    read: &[u8],
    tear: Tear,
) -> Result<(), Fail> {
    let (at, size) = range;
    assert!(rt; at < 1000 && size < 1000);
    for i in 0..size {
        let place = (at + i) as usize;
        let byte = match read.get(place) {
            Some(byte) if i < tear.0 => *byte,
            _ => tear.1,
        };
        if place < image.len() {
            image[place] = byte;
        } else {
            image.push(byte)?;
        }
    }
    Ok(())
}

// What a crash may leave at a moment, where a read gives these bytes.
fn crash_image(
    rt: &impl Abort,
    alloc: Global,
    moment: &MemMoment,
    read: &[u8],
    tear: Tear,
) -> Result<Vec<u8>, Fail> {
    let mut image = moment.durable().to_vec(alloc)?;
    for range in moment.unsynced() {
        tear_range(rt, &mut image, *range, read, tear)?;
    }
    Ok(image)
}

// The image opens to the records of the first texts, at least so many and at most one more; and goes on from there.
fn opens_to(rt: &impl Abort, alloc: Global, image: Vec<u8>, least: usize) -> Result<(), Fail> {
    let disk = MemDisk::new(alloc, image, Vec::new(alloc), 0)?;
    let Ok((mut log, records)) = open(alloc, disk) else {
        panic!(rt; "an image that opens to nothing")
    };
    assert!(rt; least <= TEXTS.len());
    assert!(rt; records.len() == least || records.len() == least + 1);
    for (next, text) in records.iter().zip(TEXTS) {
        let found = write_record(alloc, next)?;
        assert_eq!(rt; found.as_str(), text);
    }
    if let Some(text) = TEXTS.get(records.len()) {
        let answer = append(rt, alloc, &mut log, text);
        assert_eq!(rt; answer, Ok(()));
    }
    Ok(())
}

// A crash at this moment leaves the records of the first texts, at least so many, in each way in which it tears the bytes: a range
// of one byte, as a gate is, in all the ways that there are.
fn crashes_at(
    rt: &impl Abort,
    alloc: Global,
    moment: &MemMoment,
    read: &[u8],
    least: usize,
) -> Result<(), Fail> {
    for tear in TEARS {
        let image = crash_image(rt, alloc, moment, read, tear)?;
        opens_to(rt, alloc, image, least)?;
    }
    for byte in 0..=u8::MAX {
        let image = crash_image(rt, alloc, moment, read, (0, byte))?;
        opens_to(rt, alloc, image, least)?;
    }
    Ok(())
}

// How many of two appends are answered Ok where the disk fails at this call.
fn stopped_at(rt: &impl Abort, alloc: Global, call: u64, short: usize) -> Result<usize, Fail> {
    let mut log = new_log(rt, alloc, call, short)?;
    let mut answered: usize = 0;
    for text in TEXTS {
        let was_closed = log.is_closed();
        match append(rt, alloc, &mut log, text) {
            Ok(()) => {
                assert!(rt; answered < 2);
                answered += 1;
            }
            Err(AppendFault::Failed) => {
                assert!(rt; !was_closed && log.is_closed());
                break;
            }
            Err(fault) => panic!(rt; "{fault:?}"),
        }
    }
    if let Some(text) = TEXTS.get(answered) {
        let answer = append(rt, alloc, &mut log, text);
        assert_eq!(rt; answer, Err(AppendFault::Closed));
    }
    let disk = log.into_disk();
    let read = disk.bytes().to_vec(alloc)?;
    crashes_at(rt, alloc, disk.moment(), &read, answered)?;
    opens_to(rt, alloc, read, answered)?;
    Ok(answered)
}

// Each row: a call, how many bytes a write that fails puts, and how many appends are answered Ok.
const STOPS: [(u64, usize, usize); 25] = [
    (4, 0, 0),
    (4, 1, 0),
    (4, 8, 0),
    (4, 30, 0),
    (4, 1000, 0),
    (5, 0, 0),
    (6, 0, 0),
    (6, 1, 0),
    (7, 0, 0),
    (8, 0, 1),
    (8, 1, 1),
    (8, 7, 1),
    (8, 8, 1),
    (8, 9, 1),
    (8, 20, 1),
    (8, 60, 1),
    (8, 70, 1),
    (8, 1000, 1),
    (9, 0, 1),
    (10, 0, 1),
    (10, 1, 1),
    (11, 0, 1),
    (12, 0, 2),
    (13, 0, 2),
    (0, 0, 2),
];

#[test]
fn stops_at_each_call(rt: HostRuntime) -> Result<(), Fail> {
    for (call, short, wanted) in STOPS {
        let answered = stopped_at(&rt, rt.alloc(), call, short)?;
        assert_eq!(rt; answered, wanted, "call {call}, {short} bytes");
    }
    Ok(())
}

// At each moment from the making of a log on, a crash leaves the records of some of the texts, in their order.
#[test]
fn crashes_at_each_moment(rt: HostRuntime) -> Result<(), Fail> {
    let alloc = rt.alloc();
    let mut log = new_log(&rt, alloc, 0, 0)?;
    assert_eq!(rt; append(&rt, alloc, &mut log, TEXTS[0]), Ok(()));
    assert_eq!(rt; append(&rt, alloc, &mut log, TEXTS[1]), Ok(()));
    let disk = log.into_disk();
    let least: [usize; 8] = [0, 0, 0, 0, 1, 1, 1, 1];
    assert_eq!(rt; disk.past().len(), 10);
    for (moment, least) in disk.past().iter().skip(2).zip(least) {
        crashes_at(&rt, alloc, moment, disk.bytes(), least)?;
    }
    crashes_at(&rt, alloc, disk.moment(), disk.bytes(), 2)?;
    Ok(())
}

// What the making of a log answers on a disk of these bytes that fails at this call.
fn made(alloc: Global, bytes: &[u8], call: u64) -> Result<(String, usize), Fail> {
    let mut numbers = Vec::new(alloc);
    numbers.push(call)?;
    let disk = MemDisk::new(alloc, bytes.to_vec(alloc)?, numbers, 0)?;
    let mut found = String::new(alloc);
    match create(disk) {
        Ok(log) => {
            write!(found, "made {}", log.count())?;
            Ok((found, log.into_disk().bytes().len()))
        }
        Err((disk, CreateFault::NotEmpty)) => {
            write!(found, "not empty")?;
            Ok((found, disk.bytes().len()))
        }
        Err((disk, CreateFault::Failed)) => {
            write!(found, "failed")?;
            Ok((found, disk.bytes().len()))
        }
    }
}

// Why no log was opened.
fn told(alloc: Global, fault: OpenLogFault) -> Result<String, AllocError> {
    match fault {
        OpenLogFault::BadLog(number) => format!(in alloc; "bad {number}"),
        OpenLogFault::Failed => String::from_str(alloc, "failed"),
        OpenLogFault::Memory => String::from_str(alloc, "memory"),
    }
}

// What the opening of these bytes answers on a disk that fails at this call.
fn opened(alloc: Global, bytes: &[u8], call: u64) -> Result<String, Fail> {
    let mut numbers = Vec::new(alloc);
    numbers.push(call)?;
    let disk = MemDisk::new(alloc, bytes.to_vec(alloc)?, numbers, 0)?;
    match open(alloc, disk) {
        Ok(opening) => {
            let (log, _records) = opening;
            Ok(format!(in alloc; "opened {}", log.count())?)
        }
        Err(refusal) => {
            let (_disk, fault) = refusal;
            Ok(told(alloc, fault)?)
        }
    }
}

#[test]
fn logs_made(rt: HostRuntime) -> Result<(), Fail> {
    let rows: [(&[u8], u64, &str, usize); 6] = [
        (b"", 0, "made 0", 9),
        (b"x", 0, "not empty", 1),
        (b"SGLOG 1\n\0", 0, "not empty", 9),
        (b"", 1, "failed", 0),
        (b"", 2, "failed", 0),
        (b"", 3, "failed", 9),
    ];
    for (bytes, call, wanted, length) in rows {
        let (found, size) = made(rt.alloc(), bytes, call)?;
        assert_eq!(rt; found.as_str(), wanted);
        assert_eq!(rt; size, length);
    }
    Ok(())
}

#[test]
fn logs_opened(rt: HostRuntime) -> Result<(), Fail> {
    let rows: [(&[u8], u64, &str); 6] = [
        (b"SGLOG 1\n\0", 0, "opened 0"),
        (
            b"SGLOG 1\n\x01\0\0\0\0\0\0\0\x09commit 1\n\0",
            0,
            "opened 1",
        ),
        (b"SGLOG 1\n", 0, "bad 0"),
        (b"SGLOG 1\n\0", 1, "failed"),
        (b"SGLOG 1\n\0", 2, "failed"),
        (b"SGLOG 1\n\0", 3, "failed"),
    ];
    for (bytes, call, wanted) in rows {
        let found = opened(rt.alloc(), bytes, call)?;
        assert_eq!(rt; found.as_str(), wanted);
    }
    Ok(())
}

// A disk in memory by itself: its name, and faults of its calls.
#[test]
fn disks_in_memory(rt: HostRuntime) -> Result<(), Fail> {
    let alloc = rt.alloc();
    let mut numbers = Vec::new(alloc);
    numbers.push(3)?;
    let mut disk = MemDisk::new(alloc, b"abc".to_vec(alloc)?, numbers, 1)?;
    assert!(rt; disk.choose(alloc, "a log").is_ok());
    assert!(rt; disk.len() == Ok(3));
    assert!(rt; disk.bytes().len() == 3);
    assert!(rt; disk.write_at(3, b"de").is_err());
    assert_eq!(rt; disk.bytes(), b"abcd".as_slice());
    assert!(rt; disk.write_at(0, b"xy").is_ok());
    assert_eq!(rt; disk.bytes(), b"xycd".as_slice());
    assert_eq!(rt; disk.moment().durable(), b"abc".as_slice());
    assert_eq!(rt; disk.moment().unsynced(), [(3, 2), (0, 2)].as_slice());
    assert!(rt; disk.sync().is_ok());
    assert_eq!(rt; disk.moment().durable(), b"xycd".as_slice());
    assert_eq!(rt; disk.past().len(), 3);
    Ok(())
}
