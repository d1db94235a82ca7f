//! Files of records, where the disk stops.
use peer_disk::{Ending, MemDisk, Record, Records, load, put_all};
use std::alloc::{AllocError, Global};
use std::test::Fail;

const SITE: u16 = 258;

// A file with one body.
const ONE: &[u8] = b"\x01\x01\x02\x01\0\x01a\0";

// What three more bodies leave behind it.
const THREE_MORE: &[u8] = b"\x01\0\x01b\x01\0\0\x01\0\x02cd\0";

fn three_records(alloc: Global) -> Result<Records, AllocError> {
    let mut records = Records::new(alloc)?;
    records.push(&Record::new(alloc, b"b")?)?;
    records.push(&Record::new(alloc, b"")?)?;
    records.push(&Record::new(alloc, b"cd")?)?;
    Ok(records)
}

// A disk with these bytes, of which all calls behind the first `stop` fail.
fn disk_of(alloc: Global, bytes: &[u8], stop: Option<u64>) -> Result<MemDisk, AllocError> {
    Ok(MemDisk::new(Vec::from_slice(alloc, bytes)?, Vec::new(alloc), stop))
}

// How many bodies are read from these bytes, if they end well.
fn bodies_in(alloc: Global, bytes: &[u8]) -> Result<Option<usize>, AllocError> {
    let mut disk = disk_of(alloc, bytes, None)?;
    match load(alloc, &mut disk, SITE) {
        Ok(loaded) if loaded.ending == Ending::Closed => Ok(Some(loaded.bodies.len())),
        _ => Ok(None),
    }
}

// Several records take as many calls of the disk as one, which are four: where they stop, all bodies are there or only
// the old one. The third call opens the gate.
#[test]
fn a_group_stops(rt: HostRuntime) -> Result<(), Fail> {
    let alloc = rt.alloc();
    let records = three_records(alloc)?;
    assert!(rt; !records.is_empty());
    for calls in 0..5u64 {
        let mut disk = disk_of(alloc, ONE, Some(calls))?;
        assert!(rt; disk.bytes().len() == 8);
        assert_eq!(rt; put_all(&mut disk, 7, &records).is_ok(), calls == 4);
        let count = if calls < 3 { 1 } else { 4 };
        assert_eq!(rt; bodies_in(alloc, disk.bytes())?, Some(count));
        assert_eq!(rt; disk.bytes().ends_with(THREE_MORE), calls >= 3);
    }
    Ok(())
}
