// The sector disk: the interleave, and what the disk reads, writes and refuses.
use crate::samples::*;
use blocks::{BlockDevice, Fault, Tab};
use sectors::{DISK, SectorDisk, record_of};
use std::test::Fail;

// A sector, and the record that keeps it.
const RECORDS: [(u16, Option<u16>); 19] = [
    (0, Some(0)),
    (1, Some(5)),
    (2, Some(2)),
    (3, Some(7)),
    (4, Some(4)),
    (5, Some(1)),
    (6, Some(6)),
    (7, Some(3)),
    (8, Some(8)),
    (9, Some(13)),
    (10, Some(10)),
    (11, Some(15)),
    (12, Some(12)),
    (13, Some(9)),
    (14, Some(14)),
    (15, Some(11)),
    (319, Some(315)),
    (320, None),
    (65535, None),
];

#[test]
fn the_interleave(rt: HostRuntime) {
    for (sector, record) in RECORDS {
        assert_eq!(rt; record_of(sector), record);
    }
}

#[test]
fn bytes_that_are_no_disk_are_handed_back(rt: HostRuntime) -> Result<(), Fail> {
    assert_eq!(rt; DISK, 164160);
    for count in [0, 513, 163840, 164159, 164161] {
        let Err(rejected) = SectorDisk::new(filled(rt.alloc(), 0, count)?, false) else {
            return Err(Fail::new("these are no disk"));
        };
        check_rejected(&rt, rejected, count);
    }
    Ok(())
}

// A block, and the records of its first and its second sector; of the last block's, 318 and 315, less 256.
const HALVES: [(u32, u8, u8); 8] = [
    (0, 0, 5),
    (1, 2, 7),
    (2, 4, 1),
    (3, 6, 3),
    (4, 8, 13),
    (6, 12, 9),
    (7, 14, 11),
    (159, 62, 59),
];

#[test]
fn a_block_is_read_from_two_records(rt: HostRuntime) -> Result<(), Fail> {
    let disk = disk(rt.alloc(), 15, 1, false)?;
    assert_eq!(rt; disk.size(), 160);
    assert_eq!(rt; disk.tab(), Tab::Off);
    check_all_halves(&rt, &disk, &HALVES);
    Ok(())
}

// A buffer whose first half is of ones and whose second half is of twos.
fn halves() -> [u8; 1024] {
    let mut buffer = [1; 1024];
    put(&mut buffer, 512, 512, 2);
    buffer
}

#[test]
fn a_block_is_written_to_two_records(rt: HostRuntime) -> Result<(), Fail> {
    // another record is bad, and stays so
    for (record, status) in [(9, 1), (11, 128), (319, 255)] {
        let mut disk = disk(rt.alloc(), record, status, false)?;
        assert_eq!(rt; disk.write(5, &halves()), Ok(()));
        check_halves(&rt, &disk, 5, 1, 2);
        let mut bytes = records_with(rt.alloc(), record, status)?;
        put(bytes.as_mut_slice(), 513 * 10, 512, 1);
        put(bytes.as_mut_slice(), 513 * 15, 512, 2);
        check_disk(&rt, disk, bytes.as_slice());
    }
    Ok(())
}

#[test]
fn a_bad_sector_makes_its_block_bad(rt: HostRuntime) -> Result<(), Fail> {
    // records 10 and 15 keep the two sectors of block 5
    for (record, status) in [(10, 1), (15, 1), (10, 128), (15, 255)] {
        let bytes = records_with(rt.alloc(), record, status)?;
        let mut disk = disk(rt.alloc(), record, status, false)?;
        let fault = Fault::BadBlock { depth: 0, place: 5 };
        check_no_read(&rt, &disk, 5, fault);
        check_no_write(&rt, &mut disk, 5, fault);
        assert!(rt; disk.bytes() == bytes.as_slice());
        check_write(&rt, &mut disk, 4, 9);
        check_write(&rt, &mut disk, 6, 9);
    }
    Ok(())
}

// Blocks and buffers' lengths that a disk refuses, the bad block's among them.
const OUTSIDE: [(u32, usize); 5] = [
    (160, 1024),
    (65541, 1024),
    (4294967295, 1024),
    (5, 1023),
    (5, 0),
];

#[test]
fn range_then_tab_then_mark(rt: HostRuntime) -> Result<(), Fail> {
    let mut disk = disk(rt.alloc(), 15, 1, true)?;
    check_outside(&rt, rt.alloc(), &mut disk, &OUTSIDE)?;
    check_bad(&rt, &mut disk, 5, 0, 0);
    check_no_write(&rt, &mut disk, 4, Fault::WriteProtected { depth: 0 });
    check_disk(&rt, disk, records_with(rt.alloc(), 15, 1)?.as_slice());
    Ok(())
}
