// A pack on a sector disk: the directory is read through the interleave, and a bad block that it needs is refused.
use crate::images::*;
use listing::{Failure, catalogue};
use refusal::Refusal;
use sectors::{DISK, SectorDisk};
use std::alloc::Global;
use std::test::Fail;

// A disk whose block 1 begins with these entries, with one byte of it changed. Block 1 is sectors 2 and 3, which are in
// records 2 and 7; the entries fill less than the first of them.
fn disk(heap: Global, entries: &[&[u8; 26]], place: usize, byte: u8) -> Result<SectorDisk, Fail> {
    let mut bytes = vec![in heap; 0; DISK]?;
    put_entries(&mut bytes, 513 * 2, entries);
    let changed = bytes
        .get_mut(place)
        .ok_or_else(|| Fail::new("the place lies on the disk"))?;
    *changed = byte;
    Ok(SectorDisk::new(bytes, false)?)
}

#[test]
fn a_catalogue_of_a_disk(rt: HostRuntime) -> Result<(), Fail> {
    let heap = rt.alloc();
    // block 5, whose second sector is bad, holds no directory
    let disk = disk(heap, &TWO_FILES, 513 * 15 + 512, 1)?;
    let text = catalogue(heap, &disk)?;
    assert!(rt; text.as_str() == TWO_FILES_TEXT);
    Ok(())
}

#[test]
fn a_bad_directory_block(rt: HostRuntime) -> Result<(), Fail> {
    let heap = rt.alloc();
    // the second sector of block 1 is bad: told even where the volume's entry is at fault too
    for volume in [VOLUME, BOOT] {
        let disk = disk(
            heap,
            &[volume, BOOT, DIRECTORY, BLOCKS_LEFT],
            513 * 7 + 512,
            255,
        )?;
        assert_eq!(rt;
            catalogue(heap, &disk).err(),
            Some(Failure::Refused(Refusal::BadBlock { depth: 0, place: 1 }))
        );
    }
    // a volume with two directory blocks, the second of which is bad: block 2 is sectors 4 and 5, in records 4 and 1
    let two =
        b"TEST\x03\x00\x00\x00\x00\x00\x00\x00\x82\x55\xaa\x00\xff\x08\x00\x00\x00\x00\x00\x54\x02\x1d";
    let disk_of_two = disk(heap, &[two, BOOT, DIRECTORY, BLOCKS_LEFT], 513 * 4 + 512, 1)?;
    assert_eq!(rt;
        catalogue(heap, &disk_of_two).err(),
        Some(Failure::Refused(Refusal::BadBlock { depth: 0, place: 2 }))
    );
    // a volume's entry at fault is told before the second directory block is read
    let disk_at_fault = disk(
        heap,
        &[BOOT, BOOT, DIRECTORY, BLOCKS_LEFT],
        513 * 4 + 512,
        1,
    )?;
    assert_eq!(rt;
        catalogue(heap, &disk_at_fault).err(),
        Some(Failure::Refused(Refusal::BrokenLayout { entry: 0 }))
    );
    Ok(())
}
