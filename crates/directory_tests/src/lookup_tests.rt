// Which file a lookup gives.
use crate::packs::*;
use blocks::{BlockDevice, Image};
use directory::{Found, Key, lookup, read_entry};
use names::{Stem, WholeName};
use refusal::Refusal;
use std::alloc::{AllocError, Global};
use std::process::Abort;
use std::test::*;
use test_aids::WholeEntry;

// The files of a directory, the BLOCKS LEFT entry and a file behind it. What is not listed is zeros, live files whose
// names have no ETX. A lookup asks for no first block and no room.
const FILES: [(u16, File); 13] = [
    // no characters before the first ETX, then one
    (3, (b"\x03LOGA\x03      ", 0x10, (0, 0), (0, 0))),
    (4, (b"Q\x03          ", 0x10, (0, 0), (0, 0))),
    (5, (b"LOGA\x03       ", 0x14, (0, 0), (0, 0))),
    (6, (b"LOGA\x03       ", 0x10, (0, 0), (0, 0))),
    (7, (b"LOGA\x03       ", 0x10, (0, 0), (0, 0))),
    (8, (b"LOGB\x03       ", 0x10, (0, 0), (0, 0))),
    (9, (b"GONEH\x03      ", 0x04, (0, 0), (0, 0))),
    // all attributes that a live file can have, and an older name's tail
    (10, (b"NOTEH\x03OLDER\x03", 0xfa, (0, 0), (0, 0))),
    (11, (b"ABCDEFGHIJH\x03", 0x00, (0, 0), (0, 0))),
    (38, (b"LASTH\x03      ", 0x10, (0, 0), (0, 0))),
    (39, (b"NEXTH\x03      ", 0x10, (0, 0), (0, 0))),
    (40, (b"BLOCKS LEFT\x03", 0x01, (0, 0), (0, 0))),
    (41, (b"BEHINDH\x03    ", 0x10, (0, 0), (0, 0))),
];

// A device of four blocks with that directory.
fn files(heap: Global, changes: &[Change]) -> Result<Vec<u8>, AllocError> {
    changed(heap, (4, 3, 4), &FILES, changes)
}

// Checks the number that a lookup gave, and that the entry it gave is the one of that number.
fn check_reply<D: BlockDevice>(
    rt: &impl Abort,
    device: &D,
    reply: Result<Option<Found>, Refusal>,
    expected: Result<Option<u32>, Refusal>,
) -> Result<(), Fail> {
    if let Ok(Some(found)) = reply {
        let entry = read_entry(device, found.number, &mut [0; 1024])?;
        assert_eq!(rt; found.entry, entry);
    }
    let number = reply.map(|found| found.map(|found| found.number));
    assert_eq!(rt; number, expected);
    Ok(())
}

// Checks what a lookup by a key gives.
fn check_found<D: BlockDevice, K: Key>(
    rt: &impl Abort,
    device: &D,
    directory: u8,
    key: &K,
    expected: Result<Option<u32>, Refusal>,
) -> Result<(), Fail> {
    let reply = lookup(device, directory, key, &mut [0; 1024]);
    check_reply(rt, device, reply, expected)
}

#[test]
fn by_a_whole_name(rt: HostRuntime) -> Result<(), Fail> {
    let image = image(files(rt.alloc(), &[])?)?;
    for (name, expected) in [
        // the first that is live
        (&b"LOGA"[..], Some(6)),
        (b"LOGB", Some(8)),
        (b"NOTEH", Some(10)),
        (b"ABCDEFGHIJH", Some(11)),
        // the two on either side of the end of a block
        (b"LASTH", Some(38)),
        (b"NEXTH", Some(39)),
        (b"loga", None),
        (b"LOGC", None),
        (b"LOGAB", None),
        (b"OLDER", None),
        (b"GONEH", None),
        (b"VOLUME", None),
        (b"BEHINDH", None),
    ] {
        check_found(&rt, &image, 2, &WholeName::new(name)?, Ok(expected))?;
        check_found(&rt, &image, 3, &WholeName::new(name)?, Ok(expected))?;
    }
    Ok(())
}

#[test]
fn by_a_stem(rt: HostRuntime) -> Result<(), Fail> {
    let image = image(files(rt.alloc(), &[])?)?;
    for (name, expected) in [
        (&b"LOG"[..], Some(6)),
        (b"NOTE", Some(10)),
        (b"ABCDEFGHIJ", Some(11)),
        (b"LAST", Some(38)),
        (b"NEXT", Some(39)),
        (b"LO", None),
        (b"LOGA", None),
        (b"Q", None),
        (b"OLDE", None),
        (b"GONE", None),
        // the entries that are no files
        (b"VOLUM", None),
        (b"BOO", None),
        (b"DIRECTOR", None),
        (b"BLOCKS LEF", None),
        (b"BEHIND", None),
    ] {
        check_found(&rt, &image, 2, &Stem::new(name)?, Ok(expected))?;
        check_found(&rt, &image, 3, &Stem::new(name)?, Ok(expected))?;
    }
    Ok(())
}

// Entry 40, the BLOCKS LEFT entry, is made a file, so that the lookup ends with the directory.
#[test]
fn no_blocks_left_entry(rt: HostRuntime) -> Result<(), Fail> {
    let image = image(files(rt.alloc(), &[(40, 12, 1, 0)])?)?;
    check_found(&rt, &image, 2, &WholeName::new(b"BEHINDH")?, Ok(Some(41)))?;
    check_found(&rt, &image, 1, &WholeName::new(b"BEHINDH")?, Ok(None))?;
    check_found(&rt, &image, 1, &WholeName::new(b"NEXTH")?, Ok(None))?;
    check_found(&rt, &image, 1, &WholeName::new(b"LASTH")?, Ok(Some(38)))?;
    check_found(&rt, &image, 2, &Stem::new(b"BLOCKS LEF")?, Ok(Some(40)))?;
    check_found(&rt, &image, 3, &Stem::new(b"BOO")?, Ok(None))?;
    // the device has no block 4
    check_found(
        &rt,
        &image,
        4,
        &Stem::new(b"BOO")?,
        Err(Refusal::OutOfRange),
    )
}

#[test]
fn a_directory_of_no_block(rt: HostRuntime) -> Result<(), Fail> {
    let image = image(files(rt.alloc(), &[])?)?;
    check_found(&rt, &image, 0, &WholeName::new(b"LOGA")?, Ok(None))?;
    check_found(&rt, &image, 0, &Stem::new(b"LOG")?, Ok(None))
}

// The BLOCKS LEFT entry ends the lookup, even where it is also a deleted file's.
#[test]
fn a_blocks_left_entry_before_the_files(rt: HostRuntime) -> Result<(), Fail> {
    for attributes in [0x01, 0x05, 0xff] {
        let image = image(files(rt.alloc(), &[(5, 12, 1, attributes)])?)?;
        check_found(&rt, &image, 2, &WholeName::new(b"LOGA")?, Ok(None))?;
        check_found(&rt, &image, 2, &Stem::new(b"LOG")?, Ok(None))?;
    }
    Ok(())
}

#[test]
fn a_bad_block(rt: HostRuntime) -> Result<(), Fail> {
    let heap = rt.alloc();
    let first = Err(Refusal::BadBlock { depth: 0, place: 1 });
    let second = Err(Refusal::BadBlock { depth: 0, place: 2 });
    for at in BLOCK_1 {
        let disk = disk(heap, files(heap, &[])?, &[at])?;
        check_found(&rt, &disk, 2, &WholeName::new(b"LOGA")?, first)?;
        check_found(&rt, &disk, 2, &Stem::new(b"NEXT")?, first)?;
        check_found(&rt, &disk, 0, &WholeName::new(b"LOGA")?, Ok(None))?;
    }
    for at in BLOCK_2 {
        let disk = disk(heap, files(heap, &[])?, &[at])?;
        check_found(&rt, &disk, 2, &WholeName::new(b"LOGA")?, Ok(Some(6)))?;
        check_found(&rt, &disk, 2, &WholeName::new(b"LASTH")?, Ok(Some(38)))?;
        check_found(&rt, &disk, 2, &WholeName::new(b"NEXTH")?, second)?;
        check_found(&rt, &disk, 2, &WholeName::new(b"GONEH")?, second)?;
        check_found(&rt, &disk, 1, &WholeName::new(b"GONEH")?, Ok(None))?;
    }
    for at in BLOCK_3 {
        let disk = disk(heap, files(heap, &[])?, &[at])?;
        check_found(&rt, &disk, 3, &WholeName::new(b"BEHINDH")?, Ok(None))?;
    }
    Ok(())
}

// Checks what a lookup gives through a work block.
fn check_work(
    rt: &impl Abort,
    image: &Image,
    directory: u8,
    work: &mut [u8],
    expected: Result<Option<u32>, Refusal>,
) -> Result<(), Fail> {
    let reply = lookup(image, directory, &Stem::new(b"LOG")?, work);
    check_reply(rt, image, reply, expected)
}

#[test]
fn a_work_block_of_another_length(rt: HostRuntime) -> Result<(), Fail> {
    let image = image(files(rt.alloc(), &[])?)?;
    check_work(&rt, &image, 2, &mut [0; 1024], Ok(Some(6)))?;
    check_work(&rt, &image, 2, &mut [0; 0], Err(Refusal::OutOfRange))?;
    check_work(&rt, &image, 2, &mut [0; 1023], Err(Refusal::OutOfRange))?;
    check_work(&rt, &image, 2, &mut [0; 1025], Err(Refusal::OutOfRange))?;
    // where there is no block to read, none is read
    check_work(&rt, &image, 0, &mut [0; 1023], Ok(None))
}

// The bytes of entry 7.
const LOG_A: [u8; 26] = *b"LOGA\x03       \x10\x04\x00\x00\x00\x02\x00\x01\x00\x0a\x00\x55\x03\x05";

// Entry 6 differs from it in one byte after the other.
#[test]
fn a_key_sees_every_byte(rt: HostRuntime) -> Result<(), Fail> {
    let key = WholeEntry { bytes: LOG_A };
    let file = (b"LOGA\x03       ", 0x10, (4, 2), (1, 10));
    for (at, byte) in LOG_A.iter().enumerate() {
        let mut bytes = files(rt.alloc(), &[])?;
        put_file(bytes.as_mut_slice(), 6, file);
        put_file(bytes.as_mut_slice(), 7, file);
        let same = image(bytes.clone()?)?;
        check_found(&rt, &same, 2, &key, Ok(Some(6)))?;
        change(bytes.as_mut_slice(), (6, at, 1, *byte ^ 0x08));
        let other = image(bytes)?;
        check_found(&rt, &other, 2, &key, Ok(Some(7)))?;
    }
    Ok(())
}
