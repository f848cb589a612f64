// Entries read and written in their places, on images of four blocks and on a disk.
use crate::packs::*;
use blocks::{BlockDevice, Image};
use directory::{read_entry, write_entry};
use entry::Entry;
use refusal::Refusal;
use std::alloc::Global;
use std::process::Abort;
use std::test::*;

// An entry, and the byte of the device at which it begins: block 1 is byte 1,024 on, and a block holds 39.
const PLACES: [(u32, usize); 6] = [
    (0, 1024),
    (1, 1050),
    (38, 2012),
    (39, 2048),
    (77, 3036),
    (78, 3072),
];

const NINES: Entry = Entry { bytes: [9; 26] };

// Four blocks of sevens.
fn sevens(heap: Global, protected: bool) -> Result<Image, Fail> {
    Ok(Image::new(vec![in heap; 7; 4096]?, protected)?)
}

// Checks that an image is of sevens but for 26 nines from there on.
fn check_nines(rt: &impl Abort, heap: Global, image: Image, from: usize) -> Result<(), Fail> {
    let mut bytes = vec![in heap; 7; 4096]?;
    fill(bytes.as_mut_slice(), from, 26, 9);
    assert!(rt; image.into_bytes().as_slice() == bytes.as_slice());
    Ok(())
}

// Checks that an entry reads as these bytes.
fn check_entry<D: BlockDevice>(
    rt: &impl Abort,
    device: &D,
    number: u32,
    bytes: [u8; 26],
) -> Result<(), Fail> {
    assert_eq!(rt;
        read_entry(device, number, &mut [0; 1024]),
        Ok(Entry { bytes })
    );
    Ok(())
}

// Checks that an entry can be neither read nor written, and why.
fn check_neither<D: BlockDevice>(
    rt: &impl Abort,
    device: &mut D,
    number: u32,
    work: &mut [u8],
    refusal: Refusal,
) -> Result<(), Fail> {
    assert_eq!(rt; read_entry(device, number, work), Err(refusal));
    assert_eq!(rt; write_entry(device, number, &NINES, work), Err(refusal));
    Ok(())
}

#[test]
fn an_entry_is_written_in_its_place(rt: HostRuntime) -> Result<(), Fail> {
    for (number, from) in PLACES {
        let mut image = sevens(rt.alloc(), false)?;
        assert_eq!(rt;
            write_entry(&mut image, number, &NINES, &mut [0; 1024]),
            Ok(())
        );
        check_entry(&rt, &image, number, [9; 26])?;
        check_nines(&rt, rt.alloc(), image, from)?;
    }
    Ok(())
}

#[test]
fn no_entry_behind_the_last_block(rt: HostRuntime) -> Result<(), Fail> {
    let mut image = sevens(rt.alloc(), false)?;
    check_entry(&rt, &image, 116, [7; 26])?;
    for number in [117, 118, 4294967295] {
        check_neither(&rt, &mut image, number, &mut [0; 1024], Refusal::OutOfRange)?;
    }
    check_nines(&rt, rt.alloc(), image, 4096)
}

#[test]
fn a_work_block_of_another_length(rt: HostRuntime) -> Result<(), Fail> {
    let mut image = sevens(rt.alloc(), false)?;
    check_neither(&rt, &mut image, 0, &mut [0; 0], Refusal::OutOfRange)?;
    check_neither(&rt, &mut image, 0, &mut [0; 1023], Refusal::OutOfRange)?;
    check_neither(&rt, &mut image, 0, &mut [0; 1025], Refusal::OutOfRange)?;
    check_nines(&rt, rt.alloc(), image, 4096)
}

#[test]
fn a_protected_image_is_read_and_not_written(rt: HostRuntime) -> Result<(), Fail> {
    let mut image = sevens(rt.alloc(), true)?;
    check_entry(&rt, &image, 0, [7; 26])?;
    assert_eq!(rt;
        write_entry(&mut image, 0, &NINES, &mut [0; 1024]),
        Err(Refusal::WriteProtected { depth: 0 })
    );
    check_nines(&rt, rt.alloc(), image, 4096)
}

// One bad half makes block 1 bad.
#[test]
fn a_bad_block_is_told_as_the_device_tells_it(rt: HostRuntime) -> Result<(), Fail> {
    let heap = rt.alloc();
    let [_, second] = BLOCK_1;
    let mut disk = disk(heap, vec![in heap; 0; 1024]?, &[second])?;
    let refusal = Refusal::BadBlock { depth: 0, place: 1 };
    check_neither(&rt, &mut disk, 0, &mut [0; 1024], refusal)?;
    check_neither(&rt, &mut disk, 38, &mut [0; 1024], refusal)?;
    check_entry(&rt, &disk, 39, [0; 26])
}
