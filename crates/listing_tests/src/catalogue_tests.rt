// What the catalogue prints, and which images it refuses.
use crate::images::*;
use listing::{Failure, catalogue};
use refusal::Refusal;
use std::test::Fail;

#[test]
fn a_catalogue(rt: HostRuntime) -> Result<(), Fail> {
    let heap = rt.alloc();
    let image = image(heap, 8, &TWO_FILES)?;
    let text = catalogue(heap, &image)?;
    assert!(rt; text.as_str() == TWO_FILES_TEXT);
    Ok(())
}

#[test]
fn names_that_cannot_be_printed_as_they_are(rt: HostRuntime) -> Result<(), Fail> {
    let heap = rt.alloc();
    let image = image(
        heap,
        9,
        &[
            VOLUME,
            BOOT,
            DIRECTORY,
            LETTER_H_DELETED,
            ODD,
            NAMELESS,
            BLOCKS_LEFT,
        ],
    )?;
    let text = catalogue(heap, &image)?;
    assert!(rt;
        text.as_str()
            == "Volume TEST: 8 blocks, 1 directory block, dated 1984-02-29.
entry  name          state    attributes  first   room    length  date
    3  LETTER     H  deleted  ---U-D--        2      1         -  -
    4  A\\x01\\\\\\xFF H  live     ---U----        3      2         0  1985-03-05
    5                live     ---U----        3      2         0  1985-03-05
Blocks left: 3 from block 5.
Read 1 directory block and found 3 files, 1 of them deleted.
"
    );
    Ok(())
}

#[test]
fn a_volume_that_cannot_be_walked(rt: HostRuntime) -> Result<(), Fail> {
    let heap = rt.alloc();
    // one block; no check bytes; a volume larger than the image; no directory block; a volume that is all directory
    for (blocks, volume) in [
        (1, VOLUME),
        (8, BOOT),
        (7, VOLUME),
        (
            8,
            b"TEST\x03\x00\x00\x00\x00\x00\x00\x00\x80\x55\xaa\x00\xff\x08\x00\x00\x00\x00\x00\x54\x02\x1d",
        ),
        (
            8,
            b"TEST\x03\x00\x00\x00\x00\x00\x00\x00\x88\x55\xaa\x00\xff\x08\x00\x00\x00\x00\x00\x54\x02\x1d",
        ),
    ] {
        let image = image(heap, blocks, &[volume, BOOT, DIRECTORY, BLOCKS_LEFT])?;
        assert_eq!(rt;
            catalogue(heap, &image).err(),
            Some(Failure::Refused(Refusal::BrokenLayout { entry: 0 }))
        );
    }
    Ok(())
}

#[test]
fn no_blocks_left_entry_comes_before_a_file_at_fault(rt: HostRuntime) -> Result<(), Fail> {
    let heap = rt.alloc();
    let without = image(heap, 8, &[VOLUME, BOOT, DIRECTORY, NO_LENGTH])?;
    assert_eq!(rt;
        catalogue(heap, &without).err(),
        Some(Failure::Refused(Refusal::BrokenLayout { entry: 39 }))
    );
    let with = image(
        heap,
        8,
        &[VOLUME, BOOT, DIRECTORY, LETTER_H, NO_LENGTH, BLOCKS_LEFT],
    )?;
    assert_eq!(rt;
        catalogue(heap, &with).err(),
        Some(Failure::Refused(Refusal::BrokenLayout { entry: 4 }))
    );
    Ok(())
}
