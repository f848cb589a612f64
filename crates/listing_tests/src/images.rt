// Small packs for the tests.
use blocks::Image;
use std::alloc::Global;
use std::test::Fail;

// Entries as the layout has them: a volume of 8 blocks with one directory block, the two entries behind it, and files.
pub(crate) const VOLUME: &[u8; 26] =
    b"TEST\x03\x00\x00\x00\x00\x00\x00\x00\x81\x55\xaa\x00\xff\x08\x00\x00\x00\x00\x00\x54\x02\x1d";

pub(crate) const BOOT: &[u8; 26] =
    b"BOOT\x03\x00\x00\x00\x00\x00\x00\x00\x88\x00\x00\x00\x00\x01\x00\x01\x00\x00\x04\x54\x02\x1d";

pub(crate) const DIRECTORY: &[u8; 26] =
    b"DIRECTORY\x03\x00\x00\xc8\x01\x00\x00\x00\x01\x00\x01\x00\x00\x04\x54\x02\x1d";
// live, block 2, 1 block, 10 bytes, no date; an older name's tail stands behind the ETX
pub(crate) const LETTER_H: &[u8; 26] =
    b"LETTERH\x03OLD\x00\x10\x02\x00\x00\x00\x01\x00\x01\x00\x0a\x00\x00\x00\x00";
// the same name, deleted
pub(crate) const LETTER_H_DELETED: &[u8; 26] =
    b"LETTERH\x03OLD\x00\x14\x02\x00\x00\x00\x01\x00\x01\x00\x0a\x00\x00\x00\x00";
// live, block 3, 2 blocks, 1,500 bytes, 5 March 1985
pub(crate) const LOG_A: &[u8; 26] =
    b"LOGA\x03\x00\x00\x00\x00\x00\x00\x00\x10\x03\x00\x00\x00\x02\x00\x02\x00\xdc\x01\x55\x03\x05";
// live, with no name at all, block 3, 2 blocks, empty
pub(crate) const NAMELESS: &[u8; 26] =
    b"\x03\x00\x00\x00\x00\x00\x00\x00\x00\x00\x00\x00\x10\x03\x00\x00\x00\x02\x00\x00\x00\x00\x00\x55\x03\x05";
// live, with bytes in its name that are not printable, and a backslash
pub(crate) const ODD: &[u8; 26] =
    b"A\x01\\\xffH\x03\x00\x00\x00\x00\x00\x00\x10\x03\x00\x00\x00\x02\x00\x00\x00\x00\x00\x55\x03\x05";
// live, but used 3 and last 0 are no pair that a length has
pub(crate) const NO_LENGTH: &[u8; 26] =
    b"LOGA\x03\x00\x00\x00\x00\x00\x00\x00\x10\x03\x00\x00\x00\x02\x00\x03\x00\x00\x00\x55\x03\x05";
// from block 5 on, 3 blocks
pub(crate) const BLOCKS_LEFT: &[u8; 26] =
    b"BLOCKS LEFT\x03\x01\x05\x00\x00\x00\x03\x00\x00\x00\x00\x00\x54\x02\x1d";

// A pack of two live files, and its catalogue.
pub(crate) const TWO_FILES: [&[u8; 26]; 6] = [
    VOLUME,
    BOOT,
    DIRECTORY,
    LETTER_H,
    LOG_A,
    BLOCKS_LEFT,
];

pub(crate) const TWO_FILES_TEXT: &str = "Volume TEST: 8 blocks, 1 directory block, dated 1984-02-29.
entry  name          state    attributes  first   room    length  date
    3  LETTER     H  live     ---U----        2      1        10  -
    4  LOG        A  live     ---U----        3      2      1500  1985-03-05
Blocks left: 3 from block 5.
Read 1 directory block and found 2 files, 0 of them deleted.
";

// Puts entries one after the other over bytes, from a place on.
pub(crate) fn put_entries(bytes: &mut [u8], place: usize, entries: &[&[u8; 26]]) {
    let values = entries.iter().flat_map(|entry| entry.iter());
    for (byte, value) in bytes.iter_mut().skip(place).zip(values) {
        *byte = *value;
    }
}

// An image of so many blocks whose directory begins with these entries.
pub(crate) fn image(heap: Global, blocks: u16, entries: &[&[u8; 26]]) -> Result<Image, Fail> {
    let mut bytes = vec![in heap; 0; 1024 * usize::from(blocks)]?;
    put_entries(&mut bytes, 1024, entries);
    Ok(Image::new(bytes, false)?)
}
