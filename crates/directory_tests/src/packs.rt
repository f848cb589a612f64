// Packs for the tests, made from their entries.
use blocks::{BlockDevice, Image};
use sectors::SectorDisk;
use std::alloc::{AllocError, Global};
use std::test::*;

// The name field of a file, its attributes, its first block and room, and its used blocks and last count.
pub(crate) type File = (&'static [u8; 12], u8, (u32, u16), (u16, u16));

// The bytes of a pack that is changed: an entry, the first byte in it, how many bytes, and what each then is. The bytes
// may pass the end of the entry.
pub(crate) type Change = (u16, usize, usize, u8);

// The byte of a device at which an entry begins: block 1 is byte 1,024 on, and a block holds 39.
fn place_of(entry: u16) -> usize {
    1024 * (1 + usize::from(entry / 39)) + 26 * usize::from(entry % 39)
}

// Puts bytes into an entry, from one of its bytes on.
fn put(bytes: &mut [u8], entry: u16, at: usize, values: &[u8]) {
    let from = place_of(entry).saturating_add(at);
    for (byte, value) in bytes.iter_mut().skip(from).zip(values) {
        *byte = *value;
    }
}

pub(crate) fn put_file(bytes: &mut [u8], entry: u16, file: File) {
    let (name, attributes, (first, room), (used, last)) = file;
    put(bytes, entry, 0, name);
    put(bytes, entry, 12, &[attributes]);
    put(bytes, entry, 13, &first.to_le_bytes());
    put(bytes, entry, 17, &room.to_le_bytes());
    put(bytes, entry, 19, &used.to_le_bytes());
    put(bytes, entry, 21, &last.to_le_bytes());
    put(bytes, entry, 23, &[0x55, 3, 5]);
}

pub(crate) fn change_all(bytes: &mut [u8], changes: &[Change]) {
    for entry in changes {
        change(bytes, *entry);
    }
}

pub(crate) fn change(bytes: &mut [u8], (entry, at, count, value): Change) {
    fill(bytes, place_of(entry).saturating_add(at), count, value);
}

// So many bytes from one on become that value.
pub(crate) fn fill(bytes: &mut [u8], from: usize, count: usize, value: u8) {
    for byte in bytes.iter_mut().skip(from).take(count) {
        *byte = value;
    }
}

// The blocks of a device, and those of the directory and of the pack on it.
pub(crate) type Sizes = (u16, u8, u32);

// The bytes of a device on which a pack begins: what its volume, its boot block and its directory have as entries.
fn begun(heap: Global, (size, directory, blocks): Sizes) -> Result<Vec<u8>, AllocError> {
    let mut bytes = vec![in heap; 0; 1024 * usize::from(size)]?;
    let room = u16::from(directory);
    let all = bytes.as_mut_slice();
    put(all, 0, 0, b"VOLUME\x03     ");
    put(all, 0, 12, &[0x80 | directory, 0x55, 0xaa, 0x00, 0xff]);
    put(all, 0, 17, &blocks.to_le_bytes());
    put_file(all, 1, (b"BOOT\x03       ", 0x88, (0, 1), (1, 1024)));
    put_file(all, 2, (b"DIRECTORY\x03  ", 0xc8, (1, room), (room, 1024)));
    Ok(bytes)
}

// Such a pack with these files, and then with these changes.
pub(crate) fn changed(
    heap: Global,
    sizes: Sizes,
    files: &[(u16, File)],
    changes: &[Change],
) -> Result<Vec<u8>, AllocError> {
    let mut bytes = begun(heap, sizes)?;
    for (entry, file) in files {
        put_file(bytes.as_mut_slice(), *entry, *file);
    }
    change_all(bytes.as_mut_slice(), changes);
    Ok(bytes)
}

// Such a pack with a BLOCKS LEFT entry of some room in an entry, and with files of no room in all entries before it.
pub(crate) fn filled(
    heap: Global,
    sizes: Sizes,
    left: u16,
    free: u16,
) -> Result<Vec<u8>, AllocError> {
    let (_, directory, _) = sizes;
    let mut bytes = begun(heap, sizes)?;
    let first = 1 + u32::from(directory);
    for entry in 3..left {
        put_file(
            bytes.as_mut_slice(),
            entry,
            (b"FILLERA\x03    ", 0x10, (first, 0), (0, 0)),
        );
    }
    put_file(
        bytes.as_mut_slice(),
        left,
        (b"BLOCKS LEFT\x03", 0x01, (first, free), (0, 0)),
    );
    Ok(bytes)
}

pub(crate) fn image(bytes: Vec<u8>) -> Result<Image, Fail> {
    Ok(Image::new(bytes, false)?)
}

// The status bytes of the records that keep the two halves of block 1, of block 2 and of block 3.
pub(crate) const BLOCK_1: [usize; 2] = [513 * 2 + 512, 513 * 7 + 512];

pub(crate) const BLOCK_2: [usize; 2] = [513 * 4 + 512, 513 * 1 + 512];

pub(crate) const BLOCK_3: [usize; 2] = [513 * 6 + 512, 513 * 3 + 512];

// Those of a half of block 0 and of a half of block 4.
pub(crate) const BLOCK_0_AND_4: [usize; 2] = [512, 513 * 8 + 512];

// A disk that begins with the blocks of a pack, with a status of 1 in these bytes.
pub(crate) fn disk(heap: Global, pack: Vec<u8>, bad: &[usize]) -> Result<SectorDisk, Fail> {
    let image = image(pack)?;
    let mut disk = SectorDisk::new(vec![in heap; 0; 164160]?, false)?;
    for number in 0..image.size() {
        let mut block = [0; 1024];
        image.read(number, &mut block)?;
        disk.write(number, &block)?;
    }
    let mut bytes = disk.into_bytes();
    for at in bad {
        if let Some(status) = bytes.as_mut_slice().get_mut(*at) {
            *status = 1;
        }
    }
    Ok(SectorDisk::new(bytes, false)?)
}
