// Devices for the tests, and checks of what a device answers. The handle to stop a test and the heap are two parameters:
// the test's runtime, which has both, can stop a test only in the function that was given it.
use blocks::{BlockDevice, Fault, Image, Rejected, Tab, Window};
use sectors::SectorDisk;
use std::alloc::{AllocError, Global};
use std::process::Abort;
use std::test::Fail;

// One byte, so many times.
pub(crate) fn filled(heap: Global, value: u8, count: usize) -> Result<Vec<u8>, AllocError> {
    vec![in heap; value; count]
}

// A block for each of these bytes, filled with it.
pub(crate) fn blocks_of(heap: Global, values: &[u8]) -> Result<Vec<u8>, AllocError> {
    let mut bytes = Vec::new(heap);
    for value in values {
        bytes.extend_from_slice(&[*value; 1024])?;
    }
    Ok(bytes)
}

// An image of three blocks: of ones, of twos and of threes.
pub(crate) fn image(heap: Global, protected: bool) -> Result<Image, Fail> {
    let bytes = blocks_of(heap, &[1, 2, 3])?;
    Ok(Image::new(bytes, protected)?)
}

// The 320 records of a disk. Each is filled with its number, less 256 from record 256 on, and all are good.
pub(crate) fn records(heap: Global) -> Result<Vec<u8>, AllocError> {
    let mut bytes = Vec::new(heap);
    for record in 0..320u32 {
        bytes.extend_from_slice(&[(record % 256) as u8; 512])?;
        bytes.push(0)?;
    }
    Ok(bytes)
}

// Puts a byte at so many places from a place on. By an iterator and not by `fill` of a part, which would ask that the
// part lies within.
pub(crate) fn put(bytes: &mut [u8], at: usize, count: usize, value: u8) {
    for byte in bytes.iter_mut().skip(at).take(count) {
        *byte = value;
    }
}

// Those records, but that one has this status byte.
pub(crate) fn records_with(heap: Global, record: u16, status: u8) -> Result<Vec<u8>, AllocError> {
    let mut bytes = records(heap)?;
    put(
        bytes.as_mut_slice(),
        513 * usize::from(record) + 512,
        1,
        status,
    );
    Ok(bytes)
}

// A disk of those records. With status 1 in record 15, which keeps its second sector, block 5 is bad.
pub(crate) fn disk(
    heap: Global,
    record: u16,
    status: u8,
    protected: bool,
) -> Result<SectorDisk, Fail> {
    let bytes = records_with(heap, record, status)?;
    Ok(SectorDisk::new(bytes, protected)?)
}

// So many blocks of a device from a first one on. By `map_err`: `?` would ask that the device can be printed.
pub(crate) fn window<D: BlockDevice + Drop>(
    device: D,
    first: u32,
    count: u32,
) -> Result<Window<D>, Fail> {
    Window::new(device, first, count).map_err(|_| Fail::new("the device has these blocks"))
}

// Checks that what was refused is handed back with the number 17, so many bytes of it.
pub(crate) fn check_rejected(rt: &impl Abort, rejected: Rejected<Vec<u8>>, count: usize) {
    let Rejected { refusal, given } = rejected;
    assert_eq!(rt; refusal.number(), 17);
    assert_eq!(rt; given.len(), count);
}

// Checks that the two halves of a block read as one byte each.
pub(crate) fn check_halves<D: BlockDevice>(
    rt: &impl Abort,
    device: &D,
    block: u32,
    first: u8,
    second: u8,
) {
    let mut buffer = [0xee; 1024];
    assert_eq!(rt; device.read(block, &mut buffer), Ok(()));
    assert!(rt; buffer[0..512] == [first; 512]);
    assert!(rt; buffer[512..1024] == [second; 512]);
}

// Checks the halves of some blocks.
pub(crate) fn check_all_halves<D: BlockDevice>(
    rt: &impl Abort,
    device: &D,
    cases: &[(u32, u8, u8)],
) {
    for (block, first, second) in cases {
        check_halves(rt, device, *block, *first, *second);
    }
}

// Checks that a device has a block for each of these bytes, and that the block reads as that byte throughout.
pub(crate) fn check_values<D: BlockDevice>(rt: &impl Abort, device: &D, values: &[u8]) {
    assert_eq!(rt; device.size() as usize, values.len());
    for (block, value) in (0..device.size()).zip(values) {
        check_halves(rt, device, block, *value, *value);
    }
}

// Writes one byte throughout a block, and checks that it then reads so.
pub(crate) fn check_write<D: BlockDevice>(rt: &impl Abort, device: &mut D, block: u32, value: u8) {
    assert_eq!(rt; device.write(block, &[value; 1024]), Ok(()));
    check_halves(rt, device, block, value, value);
}

// Checks that a block cannot be read, and that the buffer is left as it was.
pub(crate) fn check_no_read<D: BlockDevice>(rt: &impl Abort, device: &D, block: u32, fault: Fault) {
    let mut buffer = [0xee; 1024];
    assert_eq!(rt; device.read(block, &mut buffer), Err(fault));
    assert!(rt; buffer == [0xee; 1024]);
}

// Checks that a block cannot be written. Beside `check_no_read` and not one with it: only a read has a buffer to leave.
pub(crate) fn check_no_write<D: BlockDevice>(
    rt: &impl Abort,
    device: &mut D,
    block: u32,
    fault: Fault,
) {
    assert_eq!(rt; device.write(block, &[0xee; 1024]), Err(fault));
}

// Checks that a block, with a buffer of such a length, is out of range, and that the buffer is left as it was.
fn check_out<D: BlockDevice>(
    rt: &impl Abort,
    heap: Global,
    device: &mut D,
    block: u32,
    count: usize,
) -> Result<(), Fail> {
    let fault = Fault::OutOfRange { place: block };
    let mut buffer = filled(heap, 0xee, count)?;
    assert_eq!(rt; device.read(block, buffer.as_mut_slice()), Err(fault));
    assert!(rt; buffer.as_slice() == filled(heap, 0xee, count)?.as_slice());
    assert_eq!(rt; device.write(block, buffer.as_slice()), Err(fault));
    Ok(())
}

// Checks that these blocks, with buffers of these lengths, are out of range.
pub(crate) fn check_outside<D: BlockDevice>(
    rt: &impl Abort,
    heap: Global,
    device: &mut D,
    cases: &[(u32, usize)],
) -> Result<(), Fail> {
    for (block, count) in cases {
        check_out(rt, heap, device, *block, *count)?;
    }
    Ok(())
}

// Checks what a device answers that has a block for each of these bytes: its tab, its blocks, and what is out of range.
pub(crate) fn check_device<D: BlockDevice>(
    rt: &impl Abort,
    heap: Global,
    device: &mut D,
    values: &[u8],
    tab: Tab,
) -> Result<(), Fail> {
    assert_eq!(rt; device.tab(), tab);
    check_values(rt, device, values);
    let size = device.size();
    check_outside(
        rt,
        heap,
        device,
        &[
            (size, 1024),
            (size, 0),
            (4294967295, 1024),
            (0, 0),
            (0, 1023),
            (0, 1025),
        ],
    )
}

// Checks that a device's tab is on at a depth, and that its block is the bad block 5 of a disk at a depth.
pub(crate) fn check_bad<D: BlockDevice>(
    rt: &impl Abort,
    device: &mut D,
    block: u32,
    tab_depth: u8,
    depth: u8,
) {
    assert_eq!(rt; device.tab(), Tab::On { depth: tab_depth });
    check_no_read(rt, device, block, Fault::BadBlock { depth, place: 5 });
    check_no_write(
        rt,
        device,
        block,
        Fault::WriteProtected { depth: tab_depth },
    );
}

// Checks that an image has these blocks, and gives their bytes back in order.
pub(crate) fn check_image(
    rt: &impl Abort,
    heap: Global,
    image: Image,
    values: &[u8],
) -> Result<(), Fail> {
    check_values(rt, &image, values);
    let bytes = blocks_of(heap, values)?;
    assert!(rt; image.bytes() == bytes.as_slice());
    assert!(rt; image.into_bytes().as_slice() == bytes.as_slice());
    Ok(())
}

// Checks that a disk gives these bytes back.
pub(crate) fn check_disk(rt: &impl Abort, disk: SectorDisk, bytes: &[u8]) {
    assert!(rt; disk.bytes() == bytes);
    assert!(rt; disk.into_bytes().as_slice() == bytes);
}
