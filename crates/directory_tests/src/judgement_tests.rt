// Which packs follow the layout, what is learnt of them, and which entry or block is told of the others.
use crate::packs::*;
use blocks::{BlockDevice, Image, Window};
use directory::{Pack, judge};
use refusal::Refusal;
use std::alloc::{AllocError, Global};
use std::process::Abort;
use std::test::*;

// A pack of 10 blocks with a directory of two, on a device of 12: a live file with a full last block, a deleted one
// whose length is nonsense, a live one that is empty, and the blocks left.
const SAMPLE: [(u16, File); 4] = [
    (3, (b"LOGA\x03       ", 0x10, (3, 2), (2, 1024))),
    (4, (b"OLDH\x03       ", 0x14, (5, 1), (7, 2000))),
    (5, (b"EMPTYA\x03     ", 0x10, (6, 1), (0, 0))),
    (6, (b"BLOCKS LEFT\x03", 0x01, (7, 3), (0, 0))),
];

const SAMPLE_PACK: Pack = Pack {
    blocks: 10,
    directory: 2,
    left: 6,
    free: 3,
};

fn sample(heap: Global, changes: &[Change]) -> Result<Vec<u8>, AllocError> {
    changed(heap, (12, 2, 10), &SAMPLE, changes)
}

fn check_judged<D: BlockDevice>(
    rt: &impl Abort,
    device: &D,
    expected: Result<Pack, Refusal>,
) -> Result<(), Fail> {
    assert_eq!(rt; judge(device, &mut [0; 1024]), expected);
    Ok(())
}

// Checks that the sample with these changes is refused for an entry.
fn check_broken(rt: &impl Abort, heap: Global, changes: &[Change], entry: u16) -> Result<(), Fail> {
    check_judged(
        rt,
        &image(sample(heap, changes)?)?,
        Err(Refusal::BrokenLayout { entry }),
    )
}

// The size of a device, the blocks of the directory and of the pack; the BLOCKS LEFT entry and its room. It is the
// first that can be one, the last of a block, the first of a block and the last of a directory.
const FILLED: [(Sizes, u16, u16); 12] = [
    ((2, 1, 2), 3, 0),
    ((8, 1, 5), 38, 3),
    ((8, 2, 8), 38, 5),
    ((8, 2, 8), 39, 5),
    ((8, 2, 8), 77, 5),
    ((8, 3, 7), 3, 3),
    ((8, 3, 7), 77, 3),
    ((8, 3, 7), 78, 3),
    ((8, 3, 4), 116, 0),
    ((130, 127, 130), 3, 2),
    ((128, 127, 128), 4952, 0),
    ((65535, 1, 65535), 38, 65533),
];

#[test]
fn what_is_learnt_of_a_pack(rt: HostRuntime) -> Result<(), Fail> {
    for (pack, left, free) in FILLED {
        let (_, directory, blocks) = pack;
        let learnt = Pack {
            blocks,
            directory,
            left: u32::from(left),
            free,
        };
        check_judged(
            &rt,
            &image(filled(rt.alloc(), pack, left, free)?)?,
            Ok(learnt),
        )?;
    }
    check_judged(&rt, &image(sample(rt.alloc(), &[])?)?, Ok(SAMPLE_PACK))
}

// A change of the first three entries of the sample, and the entry that is then at fault.
const HEAD_FAULTS: [(Change, u16); 26] = [
    // a check byte
    ((0, 13, 1, 0x54), 0),
    ((0, 14, 1, 0x2a), 0),
    ((0, 15, 1, 0x01), 0),
    ((0, 16, 1, 0x00), 0),
    // a directory of no block, and one of as many as the pack
    ((0, 12, 1, 0x80), 0),
    ((0, 12, 1, 0x8a), 0),
    // a pack of as many blocks as its directory, of one more than the device, and of many more
    ((0, 17, 1, 2), 0),
    ((0, 17, 1, 13), 0),
    ((0, 18, 1, 1), 0),
    ((0, 19, 1, 1), 0),
    ((0, 20, 1, 1), 0),
    // counts that could be those of a pack, but not of this one
    ((0, 12, 1, 0x81), 2),
    ((0, 12, 1, 0x89), 2),
    ((0, 17, 1, 3), 6),
    ((0, 17, 1, 12), 6),
    // the boot block elsewhere, or not of one block
    ((1, 13, 1, 1), 1),
    ((1, 14, 1, 1), 1),
    ((1, 16, 1, 1), 1),
    ((1, 17, 1, 0), 1),
    ((1, 18, 1, 1), 1),
    // the directory elsewhere, or of another room
    ((2, 13, 1, 0), 2),
    ((2, 14, 1, 1), 2),
    ((2, 16, 1, 1), 2),
    ((2, 17, 1, 1), 2),
    ((2, 17, 1, 3), 2),
    ((2, 18, 1, 1), 2),
];

// The same of the entries behind them.
const FILE_FAULTS: [(Change, u16); 32] = [
    // no ETX, in a live file and in a deleted one
    ((3, 4, 1, b' '), 3),
    ((4, 4, 1, b' '), 4),
    // a first block before and behind the end of the entry before it
    ((3, 13, 1, 2), 3),
    ((3, 13, 1, 4), 3),
    ((3, 14, 1, 1), 3),
    ((3, 15, 1, 1), 3),
    ((3, 16, 1, 1), 3),
    ((4, 13, 1, 6), 4),
    ((5, 13, 1, 5), 5),
    // a room that the next entry does not begin behind
    ((3, 17, 1, 3), 4),
    ((3, 18, 1, 1), 4),
    ((4, 17, 1, 0), 5),
    ((5, 17, 1, 0), 6),
    ((5, 17, 1, 2), 6),
    // more used than there is room for
    ((3, 17, 1, 1), 3),
    ((3, 19, 1, 3), 3),
    ((3, 20, 1, 1), 3),
    // used 2 and last 1,025, used 2 and last 0, used 0 and last 1,024
    ((3, 21, 1, 1), 3),
    ((3, 22, 1, 0), 3),
    ((3, 19, 1, 0), 3),
    // used 1 and last 0, used 0 and last 1, used 0 and last 256
    ((5, 19, 1, 1), 5),
    ((5, 21, 1, 1), 5),
    ((5, 22, 1, 1), 5),
    // the deleted file's nonsense, now of a live one
    ((4, 12, 1, 0x10), 4),
    // the blocks left begin or end elsewhere
    ((6, 13, 1, 8), 6),
    ((6, 16, 1, 1), 6),
    ((6, 17, 1, 2), 6),
    ((6, 17, 1, 4), 6),
    ((6, 18, 1, 1), 6),
    // a file becomes a BLOCKS LEFT entry, with a wrong end; none is left
    ((3, 12, 1, 0x11), 3),
    ((5, 12, 1, 0x15), 5),
    ((6, 12, 1, 0xfe), 78),
];

#[test]
fn one_fault(rt: HostRuntime) -> Result<(), Fail> {
    for (change, entry) in HEAD_FAULTS {
        check_broken(&rt, rt.alloc(), &[change], entry)?;
    }
    for (change, entry) in FILE_FAULTS {
        check_broken(&rt, rt.alloc(), &[change], entry)?;
    }
    Ok(())
}

// Faults of an entry and of a later one.
const TWO_FAULTS: [([Change; 2], u16); 9] = [
    ([(0, 13, 1, 0), (1, 13, 1, 1)], 0),
    ([(0, 17, 1, 13), (6, 12, 1, 0)], 0),
    ([(1, 17, 1, 2), (2, 17, 1, 3)], 1),
    ([(1, 17, 1, 2), (3, 4, 1, b' ')], 1),
    ([(2, 17, 1, 3), (3, 13, 1, 4)], 2),
    ([(2, 17, 1, 3), (6, 17, 1, 4)], 2),
    ([(3, 4, 1, b' '), (4, 13, 1, 6)], 3),
    ([(4, 13, 1, 6), (6, 17, 1, 2)], 4),
    ([(5, 19, 1, 1), (6, 13, 1, 8)], 5),
];

#[test]
fn of_two_faults_the_first_is_told(rt: HostRuntime) -> Result<(), Fail> {
    for ([one, other], entry) in TWO_FAULTS {
        check_broken(&rt, rt.alloc(), &[one, other], entry)?;
        check_broken(&rt, rt.alloc(), &[other, one], entry)?;
    }
    Ok(())
}

// Faults beside a BLOCKS LEFT entry that is missing.
const FAULTS_WITHOUT_END: [(Change, u16); 6] = [
    ((3, 4, 1, b' '), 78),
    ((5, 19, 1, 1), 78),
    ((6, 13, 1, 8), 78),
    ((2, 17, 1, 3), 2),
    ((1, 17, 1, 2), 1),
    ((0, 13, 1, 0), 0),
];

// Without a BLOCKS LEFT entry, the entry behind the last is told. In the other packs one stands there, in a block
// that is no block of the directory.
#[test]
fn no_blocks_left_entry(rt: HostRuntime) -> Result<(), Fail> {
    let heap = rt.alloc();
    for (change, entry) in FAULTS_WITHOUT_END {
        check_broken(&rt, heap, &[(6, 12, 1, 0), change], entry)?;
    }
    for (pack, entry) in [
        ((8, 1, 8), 39),
        ((8, 2, 8), 78),
        ((8, 3, 8), 117),
        ((130, 127, 130), 4953),
    ] {
        check_judged(
            &rt,
            &image(filled(heap, pack, entry, 1)?)?,
            Err(Refusal::BrokenLayout { entry }),
        )?;
    }
    Ok(())
}

// Changes of the sample of which none is a fault.
const NO_FAULTS: [Change; 21] = [
    // the volume: its name, no bit 7, what stands behind its size
    (0, 0, 12, 0xff),
    (0, 12, 1, 0x02),
    (0, 21, 5, 0xff),
    // the boot block and the directory: their names and attributes, used and last, their dates
    (1, 0, 13, 0xff),
    (1, 19, 7, 0xff),
    (2, 0, 13, 0xff),
    (2, 19, 7, 0xff),
    // a live file: its name, what stands behind the ETX, its attributes, a shorter length, its date
    (3, 0, 4, 0xff),
    (3, 5, 7, 3),
    (3, 12, 1, 0xfa),
    (3, 19, 1, 1),
    (3, 23, 3, 0xff),
    // a deleted file: its name, its attributes, its length and its date
    (4, 0, 4, 0x00),
    (4, 12, 1, 0xfe),
    (4, 19, 7, 0xff),
    // a file without a name and without attributes
    (5, 0, 1, 3),
    (5, 12, 1, 0x00),
    // the blocks left: its name, with no ETX, its attributes, what a file has as its length and its date
    (6, 0, 12, 0xff),
    (6, 12, 1, 0xff),
    (6, 19, 7, 0xff),
    // all bytes behind it
    (7, 0, 11082, 0xff),
];

#[test]
fn what_is_not_judged(rt: HostRuntime) -> Result<(), Fail> {
    let heap = rt.alloc();
    for change in NO_FAULTS {
        check_judged(&rt, &image(sample(heap, &[change])?)?, Ok(SAMPLE_PACK))?;
    }
    check_judged(&rt, &image(sample(heap, &NO_FAULTS)?)?, Ok(SAMPLE_PACK))
}

fn check_work_blocks(rt: &impl Abort, image: &Image) -> Result<(), Fail> {
    for length in [0, 1023, 1025] {
        assert_eq!(rt;
            judge(image, &mut [0; 1025][..length]),
            Err(Refusal::OutOfRange)
        );
    }
    Ok(())
}

#[test]
fn a_work_block_of_another_length(rt: HostRuntime) -> Result<(), Fail> {
    check_work_blocks(&rt, &image(sample(rt.alloc(), &[])?)?)?;
    check_work_blocks(&rt, &image(sample(rt.alloc(), &[(0, 13, 1, 0)])?)?)?;
    check_work_blocks(&rt, &image(vec![in rt.alloc(); 0; 1024]?)?)
}

#[test]
fn a_device_of_one_block(rt: HostRuntime) -> Result<(), Fail> {
    check_judged(
        &rt,
        &image(vec![in rt.alloc(); 0; 1024]?)?,
        Err(Refusal::BrokenLayout { entry: 0 }),
    )
}

// A pack with a directory of three blocks, of which some cannot be read, and with a change.
fn check_disk(
    rt: &impl Abort,
    heap: Global,
    left: u16,
    bad: &[usize],
    changes: &[Change],
    expected: Result<Pack, Refusal>,
) -> Result<(), Fail> {
    let mut bytes = filled(heap, (12, 3, 10), left, 6)?;
    change_all(bytes.as_mut_slice(), changes);
    check_judged(rt, &disk(heap, bytes, bad)?, expected)
}

const fn bad_block(place: u16) -> Refusal {
    Refusal::BadBlock { depth: 0, place }
}

// Wherever the BLOCKS LEFT entry stands, all blocks of the directory have to be read.
#[test]
fn a_bad_block_of_the_directory(rt: HostRuntime) -> Result<(), Fail> {
    for left in [3, 38, 39, 116] {
        for (bad, place) in [(BLOCK_1, 1), (BLOCK_2, 2), (BLOCK_3, 3)] {
            for at in bad {
                check_disk(&rt, rt.alloc(), left, &[at], &[], Err(bad_block(place)))?;
            }
        }
    }
    Ok(())
}

#[test]
fn a_bad_block_and_a_fault(rt: HostRuntime) -> Result<(), Fail> {
    let heap = rt.alloc();
    let volume = (0, 13, 1, 0);
    let broken = Err(Refusal::BrokenLayout { entry: 0 });
    check_disk(&rt, heap, 116, &BLOCK_1, &[volume], Err(bad_block(1)))?;
    check_disk(&rt, heap, 116, &BLOCK_2, &[volume], broken)?;
    check_disk(&rt, heap, 116, &BLOCK_3, &[volume], broken)?;
    for change in [(1, 17, 1, 2), (2, 17, 1, 2), (3, 13, 1, 5)] {
        check_disk(&rt, heap, 116, &BLOCK_2, &[change], Err(bad_block(2)))?;
        check_disk(&rt, heap, 116, &BLOCK_3, &[change], Err(bad_block(3)))?;
    }
    let [second, _] = BLOCK_2;
    let [third, _] = BLOCK_3;
    check_disk(&rt, heap, 116, &[third, second], &[], Err(bad_block(2)))
}

#[test]
fn a_bad_block_elsewhere(rt: HostRuntime) -> Result<(), Fail> {
    let learnt = Pack {
        blocks: 10,
        directory: 3,
        left: 116,
        free: 6,
    };
    check_disk(&rt, rt.alloc(), 116, &[], &[], Ok(learnt))?;
    check_disk(&rt, rt.alloc(), 116, &BLOCK_0_AND_4, &[], Ok(learnt))
}

#[test]
fn a_bad_block_below_a_layer(rt: HostRuntime) -> Result<(), Fail> {
    let disk = disk(
        rt.alloc(),
        filled(rt.alloc(), (12, 3, 10), 116, 6)?,
        &BLOCK_2,
    )?;
    let window = Window::new(disk, 0, 10).map_err(|_| Fail::new("a disk has ten blocks"))?;
    check_judged(&rt, &window, Err(Refusal::BadBlock { depth: 1, place: 2 }))
}
