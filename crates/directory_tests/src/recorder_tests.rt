// Which blocks the judgement and the lookup read.
use crate::packs::*;
use directory::{judge, lookup};
use names::Stem;
use std::alloc::Global;
use std::process::Abort;
use std::test::*;
use test_aids::recording;

// Checks which blocks are read where a pack is judged through a work block.
fn check_judge(
    rt: &impl Abort,
    heap: Global,
    pack: Vec<u8>,
    work: &mut [u8],
    blocks: &[u32],
) -> Result<(), Fail> {
    let device = recording(heap, image(pack)?);
    let _ = judge(&device, work);
    assert!(rt; device.has_read(blocks));
    Ok(())
}

#[test]
fn each_block_of_the_directory_is_read_once(rt: HostRuntime) -> Result<(), Fail> {
    let heap = rt.alloc();
    check_judge(
        &rt,
        heap,
        filled(heap, (8, 1, 8), 38, 6)?,
        &mut [0; 1024],
        &[1],
    )?;
    check_judge(
        &rt,
        heap,
        filled(heap, (8, 2, 8), 77, 5)?,
        &mut [0; 1024],
        &[1, 2],
    )?;
    // the BLOCKS LEFT entry in the first block, in the last, and in none
    for left in [3, 116, 117] {
        let pack = filled(heap, (8, 3, 8), left, 4)?;
        check_judge(&rt, heap, pack, &mut [0; 1024], &[1, 2, 3])?;
    }
    // faults of entries behind the volume's
    for fault in [(1, 17, 1, 2), (2, 17, 1, 2), (3, 13, 1, 5), (40, 4, 8, 0)] {
        let mut pack = filled(heap, (8, 3, 8), 116, 4)?;
        change(pack.as_mut_slice(), fault);
        check_judge(&rt, heap, pack, &mut [0; 1024], &[1, 2, 3])?;
    }
    Ok(())
}

#[test]
fn nothing_is_read_behind_a_faulty_volume(rt: HostRuntime) -> Result<(), Fail> {
    for fault in [(0, 13, 1, 0), (0, 12, 1, 0x80), (0, 17, 1, 9)] {
        let mut pack = filled(rt.alloc(), (8, 3, 8), 116, 4)?;
        change(pack.as_mut_slice(), fault);
        check_judge(&rt, rt.alloc(), pack, &mut [0; 1024], &[1])?;
    }
    Ok(())
}

#[test]
fn nothing_is_read_where_nothing_can_be_judged(rt: HostRuntime) -> Result<(), Fail> {
    let heap = rt.alloc();
    check_judge(&rt, heap, vec![in heap; 0; 1024]?, &mut [0; 1024], &[])?;
    check_judge(&rt, heap, vec![in heap; 0; 1024]?, &mut [0; 1025], &[])?;
    let pack = filled(heap, (8, 1, 8), 38, 6)?;
    check_judge(&rt, heap, pack.clone()?, &mut [0; 0], &[])?;
    check_judge(&rt, heap, pack.clone()?, &mut [0; 1023], &[])?;
    check_judge(&rt, heap, pack, &mut [0; 1025], &[])
}

#[test]
fn nothing_is_judged_behind_a_bad_block(rt: HostRuntime) -> Result<(), Fail> {
    let heap = rt.alloc();
    for (bad, blocks) in [
        (BLOCK_1, &[1][..]),
        (BLOCK_2, &[1, 2]),
        (BLOCK_3, &[1, 2, 3]),
    ] {
        let pack = filled(heap, (12, 3, 10), 116, 6)?;
        let device = recording(heap, disk(heap, pack, &bad)?);
        let _ = judge(&device, &mut [0; 1024]);
        assert!(rt; device.has_read(blocks));
    }
    Ok(())
}

// The entry that is found; the BLOCKS LEFT entry; the blocks that are read of a directory of three.
const LOOKUPS: [(u16, u16, &[u32]); 7] = [
    (3, 116, &[1]),
    (38, 116, &[1]),
    (39, 116, &[1, 2]),
    (115, 116, &[1, 2, 3]),
    // nothing is found before the BLOCKS LEFT entry
    (100, 38, &[1]),
    (100, 39, &[1, 2]),
    (100, 78, &[1, 2, 3]),
];

#[test]
fn a_lookup_reads_no_further_than_its_end(rt: HostRuntime) -> Result<(), Fail> {
    let heap = rt.alloc();
    let key = Stem::new(b"LOG")?;
    for (found, left, blocks) in LOOKUPS {
        let mut pack = filled(heap, (8, 3, 8), left, 4)?;
        put_file(
            pack.as_mut_slice(),
            found,
            (b"LOGA\x03       ", 0x10, (4, 0), (0, 0)),
        );
        let device = recording(heap, image(pack)?);
        let _ = lookup(&device, 3, &key, &mut [0; 1024]);
        assert!(rt; device.has_read(blocks));
    }
    Ok(())
}

#[test]
fn a_lookup_reads_no_block_but_the_directorys(rt: HostRuntime) -> Result<(), Fail> {
    let heap = rt.alloc();
    let key = Stem::new(b"LOG")?;
    for (directory, blocks) in [(0, &[][..]), (1, &[1]), (2, &[1, 2]), (3, &[1, 2, 3])] {
        let device = recording(heap, image(filled(heap, (8, 3, 8), 117, 4)?)?);
        let _ = lookup(&device, directory, &key, &mut [0; 1024]);
        assert!(rt; device.has_read(blocks));
    }
    Ok(())
}
