// Layers over layers: depths, places and offsets.
use crate::samples::*;
use blocks::{BlockDevice, Fault, Tab, Window, WriteProtect};
use std::process::Abort;
use std::test::Fail;

#[test]
fn a_window_over_protection_over_a_disk(rt: HostRuntime) -> Result<(), Fail> {
    let mut pile = window(WriteProtect::new(disk(rt.alloc(), 15, 1, false)?), 3, 20)?;
    // block 2 of the window is the disk's block 5; the others here are its blocks 3, 4, 6 and 22
    check_bad(&rt, &mut pile, 2, 1, 2);
    check_all_halves(
        &rt,
        &pile,
        &[(0, 6, 3), (1, 8, 13), (3, 12, 9), (19, 44, 41)],
    );
    check_outside(&rt, rt.alloc(), &mut pile, &[(20, 1024), (2, 1023)])
}

#[test]
fn a_window_over_a_window_over_an_image(rt: HostRuntime) -> Result<(), Fail> {
    let mut pile = window(window(image(rt.alloc(), false)?, 1, 2)?, 1, 1)?;
    check_device(&rt, rt.alloc(), &mut pile, &[3], Tab::Off)?;
    check_write(&rt, &mut pile, 0, 9);
    check_image(&rt, rt.alloc(), pile.into_inner().into_inner(), &[1, 2, 9])
}

// A window of every block.
fn whole<D: BlockDevice + Drop>(device: D) -> Result<Window<D>, Fail> {
    let size = device.size();
    window(device, 0, size)
}

// Four such windows.
fn four<D: BlockDevice + Drop>(device: D) -> Result<Window<Window<Window<Window<D>>>>, Fail> {
    whole(whole(whole(whole(device)?)?)?)
}

// Checks what a protected disk with a bad block 5 answers through layers, at a depth.
fn check_depth<D: BlockDevice>(rt: &impl Abort, device: &mut D, depth: u8) {
    check_bad(rt, device, 5, depth, depth);
    check_no_read(rt, device, 160, Fault::OutOfRange { place: 160 });
    check_halves(rt, device, 159, 62, 59);
}

// The windows are piled from function to function, and not in one that is given the depth: no proof is then about more
// than four of them, and no type is named with sixteen.
fn check_from_4<D: BlockDevice + Drop>(rt: &impl Abort, mut device: D) -> Result<(), Fail> {
    check_depth(rt, &mut device, 4);
    check_from_8(rt, four(device)?)
}

fn check_from_8<D: BlockDevice + Drop>(rt: &impl Abort, mut device: D) -> Result<(), Fail> {
    check_depth(rt, &mut device, 8);
    check_from_12(rt, four(device)?)
}

fn check_from_12<D: BlockDevice + Drop>(rt: &impl Abort, mut device: D) -> Result<(), Fail> {
    check_depth(rt, &mut device, 12);
    check_from_15(rt, whole(whole(whole(device)?)?)?)
}

fn check_from_15<D: BlockDevice + Drop>(rt: &impl Abort, mut device: D) -> Result<(), Fail> {
    check_depth(rt, &mut device, 15);
    let mut sixteenth = whole(device)?;
    check_depth(rt, &mut sixteenth, 15);
    Ok(())
}

#[test]
fn depth_stops_at_15(rt: HostRuntime) -> Result<(), Fail> {
    let mut disk = disk(rt.alloc(), 15, 1, true)?;
    check_depth(&rt, &mut disk, 0);
    check_from_4(&rt, four(disk)?)
}
