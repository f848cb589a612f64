// The window and the write-protect layer, each over one device.
use crate::samples::*;
use blocks::{Fault, Rejected, Tab, Window, WriteProtect};
use std::test::Fail;

// A first block and a count that fit in no device of three blocks.
const NO_WINDOWS: [(u32, u32); 7] = [
    (0, 0),
    (2, 0),
    (0, 4),
    (1, 3),
    (3, 1),
    (4294967295, 2),
    (1, 4294967295),
];

#[test]
fn a_device_with_no_such_window_is_handed_back(rt: HostRuntime) -> Result<(), Fail> {
    for (first, count) in NO_WINDOWS {
        let Err(rejected) = Window::new(image(rt.alloc(), false)?, first, count) else {
            return Err(Fail::new("three blocks have no such window"));
        };
        let Rejected { refusal, given } = rejected;
        assert_eq!(rt; refusal.number(), 17);
        check_image(&rt, rt.alloc(), given, &[1, 2, 3])?;
    }
    Ok(())
}

#[test]
fn a_window_over_an_open_image(rt: HostRuntime) -> Result<(), Fail> {
    let mut window = window(image(rt.alloc(), false)?, 1, 2)?;
    check_device(&rt, rt.alloc(), &mut window, &[2, 3], Tab::Off)?;
    check_values(&rt, window.inner(), &[1, 2, 3]);
    check_write(&rt, &mut window, 0, 9);
    check_image(&rt, rt.alloc(), window.into_inner(), &[1, 9, 3])
}

#[test]
fn a_window_over_a_protected_image(rt: HostRuntime) -> Result<(), Fail> {
    let mut window = window(image(rt.alloc(), true)?, 1, 2)?;
    check_device(&rt, rt.alloc(), &mut window, &[2, 3], Tab::On { depth: 1 })?;
    check_no_write(&rt, &mut window, 1, Fault::WriteProtected { depth: 1 });
    check_image(&rt, rt.alloc(), window.into_inner(), &[1, 2, 3])
}

#[test]
fn write_protection(rt: HostRuntime) -> Result<(), Fail> {
    for protected in [false, true] {
        let mut layer = WriteProtect::new(image(rt.alloc(), protected)?);
        check_device(
            &rt,
            rt.alloc(),
            &mut layer,
            &[1, 2, 3],
            Tab::On { depth: 0 },
        )?;
        check_no_write(&rt, &mut layer, 2, Fault::WriteProtected { depth: 0 });
        check_values(&rt, layer.inner(), &[1, 2, 3]);
        check_image(&rt, rt.alloc(), layer.into_inner(), &[1, 2, 3])?;
    }
    Ok(())
}
