// The image: what can be one, and what it reads, writes and refuses.
use crate::samples::*;
use blocks::{BlockDevice, Fault, Image, Tab};
use std::test::Fail;

#[test]
fn bytes_that_are_no_image_are_handed_back(rt: HostRuntime) -> Result<(), Fail> {
    // no block; no whole blocks; a block too many
    for count in [0, 1, 1023, 1025, 1024 * 65536] {
        let Err(rejected) = Image::new(filled(rt.alloc(), 7, count)?, false) else {
            return Err(Fail::new("these are no image"));
        };
        check_rejected(&rt, rejected, count);
    }
    Ok(())
}

// A length, whether the tab is on, and the size and the tab that the image then has.
const IMAGES: [(usize, bool, u32, Tab); 4] = [
    (1024, false, 1, Tab::Off),
    (1024, true, 1, Tab::On { depth: 0 }),
    (3072, true, 3, Tab::On { depth: 0 }),
    (1024 * 65535, false, 65535, Tab::Off),
];

#[test]
fn sizes_and_tabs(rt: HostRuntime) -> Result<(), Fail> {
    for (count, protected, size, tab) in IMAGES {
        let image = Image::new(filled(rt.alloc(), 7, count)?, protected)?;
        assert_eq!(rt; image.size(), size);
        assert_eq!(rt; image.tab(), tab);
    }
    Ok(())
}

#[test]
fn an_open_image(rt: HostRuntime) -> Result<(), Fail> {
    let mut image = image(rt.alloc(), false)?;
    check_device(&rt, rt.alloc(), &mut image, &[1, 2, 3], Tab::Off)?;
    check_write(&rt, &mut image, 1, 9);
    check_image(&rt, rt.alloc(), image, &[1, 9, 3])
}

#[test]
fn a_protected_image(rt: HostRuntime) -> Result<(), Fail> {
    let mut image = image(rt.alloc(), true)?;
    check_device(
        &rt,
        rt.alloc(),
        &mut image,
        &[1, 2, 3],
        Tab::On { depth: 0 },
    )?;
    check_no_write(&rt, &mut image, 2, Fault::WriteProtected { depth: 0 });
    check_image(&rt, rt.alloc(), image, &[1, 2, 3])
}
