// What the range, the tab and the mark of a block refuse.
use blocks::{Fault, Mark, Tab, check_range};

// A block, a size and a buffer's length, and whether they are in range.
const RANGES: [(u32, u32, usize, bool); 7] = [
    (0, 1, 1024, true),
    (159, 160, 1024, true),
    (0, 0, 1024, false),
    (160, 160, 1024, false),
    (4294967295, 160, 1024, false),
    (0, 1, 1023, false),
    (0, 1, 1025, false),
];

#[test]
fn the_range(rt: HostRuntime) {
    for (block, size, len, inside) in RANGES {
        let reply = if inside {
            Ok(())
        } else {
            Err(Fault::OutOfRange { place: block })
        };
        assert_eq!(rt; check_range(block, size, len), reply);
    }
}

#[test]
fn the_tab(rt: HostRuntime) {
    assert_eq!(rt; Tab::own(false), Tab::Off);
    assert_eq!(rt; Tab::own(true), Tab::On { depth: 0 });
    assert_eq!(rt; Tab::Off.check(), Ok(()));
    assert_eq!(rt;
        Tab::On { depth: 3 }.check(),
        Err(Fault::WriteProtected { depth: 3 })
    );
}

#[test]
fn the_mark(rt: HostRuntime) {
    assert_eq!(rt; Mark::Sound.check(), Ok(()));
    let bad = Mark::Bad { depth: 2, place: 5 };
    assert_eq!(rt; bad.check(), Err(Fault::BadBlock { depth: 2, place: 5 }));
}
