// Which file a name finds.
use crate::images::*;
use listing::{Failure, find};
use refusal::Refusal;
use std::test::Fail;

const LETTER_ROW: &str = "    3  LETTER     H  live     ---U----        2      1        10  -
Found by its whole name.
";

const LETTER_BY_STEM: &str = "    3  LETTER     H  live     ---U----        2      1        10  -
Found by its stem; no live file has that whole name.
";

const LOG_BY_STEM: &str =
    "    4  LOG        A  live     ---U----        3      2      1500  1985-03-05
Found by its stem; no live file has that whole name.
";

#[test]
fn found_by_whole_name_and_by_stem(rt: HostRuntime) -> Result<(), Fail> {
    let heap = rt.alloc();
    let image = image(heap, 8, &TWO_FILES)?;
    for (name, expected) in [
        (&b"LETTERH"[..], LETTER_ROW),
        (&b"LETTERH\x03z"[..], LETTER_ROW),
        (&b"LETTER"[..], LETTER_BY_STEM),
        (&b"LOG"[..], LOG_BY_STEM),
    ] {
        assert!(rt; find(heap, &image, name)?.as_str() == expected);
    }
    Ok(())
}

#[test]
fn found_nothing(rt: HostRuntime) -> Result<(), Fail> {
    let heap = rt.alloc();
    let image = image(
        heap,
        8,
        &[
            VOLUME,
            BOOT,
            DIRECTORY,
            LETTER_H_DELETED,
            LOG_A,
            BLOCKS_LEFT,
        ],
    )?;
    for name in [
        &b"LETTERH"[..],
        b"LETTER",
        b"loga",
        b"LO",
        b"BOO",
        b"DIRECTOR",
        b"BLOCKS LEF",
        b"BOOT",
    ] {
        assert_eq!(rt;
            find(heap, &image, name).err(),
            Some(Failure::Refused(Refusal::NoSuchFile))
        );
    }
    for name in [&b""[..], b"\x03LOGA", b"ABCDEFGHIJKL", b"A\x1f"] {
        assert_eq!(rt;
            find(heap, &image, name).err(),
            Some(Failure::Refused(Refusal::BadName))
        );
    }
    Ok(())
}

#[test]
fn a_pack_at_fault_is_told_before_a_bad_name(rt: HostRuntime) -> Result<(), Fail> {
    let heap = rt.alloc();
    let image = image(heap, 8, &[VOLUME, BOOT, DIRECTORY])?;
    assert_eq!(rt;
        find(heap, &image, b"").err(),
        Some(Failure::Refused(Refusal::BrokenLayout { entry: 39 }))
    );
    Ok(())
}
