// Lines that say something.
use console::{Line, read_line};
use model::NameKind;
use requests::Request;
use std::test::Fail;

fn all_zeros(bytes: &[u8], len: usize) -> bool {
    bytes.len() == len && bytes.iter().all(|byte| *byte == 0)
}

#[test]
fn dates(rt: HostRuntime) -> Result<(), Fail> {
    for (line, expected) in [
        ("date 1985 4 12", (1985, 4, 12)),
        ("date 0 0 0", (0, 0, 0)),
        ("date 0001985 04 012", (1985, 4, 12)),
        (
            "date 4294967295 4294967295 4294967295",
            (4294967295, 4294967295, 4294967295),
        ),
        ("date 00000000004294967295 1 2", (4294967295, 1, 2)),
    ] {
        let Line::Call(Request::SetDate { year, month, day }) = read_line(
            rt.alloc(),
            line.as_bytes(),
            1024,
        )?
        else {
            return Err(Fail::new("a date"));
        };
        assert_eq!(rt; (year, month, day), expected);
    }
    Ok(())
}

#[test]
fn inits(rt: HostRuntime) -> Result<(), Fail> {
    let Line::Call(
        Request::Initialise {
            name,
            directory,
            blocks,
            work,
        },
    ) = read_line(rt.alloc(), b"init 'MY PACK' 1 160", 1024)?
    else {
        return Err(Fail::new("an init"));
    };
    assert!(rt; name.as_slice() == b"MY PACK".as_slice());
    assert_eq!(rt; directory, 1);
    assert_eq!(rt; blocks, 160);
    assert!(rt; all_zeros(work.as_slice(), 1024));
    Ok(())
}

#[test]
fn takeups(rt: HostRuntime) -> Result<(), Fail> {
    for len in [0u32, 1, 1024, 3000] {
        let Line::Call(Request::TakeUp { work }) = read_line(rt.alloc(), b"takeup", len)? else {
            return Err(Fail::new("a takeup"));
        };
        assert!(rt; all_zeros(work.as_slice(), len as usize));
    }
    Ok(())
}

#[test]
fn finds(rt: HostRuntime) -> Result<(), Fail> {
    for (line, whole, len) in [
        ("find whole 'LETTERH' 26", true, 26usize),
        ("find stem 'LETTERH' 26", false, 26),
        ("find stem 'LETTERH' 0", false, 0),
        ("find whole hex:4c455454455248 5", true, 5),
    ] {
        let Line::Call(
            Request::Find {
                kind,
                name,
                buffer,
                work,
            },
        ) = read_line(rt.alloc(), line.as_bytes(), 1023)?
        else {
            return Err(Fail::new("a find"));
        };
        assert!(rt; matches!(kind, NameKind::Whole) == whole);
        assert!(rt; name.as_slice() == b"LETTERH".as_slice());
        assert!(rt; all_zeros(buffer.as_slice(), len));
        assert!(rt; all_zeros(work.as_slice(), 1023));
    }
    Ok(())
}

#[test]
fn shows(rt: HostRuntime) -> Result<(), Fail> {
    let Line::Call(
        Request::Show {
            entry,
            buffer,
            work,
        },
    ) = read_line(rt.alloc(), b"show 4294967295 26", 7)?
    else {
        return Err(Fail::new("a show"));
    };
    assert_eq!(rt; entry, 4294967295);
    assert!(rt; all_zeros(buffer.as_slice(), 26));
    assert!(rt; all_zeros(work.as_slice(), 7));
    Ok(())
}

#[test]
fn works(rt: HostRuntime) -> Result<(), Fail> {
    for (line, expected) in [
        ("work 0", 0),
        ("work 1024", 1024),
        ("work 4294967295", 4294967295),
    ] {
        let Line::Work { len } = read_line(rt.alloc(), line.as_bytes(), 1024)? else {
            return Err(Fail::new("a length of work blocks"));
        };
        assert_eq!(rt; len, expected);
    }
    Ok(())
}
