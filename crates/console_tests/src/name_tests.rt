// Names as lines give them.
use console::{Line, read_line};
use requests::Request;
use std::test::Fail;

#[test]
fn names(rt: HostRuntime) -> Result<(), Fail> {
    for (line, expected) in [
        ("find stem '' 0", &b""[..]),
        ("find stem hex: 0", b""),
        ("find stem ' ' 0", b" "),
        ("find stem '  A  B  ' 0", b"  A  B  "),
        ("find stem 'hex:41' 0", b"hex:41"),
        ("find stem '~' 0", b"~"),
        ("find stem hex:41 0", b"A"),
        (
            "find stem hex:09aFAf9027 0",
            &[0x09, 0xaf, 0xaf, 0x90, 0x27],
        ),
        ("find stem hex:00FF 0", &[0x00, 0xff]),
    ] {
        let Line::Call(Request::Find { name, .. }) = read_line(rt.alloc(), line.as_bytes(), 0)?
        else {
            return Err(Fail::new("a find by a stem"));
        };
        assert!(rt; name.as_slice() == expected);
    }
    Ok(())
}
