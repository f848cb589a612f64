// Lines that say nothing, with what was expected.
use console::{Expected, Line, read_line};
use std::alloc::Global;
use std::process::Abort;
use std::test::Fail;

fn expects(rt: &impl Abort, heap: Global, line: &[u8], expected: Expected) -> Result<(), Fail> {
    let Line::Unreadable(form) = read_line(heap, line, 1024)? else {
        return Err(Fail::new("the line is to be unreadable"));
    };
    assert_eq!(rt; form, expected);
    Ok(())
}

fn all_expect(
    rt: &impl Abort,
    heap: Global,
    lines: &[&str],
    expected: Expected,
) -> Result<(), Fail> {
    for line in lines {
        expects(rt, heap, line.as_bytes(), expected)?;
    }
    Ok(())
}

#[test]
fn no_such_command(rt: HostRuntime) -> Result<(), Fail> {
    let lines = [
        "",
        " ",
        "dates 1 2 3",
        "dat 1 2 3",
        "Date 1 2 3",
        " date 1 2 3",
        "'date' 1 2 3",
        "takeup'",
        "'takeup '",
        "?",
    ];
    all_expect(&rt, rt.alloc(), &lines, Expected::Command)
}

#[test]
fn bad_numbers(rt: HostRuntime) -> Result<(), Fail> {
    let lines = [
        "date",
        "date ",
        "date 1",
        "date 1 2",
        "date 1 2 ",
        "date 1 2 3 ",
        "date 1 2 3 4",
        "date  1 2 3",
        "date 1  2 3",
        "date 1 2 4294967296",
        "date 1 2 99999999999999999999999999",
        "date 1 2 03/",
        "date 1 2 3:",
        "date -1 2 3",
        "date +1 2 3",
        "date 1 2 0x3",
        "date '1' 2 3",
        "date 1\t2 3 4",
    ];
    all_expect(&rt, rt.alloc(), &lines, Expected::Date)
}

#[test]
fn bad_names(rt: HostRuntime) -> Result<(), Fail> {
    let lines = [
        "init",
        "init 'A' 1",
        "init 'A' 1 160 ",
        "init 'A' 1 160 2",
        "init A 1 160",
        "init  1 160",
        "init ' 1 160",
        "init 'A 1 160",
        "init A' 1 160",
        "init 'A'B' 1 160",
        "init 'A'B 1 160",
        "init 'A''B' 1 160",
        "init 'A'1 160",
        "init 'A\t' 1 160",
        "init 'A\x7f' 1 160",
        "init hex:4 1 160",
        "init hex:4g 1 160",
        "init hex:4G 1 160",
        "init hex:'4' 1 160",
        "init Hex:41 1 160",
        "init hex 1 160",
        "init hex:41 42 1 160",
    ];
    all_expect(&rt, rt.alloc(), &lines, Expected::Init)?;
    expects(&rt, rt.alloc(), b"init 'A\x80' 1 160", Expected::Init)
}

#[test]
fn bad_finds(rt: HostRuntime) -> Result<(), Fail> {
    let lines = [
        "find",
        "find whole",
        "find whole 'A'",
        "find 'A' 26",
        "find part 'A' 26",
        "find Whole 'A' 26",
        "find whole 'A' 4294967296",
        "find whole A 26",
        "find whole 'A' 26 ",
        "find whole  'A' 26",
    ];
    all_expect(&rt, rt.alloc(), &lines, Expected::Find)
}

#[test]
fn other_forms(rt: HostRuntime) -> Result<(), Fail> {
    for (line, expected) in [
        ("takeup ", Expected::TakeUp),
        ("takeup 1", Expected::TakeUp),
        ("show", Expected::Show),
        ("show 1", Expected::Show),
        ("show 1 ", Expected::Show),
        ("show 1 2 ", Expected::Show),
        ("show 1 2 3", Expected::Show),
        ("show 4294967296 2", Expected::Show),
        ("work", Expected::Work),
        ("work ", Expected::Work),
        ("work 4294967296", Expected::Work),
        ("work 1 2", Expected::Work),
        ("work A", Expected::Work),
    ] {
        expects(&rt, rt.alloc(), line.as_bytes(), expected)?;
    }
    Ok(())
}

#[test]
fn words(rt: HostRuntime) -> Result<(), Fail> {
    for (expected, words) in [
        (Expected::Date, "date Y M D"),
        (Expected::Init, "init NAME D N"),
        (Expected::TakeUp, "takeup"),
        (Expected::Find, "find whole NAME LEN or find stem NAME LEN"),
        (Expected::Show, "show ENTRY LEN"),
        (Expected::Work, "work LEN"),
        (Expected::Command, "date, init, takeup, find, show or work"),
    ] {
        assert!(rt; expected.words() == words);
        assert!(rt; expected.to_string(rt.alloc())?.as_str() == words);
    }
    Ok(())
}
