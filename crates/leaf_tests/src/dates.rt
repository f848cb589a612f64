// Calendar days: the edges of the years and of the months.
use entry::{Date, Stamp, date_bytes, read_stamp};
use refusal::Refusal;
use std::test::Fail;

// A year, a month, a day, and whether that is a calendar day the unit can be set to.
const DAYS: [(u32, u32, u32, bool); 26] = [
    (1982, 12, 31, false),
    (1983, 1, 1, true),
    (2155, 12, 31, true),
    (2156, 1, 1, false),
    (1984, 2, 29, true),
    (1984, 2, 30, false),
    (1985, 2, 28, true),
    (1985, 2, 29, false),
    (2000, 2, 29, true),
    (2100, 2, 28, true),
    (2100, 2, 29, false),
    (1999, 0, 1, false),
    (1999, 13, 1, false),
    (1999, 1, 0, false),
    (1999, 1, 31, true),
    (1999, 1, 32, false),
    (1999, 4, 30, true),
    (1999, 4, 31, false),
    (1999, 6, 31, false),
    (1999, 9, 31, false),
    (1999, 11, 31, false),
    (1999, 8, 31, true),
    (1999, 12, 31, true),
    (1999, 3, 31, true),
    (65536 + 1984, 2, 29, false),
    (1984, 258, 29, false),
];

#[test]
fn calendar_days(rt: HostRuntime) {
    for (year, month, day, expected) in DAYS {
        assert_eq!(rt; Date::new(year, month, day).is_ok(), expected);
    }
}

#[test]
fn no_calendar_day_is_refused_by_17(rt: HostRuntime) {
    assert_eq!(rt; Date::new(2100, 2, 29), Err(Refusal::OutOfRange));
    assert_eq!(rt; Refusal::OutOfRange.number(), 17);
}

#[test]
fn a_date_in_three_bytes(rt: HostRuntime) -> Result<(), Fail> {
    let date = Date::new(1984, 2, 29)?;
    assert_eq!(rt; date.year(), 1984);
    assert_eq!(rt; date.month(), 2);
    assert_eq!(rt; date.day(), 29);
    assert_eq!(rt; date_bytes(Some(date)), [84, 2, 29]);
    assert_eq!(rt; date_bytes(None), [0, 0, 0]);
    let last = Date::new(2155, 12, 31)?;
    assert_eq!(rt; date_bytes(Some(last)), [255, 12, 31]);
    Ok(())
}

// Three bytes of an entry, and the year, month and day that they hold; only three zeros hold none.
#[test]
fn a_date_is_read_whatever_it_is(rt: HostRuntime) {
    assert_eq!(rt; read_stamp([0, 0, 0]), None);
    for [years, month, day] in [[84, 2, 29], [0, 0, 1], [0, 1, 0], [1, 0, 0], [255, 13, 99]] {
        let stamp = Stamp {
            year: 1900 + u16::from(years),
            month,
            day,
        };
        assert_eq!(rt; read_stamp([years, month, day]), Some(stamp));
    }
}

#[test]
fn a_stamp_is_shown_as_year_month_and_day(rt: HostRuntime) -> Result<(), Fail> {
    for (year, month, day, text) in [(1984, 2, 29, "1984-02-29"), (2155, 113, 0, "2155-113-00")] {
        let stamp = Stamp { year, month, day };
        assert!(rt; stamp.to_string(rt.alloc())?.as_str() == text);
    }
    Ok(())
}
