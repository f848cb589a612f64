// The three bytes that an entry holds of a date: year less 1900, month, day; three zeros for none.
ghost use Rattle.std.specs.Prelude.{◌≡◌, Some};
ghost use Rattle.entry.specs.Stamps.{date_bytes, stamp_of, stamp_text};

use crate::date::Date;
use std::fmt;

// A date as an entry has it. Other systems may have written any bytes, so it need not be a calendar day.
#[derive(Clone, Copy, PartialEq, Eq, Debug)]
pub struct Stamp {
    pub year: u16,
    pub month: u8,
    pub day: u8,
}

impl fmt::Display for Stamp {
    ghost output = { λ stamp. Some (stamp_text stamp) };

    fn fmt<W: fmt::Write>(&self, f: &mut fmt::Formatter<W>) -> fmt::Result {
        let Stamp { year, month, day } = *self;
        write!(f, "{year}-{month:02}-{day:02}")
    }
}

// What an entry holds of the unit's date.
pub fn date_bytes(date: Option<Date>) -> [u8; 3]
    ensures { result ≡ date_bytes date }
{
    match date {
        Some(date) => [date.years_past_1900(), date.month(), date.day()],
        None => [0, 0, 0],
    }
}

// The date that an entry's three bytes hold, if it has one.
pub fn read_stamp(bytes: [u8; 3]) -> Option<Stamp>
    ensures { result ≡ stamp_of bytes }
{
    match bytes {
        [0, 0, 0] => None,
        [years, month, day] => Some(Stamp {
            year: 1900 + u16::from(years),
            month,
            day,
        }),
    }
}
