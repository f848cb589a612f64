// Dates: the calendar days that the unit can be set to, and the three bytes that an entry holds of one.
ghost use Rattle.std.specs.Prelude.{◌≡◌, ◌-◌, ◌<◌, ◌≤◌, true, false, MatchResult};
ghost use Rattle.entry.specs.Dates.{days_in, is_day, is_leap};
ghost use Rattle.refusal.specs.declared.Refusal.TheVariants.{OutOfRange};

use refusal::Refusal;

// A calendar day of 1983 to 2155.
#[derive(Clone, Copy, PartialEq, Eq, Debug)]
pub struct Date {
    year: u16,
    month: u8,
    day: u8,
    ghost real: { is_day year month day ≡ true },
}

fn is_leap(year: u32) -> bool
    ensures { result ≡ is_leap year }
{
    year % 4 == 0 && (year % 100 != 0 || year % 400 == 0)
}

// The days of a month.
fn month_length(year: u32, month: u32) -> u32
    ensures { result ≡ days_in year month }
{
    match month {
        2 if is_leap(year) => 29,
        2 => 28,
        4 | 6 | 9 | 11 => 30,
        _ => 31,
    }
}

impl Date {
    // The day that is given, or the refusal of what is no calendar day of 1983 to 2155. The casts are proved to fit
    // by the pattern: a `try_from` would add an error that cannot come.
    pub fn new(year: u32, month: u32, day: u32) -> Result<Date, Refusal>
        ensures { MatchResult result (λ date. (is_day year month day ≡ true) × (date.year ≡ year) × (date.month ≡ month) × (date.day ≡ day)) (λ e. (is_day year month day ≡ false) × (e ≡ OutOfRange)) }
    {
        match (year, month) {
            (1983..=2155, 1..=12) if 1 <= day && day <= month_length(year, month) => Ok(Date {
                year: year as u16,
                month: month as u8,
                day: day as u8,
            }),
            _ => Err(Refusal::OutOfRange),
        }
    }

    pub fn year(&self) -> u16
        ensures { result ≡ self.now.year }
    {
        self.year
    }

    pub fn month(&self) -> u8
        ensures { result ≡ self.now.month }
    {
        self.month
    }

    pub fn day(&self) -> u8
        ensures { result ≡ self.now.day }
    {
        self.day
    }

    // The year as an entry has it.
    pub fn years_past_1900(&self) -> u8
        ensures { result ≡ self.now.year - 1900 }
    {
        // a cast and not `try_from`, which could not fail: the last year is 2155
        (self.year - 1900) as u8
    }
}
