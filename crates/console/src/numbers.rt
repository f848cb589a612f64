// Numbers in decimal.
ghost use Rattle.std.specs.Prelude.{◌≡◌};
ghost use Rattle.console.specs.Numbers.{number_of, with_digit};

// A number with one more digit behind it, where that is a digit and the number stays below 2^32.
fn with_digit(number: u32, digit: u8) -> Option<u32>
    ensures { result ≡ with_digit number digit }
{
    let digit = char::from(digit).to_digit(10)?;
    number.checked_mul(10)?.checked_add(digit)
}

// The number that a field says: one or more digits, of which the first may be zeros, and below 2^32. Not `parse`, which
// takes a `+` in front; and a loop, since of `try_fold` no proof was found that says where it gives up.
pub(crate) fn number_of(field: &[u8]) -> Option<u32>
    ensures { result ≡ number_of field.now }
{
    if field.is_empty() {
        return None;
    }
    let mut number = 0;
    for digit in field {
        number = with_digit(number, *digit)?;
    }
    Some(number)
}
