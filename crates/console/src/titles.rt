// Names on a line: `'text'`, or `hex:` and the digits of each byte.
ghost use Rattle.std.specs.Prelude.{◌≡◌, ◌≤◌, IfOk};
ghost use Rattle.console.specs.Titles.{all_digits, all_plain, hex_bytes, hex_digits, is_plain, name_of, name_bytes, pair_value, quoted_text, hex_value};
ghost use Rattle.std.specs.Option.{option_map};

use std::alloc::{AllocError, Global};

// A name as a line gives it: its bytes, or two hexadecimal digits for each.
#[derive(Clone, Copy)]
pub(crate) enum Name<'a> {
    Quoted(&'a [u8]),
    Hex(&'a [u8]),
}

// What may stand between quotes: a printable byte that is no quote.
fn is_plain(byte: u8) -> bool
    ensures { result ≡ is_plain byte }
{
    matches!(byte, b' '..=b'~') && byte != b'\''
}

fn all_plain(text: &[u8]) -> bool
    ensures { result ≡ all_plain text.now }
{
    text.iter().all(|byte| is_plain(*byte))
}

// The text between the quotes of a field that begins with one and ends with another.
fn quoted_text(field: &[u8]) -> Option<&[u8]>
    ensures { option_map (λ x. x.now) result ≡ quoted_text field.now }
{
    let [b'\'', text @ .., b'\''] = field else {
        return None;
    };
    all_plain(text).then_some(text)
}

fn all_digits(digits: &[u8]) -> bool
    ensures { result ≡ all_digits digits.now }
{
    digits.iter().all(u8::is_ascii_hexdigit)
}

// The digits behind `hex:`, of which there is an even number.
fn hex_digits(field: &[u8]) -> Option<&[u8]>
    ensures { option_map (λ x. x.now) result ≡ hex_digits field.now }
{
    let digits = field.strip_prefix(b"hex:")?;
    (digits.len() % 2 == 0 && all_digits(digits)).then_some(digits)
}

// The name that a field gives.
pub(crate) fn name_of<'a>(field: &'a [u8]) -> Option<Name<'a>>
    ensures { option_map name_bytes result ≡ name_of field.now }
{
    quoted_text(field)
        .map(Name::Quoted)
        .or_else(|| hex_digits(field).map(Name::Hex))
}

// What a digit stands for, and 0 for what is no digit.
fn hex_value(digit: u8) -> u8
    ensures within { result ≤ 15 }
    ensures value { result ≡ hex_value digit }
{
    // a cast and not `try_from`, which could not fail: a digit is below 16
    char::from(digit).to_digit(16).unwrap_or(0) as u8
}

// What two digits stand for.
fn pair_value(high: u8, low: u8) -> u8
    ensures { result ≡ pair_value high low }
{
    hex_value(high) * 16 + hex_value(low)
}

fn hex_bytes(heap: Global, digits: &[u8]) -> Result<Vec<u8>, AllocError>
    ensures { IfOk result (λ v. v.items ≡ hex_bytes digits.now) }
{
    let (pairs, _) = digits.as_chunks::<2>();
    pairs
        .iter()
        .map(|[high, low]| pair_value(*high, *low))
        .collect(heap)
}

// The bytes of a name.
pub(crate) fn name_bytes(heap: Global, name: Name<'_>) -> Result<Vec<u8>, AllocError>
    ensures { IfOk result (λ v. v.items ≡ name_bytes name.entry) }
{
    match name {
        Name::Quoted(text) => Vec::from_slice(heap, text),
        Name::Hex(digits) => hex_bytes(heap, digits),
    }
}
