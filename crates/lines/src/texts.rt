// Pieces of text that the commands print.
ghost use Rattle.std.specs.Prelude.{◌≡◌, ◌<◌, ◌++◌, IfOk, string_bytes, OnOk};
ghost use Rattle.lines.specs.Texts.{counted as counted_of, escaped as escaped_of, escaped_byte, hex_byte, hex_digit};

use std::alloc::{AllocError, Global};

// The digits of hexadecimal numbers.
const DIGITS: [char; 16] = [
    '0', '1', '2', '3', '4', '5', '6', '7', '8', '9', 'A', 'B', 'C', 'D', 'E', 'F',
];

// A hexadecimal digit, in capitals.
fn hex_digit(n: u8) -> char
    requires { n < 16 }
    ensures { result ≡ hex_digit n }
{
    DIGITS[usize::from(n)]
}

// Adds `\x` and the two digits of a byte. Not `write!` with `{byte:02X}`, which takes twice as long.
fn push_hex(out: &mut String, byte: u8) -> Result<(), AllocError>
    ensures { OnOk result (string_bytes out.new ≡ string_bytes out.old ++ hex_byte byte) }
{
    out.push_str("\\x")?;
    out.push(hex_digit(byte / 16))?;
    out.push(hex_digit(byte % 16))
}

// Adds a byte of a name, escaped where it is not printable.
fn push_byte(out: &mut String, byte: u8) -> Result<(), AllocError>
    ensures { OnOk result (string_bytes out.new ≡ string_bytes out.old ++ escaped_byte byte) }
{
    match byte {
        b'\\' => out.push_str("\\\\"),
        0x20..=0x7e => out.push(char::from(byte)),
        _ => push_hex(out, byte),
    }
}

// The bytes of a name as people can read them.
pub fn escaped(heap: Global, name: &[u8]) -> Result<String, AllocError>
    ensures { IfOk result (λ text. string_bytes text ≡ escaped_of name.now) }
{
    let mut out = String::new(heap);
    for byte in name {
        push_byte(&mut out, *byte)?;
    }
    Ok(out)
}

// So many of a thing: `1 file`, `2 files`.
pub fn counted(heap: Global, n: u32, thing: &str) -> Result<String, AllocError>
    ensures { IfOk result (λ t. string_bytes t ≡ counted_of n thing.now) }
{
    let ending = if n == 1 { "" } else { "s" };
    format!(in heap; "{n} {thing}{ending}")
}
