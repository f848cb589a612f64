// The line that is printed of a reply.
ghost use Rattle.std.specs.Prelude.{◌≡◌, ◌<◌, ◌++◌, IfOk, string_bytes, OnOk};
ghost use Rattle.console.specs.Replies.{done_text, hex_digit, hex_pair, hex_text, refused_text, reply_text};
ghost use Rattle.requests.specs.Values.{told};

use refusal::Refusal;
use requests::Reply;
use std::alloc::{AllocError, Global};

// The digits of hexadecimal numbers.
const DIGITS: [char; 16] = [
    '0', '1', '2', '3', '4', '5', '6', '7', '8', '9', 'A', 'B', 'C', 'D', 'E', 'F',
];

// A hexadecimal digit, in capitals.
fn hex_digit(n: u8) -> char
    requires { n < 16 }
    ensures { result ≡ hex_digit n }
{
    DIGITS[usize::from(n)]
}

// Adds the two digits of a byte. Not `write!` with `{byte:02X}`, which takes several times as long.
fn push_hex(out: &mut String, byte: u8) -> Result<(), AllocError>
    ensures { OnOk result (string_bytes out.new ≡ string_bytes out.old ++ hex_pair byte) }
{
    out.push(hex_digit(byte / 16))?;
    out.push(hex_digit(byte % 16))
}

// Bytes in hexadecimal, two digits a byte.
fn hex_text(heap: Global, bytes: &[u8]) -> Result<String, AllocError>
    ensures { IfOk result (λ t. string_bytes t ≡ hex_text bytes.now) }
{
    let mut out = String::new(heap);
    for byte in bytes {
        push_hex(&mut out, *byte)?;
    }
    Ok(out)
}

// The line of a call that was done: with the number replied, and with that the buffer if there is one.
fn done_line(heap: Global, number: Option<u32>, buffer: &[u8]) -> Result<String, AllocError>
    ensures { IfOk result (λ t. string_bytes t ≡ done_text number buffer.now) }
{
    match (number, buffer) {
        (None, _) => String::from_str(heap, "ok"),
        (Some(number), []) => format!(in heap; "ok {number}"),
        (Some(number), _) => {
            let hex = hex_text(heap, buffer)?;
            format!(in heap; "ok {number} {hex}")
        }
    }
}

// The line of a call that was refused: the refusal's three numbers.
fn refused_line(heap: Global, refusal: Refusal) -> Result<String, AllocError>
    ensures { IfOk result (λ t. string_bytes t ≡ refused_text refusal) }
{
    format!(in heap;
        "refused {} {} {}",
        refusal.number(),
        refusal.layer(),
        refusal.place()
    )
}

// The line of a reply.
pub fn reply_line(heap: Global, reply: &Reply) -> Result<String, AllocError>
    ensures { IfOk result (λ t. string_bytes t ≡ reply_text (told reply.now)) }
{
    match reply.answer {
        Ok(number) => done_line(heap, number, &reply.buffer),
        Err(refusal) => refused_line(heap, refusal),
    }
}
