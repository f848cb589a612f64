// The line that is printed of a file.
ghost use Rattle.std.specs.Prelude.{◌≡◌, IfOk, string_bytes};
ghost use Rattle.std.specs.Str.{IsAscii};
ghost use Rattle.lines.specs.Rows.{date_text, length_text, letters as letters_of, name_text, place_text, row_text, state_columns, state_text};

use crate::texts::escaped;
use entry::{Attribute, Attributes, Entry, Stamp};
use names::characters;
use std::alloc::{AllocError, Global};

// What stands above the lines of files.
pub const HEADINGS: &str = "entry  name          state    attributes  first   room    length  date";

// The letter of each attribute, from the highest bit down.
const LETTERS: [(Attribute, char); 8] = [
    (Attribute::Locked, 'L'),
    (Attribute::WriteProtected, 'W'),
    (Attribute::ReadProtected, 'R'),
    (Attribute::User, 'U'),
    (Attribute::System, 'S'),
    (Attribute::Deleted, 'D'),
    (Attribute::ExecuteProtected, 'X'),
    (Attribute::BlocksLeft, 'B'),
];

// The attributes in letters, with a dash for each that is not set.
fn letters(heap: Global, of: Attributes) -> Result<String, AllocError>
    ensures value { IfOk result (λ t. string_bytes t ≡ letters_of of.byte) }
    ensures ascii { IfOk result (λ t. IsAscii (string_bytes t)) }
{
    let mut text = String::new(heap);
    for (attribute, letter) in &LETTERS {
        text.push(if of.has(*attribute) { *letter } else { '-' })?;
    }
    Ok(text)
}

// A name with its type letter, the last character, set apart.
fn name_text(heap: Global, name: &[u8]) -> Result<String, AllocError>
    ensures { IfOk result (λ t. string_bytes t ≡ name_text name.now) }
{
    // Not `split_last`: an empty name has no last character, and its columns are filled all the same.
    let (stem, type_letter) = name.split_at(name.len().saturating_sub(1));
    let stem = escaped(heap, stem)?;
    let type_letter = escaped(heap, type_letter)?;
    format!(in heap; "{stem:<10} {type_letter:<1}")
}

fn state_text(attributes: Attributes) -> &'static str
    ensures { result.now ≡ state_text attributes.byte }
{
    if attributes.has(Attribute::Deleted) {
        "deleted"
    } else {
        "live"
    }
}

// A date, or a dash where there is none.
pub fn date_text(heap: Global, stamp: Option<Stamp>) -> Result<String, AllocError>
    ensures { IfOk result (λ t. string_bytes t ≡ date_text stamp) }
{
    match stamp {
        Some(stamp) => format!(in heap; "{stamp}"),
        None => String::from_str(heap, "-"),
    }
}

// The length of a live file; a deleted one has none to speak of.
fn length_text(heap: Global, entry: &Entry) -> Result<String, AllocError>
    ensures value { IfOk result (λ t. string_bytes t ≡ length_text entry.now.bytes) }
    ensures ascii { IfOk result (λ t. IsAscii (string_bytes t)) }
{
    match entry.length() {
        Some(length) if !entry.is_deleted() => format!(in heap; "{length}"),
        _ => String::from_str(heap, "-"),
    }
}

// The state of a file, in a word and in letters.
fn state_columns(heap: Global, entry: &Entry) -> Result<String, AllocError>
    ensures { IfOk result (λ t. string_bytes t ≡ state_columns entry.now.bytes) }
{
    let state = state_text(entry.attributes());
    let letters = letters(heap, entry.attributes())?;
    format!(in heap; "{state:<7}  {letters:<10}")
}

// Where a file lies and how long it is.
fn place_columns(heap: Global, entry: &Entry) -> Result<String, AllocError>
    ensures { IfOk result (λ t. string_bytes t ≡ place_text entry.now.bytes) }
{
    let first = entry.first_block();
    let room = entry.room();
    let length = length_text(heap, entry)?;
    format!(in heap; "{first:>5}  {room:>5}  {length:>8}")
}

// The line of a file: the number of its entry, and what the entry says.
pub fn row(heap: Global, number: u32, entry: &Entry) -> Result<String, AllocError>
    ensures { IfOk result (λ t. string_bytes t ≡ row_text number entry.now.bytes) }
{
    let name = name_text(heap, characters(entry.name_field()))?;
    let state = state_columns(heap, entry)?;
    let place = place_columns(heap, entry)?;
    let date = date_text(heap, entry.stamp())?;
    format!(in heap; "{number:>5}  {name}  {state}  {place}  {date}")
}
