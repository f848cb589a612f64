// The rules that names keep.
ghost use Rattle.std.specs.Prelude.{◌≡◌, ◌≤◌, Bool, List, length, true, ℕ};
ghost use Rattle.names.specs.Names.{characters as characters_of, fits_stem, fits_whole, is_reserved, is_stem, is_volume, is_whole, last_is_letter, name_field, printable, spelled};
ghost use Rattle.names.specs.Kept.{stem_field, stem_fits, stem_short, volume_field, volume_short, whole_field, whole_fits, whole_short};

use crate::given::{characters, same};

// The names of the entries that are no files, which no file may have.
pub const BOOT: &[u8] = b"BOOT";

pub const DIRECTORY: &[u8] = b"DIRECTORY";

pub const BLOCKS_LEFT: &[u8] = b"BLOCKS LEFT";

fn is_printable(byte: u8) -> bool
    ensures { result ≡ printable byte }
{
    (b' '..=b'~').contains(&byte)
}

// Whether a name has `low` to `high` characters, each of them printable.
fn is_spelled(name: &[u8], low: usize, high: usize) -> bool
    ensures { result ≡ spelled low high name.now }
{
    (low..=high).contains(&name.len()) && name.iter().all(|byte| is_printable(*byte))
}

// Whether the last character, if there is one, is a letter.
fn ends_in_letter(name: &[u8]) -> bool
    ensures { result ≡ last_is_letter name.now }
{
    match name {
        [.., last] => last.is_ascii_alphabetic(),
        [] => true,
    }
}

// Whether a name is that of an entry that is no file.
fn is_reserved(name: &[u8]) -> bool
    ensures { result ≡ is_reserved name.now }
{
    same(name, BOOT) || same(name, DIRECTORY) || same(name, BLOCKS_LEFT)
}

// What a kind of name has to keep. It goes by the characters alone, of which a name field holds eleven.
pub trait Rule {
    ghost rule: { List ℕ → Bool };

    // Whether a name as given keeps the rule.
    fn holds(given: &[u8]) -> bool
        ensures { result ≡ rule given.now };

    ghost short: { (given : List ℕ) → rule given ≡ true → length (characters_of given) ≤ 11 };

    ghost same: { (given : List ℕ) → rule (name_field given) ≡ rule given };
}

// A rule of the names that files are looked for by. It also says which entries such a name fits.
pub trait FileRule: Rule {
    ghost fitting: { List ℕ → List ℕ → Bool };

    // Whether a name fits an entry with this name field.
    fn fits(name: &[u8], field: &[u8]) -> bool
        ensures { result ≡ fitting name.now field.now };

    ghost alike: { (name field : List ℕ) → fitting (name_field name) field ≡ fitting name field };
}

// A whole name: 2 to 11 characters, the last a letter, and no reserved name.
#[derive(Clone, Copy)]
pub struct WholeRule;

impl Rule for WholeRule {
    ghost rule = { is_whole };

    ghost short = { whole_short };

    ghost same = { whole_field };

    fn holds(given: &[u8]) -> bool {
        let name = characters(given);
        is_spelled(name, 2, 11) && ends_in_letter(name) && !is_reserved(given)
    }
}

// The entry's name is that name.
impl FileRule for WholeRule {
    ghost fitting = { fits_whole };

    ghost alike = { whole_fits };

    fn fits(name: &[u8], field: &[u8]) -> bool {
        same(name, field)
    }
}

// A stem: 1 to 10 characters.
#[derive(Clone, Copy)]
pub struct StemRule;

impl Rule for StemRule {
    ghost rule = { is_stem };

    ghost short = { stem_short };

    ghost same = { stem_field };

    fn holds(given: &[u8]) -> bool {
        is_spelled(characters(given), 1, 10)
    }
}

// The entry's name without its last character is that stem.
impl FileRule for StemRule {
    ghost fitting = { fits_stem };

    ghost alike = { stem_fits };

    fn fits(name: &[u8], field: &[u8]) -> bool {
        let whole = characters(field);
        same(name, &whole[..whole.len().saturating_sub(1)])
    }
}

// A volume's name: 1 to 11 characters. A rule beside the stem's, and not one with the highest number as a constant: a
// rule with a number above 11 would not be short.
#[derive(Clone, Copy)]
pub struct VolumeRule;

impl Rule for VolumeRule {
    ghost rule = { is_volume };

    ghost short = { volume_short };

    ghost same = { volume_field };

    fn holds(given: &[u8]) -> bool {
        is_spelled(characters(given), 1, 11)
    }
}
