// A name as it is given: its characters, and the one comparison of two names.
ghost use Rattle.std.specs.Prelude.{◌≡◌, ◌≤◌, length, take};
ghost use Rattle.std.specs.Str.{bytes_eq};
ghost use Rattle.names.specs.Names.{characters as characters_of, same_name};

// The byte that ends a name before the end of its field.
pub const ETX: u8 = 3;

// The characters of a name as given: the bytes before its first ETX, or all of them.
pub fn characters(given: &[u8]) -> &[u8]
    ensures { result.now ≡ characters_of given.now }
{
    let end = given
        .iter()
        .position(|byte| *byte == ETX)
        .unwrap_or(given.len());
    &given[..end]
}

// Whether two byte strings are the same, byte for byte. A function and not `==` at each place, so that what `==` of
// slices says is turned into `bytes_eq` once.
pub fn same_bytes(one: &[u8], other: &[u8]) -> bool
    ensures { result ≡ bytes_eq one.now other.now }
{
    one == other
}

// Two names are equal exactly if their characters are the same, whatever stands behind an ETX.
pub fn same(one: &[u8], other: &[u8]) -> bool
    ensures { result ≡ same_name one.now other.now }
{
    same_bytes(characters(one), characters(other))
}
