// The fields of a line. Single spaces part them, but a space within quotes belongs to its field.
ghost use Rattle.std.specs.Prelude.{◌≡◌, ◌≢◌, ◌≤◌, false, [], ◌∷◌, length, MatchOption};
ghost use Rattle.console.specs.Fields.{ends_field, field_length, fields as fields_of, later, quoting};

fn ends_field(quoted: bool, byte: u8) -> bool
    ensures { result ≡ ends_field quoted byte }
{
    byte == b' ' && !quoted
}

// Whether what follows a byte stands within quotes.
fn still_quoted(quoted: bool, byte: u8) -> bool
    ensures { result ≡ quoting quoted byte }
{
    if byte == b'\'' { !quoted } else { quoted }
}

// How long the first field of a line is. A loop and not `position`: whether a space ends the field hangs on the quotes
// before it.
fn field_length(line: &[u8]) -> usize
    ensures within { result ≤ length line.now }
    ensures value { result ≡ field_length false line.now }
{
    let mut quoted = false;
    for (index, byte) in line.iter().enumerate() {
        if ends_field(quoted, *byte) {
            return index;
        }
        quoted = still_quoted(quoted, *byte);
    }
    line.len()
}

// The first field of a line, and what stands behind it: nothing, or a space and the other fields.
pub(crate) fn first_field(line: &[u8]) -> (&[u8], &[u8])
    ensures { result.0.now ∷ later result.1.now ≡ fields_of line.now }
{
    line.split_at(field_length(line))
}

// The next field of what stands behind one, and what stands behind that in turn, if there is one.
pub(crate) fn next_field(left: &[u8]) -> Option<(&[u8], &[u8])>
    ensures { MatchOption result (later left.now ≡ []) (λ next. later left.now ≡ next.0.now ∷ later next.1.now) }
{
    let (_, line) = left.split_first()?;
    Some(first_field(line))
}

// The field that stands behind one, if no other stands behind it in turn.
pub(crate) fn last_field(left: &[u8]) -> Option<&[u8]>
    ensures { MatchOption result (length (later left.now) ≢ 1) (λ field. later left.now ≡ field.now ∷ []) }
{
    let (field, rest) = next_field(left)?;
    rest.is_empty().then_some(field)
}
