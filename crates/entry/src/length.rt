// A file's length as its entry has it: the blocks it uses, and the bytes in the last of them.
ghost use Rattle.std.specs.Prelude.{◌≡◌, ℕ, IfSome, if◌then◌else◌, Some, None, MatchOption, ◌≢◌, nat_le};
ghost use Rattle.entry.specs.Lengths.{length_of, longest, split as split_of};

// The longest length that an entry can hold: 65,535 full blocks.
pub const LONGEST: u32 = 67_107_840;

// The used blocks and the bytes in the last of them, or nothing for a length that no entry can hold.
// A full last block counts 1,024, and only an empty file 0.
// A tuple and not a struct: the two are separate words of an entry, and nothing but these two functions joins them.
pub fn split(length: u32) -> Option<(u16, u16)>
    ensures value { result ≡ (if nat_le length longest then Some (split_of length) else None) }
    ensures back { IfSome result (λ pair. length_of pair.0 pair.1 ≡ Some length) }
{
    if length > LONGEST {
        return None;
    }
    let used = length.div_ceil(1024);
    let last = length - 1024 * used.saturating_sub(1);
    // casts and not `try_from`, which could not fail
    Some((used as u16, last as u16))
}

// The length of a pair of used blocks and bytes in the last, or nothing for a pair that no length has.
pub fn length_of(used: u16, last: u16) -> Option<u32>
    ensures value { result ≡ length_of used last }
    ensures back { MatchOption result ((length : ℕ) → split_of length ≢ (used, last)) (λ length. split_of length ≡ (used, last)) }
{
    match (used, last) {
        (0, 0) => Some(0),
        (0, _) => None,
        (_, 1..=1024) => Some(1024 * (u32::from(used) - 1) + u32::from(last)),
        _ => None,
    }
}
