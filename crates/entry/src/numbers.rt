// Numbers of two and four bytes in an entry, the low byte first.
ghost use Rattle.std.specs.Prelude.{◌≡◌, ◌+◌, ◌≤◌, length};
ghost use Rattle.entry.specs.Fields.{long as long_at, word as word_at};
ghost use Rattle.parts.specs.Parts.{part, stored};

use crate::fields::Entry;

// The bytes at a place, as many as the array has.
pub(crate) fn array_at<const N: usize>(bytes: &[u8], at: usize) -> [u8; N]
    requires { at + N ≤ length bytes.now }
    ensures { result ≡ part at N bytes.now }
{
    let mut array = [0; N];
    array.copy_from_slice(&bytes[at..at + N]);
    array
}

impl Entry {
    // The number in the two bytes at a place.
    pub(crate) fn word(&self, at: usize) -> u16
        requires { at + 2 ≤ 26 }
        ensures { result ≡ word_at self.now.bytes at }
    {
        u16::from_le_bytes(array_at(&self.bytes, at))
    }

    // The number in the four bytes at a place.
    pub(crate) fn long(&self, at: usize) -> u32
        requires { at + 4 ≤ 26 }
        ensures { result ≡ long_at self.now.bytes at }
    {
        u32::from_le_bytes(array_at(&self.bytes, at))
    }

    // Puts bytes over those at a place.
    pub(crate) fn store(&mut self, at: usize, new: &[u8])
        requires { at + length new.now ≤ 26 }
        ensures { self.new.bytes ≡ stored self.old.bytes at new.now }
    {
        self.bytes[at..at + new.len()].copy_from_slice(new);
    }
}
