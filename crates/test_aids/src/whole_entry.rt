// A key that says yes to the entry of its bytes alone.
ghost use Rattle.std.specs.Str.{bytes_eq};

use directory::Key;
use entry::{ENTRY, Entry};

#[derive(Clone, Copy)]
pub struct WholeEntry {
    pub bytes: [u8; ENTRY],
}

impl Key for WholeEntry {
    ghost meaning = { λ key bytes. bytes_eq bytes key.bytes };

    fn fits(&self, entry: &Entry) -> bool {
        entry.bytes == self.bytes
    }
}
