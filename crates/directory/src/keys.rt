// What files are looked for by: a whole name, or a stem.
ghost use Rattle.entry.specs.Fields.{name_of};

use crate::lookups::Key;
use entry::Entry;
use names::{FileRule, Name};

// The name fits the entry's.
impl<R: FileRule> Key for Name<R> {
    ghost meaning = { λ key bytes. R.FileRule.fitting key.field (name_of bytes) };

    fn fits(&self, entry: &Entry) -> bool {
        Name::fits(self, entry.name_field())
    }
}
