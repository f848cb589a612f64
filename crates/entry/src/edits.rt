// Writing the fields of an entry: each changes its bytes and no other.
ghost use Rattle.std.specs.Prelude.{◌≡◌, [], ◌∷◌};
ghost use Rattle.entry.specs.Fields.{check_bytes, long_bytes, word_bytes};
ghost use Rattle.parts.specs.Parts.{stored};
ghost use Rattle.entry.specs.Stamps.{date_bytes};

use crate::attributes::Attributes;
use crate::date::Date;
use crate::fields::{CHECK_BYTES, Entry};
use crate::stamp::date_bytes;
use names::FIELD;

impl Entry {
    pub fn set_name_field(&mut self, field: &[u8; FIELD])
        ensures { self.new.bytes ≡ stored self.old.bytes 0 field.now }
    {
        self.store(0, field)
    }

    pub fn set_attributes(&mut self, attributes: Attributes)
        ensures { self.new.bytes ≡ stored self.old.bytes 12 (attributes.byte ∷ []) }
    {
        self.store(12, &[attributes.byte])
    }

    pub fn set_first_block(&mut self, first: u32)
        ensures { self.new.bytes ≡ stored self.old.bytes 13 (long_bytes first) }
    {
        self.store(13, &first.to_le_bytes())
    }

    pub fn set_room(&mut self, room: u16)
        ensures { self.new.bytes ≡ stored self.old.bytes 17 (word_bytes room) }
    {
        self.store(17, &room.to_le_bytes())
    }

    pub fn set_used(&mut self, used: u16)
        ensures { self.new.bytes ≡ stored self.old.bytes 19 (word_bytes used) }
    {
        self.store(19, &used.to_le_bytes())
    }

    pub fn set_last(&mut self, last: u16)
        ensures { self.new.bytes ≡ stored self.old.bytes 21 (word_bytes last) }
    {
        self.store(21, &last.to_le_bytes())
    }

    // Puts the unit's date into the entry, or three zeros where none is set.
    pub fn set_date(&mut self, date: Option<Date>)
        ensures { self.new.bytes ≡ stored self.old.bytes 23 (date_bytes date) }
    {
        self.store(23, &date_bytes(date))
    }

    // In the volume's entry: the bytes by which a directory is known.
    pub fn set_check_bytes(&mut self)
        ensures { self.new.bytes ≡ stored self.old.bytes 13 check_bytes }
    {
        self.store(13, &CHECK_BYTES)
    }

    // In the volume's entry: the blocks of the volume.
    pub fn set_size(&mut self, size: u32)
        ensures { self.new.bytes ≡ stored self.old.bytes 17 (long_bytes size) }
    {
        self.store(17, &size.to_le_bytes())
    }
}
