// The fields of an entry, read from their places in its 26 bytes. One method for each, and not one over a trait of
// fields: place, type and name differ in each, and such a trait would state all three again beside the method.
ghost use Rattle.std.specs.Prelude.{◌≡◌, ◌*◌, ◌%◌};
ghost use Rattle.entry.specs.Fields.{attributes_of, bit, check_bytes, check_of, date_of, directory_of, entry_in, first_of, last_of, name_of, put_in, room_of, size_of, used_of};
ghost use Rattle.entry.specs.Lengths.{length_of};
ghost use Rattle.entry.specs.Stamps.{stamp_of};
ghost use Rattle.std.specs.Str.{bytes_eq};

use crate::attributes::{Attribute, Attributes};
use crate::length::length_of;
use crate::numbers::array_at;
use crate::stamp::{Stamp, read_stamp};
use names::{FIELD, same_bytes};
use parts::BLOCK;

// The bytes of an entry.
pub const ENTRY: usize = 26;

// The entries that stand in a block.
pub const ENTRIES: u32 = 39;

// What stands in the volume's entry where a file has its first block: the mark of a directory.
pub const CHECK_BYTES: [u8; 4] = [0x55, 0xaa, 0x00, 0xff];

// Twenty-six bytes of the directory. Any bytes are an entry; what they mean is read field by field.
#[derive(Clone, Copy, PartialEq, Eq, Debug)]
pub struct Entry {
    pub bytes: [u8; ENTRY],
}

// Where the entry of that number begins in the directory block that holds it.
pub(crate) fn place_of(number: u32) -> usize
    ensures { result ≡ 26 * (number % 39) }
{
    ENTRY * (number % ENTRIES) as usize
}

impl Entry {
    // The entry of that number, as it stands in the directory block that holds it.
    pub fn from_block(block: &[u8; BLOCK], number: u32) -> Entry
        ensures { result.bytes ≡ entry_in block.now number }
    {
        Entry {
            bytes: array_at(block, place_of(number)),
        }
    }

    // Puts the entry in the place of the entry of that number, in the directory block that holds it.
    pub fn put_in(&self, block: &mut [u8; BLOCK], number: u32)
        ensures { block.new ≡ put_in block.old number self.now.bytes }
    {
        let at = place_of(number);
        block[at..at + ENTRY].copy_from_slice(&self.bytes);
    }

    // The name field: the name, its ETX, and what is left of an older name behind it.
    pub fn name_field(&self) -> &[u8]
        ensures { result.now ≡ name_of self.now.bytes }
    {
        &self.bytes[0..FIELD]
    }

    pub fn attributes(&self) -> Attributes
        ensures { result.byte ≡ attributes_of self.now.bytes }
    {
        Attributes {
            byte: self.bytes[12],
        }
    }

    // Whether the entry is of a deleted file. In the volume's entry the bit means something else.
    pub fn is_deleted(&self) -> bool
        ensures { result ≡ bit 2 (attributes_of self.now.bytes) }
    {
        self.attributes().has(Attribute::Deleted)
    }

    // Whether it is the BLOCKS LEFT entry, with which a directory ends. In the volume's entry the bit means something else.
    pub fn is_blocks_left(&self) -> bool
        ensures { result ≡ bit 0 (attributes_of self.now.bytes) }
    {
        self.attributes().has(Attribute::BlocksLeft)
    }

    // The first of the blocks that are the file's.
    pub fn first_block(&self) -> u32
        ensures { result ≡ first_of self.now.bytes }
    {
        self.long(13)
    }

    // The blocks that are the file's, used or not.
    pub fn room(&self) -> u16
        ensures { result ≡ room_of self.now.bytes }
    {
        self.word(17)
    }

    // The blocks that hold the file's bytes.
    pub fn used(&self) -> u16
        ensures { result ≡ used_of self.now.bytes }
    {
        self.word(19)
    }

    // The bytes in the last of the used blocks.
    pub fn last(&self) -> u16
        ensures { result ≡ last_of self.now.bytes }
    {
        self.word(21)
    }

    // The file's length in bytes, if used and last are a pair that some length has.
    pub fn length(&self) -> Option<u32>
        ensures { result ≡ length_of (used_of self.now.bytes) (last_of self.now.bytes) }
    {
        length_of(self.used(), self.last())
    }

    pub fn stamp(&self) -> Option<Stamp>
        ensures { result ≡ stamp_of (date_of self.now.bytes) }
    {
        read_stamp(array_at(&self.bytes, 23))
    }

    // In the volume's entry: whether the bytes stand there by which a directory is known.
    pub fn has_check_bytes(&self) -> bool
        ensures { result ≡ bytes_eq (check_of self.now.bytes) check_bytes }
    {
        same_bytes(&self.bytes[13..17], &CHECK_BYTES)
    }

    // In the volume's entry: the blocks of the volume.
    pub fn size(&self) -> u32
        ensures { result ≡ size_of self.now.bytes }
    {
        self.long(17)
    }

    // In the volume's entry: the blocks of the directory.
    pub fn directory_blocks(&self) -> u8
        ensures { result ≡ directory_of self.now.bytes }
    {
        self.bytes[12] % 128
    }
}
