// What an entry is, by its number and its attributes.
ghost use Rattle.std.specs.Prelude.{◌≡◌};
ghost use Rattle.entry.specs.Fields.{entry_in, name_of};
ghost use Rattle.entry.specs.Kinds.{kind_of, listed};
ghost use Rattle.names.specs.Names.{characters as characters_of};
ghost use Rattle.std.specs.Option.{option_map};

use crate::fields::{Entry, place_of};
use names::{FIELD, characters};
use parts::BLOCK;

// A kind of entry, with its name lent from the directory block that is being read.
#[derive(Clone, Copy, PartialEq, Eq, Debug)]
pub enum Kind<'a> {
    Volume(&'a [u8]),
    Live(&'a [u8]),
    Deleted(&'a [u8]),
    BlocksLeft(&'a [u8]),
}

// The name of the entry of that number, lent from its block.
fn name_in(block: &[u8; BLOCK], number: u32) -> &[u8]
    ensures { result.now ≡ characters_of (name_of (entry_in block.now number)) }
{
    let at = place_of(number);
    characters(&block[at..at + FIELD])
}

// The kind of the entry of that number in the directory block that holds it. The entries 1 and 2, of the boot block
// and of the directory, have none: to their bits they would look like live files.
pub fn kind_of(block: &[u8; BLOCK], number: u32) -> Option<Kind<'_>>
    ensures { option_map listed result ≡ kind_of block.now number }
{
    let name = name_in(block, number);
    let entry = Entry::from_block(block, number);
    match number {
        0 => Some(Kind::Volume(name)),
        1 | 2 => None,
        _ if entry.is_blocks_left() => Some(Kind::BlocksLeft(name)),
        _ if entry.is_deleted() => Some(Kind::Deleted(name)),
        _ => Some(Kind::Live(name)),
    }
}
