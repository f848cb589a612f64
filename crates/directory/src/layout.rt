// What the layout asks of an entry.
ghost use Rattle.std.specs.Prelude.{◌≡◌};
ghost use Rattle.directory.specs.Judgements.{file_holds, has_etx, is_placed, later_holds, volume_holds};
ghost use Rattle.directory.specs.Layouts.{end_of};
ghost use Rattle.directory.specs.Seen.{head_fault};

use entry::{BLOCK, Entry};
use names::ETX;

// Whether the volume's entry is one of a device of so many blocks.
pub(crate) fn volume_holds(volume: &Entry, size: u32) -> bool
    ensures { result ≡ volume_holds size volume.now.bytes }
{
    let directory = u32::from(volume.directory_blocks());
    size >= 2
        && volume.has_check_bytes()
        && directory >= 1
        && directory < volume.size()
        && volume.size() <= size
}

// Whether an entry begins at that block and has that room.
fn is_placed(entry: &Entry, first: u32, room: u16) -> bool
    ensures { result ≡ is_placed first room entry.now.bytes }
{
    entry.first_block() == first && entry.room() == room
}

fn has_etx(field: &[u8]) -> bool
    ensures { result ≡ has_etx field.now }
{
    field.contains(&ETX)
}

// Whether a file has an ETX in its name and, if it is live, a length within its room.
fn file_holds(entry: &Entry) -> bool
    ensures { result ≡ file_holds entry.now.bytes }
{
    has_etx(entry.name_field())
        && (entry.is_deleted() || entry.used() <= entry.room() && entry.length().is_some())
}

// The block behind an entry's room.
pub(crate) fn end_of(entry: &Entry) -> u64
    ensures { result ≡ end_of entry.now.bytes }
{
    u64::from(entry.first_block()) + u64::from(entry.room())
}

// Whether an entry from 3 on holds, where the one before it ends at block `end`.
pub(crate) fn later_holds(entry: &Entry, blocks: u32, end: u64) -> bool
    ensures { result ≡ later_holds blocks end entry.now.bytes }
{
    if u64::from(entry.first_block()) != end {
        return false;
    }
    if entry.is_blocks_left() {
        end_of(entry) == u64::from(blocks)
    } else {
        file_holds(entry)
    }
}

// The first of the entries 1 and 2 that does not hold.
pub(crate) fn head_fault(block: &[u8; BLOCK], directory: u8) -> Option<u16>
    ensures { result ≡ head_fault block.now directory }
{
    // two tests and not a search: each entry has a first block and a room of its own
    if !is_placed(&Entry::from_block(block, 1), 0, 1) {
        return Some(1);
    }
    if !is_placed(&Entry::from_block(block, 2), 1, u16::from(directory)) {
        return Some(2);
    }
    None
}
