// The directory of a device, read block by block into memory.
ghost use Rattle.std.specs.Prelude.{◌≡◌, ◌+◌, ◌-◌, ◌<◌, ◌≤◌, length, OnOk};
ghost use Rattle.std.specs.List.{All, concat};
ghost use Rattle.listing.specs.Loads.{Extends, Loads, loaded, more, read_block, volume_holds};

use crate::directory::Directory;
use crate::failure::Failure;
use blocks::{BLOCK, BlockDevice};
use entry::Entry;
use refusal::Refusal;
use std::alloc::Global;

// The bytes of a block.
fn read_block<D: BlockDevice>(device: &D, block: u32) -> Result<[u8; BLOCK], Refusal>
    ensures { result ≡ read_block (D.BlockDevice.meaning device.now) block }
{
    let mut buffer = [0; BLOCK];
    device.read(block, &mut buffer)?;
    Ok(buffer)
}

// Whether the volume's entry can be the first of a directory on a device of so many blocks. Not the function of the crate
// `directory`, which also tests the size of the device, and on which this crate does not stand.
fn volume_holds(blocks: u32, volume: &Entry) -> bool
    ensures { result ≡ volume_holds blocks volume.now.bytes }
{
    let directory = u32::from(volume.directory_blocks());
    volume.has_check_bytes()
        && directory >= 1
        && directory < volume.size()
        && volume.size() <= blocks
}

// Adds the directory's blocks from the second on to the first.
fn load_more<D: BlockDevice>(
    device: &D,
    count: u32,
    blocks: &mut Vec<[u8; BLOCK]>,
) -> Result<(), Failure>
    requires some { 1 ≤ count }
    requires few { count < 128 }
    requires whole { All (λ block. length block ≡ 1024) blocks.old.items }
    ensures value { Extends result (concat blocks.new.items) (more (D.BlockDevice.meaning device.now) 2 (count - 1) (concat blocks.old.items)) }
    ensures whole { OnOk result (All (λ block. length block ≡ 1024) blocks.new.items) }
    ensures count { OnOk result (length blocks.new.items ≡ length blocks.old.items + (count - 1)) }
{
    // Not `2..=count`, which a loop leaves by two ways: the count and the value were then left unproved.
    for block in 2..count + 1 {
        blocks.push(read_block(device, block)?)?;
    }
    Ok(())
}

// Reads the directory of a device. The volume's entry is tested before the second directory block is read.
pub(crate) fn load<D: BlockDevice>(heap: Global, device: &D) -> Result<Directory, Failure>
    ensures { Loads result (loaded (D.BlockDevice.meaning device.now)) }
{
    if device.size() < 2 {
        return Err(Refusal::BrokenLayout { entry: 0 }.into());
    }
    let first = read_block(device, 1)?;
    let volume = Entry::from_block(&first, 0);
    if !volume_holds(device.size(), &volume) {
        return Err(Refusal::BrokenLayout { entry: 0 }.into());
    }
    let count = u32::from(volume.directory_blocks());
    // Room for its blocks, four at most, which a `Vec` left to itself begins with: a directory of one block needs no
    // more than that one, and a longer one grows as it is read, since a bad block may end it.
    let mut blocks = Vec::with_capacity(heap, count.min(4) as usize)?;
    blocks.push(first)?;
    load_more(device, count, &mut blocks)?;
    Ok(Directory { blocks })
}
