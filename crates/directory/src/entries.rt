// Reading and writing one entry through the caller's work block.
ghost use Rattle.std.specs.Prelude.{◌≡◌, ◌+◌, ◌/◌, length};
ghost use Rattle.directory.specs.Entries.{EntryLaws, WorkBlock, entry_fault, entry_read, entry_written, heard_as};
ghost use Rattle.blocks.specs.Devices.{outcome};

use blocks::BlockDevice;
use entry::{BLOCK, ENTRIES, Entry};
use refusal::Refusal;

// The block that holds an entry.
fn holder_of(number: u32) -> u32
    ensures { result ≡ 1 + number / 39 }
{
    1 + number / ENTRIES
}

// Reads an entry. The work block is where its block is read to; that its length stays is stated, so that a caller reads
// here that nothing else of it is decided.
pub fn read_entry<D: BlockDevice>(
    device: &D,
    number: u32,
    work: &mut [u8],
) -> Result<Entry, Refusal>
    ensures reply { result ≡ entry_read (D.BlockDevice.meaning device.now) number (length work.old) }
    ensures work { WorkBlock work.old work.new }
{
    let block = work.as_mut_array::<BLOCK>().ok_or(Refusal::OutOfRange)?;
    device.read(holder_of(number), block)?;
    Ok(Entry::from_block(block, number))
}

// Writes an entry: reads its block into the work block, changes it there, and writes it back.
pub fn write_entry<D: BlockDevice>(
    device: &mut D,
    number: u32,
    entry: &Entry,
    work: &mut [u8],
) -> Result<(), Refusal>
    ensures reply { result ≡ heard_as (outcome (entry_fault (D.BlockDevice.meaning device.old) number (length work.old))) }
    ensures device { D.BlockDevice.meaning device.new ≡ entry_written (D.BlockDevice.meaning device.old) number (length work.old) entry.now.bytes }
    ensures work { WorkBlock work.old work.new }
    ensures laws { EntryLaws }
{
    let block = work.as_mut_array::<BLOCK>().ok_or(Refusal::OutOfRange)?;
    device.read(holder_of(number), block)?;
    entry.put_in(block, number);
    device.write(holder_of(number), block)?;
    Ok(())
}
