// The judgement whether the pack on a device follows the layout.
ghost use Rattle.std.specs.Prelude.{◌≡◌, ◌-◌, length};
ghost use Rattle.directory.specs.Entries.{WorkBlock};
ghost use Rattle.directory.specs.Judgements.{JudgementLaw, LayoutLaw, first_unread, judged, layout_fault, unless_fault, verdict};
ghost use Rattle.directory.specs.Seen.{Begun};

use crate::layout::{end_of, head_fault, volume_holds};
use crate::seen::Seen;
use blocks::BlockDevice;
use entry::{BLOCK, ENTRIES, Entry};
use refusal::Refusal;

// What is learnt of a pack that follows the layout.
#[derive(Clone, Copy, PartialEq, Eq, Debug)]
pub struct Pack {
    // the blocks of the pack
    pub blocks: u32,
    // the blocks of its directory
    pub directory: u8,
    // the number of its BLOCKS LEFT entry
    pub left: u32,
    // the blocks that no file has
    pub free: u16,
}

// What the volume's entry counts: the blocks of the pack and those of its directory.
#[derive(Clone, Copy)]
pub(crate) struct Counts {
    pub(crate) blocks: u32,
    pub(crate) directory: u8,
}

// The entries of a block, as a number of two bytes.
pub(crate) const PER_BLOCK: u16 = ENTRIES as u16;

// Judges the entries behind the volume's, which holds. Its block is in the work block.
fn judge_files<D: BlockDevice>(
    device: &D,
    counts: Counts,
    block: &mut [u8; BLOCK],
) -> Result<Pack, Refusal>
    requires { Begun (D.BlockDevice.meaning device.now) counts block.old }
    ensures { result ≡ unless_fault (first_unread (D.BlockDevice.meaning device.now) 2 (counts.directory - 1)) (verdict (D.BlockDevice.meaning device.now) (layout_fault (D.BlockDevice.meaning device.now))) }
{
    let head = head_fault(block, counts.directory);
    let mut seen = Seen {
        counts,
        end: end_of(&Entry::from_block(block, 2)),
        fault: None,
        left: None,
        room: 0,
    };
    seen.see_block(block, 3..PER_BLOCK);
    // a block that cannot be read ends the pass
    for place in 2..=u16::from(counts.directory) {
        device.read(u32::from(place), block)?;
        seen.see_block(block, PER_BLOCK * (place - 1)..PER_BLOCK * place);
    }
    seen.tell(head)
}

// Judges whether the pack on a device follows the layout. Each block of the directory is read once, in their order,
// into the work block, and none behind the first where the volume's entry is at fault.
pub fn judge<D: BlockDevice>(device: &D, work: &mut [u8]) -> Result<Pack, Refusal>
    ensures reply { result ≡ judged (D.BlockDevice.meaning device.now) (length work.old) }
    ensures law { JudgementLaw (D.BlockDevice.meaning device.now) (length work.old) result }
    ensures layout { LayoutLaw (D.BlockDevice.meaning device.now) }
    ensures work { WorkBlock work.old work.new }
{
    let block = work.as_mut_array::<BLOCK>().ok_or(Refusal::OutOfRange)?;
    if device.size() < 2 {
        return Err(Refusal::BrokenLayout { entry: 0 });
    }
    device.read(1, block)?;
    let volume = Entry::from_block(block, 0);
    if !volume_holds(&volume, device.size()) {
        return Err(Refusal::BrokenLayout { entry: 0 });
    }
    let counts = Counts {
        blocks: volume.size(),
        directory: volume.directory_blocks(),
    };
    judge_files(device, counts, block)
}
