// The pass of the judgement through the entries from 3 on.
ghost use Rattle.std.specs.Prelude.{◌≡◌, ◌-◌};
ghost use Rattle.directory.specs.Seen.{seen_after, seen_from, told};

use crate::judgement::{Counts, PER_BLOCK, Pack};
use crate::layout::{end_of, later_holds};
use entry::{BLOCK, Entry};
use refusal::Refusal;
use std::ops::Range;

// What has been seen of the entries from 3 on. An entry is told by a number of two bytes, as a refusal has it.
#[derive(Clone, Copy)]
pub(crate) struct Seen {
    // what the volume's entry counts
    pub(crate) counts: Counts,
    // the block behind the room of the latest one
    pub(crate) end: u64,
    // the first that does not hold
    pub(crate) fault: Option<u16>,
    // the BLOCKS LEFT entry; nothing behind it is looked at
    pub(crate) left: Option<u16>,
    // the room of the latest one
    pub(crate) room: u16,
}

impl Seen {
    // One entry more is seen.
    fn see(&mut self, number: u16, entry: &Entry)
        ensures { self.new ≡ seen_after self.old number entry.now.bytes }
    {
        if self.left.is_some() {
            return;
        }
        let holds = later_holds(entry, self.counts.blocks, self.end);
        self.fault = self.fault.or((!holds).then_some(number));
        self.left = entry.is_blocks_left().then_some(number);
        self.end = end_of(entry);
        self.room = entry.room();
    }

    // The entries of these numbers are seen, in the block that holds them.
    pub(crate) fn see_block(&mut self, block: &[u8; BLOCK], numbers: Range<u16>)
        ensures { self.new ≡ seen_from block.now self.old numbers.start (numbers.end - numbers.start) }
    {
        for number in numbers {
            self.see(number, &Entry::from_block(block, u32::from(number)));
        }
    }

    // What is answered when all of the directory has been seen, where `head` is the first fault of the entries before.
    pub(crate) fn tell(self, head: Option<u16>) -> Result<Pack, Refusal>
        ensures { result ≡ told head self }
    {
        let behind = PER_BLOCK * u16::from(self.counts.directory);
        let left = self.left.ok_or(Refusal::BrokenLayout {
            entry: head.unwrap_or(behind),
        })?;
        match head.or(self.fault) {
            Some(entry) => Err(Refusal::BrokenLayout { entry }),
            None => Ok(Pack {
                blocks: self.counts.blocks,
                directory: self.counts.directory,
                left: u32::from(left),
                free: self.room,
            }),
        }
    }
}
