// A device that keeps a record of the blocks that are read.
ghost use Rattle.std.specs.Prelude.{◌≡◌};

use blocks::{BlockDevice, Fault, Tab};
use std::alloc::Global;
use std::cell::RefCell;

// What is told the number of each block that is read. It is a trait so that the device below is proved for any log: no
// proof is made of a device's laws where its type is known to hold a cell.
pub trait Log {
    fn note(&self, block: u32);
}

// The blocks that were read, in their order.
#[derive(Drop)]
pub struct Reads {
    blocks: RefCell<Vec<u32>>,
}

impl Log for Reads {
    fn note(&self, block: u32) {
        if let Ok(mut blocks) = self.blocks.try_borrow_mut() {
            // a block that there is no memory to note is missing from the record, and the test that asks for it fails
            let _ = blocks.push(block);
        }
    }
}

// A device, and the log of what is read of it.
#[derive(Drop)]
pub struct Recorder<D, L> {
    inner: D,
    log: L,
}

// The device with an empty log.
pub fn recording<D>(heap: Global, inner: D) -> Recorder<D, Reads>
    ensures { result.inner ≡ inner }
{
    let log = Reads {
        blocks: RefCell::new(Vec::new(heap)),
    };
    Recorder { inner, log }
}

impl<D> Recorder<D, Reads> {
    // Whether these blocks were read, in this order, and no other.
    pub fn has_read(&self, blocks: &[u32]) -> bool {
        let reads = self.log.blocks.try_borrow();
        reads.is_ok_and(|reads| reads.as_slice() == blocks)
    }
}

// The device itself; what it refuses is noted too.
impl<D: BlockDevice, L: Log> BlockDevice for Recorder<D, L> {
    ghost meaning = { λ x. D.BlockDevice.meaning x.inner };

    ghost sized = { λ x. D.BlockDevice.sized x.inner };

    ghost wide = { λ x. D.BlockDevice.wide x.inner };

    ghost bytes = { λ x. D.BlockDevice.bytes x.inner };

    ghost marked = { λ x. D.BlockDevice.marked x.inner };

    ghost shallow = { λ x b. D.BlockDevice.shallow x.inner b };

    fn size(&self) -> u32 {
        self.inner.size()
    }

    fn tab(&self) -> Tab {
        self.inner.tab()
    }

    fn read(&self, block: u32, buffer: &mut [u8]) -> Result<(), Fault> {
        self.log.note(block);
        self.inner.read(block, buffer)
    }

    fn write(&mut self, block: u32, buffer: &[u8]) -> Result<(), Fault> {
        self.inner.write(block, buffer)
    }
}
