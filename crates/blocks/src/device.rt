// The interface of a block device. Everything above is written once, for every device.
ghost use Rattle.std.specs.Prelude.{◌≡◌, ℕ, ◌<◌, ◌≤◌, length, slice_index};
ghost use Rattle.blocks.specs.Devices.{Device, ShallowMark, ShallowTab, block_at, mark_at, outcome, read_fault, read_out, size_of, write_fault, written};

use crate::faults::{Fault, Tab};

// A device is what its meaning says: so many blocks of 1,024 bytes, a mark for each, and a tab. No call changes its
// size, its marks or its tab, and a refusal changes nothing at all.
pub trait BlockDevice {
    ghost meaning: { Self → Device };

    // How many blocks the device has.
    fn size(&self) -> u32
        ensures { result ≡ size_of (meaning self.now) };

    // Whether the write-protect tab is on.
    fn tab(&self) -> Tab
        ensures { result ≡ (meaning self.now).tab };

    // Copies a block into the buffer.
    fn read(&self, block: u32, buffer: &mut [u8]) -> Result<(), Fault>
        ensures reply { result ≡ outcome (read_fault (meaning self.now) block (length buffer.old)) }
        ensures filled { buffer.new ≡ read_out (read_fault (meaning self.now) block (length buffer.old)) (block_at (meaning self.now) block) buffer.old };

    // Makes the buffer's bytes those of a block.
    fn write(&mut self, block: u32, buffer: &[u8]) -> Result<(), Fault>
        ensures reply { result ≡ outcome (write_fault (meaning self.old) block (length buffer.now)) }
        ensures after { meaning self.new ≡ written (write_fault (meaning self.old) block (length buffer.now)) (meaning self.old) block buffer.now };

    ghost sized: { (x : Self) → (1 ≤ size_of (meaning x)) × (size_of (meaning x) ≤ 65535) };

    ghost wide: { (x : Self) (b : ℕ) → b < size_of (meaning x) → length (block_at (meaning x) b) ≡ 1024 };

    ghost bytes: { (x : Self) (b i : ℕ) → slice_index (block_at (meaning x) b) i < 256 };

    ghost marked: { (x : Self) → length (meaning x).marks ≡ size_of (meaning x) };

    ghost shallow: { (x : Self) (b : ℕ) → ShallowMark (mark_at (meaning x) b) × ShallowTab (meaning x).tab };
}
