// The window: some blocks of a device, as a device.
ghost use Rattle.std.specs.Prelude.{◌≡◌, ◌+◌, ◌-◌, ◌≤◌, min, true, false, ◌&&◌, Err, MatchResult, nat_le};
ghost use Rattle.blocks.specs.Devices.{in_range, outcome, range_fault, size_of};
ghost use Rattle.blocks.specs.Layers.{cut_out, windowed};
ghost use Rattle.blocks.specs.Rejects.{out_of_range};
ghost use Rattle.blocks.specs.Through.{window-sized, window-wide, window_bytes, window-marked, window-shallow};

use crate::device::BlockDevice;
use crate::faults::{Fault, Tab};
use crate::ranges::check_range;
use crate::rejected::Rejected;

// `count` blocks from block `first` on of the device below.
#[derive(Drop)]
pub struct Window<D> {
    inner: D,
    first: u32,
    count: u32,
    ghost some: { 1 ≤ count },
}

impl<D> Window<D> {
    // The device below.
    pub fn inner(&self) -> &D
        ensures { result.now ≡ self.now.inner }
    {
        &self.inner
    }

    // Gives the device below back.
    pub fn into_inner(self) -> D
        ensures { result ≡ self.inner }
    {
        self.inner
    }
}

impl<D: BlockDevice> Window<D> {
    // A window with a block, that ends at or before the end of the device below; else that device is handed back.
    pub fn new(inner: D, first: u32, count: u32) -> Result<Window<D>, Rejected<D>>
        ensures { MatchResult result (λ w. (nat_le 1 count && nat_le (first + count) (size_of (D.BlockDevice.meaning inner)) ≡ true) × (w.inner ≡ inner) × (windowed w.first w.count (D.BlockDevice.meaning inner) ≡ cut_out first count (D.BlockDevice.meaning inner))) (λ e. (nat_le 1 count && nat_le (first + count) (size_of (D.BlockDevice.meaning inner)) ≡ false) × (e ≡ out_of_range inner)) }
    {
        if !fits(inner.size(), first, count) {
            return Err(Rejected::out_of_range(inner));
        }
        Ok(Window {
            inner,
            first,
            count,
        })
    }

    // The block below at which the window begins, and its size.
    fn span(&self) -> (u32, u32)
        ensures first { result.0 ≡ min self.now.first (size_of (D.BlockDevice.meaning self.now.inner) - 1) }
        ensures size { result.1 ≡ size_of (windowed self.now.first self.now.count (D.BlockDevice.meaning self.now.inner)) }
        ensures within { result.0 + result.1 ≤ size_of (D.BlockDevice.meaning self.now.inner) }
    {
        let below = self.inner.size();
        let first = self.first.min(below - 1);
        (first, self.count.min(below - first))
    }

    // The block below that a block is, which is asked for with a buffer of such a length.
    fn find(&self, block: u32, len: usize) -> Result<u32, Fault>
        ensures { MatchResult result (λ below. (in_range (windowed self.now.first self.now.count (D.BlockDevice.meaning self.now.inner)) block len ≡ true) × (below ≡ min self.now.first (size_of (D.BlockDevice.meaning self.now.inner) - 1) + block)) (λ fault. Err fault ≡ outcome (range_fault block (size_of (windowed self.now.first self.now.count (D.BlockDevice.meaning self.now.inner))) len)) }
    {
        let (first, size) = self.span();
        check_range(block, size, len)?;
        Ok(first + block)
    }
}

impl<D: BlockDevice> BlockDevice for Window<D> {
    ghost meaning = { λ x. windowed x.first x.count (D.BlockDevice.meaning x.inner) };

    ghost sized = { λ x.
        let size = D.BlockDevice.sized x.inner in
        window-sized (D.BlockDevice.meaning x.inner) x.first x.count x.some size.0 size.1 };

    ghost wide = { λ x.
        window-wide (D.BlockDevice.meaning x.inner) x.first x.count x.some (D.BlockDevice.sized x.inner).0
        (D.BlockDevice.wide x.inner) };

    ghost bytes = { λ x.
        let low = D.BlockDevice.meaning x.inner in
        window_bytes low (min x.first (size_of low - 1)) x.count (D.BlockDevice.bytes x.inner) };

    ghost marked = { λ x.
        window-marked (D.BlockDevice.meaning x.inner) x.first x.count x.some (D.BlockDevice.sized x.inner).0
        (D.BlockDevice.marked x.inner) };

    ghost shallow = { λ x.
        let low = D.BlockDevice.meaning x.inner in
        window-shallow low (min x.first (size_of low - 1)) x.count (D.BlockDevice.shallow x.inner) };

    fn size(&self) -> u32 {
        let (_, size) = self.span();
        size
    }

    fn tab(&self) -> Tab {
        self.inner.tab().deeper()
    }

    fn read(&self, block: u32, buffer: &mut [u8]) -> Result<(), Fault> {
        let below = self.find(block, buffer.len())?;
        self.inner.read(below, buffer).map_err(Fault::deeper)
    }

    fn write(&mut self, block: u32, buffer: &[u8]) -> Result<(), Fault> {
        let below = self.find(block, buffer.len())?;
        self.inner.write(below, buffer).map_err(Fault::deeper)
    }
}

// Whether so many blocks from `first` on lie within a device of a size, also where their sum is too large to add.
fn fits(size: u32, first: u32, count: u32) -> bool
    ensures { result ≡ nat_le 1 count && nat_le (first + count) size }
{
    first
        .checked_add(count)
        .is_some_and(|end| count >= 1 && end <= size)
}
