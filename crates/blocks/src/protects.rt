// The write-protect layer: a device whose tab is on.
ghost use Rattle.std.specs.Prelude.{◌≡◌};
ghost use Rattle.std.proofs.Common.{◌∙◌, sym, subst, lit≤};
ghost use Rattle.blocks.specs.Layers.{protected};
ghost use Rattle.blocks.specs.Layering.{marks-deeper, mark-deeper, shallow-deeper};
ghost use Rattle.blocks.specs.Devices.{ShallowMark, mark_at};

use crate::device::BlockDevice;
use crate::faults::{Fault, Tab};
use crate::ranges::check_range;

// A type beside `Window`, and not the two as one generic layer: they share the device below and the way back to it, and a
// trait that says which blocks and which tab a layer has would be longer than both.
#[derive(Drop)]
pub struct WriteProtect<D> {
    inner: D,
}

impl<D> WriteProtect<D> {
    pub fn new(inner: D) -> WriteProtect<D>
        ensures { result.inner ≡ inner }
    {
        WriteProtect { inner }
    }

    // The device below.
    pub fn inner(&self) -> &D
        ensures { result.now ≡ self.now.inner }
    {
        &self.inner
    }

    // Gives the device below back.
    pub fn into_inner(self) -> D
        ensures { result ≡ self.inner }
    {
        self.inner
    }
}

impl<D: BlockDevice> BlockDevice for WriteProtect<D> {
    ghost meaning = { λ x. protected (D.BlockDevice.meaning x.inner) };

    ghost sized = { λ x. D.BlockDevice.sized x.inner };

    ghost wide = { λ x. D.BlockDevice.wide x.inner };

    ghost bytes = { λ x. D.BlockDevice.bytes x.inner };

    ghost marked = { λ x. marks-deeper (D.BlockDevice.meaning x.inner).marks ∙ D.BlockDevice.marked x.inner };

    ghost shallow = { λ x b.
        let low = D.BlockDevice.meaning x.inner in (
          subst ShallowMark (sym (mark-deeper low.marks b)) (shallow-deeper (mark_at low b) (D.BlockDevice.shallow x.inner b).0),
          lit≤ tt,
        ) };

    fn size(&self) -> u32 {
        self.inner.size()
    }

    fn tab(&self) -> Tab {
        Tab::On { depth: 0 }
    }

    fn read(&self, block: u32, buffer: &mut [u8]) -> Result<(), Fault> {
        check_range(block, self.inner.size(), buffer.len())?;
        self.inner.read(block, buffer).map_err(Fault::deeper)
    }

    fn write(&mut self, block: u32, buffer: &[u8]) -> Result<(), Fault> {
        check_range(block, self.inner.size(), buffer.len())?;
        self.tab().check()
    }
}
