// The image: bytes handed in, block b at byte 1,024 × b, all blocks sound.
ghost use Rattle.std.specs.Prelude.{◌≡◌, ℕ, ◌+◌, ◌*◌, ◌<◌, ◌≤◌, true, false, length, Err, MatchResult, slice_index};
ghost use Rattle.blocks.specs.Images.{encoded, image_of, is_image as is_image_of};
ghost use Rattle.blocks.specs.Rejects.{out_of_range};
ghost use Rattle.blocks.specs.Imaging.{image-sized, image-wide, image-small, image-marked, image-shallow};

use crate::device::BlockDevice;
use crate::faults::{Fault, Tab};
use crate::ranges::check_range;
use crate::rejected::Rejected;
use parts::BLOCK;

// A type beside the sector disk, and not one device over two layouts: a trait for a layout, its marks and what a write
// leaves would be as long as both. `protected` is a flag and not a `Tab`: an image's own tab is never at a depth.
#[derive(Drop)]
pub struct Image {
    bytes: Vec<u8>,
    protected: bool,
    ghost whole: { is_image_of bytes.items ≡ true },
    ghost small: { (i : ℕ) → slice_index bytes.items i < 256 },
}

// Whether bytes are whole blocks, 1 to 65,535 of them.
fn is_image(bytes: &[u8]) -> bool
    ensures { result ≡ is_image_of bytes.now }
{
    bytes.len() % BLOCK == 0 && (1..=65_535).contains(&(bytes.len() / BLOCK))
}

impl Image {
    ghost use Rattle.blocks.specs.Devices.{in_range, outcome, range_fault, size_of};
    ghost use Rattle.blocks.specs.Held.{device_of};

    // The bytes as a device, with its write-protect tab on or off; else they are handed back.
    pub fn new(bytes: Vec<u8>, protected: bool) -> Result<Image, Rejected<Vec<u8>>>
        ensures { MatchResult result (λ image. (is_image_of bytes.items ≡ true) × (device_of image ≡ image_of bytes.items protected)) (λ e. (is_image_of bytes.items ≡ false) × (e ≡ out_of_range bytes)) }
    {
        if !is_image(bytes.as_slice()) {
            return Err(Rejected::out_of_range(bytes));
        }
        Ok(Image { bytes, protected })
    }

    // The bytes as they are now.
    pub fn bytes(&self) -> &[u8]
        ensures { result.now ≡ encoded (device_of self.now) }
    {
        self.bytes.as_slice()
    }

    // Takes the bytes out again.
    pub fn into_bytes(self) -> Vec<u8>
        ensures { result.items ≡ encoded (device_of self) }
    {
        self.bytes
    }

    // Where a block begins that is asked for with a buffer of such a length.
    fn find(&self, block: u32, len: usize) -> Result<usize, Fault>
        ensures { MatchResult result (λ at. (in_range (device_of self.now) block len ≡ true) × (at ≡ 1024 * block) × (at + 1024 ≤ length self.now.bytes.items)) (λ fault. Err fault ≡ outcome (range_fault block (size_of (device_of self.now)) len)) }
    {
        check_range(block, self.size(), len)?;
        Ok(BLOCK * block as usize)
    }
}

impl BlockDevice for Image {
    ghost meaning = { λ x. image_of x.bytes.items x.protected };

    ghost sized = { λ x. image-sized x.bytes.items x.protected x.whole };

    ghost wide = { λ x. image-wide x.bytes.items x.protected x.whole };

    ghost bytes = { λ x. image-small x.bytes.items x.protected x.whole x.small };

    ghost marked = { λ x. image-marked x.bytes.items x.protected };

    ghost shallow = { λ x. image-shallow x.bytes.items x.protected };

    fn size(&self) -> u32 {
        // a cast and not `try_from`, which could not fail: an image has at most 65,535 blocks
        (self.bytes.len() / BLOCK) as u32
    }

    fn tab(&self) -> Tab {
        Tab::own(self.protected)
    }

    fn read(&self, block: u32, buffer: &mut [u8]) -> Result<(), Fault> {
        let at = self.find(block, buffer.len())?;
        buffer.copy_from_slice(&self.bytes[at..at + BLOCK]);
        Ok(())
    }

    fn write(&mut self, block: u32, buffer: &[u8]) -> Result<(), Fault> {
        let at = self.find(block, buffer.len())?;
        self.tab().check()?;
        self.bytes[at..at + BLOCK].copy_from_slice(buffer);
        Ok(())
    }
}
