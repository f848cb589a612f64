// What every device and layer tests before all else: that a block and a buffer are in range.
ghost use Rattle.std.specs.Prelude.{◌≡◌};
ghost use Rattle.blocks.specs.Devices.{outcome, range_fault};

use crate::faults::Fault;
use parts::BLOCK;

// Refuses a block that is not below the size, and a buffer that is not a block long.
pub fn check_range(block: u32, size: u32, len: usize) -> Result<(), Fault>
    ensures { result ≡ outcome (range_fault block size len) }
{
    if block < size && len == BLOCK {
        Ok(())
    } else {
        Err(Fault::OutOfRange { place: block })
    }
}
