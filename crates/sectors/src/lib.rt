// Disks that are kept as sectors: the interleave, and a disk as a device.
#![tactic(auto)]

mod disk;
mod interleave;

pub use disk::{DISK, SectorDisk};
pub use interleave::{SECTORS, STEP, TRACKS, record_of};
