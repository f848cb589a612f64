// The sector disk: 320 records of 512 bytes and a status byte, as 160 blocks of two sectors each.
ghost use Rattle.std.specs.Prelude.{◌≡◌, ℕ, ◌+◌, ◌*◌, ◌<◌, ◌≤◌, true, false, length, None, Ok, Err, MatchResult, slice_index};
ghost use Rattle.blocks.specs.Devices.{block_at, mark_at, outcome, range_fault, size_of, write_fault, written};
ghost use Rattle.parts.specs.Parts.{stored};
ghost use Rattle.blocks.specs.Rejects.{out_of_range};
ghost use Rattle.sectors.specs.Disks.{block_count, disk_of, encoded_disk, is_disk as is_disk_of, is_good, record_count, sector_bytes, start_of, status_at, statuses};
ghost use Rattle.sectors.specs.Sectoring.{disk-sized, disk-wide, disk-small, disk-marked, disk-shallow};

use crate::interleave::interleaved;
use blocks::{BLOCK, BlockDevice, Fault, Mark, Rejected, Tab, check_range};

// The bytes of a sector.
const SECTOR: usize = BLOCK / 2;

// The bytes of a record: a sector and its status.
const RECORD: usize = SECTOR + 1;

// The blocks of a disk.
const BLOCKS: u32 = 160;

// The bytes of a disk.
pub const DISK: usize = 164_160;

// `protected` is a flag and not a `Tab`: a disk's own tab is never at a depth.
#[derive(Drop)]
pub struct SectorDisk {
    bytes: Vec<u8>,
    protected: bool,
    ghost whole: { is_disk_of bytes.items ≡ true },
    ghost small: { (i : ℕ) → slice_index bytes.items i < 256 },
}

// A sector that the disk has.
#[derive(Clone, Copy)]
struct Sector {
    number: u16,
    ghost on_disk: { number < record_count },
}

impl Sector {
    // Where its record begins.
    fn start(self) -> usize
        ensures value { result ≡ start_of self.number }
        ensures within { result + 513 ≤ 513 * record_count }
    {
        RECORD * usize::from(interleaved(self.number))
    }
}

// A block that the disk has.
#[derive(Clone, Copy)]
struct Place {
    block: u16,
    ghost on_disk: { block < block_count },
}

impl Place {
    fn sectors(self) -> (Sector, Sector)
        ensures first { result.0.number ≡ 2 * self.block }
        ensures second { result.1.number ≡ 2 * self.block + 1 }
    {
        let number = 2 * self.block;
        (Sector { number }, Sector { number: number + 1 })
    }
}

impl SectorDisk {
    ghost use Rattle.sectors.specs.Held.{device_of, statuses_of};

    // The records as a device, with its write-protect tab on or off; else they are handed back.
    pub fn new(bytes: Vec<u8>, protected: bool) -> Result<SectorDisk, Rejected<Vec<u8>>>
        ensures { MatchResult result (λ disk. (is_disk_of bytes.items ≡ true) × (device_of disk ≡ disk_of bytes.items protected) × (statuses_of disk ≡ statuses bytes.items)) (λ e. (is_disk_of bytes.items ≡ false) × (e ≡ out_of_range bytes)) }
    {
        if bytes.len() != DISK {
            return Err(Rejected::out_of_range(bytes));
        }
        Ok(SectorDisk { bytes, protected })
    }

    // The records as they are now.
    pub fn bytes(&self) -> &[u8]
        ensures { result.now ≡ encoded_disk (device_of self.now) (statuses_of self.now) }
    {
        self.bytes.as_slice()
    }

    // Takes the records out again.
    pub fn into_bytes(self) -> Vec<u8>
        ensures { result.items ≡ encoded_disk (device_of self) (statuses_of self) }
    {
        self.bytes
    }

    // A block that is asked for with a buffer of such a length.
    fn find(&self, block: u32, len: usize) -> Result<Place, Fault>
        ensures { MatchResult result (λ place. (Ok tt ≡ outcome (range_fault block (size_of (device_of self.now)) len)) × (place.block ≡ block)) (λ fault. Err fault ≡ outcome (range_fault block (size_of (device_of self.now)) len)) }
    {
        check_range(block, self.size(), len)?;
        // a cast and not `try_from`, which could not fail: the block is on the disk
        Ok(Place {
            block: block as u16,
        })
    }

    // The bytes of a sector.
    fn sector(&self, sector: Sector) -> &[u8]
        ensures bytes { result.now ≡ sector_bytes self.now.bytes.items sector.number }
        ensures length { length result.now ≡ 512 }
    {
        let start = sector.start();
        &self.bytes[start..start + SECTOR]
    }

    // The status of a sector, 0 if it is good.
    fn status(&self, sector: Sector) -> u8
        ensures { result ≡ status_at self.now.bytes.items sector.number }
    {
        self.bytes[sector.start() + SECTOR]
    }

    // Whether the two sectors of a block are good.
    fn is_good(&self, place: Place) -> bool
        ensures { result ≡ is_good self.now.bytes.items place.block }
    {
        let (first, second) = place.sectors();
        self.status(first) == 0 && self.status(second) == 0
    }

    fn mark(&self, place: Place) -> Mark
        ensures { result ≡ mark_at (device_of self.now) place.block }
    {
        if self.is_good(place) {
            Mark::Sound
        } else {
            Mark::Bad {
                depth: 0,
                place: place.block,
            }
        }
    }

    // Copies the two sectors of a block into a buffer.
    fn read_block(&self, place: Place, buffer: &mut [u8])
        requires { length buffer.old ≡ 1024 }
        ensures { buffer.new ≡ block_at (device_of self.now) place.block }
    {
        let (first, second) = place.sectors();
        buffer[..SECTOR].copy_from_slice(self.sector(first));
        buffer[SECTOR..].copy_from_slice(self.sector(second));
    }

    // Puts the bytes of a sector into its record.
    fn write_sector(&mut self, sector: Sector, bytes: &[u8])
        requires { length bytes.now ≡ 512 }
        ensures bytes { self.new.bytes.items ≡ stored self.old.bytes.items (start_of sector.number) bytes.now }
        ensures tab { self.new.protected ≡ self.old.protected }
    {
        let start = sector.start();
        self.bytes[start..start + SECTOR].copy_from_slice(bytes);
    }

    // Puts the two halves of a buffer into the sectors of a block.
    fn write_block(&mut self, place: Place, buffer: &[u8])
        requires { length buffer.now ≡ 1024 }
        ensures after { device_of self.new ≡ written None (device_of self.old) place.block buffer.now }
        ensures statuses { statuses_of self.new ≡ statuses_of self.old }
    {
        let (first, second) = place.sectors();
        self.write_sector(first, &buffer[..SECTOR]);
        self.write_sector(second, &buffer[SECTOR..]);
    }
}

impl BlockDevice for SectorDisk {
    ghost use Rattle.sectors.specs.Held.{device_of, statuses_of};

    ghost meaning = { device_of };

    ghost sized = { λ x. disk-sized x.bytes.items x.protected };

    ghost wide = { λ x. disk-wide x.bytes.items x.protected x.whole };

    ghost bytes = { λ x. disk-small x.bytes.items x.protected x.small };

    ghost marked = { λ x. disk-marked x.bytes.items x.protected };

    ghost shallow = { λ x. disk-shallow x.bytes.items x.protected };

    fn size(&self) -> u32 {
        BLOCKS
    }

    fn tab(&self) -> Tab {
        Tab::own(self.protected)
    }

    fn read(&self, block: u32, buffer: &mut [u8]) -> Result<(), Fault> {
        let place = self.find(block, buffer.len())?;
        self.mark(place).check()?;
        self.read_block(place, buffer);
        Ok(())
    }

    // Beside what every device promises: no status byte changes.
    fn write(&mut self, block: u32, buffer: &[u8]) -> Result<(), Fault>
        ensures reply { result ≡ outcome (write_fault (device_of self.old) block (length buffer.now)) }
        ensures after { device_of self.new ≡ written (write_fault (device_of self.old) block (length buffer.now)) (device_of self.old) block buffer.now }
        ensures statuses { statuses_of self.new ≡ statuses_of self.old }
    {
        let place = self.find(block, buffer.len())?;
        self.tab().check()?;
        self.mark(place).check()?;
        self.write_block(place, buffer);
        Ok(())
    }
}
