// Initialise: makes a fresh pack on the device, and takes it up.
ghost use Rattle.std.specs.Prelude.{◌≡◌, ◌-◌, ◌<◌, length, Some, None, Ok, MatchResult};
ghost use Rattle.blocks.specs.Devices.{size_of, write_fault, written};
ghost use Rattle.directory.specs.Entries.{WorkBlock};
ghost use Rattle.model.specs.Represents.{Decided, Turns};
ghost use Rattle.model.specs.Requests.{initialise as initialise_asked};
ghost use Rattle.model.specs.Steps.{bad_stage, shape_stage};
ghost use Rattle.unit.specs.Calls.{Admitted, Initialised, Writable, after, cleared, done, refusal_on};

use crate::fresh::Fresh;
use crate::shape::Shape;
use crate::units::PackUnit;
use blocks::{BLOCK, BlockDevice};
use model::OpenTable;
use names::VolumeName;
use refusal::Refusal;

// The directory has 1 to 127 blocks, and the pack at least one more than that and no more than the device.
fn check_shape(size: u32, directory: u32, blocks: u32) -> Result<(), Refusal>
    ensures { result ≡ after (shape_stage size directory blocks) (Ok tt) }
{
    if !(1..=127).contains(&directory) || !(directory + 1..=size).contains(&blocks) {
        return Err(Refusal::OutOfRange);
    }
    Ok(())
}

// Reads blocks 1 to d: none of them may be bad.
fn check_blocks<D: BlockDevice>(
    device: &D,
    directory: u32,
    work: &mut [u8; BLOCK],
) -> Result<(), Refusal>
    requires within { directory < size_of (D.BlockDevice.meaning device.now) }
    ensures { result ≡ after (bad_stage (D.BlockDevice.meaning device.now).marks directory) (Ok tt) }
{
    for block in 1..=directory {
        device.read(block, work)?;
    }
    Ok(())
}

// The pack to be made, or why it is refused.
fn admit<D: BlockDevice>(
    device: &D,
    name: &[u8],
    directory: u32,
    blocks: u32,
    work: &mut [u8; BLOCK],
) -> Result<Shape, Refusal>
    ensures { MatchResult result (λ shape. Admitted (D.BlockDevice.meaning device.now) 1024 name.now directory blocks shape) (λ refusal. refusal_on (D.BlockDevice.meaning device.now) 1024 name.now directory blocks ≡ Some refusal) }
{
    check_shape(device.size(), directory, blocks)?;
    let name = VolumeName::new(name)?;
    device.tab().check()?;
    check_blocks(device, directory, work)?;
    // casts and not `try_from`, which could not fail: the numbers were tested
    Ok(Shape {
        name,
        directory: directory as u8,
        blocks: blocks as u16,
    })
}

// Writes a block that can be written.
fn write_block<D: BlockDevice>(device: &mut D, block: u32, bytes: &[u8; BLOCK])
    requires { write_fault (D.BlockDevice.meaning device.old) block 1024 ≡ None }
    ensures { D.BlockDevice.meaning device.new ≡ written None (D.BlockDevice.meaning device.old) block bytes.now }
{
    device.write(block, bytes).unwrap()
}

// Makes blocks 2 to d zeros.
fn zero_blocks<D: BlockDevice>(device: &mut D, directory: u8, work: &mut [u8; BLOCK])
    requires { Writable (D.BlockDevice.meaning device.old) directory }
    ensures { D.BlockDevice.meaning device.new ≡ cleared (D.BlockDevice.meaning device.old) 2 (directory - 1) }
{
    work.fill(0);
    for block in 2..=u32::from(directory) {
        write_block(device, block, work);
    }
}

impl<D: BlockDevice> PackUnit<D> {
    // Makes a fresh pack on the device, whatever was there, and takes it up: blocks 1 to d are read, blocks 2 to d become
    // zeros, and block 1, which makes it a pack, is written last. A refusal changes nothing.
    pub fn initialise(
        &mut self,
        name: &[u8],
        directory: u32,
        blocks: u32,
        work: &mut [u8],
    ) -> Result<(), Refusal>
        ensures decided { Decided self.old.state (D.BlockDevice.meaning self.old.device) (initialise_asked (length work.old) name.now directory blocks) (done result) self.new.state (D.BlockDevice.meaning self.new.device) }
        ensures turn { Turns self.old.state (D.BlockDevice.meaning self.old.device) (initialise_asked (length work.old) name.now directory blocks) (done result) self.new.state (D.BlockDevice.meaning self.new.device) }
        ensures after { Initialised result self.old.state (D.BlockDevice.meaning self.old.device) name.now directory blocks self.new.state (D.BlockDevice.meaning self.new.device) }
        ensures work { WorkBlock work.old work.new }
    {
        let work = work.as_mut_array::<BLOCK>().ok_or(Refusal::OutOfRange)?;
        let shape = admit(&self.device, name, directory, blocks, work)?;
        zero_blocks(&mut self.device, shape.directory, work);
        let date = self.state.date;
        Fresh { shape, date }.fill_first(work);
        write_block(&mut self.device, 1, work);
        self.state.table = OpenTable::free();
        self.state.pack = Some(shape.pack());
        Ok(())
    }
}
