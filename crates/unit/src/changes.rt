// Set date and take up: they change what the unit knows, and no byte of the device.
ghost use Rattle.std.specs.Prelude.{◌≡◌, length};
ghost use Rattle.directory.specs.Entries.{WorkBlock};
ghost use Rattle.model.specs.Represents.{Decided, Turns};
ghost use Rattle.model.specs.Requests.{set_date, take_up};
ghost use Rattle.unit.specs.Calls.{done, state_taken};
ghost use Rattle.directory.specs.Judgements.{judged};

use crate::units::PackUnit;
use blocks::{BLOCK, BlockDevice};
use directory::judge;
use entry::Date;
use model::OpenTable;
use refusal::Refusal;

impl<D: BlockDevice> PackUnit<D> {
    // Sets the unit's date. It outlives packs.
    pub fn set_date(&mut self, year: u32, month: u32, day: u32) -> Result<(), Refusal>
        ensures turn { Turns self.old.state (D.BlockDevice.meaning self.old.device) (set_date year month day) (done result) self.new.state (D.BlockDevice.meaning self.new.device) }
        ensures device { self.new.device ≡ self.old.device }
    {
        let date = Date::new(year, month, day)?;
        self.state.date = Some(date);
        Ok(())
    }

    // Takes up the pack on the device (mounts it): it is judged, and all numbers are free. Refused by 17 it changes
    // nothing; refused otherwise it leaves no pack up.
    pub fn take_up(&mut self, work: &mut [u8]) -> Result<(), Refusal>
        ensures decided { Decided self.old.state (D.BlockDevice.meaning self.old.device) (take_up (length work.old)) (done result) self.new.state (D.BlockDevice.meaning self.new.device) }
        ensures turn { Turns self.old.state (D.BlockDevice.meaning self.old.device) (take_up (length work.old)) (done result) self.new.state (D.BlockDevice.meaning self.new.device) }
        ensures state { self.new.state ≡ state_taken self.old.state (length work.old) (judged (D.BlockDevice.meaning self.old.device) 1024) }
        ensures device { self.new.device ≡ self.old.device }
        ensures work { WorkBlock work.old work.new }
    {
        let work = work.as_mut_array::<BLOCK>().ok_or(Refusal::OutOfRange)?;
        self.state.table = OpenTable::free();
        self.state.pack = None;
        let pack = judge(&self.device, work)?;
        self.state.pack = Some(pack);
        Ok(())
    }
}
