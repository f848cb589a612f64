// Find and show: they change neither the unit nor the device.
ghost use Rattle.std.specs.Prelude.{◌≡◌, length, Err, if◌then◌else◌};
ghost use Rattle.refusal.specs.declared.Refusal.TheVariants.{BadName, NoPack};
ghost use Rattle.std.specs.Option.{ok_or};
ghost use Rattle.entry.specs.Fields.{name_of};
ghost use Rattle.directory.specs.Entries.{WorkBlock};
ghost use Rattle.directory.specs.Lookups.{lookup_reply};
ghost use Rattle.model.specs.Represents.{Turns};
ghost use Rattle.model.specs.Requests.{find as find_asked, show as show_asked};
ghost use Rattle.unit.specs.Calls.{named, number, numbered, some_file, with_pack};

use crate::units::PackUnit;
use blocks::BlockDevice;
use directory::{Found, Pack, lookup, read_entry};
use entry::{BLOCK, ENTRY};
use model::NameKind;
use names::{FileRule, Name, StemRule, WholeRule};
use refusal::Refusal;

// The first live file that a name of that rule fits.
fn found_by<R: FileRule, D: BlockDevice>(
    device: &D,
    pack: Pack,
    name: &[u8],
    work: &mut [u8],
) -> Result<Option<Found>, Refusal>
    ensures reply { result ≡ (if R.Rule.rule name.now then lookup_reply (λ bytes. R.FileRule.fitting name.now (name_of bytes)) (D.BlockDevice.meaning device.now) pack.directory (length work.old) else Err BadName) }
    ensures work { WorkBlock work.old work.new }
{
    let key = Name::<R>::new(name)?;
    lookup(device, pack.directory, &key, work)
}

// The first live file that a name of that kind fits.
fn find_named<D: BlockDevice>(
    device: &D,
    pack: Pack,
    kind: NameKind,
    name: &[u8],
    work: &mut [u8],
) -> Result<Option<Found>, Refusal>
    ensures reply { result ≡ named (D.BlockDevice.meaning device.now) kind name.now (length work.old) pack }
    ensures work { WorkBlock work.old work.new }
{
    match kind {
        NameKind::Whole => found_by::<WholeRule, D>(device, pack, name, work),
        NameKind::Stem => found_by::<StemRule, D>(device, pack, name, work),
    }
}

// Puts a file's entry into the front of a buffer, and gives its number.
fn put_front(front: &mut [u8; ENTRY], file: &Found) -> u32
    ensures number { result ≡ file.now.number }
    ensures front { front.new ≡ file.now.entry.bytes }
{
    front.copy_from_slice(&file.entry.bytes);
    file.number
}

impl<D: BlockDevice> PackUnit<D> {
    // The file that find is about, or why there is none.
    fn find_file(
        &self,
        kind: NameKind,
        name: &[u8],
        work: &mut [u8; BLOCK],
    ) -> Result<Found, Refusal>
        ensures { result ≡ with_pack (ok_or self.now.state.pack NoPack) (λ pack. some_file (named (D.BlockDevice.meaning self.now.device) kind name.now 1024 pack)) }
    {
        let pack = self.state.pack.ok_or(Refusal::NoPack)?;
        find_named(&self.device, pack, kind, name, work)?.ok_or(Refusal::NoSuchFile)
    }

    // The file that show is about, or why there is none.
    fn show_file(&self, entry: u32, work: &mut [u8; BLOCK]) -> Result<Found, Refusal>
        ensures { result ≡ with_pack (ok_or self.now.state.pack NoPack) (numbered (D.BlockDevice.meaning self.now.device) entry 1024) }
    {
        let pack = self.state.pack.ok_or(Refusal::NoPack)?;
        if entry < 3 || entry >= pack.left {
            return Err(Refusal::NoSuchFile);
        }
        Ok(Found {
            number: entry,
            entry: read_entry(&self.device, entry, work)?,
        })
    }

    // Finds a live file by its whole name or by its stem: its entry is put into the front of the buffer, and the number
    // of the entry is replied.
    pub fn find(
        &self,
        kind: NameKind,
        name: &[u8],
        buffer: &mut [u8],
        work: &mut [u8],
    ) -> Result<u32, Refusal>
        ensures turn { Turns self.now.state (D.BlockDevice.meaning self.now.device) (find_asked (length work.old) kind name.now buffer.old) (number result buffer.new) self.now.state (D.BlockDevice.meaning self.now.device) }
        ensures work { WorkBlock work.old work.new }
    {
        let work = work.as_mut_array::<BLOCK>().ok_or(Refusal::OutOfRange)?;
        let front = buffer
            .first_chunk_mut::<ENTRY>()
            .ok_or(Refusal::OutOfRange)?;
        let file = self.find_file(kind, name, work)?;
        Ok(put_front(front, &file))
    }

    // Shows a file, live or deleted, by the number of its entry, as find does.
    pub fn show(&self, entry: u32, buffer: &mut [u8], work: &mut [u8]) -> Result<u32, Refusal>
        ensures turn { Turns self.now.state (D.BlockDevice.meaning self.now.device) (show_asked (length work.old) entry buffer.old) (number result buffer.new) self.now.state (D.BlockDevice.meaning self.now.device) }
        ensures work { WorkBlock work.old work.new }
    {
        let work = work.as_mut_array::<BLOCK>().ok_or(Refusal::OutOfRange)?;
        let front = buffer
            .first_chunk_mut::<ENTRY>()
            .ok_or(Refusal::OutOfRange)?;
        let file = self.show_file(entry, work)?;
        Ok(put_front(front, &file))
    }
}
