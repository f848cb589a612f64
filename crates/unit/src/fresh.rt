// The entries of a fresh pack, and the block that holds them.
ghost use Rattle.std.specs.Prelude.{◌≡◌, true};
ghost use Rattle.model.specs.Fresh.{begun, boot_entry, directory_entry, first_block, left_entry, volume_entry};
ghost use Rattle.model.specs.Models.{stamp_of_date};
ghost use Rattle.names.specs.Names.{is_volume, name_field};
ghost use Rattle.std.specs.Option.{option_map};

use crate::shape::Shape;
use entry::{Attribute, Attributes, BLOCK, Date, ENTRY, Entry};
use names::{BLOCKS_LEFT, BOOT, DIRECTORY, FIELD, VolumeName};

// The bytes that are used of the last block where all are.
const FULL: u16 = 1024;

// The name field of a name that keeps the rules of volume names, as those of the entries that are no files do.
fn field_of(name: &[u8]) -> [u8; FIELD]
    requires { is_volume name.now ≡ true }
    ensures { result ≡ name_field name.now }
{
    VolumeName::new(name).unwrap().field()
}

// An entry with a name, attributes and a date. All else is zeros.
fn entry_of(name: &[u8; FIELD], attributes: Attributes, date: Option<Date>) -> Entry
    ensures { result.bytes ≡ begun name.now attributes.byte (option_map stamp_of_date date) }
{
    let mut entry = Entry { bytes: [0; ENTRY] };
    entry.set_name_field(name);
    entry.set_attributes(attributes);
    entry.set_date(date);
    entry
}

// What a fresh pack is made of: its shape, and the date of its entries.
#[derive(Clone, Copy)]
pub(crate) struct Fresh {
    pub(crate) shape: Shape,
    pub(crate) date: Option<Date>,
}

impl Fresh {
    // The volume's entry: its name, its directory blocks, the check bytes, and its blocks.
    fn volume_entry(&self) -> Entry
        ensures { result.bytes ≡ volume_entry self.now.shape.name.field self.now.shape.directory self.now.shape.blocks (option_map stamp_of_date self.now.date) }
    {
        let attributes = Attributes {
            byte: 128 + self.shape.directory,
        };
        let mut entry = entry_of(&self.shape.name.field(), attributes, self.date);
        entry.set_check_bytes();
        entry.set_size(u32::from(self.shape.blocks));
        entry
    }

    // The entry of the boot block, block 0.
    fn boot_entry(&self) -> Entry
        ensures { result.bytes ≡ boot_entry (option_map stamp_of_date self.now.date) }
    {
        let attributes = Attributes::NONE
            .with(Attribute::Locked)
            .with(Attribute::System);
        let mut entry = entry_of(&field_of(BOOT), attributes, self.date);
        entry.set_room(1);
        entry.set_used(1);
        entry.set_last(FULL);
        entry
    }

    // The entry of the directory, from block 1 on.
    fn directory_entry(&self) -> Entry
        ensures { result.bytes ≡ directory_entry self.now.shape.directory (option_map stamp_of_date self.now.date) }
    {
        let attributes = Attributes::NONE
            .with(Attribute::Locked)
            .with(Attribute::WriteProtected)
            .with(Attribute::System);
        let mut entry = entry_of(&field_of(DIRECTORY), attributes, self.date);
        entry.set_first_block(1);
        entry.set_room(u16::from(self.shape.directory));
        entry.set_used(u16::from(self.shape.directory));
        entry.set_last(FULL);
        entry
    }

    // The entry of the blocks that are left: all behind the directory.
    fn left_entry(&self) -> Entry
        ensures { result.bytes ≡ left_entry self.now.shape.directory self.now.shape.blocks (option_map stamp_of_date self.now.date) }
    {
        let attributes = Attributes::NONE.with(Attribute::BlocksLeft);
        let mut entry = entry_of(&field_of(BLOCKS_LEFT), attributes, self.date);
        entry.set_first_block(1 + u32::from(self.shape.directory));
        entry.set_room(self.shape.left());
        entry
    }

    // Makes the work block the first block of the pack's directory: its four entries, then zeros.
    pub(crate) fn fill_first(&self, work: &mut [u8; BLOCK])
        ensures { work.new ≡ first_block self.now.shape.name.field self.now.shape.directory self.now.shape.blocks (option_map stamp_of_date self.now.date) }
    {
        work.fill(0);
        self.volume_entry().put_in(work, 0);
        self.boot_entry().put_in(work, 1);
        self.directory_entry().put_in(work, 2);
        self.left_entry().put_in(work, 3);
    }
}
