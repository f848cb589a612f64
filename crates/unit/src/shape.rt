// The shape of a pack to be made.
ghost use Rattle.std.specs.Prelude.{◌≡◌, ◌+◌, ◌-◌, ◌<◌, ◌≤◌};
ghost use Rattle.model.specs.Fresh.{fresh_known};

use directory::Pack;
use names::VolumeName;

// A fresh pack that can be made: its name, its directory blocks and its blocks.
#[derive(Clone, Copy)]
pub(crate) struct Shape {
    pub(crate) name: VolumeName,
    pub(crate) directory: u8,
    pub(crate) blocks: u16,
    ghost few: { directory ≤ 127 },
    ghost fits: { directory < blocks },
}

impl Shape {
    // The blocks behind the boot block and the directory.
    pub(crate) fn left(&self) -> u16
        ensures { result ≡ self.now.blocks - (1 + self.now.directory) }
    {
        self.blocks - (1 + u16::from(self.directory))
    }

    // What a unit knows of the pack when it is made: it has no files.
    pub(crate) fn pack(&self) -> Pack
        ensures { result ≡ fresh_known self.now.directory self.now.blocks }
    {
        Pack {
            blocks: u32::from(self.blocks),
            directory: self.directory,
            left: 3,
            free: self.left(),
        }
    }
}
