// What a device can refuse, and what it marks.
ghost use Rattle.std.specs.Prelude.{◌≡◌, None};
ghost use Rattle.blocks.specs.Devices.{listed, mark_fault, outcome, refusal_of, tab_fault};
ghost use Rattle.blocks.specs.Images.{tab_of};
ghost use Rattle.blocks.specs.Layers.{deeper as deeper_of, deeper_fault, deeper_tab};

use refusal::Refusal;

// Whether a block can be read and written. A bad block has a depth, the layers between the device that marked it and
// the one that is asked, and a place, the number that device gave it. An enum of its own: an `Option` of the two numbers
// would not say which is the bad block. The two stand side by side here, in a fault and in a refusal, which is how a
// caller is told them: a struct for them would be one more name on each of those lines.
#[derive(Clone, Copy, PartialEq, Eq, Debug)]
pub enum Mark {
    Sound,
    Bad { depth: u8, place: u16 },
}

// The write-protect tab: off, or on at a depth. An enum of its own and not an `Option<u8>`, which would not say
// that the tab is on, and would be no plainer with the methods below.
#[derive(Clone, Copy, PartialEq, Eq, Debug)]
pub enum Tab {
    Off,
    On { depth: u8 },
}

// Why a device refuses to read or to write a block.
#[derive(Clone, Copy, PartialEq, Eq, Debug)]
pub enum Fault {
    // the block is not below the size, or the buffer is not one block long
    OutOfRange { place: u32 },
    WriteProtected { depth: u8 },
    BadBlock { depth: u8, place: u16 },
}

impl Fault {
    // The error number, as a refusal has it.
    pub fn number(self) -> u8
        ensures { result ≡ (listed self).number }
    {
        match self {
            Fault::OutOfRange { .. } => 17,
            Fault::WriteProtected { .. } => 32,
            Fault::BadBlock { .. } => 22,
        }
    }

    // How many layers down the fault was found.
    pub fn depth(self) -> u8
        ensures { result ≡ (listed self).depth }
    {
        match self {
            Fault::OutOfRange { .. } => 0,
            Fault::WriteProtected { depth } => depth,
            Fault::BadBlock { depth, .. } => depth,
        }
    }

    // The block that the fault is about, 0 for the tab.
    pub fn place(self) -> u32
        ensures { result ≡ (listed self).place }
    {
        match self {
            Fault::OutOfRange { place } => place,
            Fault::WriteProtected { .. } => 0,
            Fault::BadBlock { place, .. } => u32::from(place),
        }
    }

    // The refusal that the fault is to a caller of the unit, as `From` gives it to `?`.
    pub fn refusal(self) -> Refusal
        ensures { result ≡ refusal_of self }
    {
        self.into()
    }

    // The fault as a layer passes it up.
    pub fn deeper(self) -> Fault
        ensures { result ≡ deeper_fault self }
    {
        match self {
            Fault::OutOfRange { place } => Fault::OutOfRange { place },
            Fault::WriteProtected { depth } => Fault::WriteProtected {
                depth: next_depth(depth),
            },
            Fault::BadBlock { depth, place } => Fault::BadBlock {
                depth: next_depth(depth),
                place,
            },
        }
    }
}

// The refusal that a fault is to a caller of the unit.
impl From<Fault> for Refusal {
    ghost from_gives = { λ fault refusal. refusal ≡ refusal_of fault };

    fn from(fault: Fault) -> Refusal {
        match fault {
            Fault::OutOfRange { .. } => Refusal::OutOfRange,
            Fault::WriteProtected { depth } => Refusal::WriteProtected { depth },
            Fault::BadBlock { depth, place } => Refusal::BadBlock { depth, place },
        }
    }
}

impl Mark {
    // Refuses a bad block.
    pub fn check(self) -> Result<(), Fault>
        ensures { result ≡ outcome (mark_fault self) }
    {
        match self {
            Mark::Sound => Ok(()),
            Mark::Bad { depth, place } => Err(Fault::BadBlock { depth, place }),
        }
    }
}

impl Tab {
    // The tab of a device with no layer over it.
    pub fn own(protected: bool) -> Tab
        ensures { result ≡ tab_of protected }
    {
        if protected {
            Tab::On { depth: 0 }
        } else {
            Tab::Off
        }
    }

    // Refuses a write where the tab is on.
    pub fn check(self) -> Result<(), Fault>
        ensures { result ≡ outcome (tab_fault self None) }
    {
        match self {
            Tab::Off => Ok(()),
            Tab::On { depth } => Err(Fault::WriteProtected { depth }),
        }
    }

    // The tab as a layer passes it up.
    pub fn deeper(self) -> Tab
        ensures { result ≡ deeper_tab self }
    {
        match self {
            Tab::Off => Tab::Off,
            Tab::On { depth } => Tab::On {
                depth: next_depth(depth),
            },
        }
    }
}

// One deeper, and never above 15.
fn next_depth(depth: u8) -> u8
    ensures { result ≡ deeper_of depth }
{
    depth.min(14) + 1
}
