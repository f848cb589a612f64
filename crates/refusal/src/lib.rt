// Every refusal of the pack unit: what a call answers when it does not do what it was asked.
// A refusal is told to the caller as three numbers: its number, its layer and its place.
#![tactic(auto)]

ghost use Rattle.std.specs.Prelude.{◌≡◌, Some};
ghost use Rattle.refusal.specs.Refusals.{listed, sentence, line};

use std::fmt;

// The layer says who refuses: 0 the unit itself, 1 an entry of the directory (the place is then its number),
// 2 and more the device, 2 + the depth at which a layer below refused.
#[derive(Clone, Copy, PartialEq, Eq, Debug)]
pub enum Refusal {
    // a number, a length or a day lies outside its range
    OutOfRange,
    // a name breaks its rules
    BadName,
    // no live file fits, or the entry asked for is no file
    NoSuchFile,
    // no pack has been taken up
    NoPack,
    // the pack does not follow the layout; `entry` is the first entry at fault
    BrokenLayout { entry: u16 },
    // the device cannot read or write a block
    BadBlock { depth: u8, place: u16 },
    // the device's write-protect tab is on
    WriteProtected { depth: u8 },
}

impl Refusal {
    // The error number, as EOS programs know it.
    pub fn number(self) -> u8
        ensures { result ≡ (listed self).number }
    {
        match self {
            Refusal::OutOfRange => 17,
            Refusal::BadName => 14,
            Refusal::NoSuchFile => 5,
            Refusal::NoPack | Refusal::BrokenLayout { .. } => 24,
            Refusal::BadBlock { .. } => 22,
            Refusal::WriteProtected { .. } => 32,
        }
    }

    // Who refuses.
    pub fn layer(self) -> u16
        ensures { result ≡ (listed self).layer }
    {
        match self {
            Refusal::BrokenLayout { .. } => 1,
            Refusal::BadBlock { depth, .. } | Refusal::WriteProtected { depth } => {
                2 + u16::from(depth)
            }
            _ => 0,
        }
    }

    // The entry or the block that the refusal is about, 0 where there is none.
    pub fn place(self) -> u16
        ensures { result ≡ (listed self).place }
    {
        match self {
            Refusal::BrokenLayout { entry } => entry,
            Refusal::BadBlock { place, .. } => place,
            _ => 0,
        }
    }

    // What happened, for people.
    pub fn words(self) -> &'static str
        ensures { result.now ≡ sentence self }
    {
        match self {
            Refusal::OutOfRange => "a number or a length is out of range",
            Refusal::BadName => "the name breaks the rules of names",
            Refusal::NoSuchFile => "there is no such file",
            Refusal::NoPack => "no pack is up",
            Refusal::BrokenLayout { .. } => "the pack does not follow the layout",
            Refusal::BadBlock { .. } => "a block is bad",
            Refusal::WriteProtected { .. } => "the write-protect tab is on",
        }
    }
}

// `refused NUMBER LAYER PLACE: words`, each by the method that tells it alone.
impl fmt::Display for Refusal {
    ghost output = { λ x. Some (line x) };

    fn fmt<W: fmt::Write>(&self, f: &mut fmt::Formatter<W>) -> fmt::Result {
        let number = self.number();
        let layer = self.layer();
        let place = self.place();
        let words = self.words();
        write!(f, "refused {number} {layer} {place}: {words}")
    }
}
