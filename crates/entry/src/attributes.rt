// The attribute byte of an entry, its bits by name.
ghost use Rattle.std.specs.Prelude.{◌≡◌, ◌^◌};
ghost use Rattle.std.specs.Int.Bits.{bit_or};
ghost use Rattle.entry.specs.Attributes.{bit_of};
ghost use Rattle.entry.specs.Fields.{bit as is_set};

// What the bits say of a file, each by its place in the byte, 0 the lowest. In the volume's entry they mean
// something else.
#[derive(Clone, Copy, PartialEq, Eq, Debug)]
pub enum Attribute {
    Locked = 7,
    WriteProtected = 6,
    ReadProtected = 5,
    User = 4,
    System = 3,
    Deleted = 2,
    ExecuteProtected = 1,
    BlocksLeft = 0,
}

impl Attribute {
    // The bit that stands for the attribute, 0 the lowest.
    pub fn bit(self) -> u8
        ensures { result ≡ bit_of self }
    {
        self as u8
    }
}

// An attribute byte. Every byte is one.
#[derive(Clone, Copy, PartialEq, Eq, Debug)]
pub struct Attributes {
    pub byte: u8,
}

impl Attributes {
    // No attribute at all.
    pub const NONE: Attributes = Attributes { byte: 0 };

    pub fn has(self, attribute: Attribute) -> bool
        ensures { result ≡ is_set (bit_of attribute) self.byte }
    {
        (self.byte >> attribute.bit()) & 1 == 1
    }

    // These and one more.
    pub fn with(self, attribute: Attribute) -> Attributes
        ensures { result.byte ≡ bit_or self.byte (2 ^ bit_of attribute) }
    {
        Attributes {
            byte: self.byte | 1 << attribute.bit(),
        }
    }
}
