// Names that keep their rules, held as name fields.
ghost use Rattle.std.specs.Prelude.{◌≡◌, ◌≤◌, true, false, MatchResult, length, ⊤};
ghost use Rattle.names.specs.Names.{characters as characters_of, name_field};
ghost use Rattle.refusal.specs.declared.Refusal.TheVariants.{BadName};

use crate::given::{ETX, characters};
use crate::rules::{FileRule, Rule, StemRule, VolumeRule, WholeRule};
use refusal::Refusal;
use std::alloc::AllocError;
use std::marker::PhantomData;

// The bytes of a name field: at most eleven characters, and the ETX.
pub const FIELD: usize = 12;

// A name that keeps the rule `R`, held as the name field that an entry of that name has.
pub struct Name<R: Rule> {
    field: [u8; FIELD],
    of: PhantomData<R>,
    ghost kept: { R.rule field ≡ true },
    ghost padded: { field ≡ name_field field },
}

// By hand: `derive` and `derive_where` both refuse a struct whose ghost fields cite a bound.
impl<R: Rule> Clone for Name<R> {
    ghost is_clone = { λ name copy. copy ≡ name };

    ghost is_infallible = { λ _. ⊤ };

    fn clone(&self) -> Result<Name<R>, AllocError> {
        Ok(*self)
    }
}

impl<R: Rule> Copy for Name<R> {}

// What a file may be called.
pub type WholeName = Name<WholeRule>;

// A file's name without its type letter.
pub type Stem = Name<StemRule>;

// What a volume may be called.
pub type VolumeName = Name<VolumeRule>;

// The name field that holds a name: its characters, the ETX, then zeros.
fn to_field(given: &[u8]) -> [u8; FIELD]
    requires { length (characters_of given.now) ≤ 11 }
    ensures { result ≡ name_field given.now }
{
    let name = characters(given);
    let mut field = [0; FIELD];
    field[..name.len()].copy_from_slice(name);
    field[name.len()] = ETX;
    field
}

impl<R: Rule> Name<R> {
    // The name that is given, or the refusal of a name that breaks the rule.
    pub fn new(given: &[u8]) -> Result<Name<R>, Refusal>
        ensures { MatchResult result (λ name. (R.rule given.now ≡ true) × (name.field ≡ name_field given.now)) (λ e. (R.rule given.now ≡ false) × (e ≡ BadName)) }
    {
        if !R::holds(given) {
            return Err(Refusal::BadName);
        }
        Ok(Name {
            field: to_field(given),
            of: PhantomData,
        })
    }

    // The name field of an entry of this name.
    pub fn field(&self) -> [u8; FIELD]
        ensures { result ≡ self.now.field }
    {
        self.field
    }
}

impl<R: FileRule> Name<R> {
    // Whether the name fits an entry with this name field.
    pub fn fits(&self, field: &[u8]) -> bool
        ensures { result ≡ R.FileRule.fitting self.now.field field.now }
    {
        R::fits(&self.field, field)
    }
}
