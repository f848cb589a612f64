// Why a command printed nothing.
ghost use Rattle.listing.specs.declared.failure.Failure.TheVariants.{Memory, Refused as Refused'};
ghost use Rattle.listing.specs.Failures.{reason};
ghost use Rattle.std.specs.Prelude.{◌≡◌, Some};

use blocks::Rejected;
use refusal::Refusal;
use std::alloc::{AllocError, AllocFailed};
use std::fmt;

#[derive(Clone, Copy, PartialEq, Eq, Debug)]
pub enum Failure {
    // there was no memory for the text
    Memory,
    // what was asked is refused
    Refused(Refusal),
}

impl fmt::Display for Failure {
    ghost output = { λ failure. Some (reason failure) };

    fn fmt<W: fmt::Write>(&self, f: &mut fmt::Formatter<W>) -> fmt::Result {
        match self {
            Failure::Memory => f.write_str("there is not enough memory"),
            Failure::Refused(refusal) => write!(f, "{refusal}"),
        }
    }
}

impl From<AllocError> for Failure {
    ghost from_gives = { λ _ r. r ≡ Memory };

    fn from(_e: AllocError) -> Failure {
        Failure::Memory
    }
}

impl<T: Drop> From<AllocFailed<T>> for Failure {
    ghost from_gives = { λ _ r. r ≡ Memory };

    fn from(_e: AllocFailed<T>) -> Failure {
        Failure::Memory
    }
}

impl From<Refusal> for Failure {
    ghost from_gives = { λ x r. r ≡ Refused' x };

    fn from(refusal: Refusal) -> Failure {
        Failure::Refused(refusal)
    }
}

// What is no device, as its bytes were rejected.
impl<T: Drop> From<Rejected<T>> for Failure {
    ghost from_gives = { λ x r. r ≡ Refused' x.refusal };

    fn from(rejected: Rejected<T>) -> Failure {
        Failure::Refused(rejected.refusal)
    }
}
