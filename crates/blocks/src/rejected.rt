// What cannot be made into a device.
ghost use Rattle.std.specs.Prelude.{◌≡◌};

use refusal::Refusal;

// The refusal of a maker, and what it was given.
#[derive(Drop, Debug)]
pub struct Rejected<T> {
    pub refusal: Refusal,
    pub given: T,
}

impl<T> Rejected<T> {
    ghost use Rattle.blocks.specs.Rejects.{out_of_range};

    // What has too few or too many blocks for the maker, handed back.
    pub fn out_of_range(given: T) -> Rejected<T>
        ensures { result ≡ out_of_range given }
    {
        Rejected {
            refusal: Refusal::OutOfRange,
            given,
        }
    }
}
