// Finding a live file of a pack by its whole name or by its stem.
ghost use Rattle.std.specs.Prelude.{◌≡◌, ◌<◌, IfSome, IfOk, Some};
ghost use Rattle.listing.specs.Answered.{Answers};
ghost use Rattle.listing.specs.Finds.{fit_text, found_text, looked_up, match_text, named};

use crate::failure::Failure;
use crate::files::Files;
use crate::load::load;
use blocks::BlockDevice;
use lines::row;
use names::{FileRule, Name, StemRule, WholeRule};
use refusal::Refusal;
use std::alloc::Global;
use std::fmt;

// By what a file was found.
#[derive(Clone, Copy, PartialEq, Eq, Debug)]
pub(crate) enum Fit {
    Whole,
    Stem,
}

// The entry that was found, and by what.
#[derive(Clone, Copy, PartialEq, Eq, Debug)]
pub(crate) struct Match {
    pub number: u32,
    pub fit: Fit,
}

impl Files {
    ghost use Rattle.listing.specs.Walked.{bytes_of};

    // The first live file that a name of that rule fits.
    fn named<R: FileRule>(&self, given: &[u8]) -> Result<Option<u32>, Refusal>
        ensures value { result ≡ named (R.Rule.rule given.now) R.FileRule.fitting (bytes_of self.now.directory) self.now.left given.now }
        ensures before { IfOk result (λ found. IfSome found (λ e. e < self.now.left)) }
    {
        let name = Name::<R>::new(given)?;
        Ok(
            self.directory.first(3, self.left, |entry| {
                !entry.is_deleted() && name.fits(entry.name_field())
            }),
        )
    }

    // The file by its whole name or, where none fits, by its stem: the name without its type letter.
    fn look_up(&self, given: &[u8]) -> Result<Match, Refusal>
        ensures value { result ≡ looked_up (bytes_of self.now.directory) self.now.left given.now }
        ensures before { IfOk result (λ m. m.number < self.now.left) }
    {
        let whole = self.named::<WholeRule>(given);
        if let Ok(Some(number)) = whole {
            return Ok(Match {
                number,
                fit: Fit::Whole,
            });
        }
        // Not `or` and `?`, under which the refusal where neither rule is kept was left unproved.
        match (whole, self.named::<StemRule>(given)) {
            (_, Ok(Some(number))) => Ok(Match {
                number,
                fit: Fit::Stem,
            }),
            (Err(refusal), Err(_)) => Err(refusal),
            _ => Err(Refusal::NoSuchFile),
        }
    }

    // The line of the file that a name finds, and by what it was found.
    fn match_text(&self, heap: Global, given: &[u8]) -> Result<String, Failure>
        ensures { Answers result (match_text (bytes_of self.now.directory) (looked_up (bytes_of self.now.directory) self.now.left given.now)) }
    {
        let Match { number, fit } = self.look_up(given)?;
        let line = row(heap, number, &self.directory.entry(number))?;
        Ok(format!(in heap; "{line}\n{fit}\n")?)
    }
}

impl fmt::Display for Fit {
    ghost output = { λ fit. Some (fit_text fit) };

    fn fmt<W: fmt::Write>(&self, f: &mut fmt::Formatter<W>) -> fmt::Result {
        let words = match self {
            Fit::Whole => "Found by its whole name.",
            Fit::Stem => "Found by its stem; no live file has that whole name.",
        };
        f.write_str(words)
    }
}

// Finds a live file of a pack by its name.
pub fn find<D: BlockDevice>(heap: Global, device: &D, given: &[u8]) -> Result<String, Failure>
    ensures { Answers result (found_text (D.BlockDevice.meaning device.now) given.now) }
{
    let files = Files::of(load(heap, device)?)?;
    files.match_text(heap, given)
}
