// The catalogue of a pack: its volume, its files, and the blocks that are left.
ghost use Rattle.std.specs.Prelude.{◌≡◌, ◌-◌, IfOk, string_bytes};
ghost use Rattle.listing.specs.Catalogues.{catalogue_text, catalogued, count_that, dated_text, left_text, rows_text, summary_text, volume_text};
ghost use Rattle.listing.specs.Answered.{Answers};
ghost use Rattle.listing.specs.Walks.{is_deleted};

use crate::failure::Failure;
use crate::files::Files;
use crate::load::load;
use blocks::BlockDevice;
use entry::{Entry, Stamp};
use lines::{HEADINGS, counted, escaped, row};
use names::characters;
use std::alloc::{AllocError, Global};

impl Files {
    ghost use Rattle.listing.specs.Walked.{bytes_of, found_in};

    // The lines of the files.
    fn rows(&self, heap: Global) -> Result<String, AllocError>
        ensures { IfOk result (λ t. string_bytes t ≡ rows_text (bytes_of self.now.directory) 3 (self.now.left - 3)) }
    {
        let mut out = String::new(heap);
        for number in 3..self.left {
            let line = row(heap, number, &self.directory.entry(number))?;
            writeln!(out, "{line}")?;
        }
        Ok(out)
    }

    // How many of the files are deleted.
    fn count_deleted(&self) -> u32
        ensures { result ≡ count_that is_deleted (bytes_of self.now.directory) 3 (self.now.left - 3) }
    {
        // A loop: `filter` and `count` give a `usize`, of which it is not known how it stands to `count_that` nor that it
        // fits the `u32` that is printed.
        let mut count = 0;
        for number in 3..self.left {
            if self.directory.entry(number).is_deleted() {
                count += 1;
            }
        }
        count
    }

    fn summary_text(&self, heap: Global) -> Result<String, AllocError>
        ensures { IfOk result (λ t. string_bytes t ≡ summary_text (bytes_of self.now.directory) (found_in self.now)) }
    {
        let directory = counted(heap, self.directory.size(), "directory block")?;
        let files = counted(heap, self.left - 3, "file")?;
        let deleted = self.count_deleted();
        format!(in heap; "Read {directory} and found {files}, {deleted} of them deleted.")
    }

    fn catalogue_text(&self, heap: Global) -> Result<String, AllocError>
        ensures { IfOk result (λ t. string_bytes t ≡ catalogue_text (bytes_of self.now.directory) (found_in self.now)) }
    {
        let volume = volume_text(heap, self.directory.size(), &self.directory.entry(0))?;
        let headings = HEADINGS;
        let rows = self.rows(heap)?;
        let left = left_text(heap, &self.directory.entry(self.left))?;
        let done = self.summary_text(heap)?;
        format!(in heap; "{volume}\n{headings}\n{rows}{left}\n{done}\n")
    }
}

fn dated_text(heap: Global, stamp: Option<Stamp>) -> Result<String, AllocError>
    ensures { IfOk result (λ t. string_bytes t ≡ dated_text stamp) }
{
    match stamp {
        Some(stamp) => format!(in heap; "dated {stamp}"),
        None => String::from_str(heap, "no date"),
    }
}

// The volume: its name, its blocks, the blocks of its directory, and its date.
fn volume_text(heap: Global, directory: u32, volume: &Entry) -> Result<String, AllocError>
    ensures { IfOk result (λ t. string_bytes t ≡ volume_text directory volume.now.bytes) }
{
    let name = escaped(heap, characters(volume.name_field()))?;
    let blocks = counted(heap, volume.size(), "block")?;
    let directory = counted(heap, directory, "directory block")?;
    let date = dated_text(heap, volume.stamp())?;
    format!(in heap; "Volume {name}: {blocks}, {directory}, {date}.")
}

// The blocks that no file has.
fn left_text(heap: Global, entry: &Entry) -> Result<String, AllocError>
    ensures { IfOk result (λ t. string_bytes t ≡ left_text entry.now.bytes) }
{
    let room = entry.room();
    let first = entry.first_block();
    format!(in heap; "Blocks left: {room} from block {first}.")
}

// The catalogue of a pack, or why there is none: nothing is printed of one that cannot be walked to its end.
pub fn catalogue<D: BlockDevice>(heap: Global, device: &D) -> Result<String, Failure>
    ensures { Answers result (catalogued (D.BlockDevice.meaning device.now)) }
{
    let files = Files::of(load(heap, device)?)?;
    Ok(files.catalogue_text(heap)?)
}
