// The one lookup: the first live file of a directory that a key says yes to.
ghost use Rattle.std.specs.Prelude.{◌≡◌, ℕ, Bool, List, length};
ghost use Rattle.directory.specs.Entries.{WorkBlock};
ghost use Rattle.directory.specs.Lookups.{LookupLaw, is_match, lookup_reply};

use blocks::BlockDevice;
use entry::{BLOCK, ENTRIES, Entry};
use refusal::Refusal;

// What a file can be looked for by: it says yes or no to an entry, of which it sees all 26 bytes. A trait and not a
// closure: its meaning is what the contracts of the lookup speak of.
pub trait Key {
    ghost meaning: { Self → List ℕ → Bool };

    fn fits(&self, entry: &Entry) -> bool
        ensures { result ≡ meaning self.now entry.now.bytes };
}

// A file that was found: the number of its entry, and the entry.
#[derive(Clone, Copy, PartialEq, Eq, Debug)]
pub struct Found {
    pub number: u32,
    pub entry: Entry,
}

fn is_match<K: Key>(key: &K, entry: &Entry) -> bool
    ensures { result ≡ is_match (K.Key.meaning key.now) entry.now.bytes }
{
    !entry.is_deleted() && key.fits(entry)
}

// Searches a directory of so many blocks for the first live file that the key says yes to. Each block is read into the
// work block, and no block behind the one that holds the match or the BLOCKS LEFT entry.
pub fn lookup<D: BlockDevice, K: Key>(
    device: &D,
    directory: u8,
    key: &K,
    work: &mut [u8],
) -> Result<Option<Found>, Refusal>
    ensures reply { result ≡ lookup_reply (K.Key.meaning key.now) (D.BlockDevice.meaning device.now) directory (length work.old) }
    ensures law { LookupLaw (K.Key.meaning key.now) (D.BlockDevice.meaning device.now) directory (length work.old) result }
    ensures work { WorkBlock work.old work.new }
{
    // Nested loops: that no entry before this one ends the search is one fact for both, which a search of one block
    // would state again of that block. The work block is asked for where one is read: a directory of none needs none.
    for block in 1..=u32::from(directory) {
        let held = work.as_mut_array::<BLOCK>().ok_or(Refusal::OutOfRange)?;
        device.read(block, held)?;
        // the three entries before the files are passed over
        let first = (ENTRIES * (block - 1)).max(3);
        for number in first..ENTRIES * block {
            let entry = Entry::from_block(held, number);
            if entry.is_blocks_left() {
                return Ok(None);
            }
            if is_match(key, &entry) {
                return Ok(Some(Found { number, entry }));
            }
        }
    }
    Ok(None)
}
