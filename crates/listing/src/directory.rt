// The directory of a pack: its blocks, read into memory, and the entries in them.
ghost use Rattle.std.specs.Prelude.{◌≡◌, ◌*◌, ◌<◌, ◌≤◌, length};
ghost use Rattle.std.specs.Fn.{FnReturnsAt};
ghost use Rattle.std.specs.List.{All, concat};
ghost use Rattle.listing.specs.Walks.{IsFirst, entry_at, entry_of};

use entry::{BLOCK, ENTRIES, Entry};

// The blocks of a directory, 1 to 127 of them.
#[derive(Drop)]
pub(crate) struct Directory {
    pub(crate) blocks: Vec<[u8; BLOCK]>,
    ghost some: { 1 ≤ length blocks.items },
    ghost few: { length blocks.items < 128 },
    ghost whole: { All (λ block. length block ≡ 1024) blocks.items },
}

impl Directory {
    // How many blocks.
    pub(crate) fn size(&self) -> u32
        ensures { result ≡ length self.now.blocks.items }
    {
        // a cast and not `try_from`, which could not fail: there are at most 127
        self.blocks.len() as u32
    }

    // The entry of that number.
    pub(crate) fn entry(&self, number: u32) -> Entry
        requires { number < 39 * length self.now.blocks.items }
        ensures { result.bytes ≡ entry_at (concat self.now.blocks.items) number }
    {
        Entry::from_block(&self.blocks[(number / ENTRIES) as usize], number)
    }

    // The first entry from `from` up to `to` that passes a test.
    pub(crate) fn first<F: Fn(&Entry) -> bool>(&self, from: u32, to: u32, test: F) -> Option<u32>
        requires callable { F.IsAlwaysCallable test }
        requires within { to ≤ 39 * length self.now.blocks.items }
        ensures { IsFirst (λ bytes passes. FnReturnsAt F.Fn test (entry_of bytes) passes) (concat self.now.blocks.items) from to result }
    {
        // A loop and not `find`: inside a closure it is not known that the number is one of the range, which `entry` asks.
        for number in from..to {
            if test(&self.entry(number)) {
                return Some(number);
            }
        }
        None
    }
}
