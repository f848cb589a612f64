// The walk through a directory, and the files that it finds.
ghost use Rattle.std.specs.Prelude.{◌≡◌, ◌*◌, ◌<◌, ◌≤◌, length, IfOk};
ghost use Rattle.listing.specs.Walks.{directory_walked};

use crate::directory::Directory;
use entry::ENTRIES;
use refusal::Refusal;

// A directory that was walked: its files are the entries from 3 up to `left`, the BLOCKS LEFT entry.
#[derive(Drop)]
pub(crate) struct Files {
    pub(crate) directory: Directory,
    pub(crate) left: u32,
    ghost from: { 3 ≤ left },
    ghost to: { left < 39 * length directory.blocks.items },
}

impl Files {
    ghost use Rattle.listing.specs.Walked.{bytes_of, walked};

    // Walks a directory: it ends at the BLOCKS LEFT entry, and every live file before that has a length.
    pub(crate) fn of(directory: Directory) -> Result<Files, Refusal>
        ensures value { walked result ≡ directory_walked (bytes_of directory) (length directory.blocks.items) }
        ensures kept { IfOk result (λ files. files.directory ≡ directory) }
    {
        let end = ENTRIES * directory.size();
        // Not `ok_or` and `?`, under which the answer where there is no such entry was left unproved.
        let Some(left) = directory.first(3, end, |entry| entry.is_blocks_left()) else {
            // casts here and below, and not `try_from`, which could not fail: a directory has at most 4,953 entries
            return Err(Refusal::BrokenLayout { entry: end as u16 });
        };
        match directory.first(
            3,
            left,
            |entry| !entry.is_deleted() && entry.length().is_none(),
        ) {
            None => Ok(Files { directory, left }),
            Some(entry) => Err(Refusal::BrokenLayout {
                entry: entry as u16,
            }),
        }
    }
}
