// The directory of a pack, on any block device.
#![tactic(auto)]

mod entries;
mod judgement;
mod keys;
mod layout;
mod lookups;
mod seen;

pub use entries::{read_entry, write_entry};
pub use judgement::{Pack, judge};
pub use lookups::{Found, Key, lookup};
