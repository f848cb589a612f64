// What tests look at the libraries through: a device that records what is read of it, and a key that is a whole entry.
// In a crate of their own, since they have contracts and the tests are then proved faster.
#![tactic(auto)]

mod recorder;
mod whole_entry;

pub use recorder::{Log, Reads, Recorder, recording};
pub use whole_entry::WholeEntry;
