// What the program's commands print of a pack on any block device.
#![tactic(auto)]

mod catalogues;
mod directory;
mod failure;
mod files;
mod finds;
mod load;

pub use catalogues::catalogue;
pub use failure::Failure;
pub use finds::find;
