// Names of files, stems and volumes: what they may hold, how a name field is written, and when an entry fits one.
// A name is read as given: up to its first ETX, or to its end. What stands behind the ETX is never looked at.
#![tactic(auto)]

mod given;
mod name;
mod rules;

pub use given::{ETX, characters, same, same_bytes};
pub use name::{FIELD, Name, Stem, VolumeName, WholeName};
pub use rules::{BLOCKS_LEFT, BOOT, DIRECTORY, FileRule, Rule, StemRule, VolumeRule, WholeRule};
