// The plain state of a pack unit, and what it stands for: the abstract model (specs/).
#![tactic(auto)]

mod state;

pub use state::{Mode, NameKind, OPEN_FILES, OpenFile, OpenTable, State};
