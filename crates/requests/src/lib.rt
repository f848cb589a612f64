// Calls and replies as values.
#![tactic(auto)]

mod values;

pub use values::{Reply, Request};
