// Calls made on a unit, one or a list of them.
#![tactic(auto)]

mod performing;
mod running;

pub use performing::perform;
pub use running::run;
