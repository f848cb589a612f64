// The pack unit: a device, and what is known of the pack on it.
#![tactic(auto)]

mod changes;
mod fresh;
mod initialising;
mod questions;
mod shape;
mod units;

pub use units::PackUnit;
