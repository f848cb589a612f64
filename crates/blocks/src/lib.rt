// Block devices: what one means, the interface, and the devices and layers that need no disk.
#![tactic(auto)]

mod device;
mod faults;
mod images;
mod protects;
mod ranges;
mod rejected;
mod windows;

pub use device::BlockDevice;
pub use faults::{Fault, Mark, Tab};
pub use images::Image;
pub use parts::BLOCK;
pub use protects::WriteProtect;
pub use ranges::check_range;
pub use rejected::Rejected;
pub use windows::Window;
