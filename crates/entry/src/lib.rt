// The 26-byte entry of the directory: its fields, its kind, lengths and dates.
#![tactic(auto)]

mod attributes;
mod date;
mod edits;
mod fields;
mod kind;
mod length;
mod numbers;
mod stamp;

pub use attributes::{Attribute, Attributes};
pub use date::Date;
pub use fields::{CHECK_BYTES, ENTRIES, ENTRY, Entry};
pub use kind::{Kind, kind_of};
pub use length::{LONGEST, length_of, split};
pub use parts::BLOCK;
pub use stamp::{Stamp, date_bytes, read_stamp};
