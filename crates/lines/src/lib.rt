// The lines that are printed of directory entries.
#![tactic(auto)]

mod files;
mod texts;

pub use files::{HEADINGS, date_text, row};
pub use texts::{counted, escaped};
