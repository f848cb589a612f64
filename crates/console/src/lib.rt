// The console of a pack unit: what a line of input asks for, and the line that is printed of a reply.
#![tactic(auto)]

mod calls;
mod fields;
mod forms;
mod numbers;
mod replies;
mod titles;

pub use calls::{Line, read_line};
pub use forms::Expected;
pub use replies::reply_line;
