// The program's arguments: what they ask for, and what is said when it cannot be done.
#![tactic(auto)]

mod commands;

pub use commands::{Command, Medium, Misuse, USAGE, complaint, read_arguments};
