// Examples of lines that the console reads and prints, in a crate of their own so that the library is proved once.
#![tactic(auto)]

#[cfg(test)]
mod line_tests;
#[cfg(test)]
mod name_tests;
#[cfg(test)]
mod reply_tests;
#[cfg(test)]
mod unreadable_tests;
