// Examples of what the commands print and refuse, in a crate of their own so that the libraries are proved once.
#![tactic(auto)]

#[cfg(test)]
mod catalogue_tests;
#[cfg(test)]
mod command_tests;
#[cfg(test)]
mod disk_tests;
#[cfg(test)]
mod find_tests;
#[cfg(test)]
mod images;
