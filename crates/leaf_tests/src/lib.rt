// Examples of the leaves' rules, in a crate of their own so that the leaves are proved once.
#![tactic(auto)]

#[cfg(test)]
mod dates;
#[cfg(test)]
mod entries;
#[cfg(test)]
mod names_tests;
#[cfg(test)]
mod refusals;
