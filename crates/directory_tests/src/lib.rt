// Examples of what the directory's functions answer, in a crate of their own so that the library is proved once.
#![tactic(auto)]

#[cfg(test)]
mod entry_tests;
#[cfg(test)]
mod judgement_tests;
#[cfg(test)]
mod lookup_tests;
#[cfg(test)]
mod packs;
#[cfg(test)]
mod recorder_tests;
