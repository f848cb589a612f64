// Examples of what devices and layers answer, in a crate of their own so that the libraries are proved once.
#![tactic(auto)]

#[cfg(test)]
mod disk_tests;
#[cfg(test)]
mod fault_tests;
#[cfg(test)]
mod image_tests;
#[cfg(test)]
mod layer_tests;
#[cfg(test)]
mod pile_tests;
#[cfg(test)]
mod samples;
