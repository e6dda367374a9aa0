//! Tests of keys, signatures, links, groups, validation and the commands: values and scripts from outside, and calls that fail.
#![tactic(auto)]

#[cfg(test)]
mod counted;
#[cfg(test)]
mod errors;
#[cfg(test)]
mod faults;
#[cfg(test)]
mod handed;
#[cfg(test)]
mod judged;
#[cfg(test)]
mod keys;
#[cfg(test)]
mod runs;
#[cfg(test)]
mod vectors;
