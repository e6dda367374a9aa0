//! Tests of records in canonical order, chains, and signatures of sets and zones: values from outside, and signers that fail.
#![tactic(auto)]

#[cfg(test)]
mod bind;
#[cfg(test)]
mod calls;
#[cfg(test)]
mod failing;
#[cfg(test)]
mod lines;
#[cfg(test)]
mod records;
#[cfg(test)]
mod sets;
#[cfg(test)]
mod signers;
#[cfg(test)]
mod stand_in;
#[cfg(test)]
mod zones;
