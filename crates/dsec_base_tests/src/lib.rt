//! Tests of names, numbers, text, octets, messages and scripts, by what the crates below `dsec_link` make public.
#![tactic(auto)]

#[cfg(test)]
mod anchors;
#[cfg(test)]
mod borrowed;
#[cfg(test)]
mod building;
#[cfg(test)]
mod causes;
#[cfg(test)]
mod digests;
#[cfg(test)]
mod errors;
#[cfg(test)]
mod messages;
#[cfg(test)]
mod names;
#[cfg(test)]
mod numbers;
#[cfg(test)]
mod outside;
#[cfg(test)]
mod scripts;
#[cfg(test)]
mod texts;
#[cfg(test)]
mod views;
#[cfg(test)]
mod zone_vectors;
#[cfg(test)]
mod zones;
