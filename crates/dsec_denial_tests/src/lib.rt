//! Tests of denials by NSEC3 records, of hashes that are kept, and of aliases that are followed: records from outside.
#![tactic(auto)]

#[cfg(test)]
mod aliases;
#[cfg(test)]
mod denials;
#[cfg(test)]
mod hashed_records;
#[cfg(test)]
mod hashes;
#[cfg(test)]
mod reply;
#[cfg(test)]
mod told;
