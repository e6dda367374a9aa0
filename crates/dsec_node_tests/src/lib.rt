//! Tests of key sets that are admitted, of the gaps of NSEC records, and of nodes: records from outside.
#![tactic(auto)]

#[cfg(test)]
mod admission;
#[cfg(test)]
mod admitting;
#[cfg(test)]
mod gaps;
#[cfg(test)]
mod key_lines;
#[cfg(test)]
mod nodes;
