//! Tests of signatures, links and groups: records from outside, memos that keep a verifier's answers, and messages rewritten.
#![tactic(auto)]

#[cfg(test)]
mod caches;
#[cfg(test)]
mod checks;
#[cfg(test)]
mod groups;
#[cfg(test)]
mod lasting;
#[cfg(test)]
mod lines;
#[cfg(test)]
mod links;
#[cfg(test)]
mod memos;
#[cfg(test)]
mod moved;
#[cfg(test)]
mod rewritten;
#[cfg(test)]
mod signatures;
#[cfg(test)]
mod validated;
