//! Judging a message a step at a time, from its groups to its outcome.
#![tactic(auto)]
