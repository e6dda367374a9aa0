//! Ordinary replies, and when a message is refused.
#![tactic(auto)]
