//! Judged messages, rewritten: their groups without duplicates, the TTLs cut (RFC 1035 4.1, RFC 2181 5, RFC 4035 5.3.3).
#![tactic(auto)]

mod answers;
mod authorities;
mod bounded;
mod compared;
mod cut;
mod error;
mod kept;
mod laws;
mod rewriting;
mod writing;

pub use bounded::{BoundedGroup, adjusted_ttl};
pub use compared::law_of_equal_rewrite_errors;
pub use error::RewriteError;
pub use laws::{law_of_cut_sets, law_of_cut_ttls, law_of_second_rewriting};
pub use rewriting::{is_due, rebuild_msg, rewrite};
