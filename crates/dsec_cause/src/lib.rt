//! The causes of verdicts, as extended DNS errors (RFC 8914).
#![tactic(auto)]

mod cause;
mod compared;
mod laws;

pub use cause::Cause;
pub use compared::law_of_equal_causes;
pub use laws::law_of_causes;
