//! What a message comes to by its judged groups: by an answer, or by a denial, where aliases lead (RFC 1034 3.6.2, RFC 4033 5,
//! RFC 2308 2, RFC 4035 5, RFC 5155 8).
#![tactic(auto)]

mod aliases;
mod answer;
mod answered;
mod concluded;
mod denied;
mod outcome;
mod used;

pub use answer::{bogus_under, on_judged, on_questions};
pub use dsec_found::{SharedCause, SharedLinks};
pub use outcome::{Outcome, Why};
pub use used::UsedGroup;
