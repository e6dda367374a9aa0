//! What NSEC and NSEC3 records show of a name where no DS set stands for it (RFC 4034 4, RFC 4035 5.2, RFC 5155 8.9, RFC 6840 4.4).
#![tactic(auto)]

mod bearing;
mod both;
mod compared;
mod decision;
mod expansion;
mod finding;
mod hashed_decision;
mod hashed_search;
mod laws;
mod owner;
mod pair;
mod range;
mod reading;
mod search;

pub use both::denials_for_missing_ds;
pub use compared::{law_of_equal_ds_findings, law_of_equal_signed_places};
pub use expansion::is_expanded;
pub use finding::{DsFinding, SignedAt};
pub use hashed_search::nsec3_for_missing_ds;
pub use laws::{law_of_covering, law_of_delegation};
pub use range::nsec_in_range;
pub use search::nsec_for_missing_ds;
