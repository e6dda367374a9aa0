//! Negative answers by hashes: what the NSEC3 records among a reply's judged groups deny or leave open, and what a reply that denies comes
//! to by its NSEC and NSEC3 records (RFC 4035 5.4, RFC 5155 8, RFC 9276 3.2).
#![tactic(auto)]

mod answer;
mod asked;
mod by_record;
mod compared;
mod conclusion;
mod covering;
mod gone;
mod look;
mod missing;
mod nodata;
mod nxdomain;
mod shown;
mod sighting;
mod source;
mod state;
mod step;
mod told;
mod types;
mod walk;
mod wildcard;

pub use compared::{law_of_equal_nsec3_cover_states, law_of_equal_nsec3_states};
pub use conclusion::{Conclusion, closer_denied, denied_at};
pub use covering::nsec3_for_not_exists_no_ce;
pub use dsec_negative::{Used, get_answer_state, get_soa_state, map_maybe_secure};
pub use missing::nsec3_for_not_exists;
pub use nodata::{nsec3_for_nodata, nsec3_for_nodata_wildcard};
pub use nxdomain::nsec3_for_nxdomain;
pub use state::{Nsec3NXState, Nsec3NXStateNoCE, Nsec3State};
pub use wildcard::check_not_exists_for_wildcard;
