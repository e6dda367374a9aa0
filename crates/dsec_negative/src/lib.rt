//! Negative answers: what the NSEC records among a reply's judged groups deny (RFC 2308 2, RFC 4035 5.4, RFC 6840 4).
#![tactic(auto)]

mod answer;
mod answers;
mod compared;
mod encloser;
mod missing;
mod nodata;
mod reply;
mod shown;
mod sighting;
mod soa;
mod source;
mod star;
mod state;
mod used;

pub use answer::Answer;
pub use answers::{nsec_closer_answer, nsec_name_answer, nsec_type_answer};
pub use compared::law_of_equal_nsec_states;
pub use dsec_found::JudgedGroup;
pub use encloser::star_closest_encloser;
pub use missing::nsec_for_not_exists;
pub use nodata::nsec_for_nodata;
pub use reply::{get_answer_state, make_ede, map_maybe_secure};
pub use shown::is_ds_above;
pub use soa::get_soa_state;
pub use star::{nsec_for_nodata_wildcard, nsec_for_nxdomain, star_at};
pub use state::{NsecNXState, NsecState};
pub use used::Used;
