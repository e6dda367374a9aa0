//! Keys to sign by, and the signature of one set (RFC 4034 3, RFC 4035 2.2).
#![tactic(auto)]

mod compared;
mod config;
mod error;
mod message;
mod rrset;
mod sign_raw;
mod signing_key;
mod sorted_set;
mod stand_in_key;
mod unsorted_set;

pub use compared::{
    law_of_equal_rrsig_configs, law_of_equal_sign_errors, law_of_equal_signing_errors,
};
pub use config::GenerateRrsigConfig;
pub use error::{SignError, SigningError};
pub use rrset::{sign_rrset, sign_sorted_rrset_in};
pub use sign_raw::SignRaw;
pub use signing_key::SigningKey;
pub use sorted_set::{sign_set, tag_of};
pub use stand_in_key::StandInKey;
