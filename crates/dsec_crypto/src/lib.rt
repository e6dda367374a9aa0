//! Digests for DNSSEC, and who says that a signature is good.
#![tactic(auto)]

mod compared;
mod digest;
mod error;
mod iterated;
mod stand_in;
mod table;
mod verifier;

pub use compared::{
    law_of_equal_algorithm_errors, law_of_equal_digest_types, law_of_equal_digests,
    law_of_equal_dnskey_errors,
};
pub use digest::{Digest, DigestBuilder, DigestType};
pub use error::{AlgorithmError, FromDnskeyError};
pub use iterated::ih;
pub use stand_in::StandIn;
pub use table::TableVerifier;
pub use verifier::{By, Verifier};
