//! The numbers of DNS and DNSSEC, each a type of its own: types, classes, algorithms, rcodes and times.
#![tactic(auto)]

mod algorithm;
mod class;
mod compared;
mod error;
mod laws;
mod limits;
mod rcode;
mod registered;
mod rtype;
mod serial;
mod timestamp;
mod ttl;
mod word;

pub use algorithm::{DigestAlgorithm, Nsec3HashAlgorithm, SecurityAlgorithm};
pub use class::Class;
pub use compared::{
    law_of_equal_algorithms, law_of_equal_classes, law_of_equal_digests, law_of_equal_hashes,
    law_of_equal_rcodes, law_of_equal_serials, law_of_equal_timestamps, law_of_equal_ttls,
    law_of_equal_types, law_of_equal_unknown_words, law_of_ordered_algorithms,
    law_of_ordered_classes, law_of_ordered_digests, law_of_ordered_hashes, law_of_ordered_rcodes,
    law_of_ordered_ttls, law_of_ordered_types,
};
pub use error::UnknownWord;
pub use laws::{law_of_classes, law_of_types};
pub use limits::DefMinMax;
pub use rcode::Rcode;
pub use registered::{
    law_of_algorithm_numbers, law_of_class_numbers, law_of_digest_numbers,
    law_of_dnssec_type_numbers, law_of_rcode_numbers, law_of_type_numbers,
};
pub use rtype::Rtype;
pub use serial::Serial;
pub use timestamp::Timestamp;
pub use ttl::Ttl;
