//! Record sets, the octets that signatures are over, one signature's check, and links of chains (RFC 4034 3.1.8, RFC 4035 5.3).
#![tactic(auto)]

mod bytes;
mod canonical;
mod check;
mod dnskey_ext;
mod ds_ext;
mod key_digest;
mod key_search;
mod key_size;
mod lasting;
mod link;
mod link_text;
mod record_set;
mod rrsig_ext;
mod shown;
mod signing;
mod supported;
mod tagged_key;
mod verified;

pub use bytes::{push_fixed, push_head, signed_bytes};
pub use check::{matches, may_sign};
pub use dnskey_ext::DnskeyExt;
pub use ds_ext::DsExt;
pub use key_search::{KeySearch, KeyTrial, first_key_for, law_of_equal_searches};
pub use lasting::ttl_for_sig;
pub use link::{Link, LinkKind, Links, law_of_equal_kinds};
pub use link_text::push_link;
pub use record_set::RecordSet;
pub use rrsig_ext::RrsigExt;
pub use shown::Shown;
pub use supported::{supported_algorithm, supported_digest};
pub use tagged_key::TaggedKey;
