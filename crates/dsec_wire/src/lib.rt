//! Record data and records, read exactly (RFC 1035 4.1, RFC 3597, RFC 4034, RFC 6891).
#![tactic(auto)]

mod canonical;
mod compared;
mod data;
mod data_reading;
mod dnskey;
mod ds;
mod edns;
mod error;
mod layout;
mod lists;
mod names;
mod nsec;
mod nsec3;
mod numbers;
mod part;
mod reading;
mod record;
mod rrsig;
mod signed_octets;
mod soa;
mod target;

pub use compared::{law_of_equal_items, law_of_equal_message_errors, law_of_equal_tails};
pub use data::Data;
pub use dnskey::Dnskey;
pub use ds::Ds;
pub use edns::{EdnsOption, Opt};
pub use error::MessageError;
pub use layout::{Form, Item, Tail, written_form};
pub use lists::{Questions, Records};
pub use names::read_name;
pub use nsec::Nsec;
pub use nsec3::{Nsec3, Nsec3param};
pub use numbers::u16_at;
pub use reading::{questions_at, record_at, records_at};
pub use record::{Question, Record};
pub use rrsig::Rrsig;
pub use soa::Soa;
pub use target::{Cname, Dname};
