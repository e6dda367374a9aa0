//! Octet strings and domain names (RFC 1035 3.1, RFC 4034 6).
#![tactic(auto)]

mod compare;
mod compared;
mod display;
mod error;
mod label;
mod laws;
mod name;
mod name_ref;
mod octets;
mod order;
mod parts;
mod push_name;
mod text;

pub use compared::{law_of_equal_name_errors, law_of_equal_push_name_errors, law_of_equal_wants};
pub use error::{NameError, NoMemory};
pub use laws::{law_of_display, law_of_equality, law_of_text, law_of_wire};
pub use name::Name;
pub use name_ref::NameRef;
pub use octets::Octets;
pub use push_name::PushNameError;
pub use text::octet_of_digits;
