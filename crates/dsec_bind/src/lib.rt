//! Records as other programs write them: DNSKEY records in the text that BIND keeps keys in.
#![tactic(auto)]

mod bind;
mod compared;
mod display;
mod error;
mod key;
mod laws;
mod line;

pub use bind::parse_from_bind;
pub use compared::law_of_equal_key_text_errors;
pub use display::{BindDisplay, display_as_bind};
pub use error::ParseDnskeyTextError;
pub use laws::law_of_bind_text;
