//! Records as zone text, which is read back as the records.
#![tactic(auto)]

mod laws;
mod lines;
mod record_line;
mod sending;

pub use laws::law_of_records_text;
pub use record_line::push_record_line;
pub use sending::send_records;
