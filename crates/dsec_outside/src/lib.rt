//! The outside: what is read, what is written and who is asked, as traits whose faults are counted; their forms
//! in memory; and the adapters over std's readers and writers, which are the trusted edge.
#![tactic(auto)]

mod answers;
mod compared;
mod heard;
mod limit;
mod memory;
mod replies;
mod sending;
mod sink;
mod sizes;
mod source;
mod std_io;
mod upstream;
mod whole;

pub use answers::{FailingUpstream, FixedUpstream, TableUpstream};
pub use compared::{
    law_of_equal_ask_errors, law_of_equal_failures, law_of_equal_halts, law_of_equal_stops,
};
pub use heard::{Heard, HearingUpstream};
pub use limit::line_past;
pub use memory::{FailingSink, FailingSource, OctetsSink, OctetsSource};
pub use replies::Replies;
pub use sending::{BLOCK, Halt, send, send_block};
pub use sink::Sink;
pub use sizes::law_of_sizes;
pub use source::{Failed, Source};
pub use std_io::{Reading, Writing};
pub use upstream::{AskError, Upstream};
pub use whole::{LIMIT, PIECE, Stop, read_all, write_all};
