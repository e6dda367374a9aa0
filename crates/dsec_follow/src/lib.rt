//! Following aliases through a reply's judged groups (RFC 1034 3.6.2, RFC 4035 5.3.4, RFC 6672 2.2, 3.1).
#![tactic(auto)]

mod end;
mod expansion;
mod next;
mod path;
mod reply;
mod turn;

pub use end::{AliasEnd, AliasStep, AliasSteps};
pub use expansion::closest_encloser;
pub use path::do_cname_dname;
