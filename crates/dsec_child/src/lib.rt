//! What replies say of names below an anchor: the keys that anchors and DS records admit, and the nodes that come of them (RFC 4035 5).
#![tactic(auto)]

mod admit;
mod alias;
mod below;
mod child_keys;
mod compared;
mod ds_set;
mod island;
mod missing;
mod reply;
mod search;
mod signed_set;
mod tries;
mod way;

pub use admit::{Admission, admit_by_anchor, admit_by_ds};
pub use below::by_ds_reply;
pub use child_keys::by_keys;
pub use compared::law_of_equal_admissions;
pub use ds_set::Below;
pub use island::anchored;
pub use search::find_key_for_ds;
