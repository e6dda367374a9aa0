//! Messages whose groups are all judged, and what these are cut to.
#![tactic(auto)]
