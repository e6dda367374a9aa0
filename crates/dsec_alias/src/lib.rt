//! Paths of aliases through a reply's judged groups, and what they come to (RFC 1034 3.6.2, RFC 6672 2.2, 3.1).
#![tactic(auto)]
