//! What a reply's NSEC records deny, and what that means in the zones of which they are true (RFC 4035 5.4, RFC 6840 4).
#![tactic(auto)]
