//! What a reply's NSEC3 records deny or leave open, what that means in the zones of which they are true, and what a reply that denies
//! comes to by NSEC and NSEC3 records together (RFC 5155 8, RFC 9276 3.2).
#![tactic(auto)]
