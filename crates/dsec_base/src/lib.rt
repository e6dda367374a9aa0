//! The ground that the validator and the signer stand on, as one crate: it passes on what the crates below make public.
#![tactic(auto)]

pub use dsec_builder::{
    AdditionalBuilder, AnswerBuilder, AuthorityBuilder, MessageBuilder, PushError, QuestionBuilder,
    law_of_built_messages,
};
pub use dsec_cause::{Cause, law_of_causes};
pub use dsec_message::{Header, Message, Sections, ShortMessage, law_of_flags};
pub use dsec_name::{Name, NameError, NameRef, NoMemory, Octets};
pub use dsec_number::{
    Class, DefMinMax, DigestAlgorithm, Nsec3HashAlgorithm, Rcode, Rtype, SecurityAlgorithm, Serial,
    Timestamp, Ttl, UnknownWord, law_of_algorithm_numbers, law_of_class_numbers,
    law_of_digest_numbers, law_of_dnssec_type_numbers, law_of_rcode_numbers, law_of_type_numbers,
};
pub use dsec_outside::{
    AskError, Failed, FailingSink, FailingSource, FailingUpstream, FixedUpstream, LIMIT,
    OctetsSink, OctetsSource, PIECE, Reading, Replies, Sink, Source, Stop, TableUpstream, Upstream,
    Writing, read_all, write_all,
};
pub use dsec_wire::{
    Cname, Data, Dname, Dnskey, Ds, EdnsOption, MessageError, Nsec, Nsec3, Nsec3param, Opt,
    Question, Questions, Record, Records, Rrsig, Soa, read_name,
};
pub use dsec_zonefile::{Entry, InplaceError, Zonefile, ZonefileError};
