//! The causes against the table of codes and texts, written out once more.

use dsec_base::Cause;
use std::fmt::InlineText;

/// Each cause with its code and its text.
const ROWS: [(Cause, u16, &str); 56] = [
    (Cause::RrsigWithoutRrset, 5, "RRSIG without RRset"),
    (Cause::NoTrustAnchor, 5, "No trust anchor for root."),
    (Cause::NoSignature, 6, "No signature"),
    (Cause::BadSignature, 6, "Bad signature"),
    (Cause::TooManyBadSignatures, 6, "too many bad signatures"),
    (
        Cause::TooManyBadSignaturesForDnskey,
        6,
        "too many bad signatures for DNSKEY",
    ),
    (
        Cause::BadSignatureForDnskey,
        6,
        "too many bad signature for DNSKEY",
    ),
    (
        Cause::TooManyUnsignedCnames,
        6,
        "too many CNAMEs without RRSIGs",
    ),
    (
        Cause::NoDnskeyForAnchor,
        6,
        "No DNSKEY RRset for trust anchor",
    ),
    (Cause::RequestFailed, 6, "request for DS or DNSKEY failed"),
    (
        Cause::RequestUnreadable,
        6,
        "request for DS or DNSKEY failed, parse error",
    ),
    (Cause::NoDnskey, 6, "No DNSKEY found"),
    (Cause::TooManyDsRecords, 6, "too many DS records"),
    (
        Cause::TooManyDnskeysForDs,
        6,
        "Too many DNSKEYs that do not match DS record",
    ),
    (
        Cause::NoSupportedDs,
        0,
        "No supported algorithm in DS RRset",
    ),
    (Cause::NsecForDsFromWildcard, 6, "NSEC for DS is wildcard"),
    (Cause::NsecProvesDs, 6, "NSEC proves DS"),
    (Cause::NsecForDsFromApex, 6, "NSEC for DS from apex"),
    (
        Cause::PrefixNsecFromWildcard,
        6,
        "prefix NSEC for DS is wildcard",
    ),
    (Cause::PrefixNsecIsDname, 6, "prefix NSEC for DS is DNAME"),
    (
        Cause::PrefixNsecIsDelegation,
        6,
        "prefix NSEC for DS is delegation",
    ),
    (
        Cause::EmptyNonTerminalNsecFromWildcard,
        6,
        "ENT NSEC for DS is expanded wildcard",
    ),
    (Cause::NsecNotUsable, 0, "NSEC found but not usable"),
    (
        Cause::Nsec3IterationsTooHigh,
        6,
        "NSEC3 with too high iteration count",
    ),
    (
        Cause::Nsec3UnsupportedAlgorithm,
        6,
        "NSEC3 with unsupported hash algorithm",
    ),
    (Cause::Nsec3BadOwnerHash, 6, "NSEC3 with bad owner hash"),
    (Cause::Nsec3FromWrongZone, 0, "NSEC3 from wrong zone"),
    (Cause::Nsec3ProvesDs, 6, "NSEC3 proves DS"),
    (Cause::Nsec3ForDsFromApex, 6, "NSEC3 for DS from apex"),
    (
        Cause::Nsec3ProvesNameMissingForDs,
        6,
        "NSEC3 proves name does not exist for DS",
    ),
    (Cause::NoProofForMissingDs, 6, "No proof for missing DS"),
    (
        Cause::TooManyAliases,
        6,
        "too many DNAME/CNAME records in sequence",
    ),
    (Cause::DnameFromWildcard, 6, "DNAME from wildcard"),
    (Cause::DnameTooLong, 6, "Failed to expand DNAME"),
    (Cause::CnameFromApexForDs, 6, "CNAME from apex for DS"),
    (Cause::SoaWrongClass, 6, "SOA with wrong class"),
    (Cause::SoaWrongName, 6, "SOA with wrong name"),
    (
        Cause::MissingSoa,
        6,
        "Missing SOA record for NODATA or NXDOMAIN",
    ),
    (
        Cause::NsecProvesType,
        6,
        "NSEC for NODATA proves requested Rtype or CNAME",
    ),
    (Cause::NsecFromApexForDs, 6, "NSEC from apex for DS"),
    (
        Cause::NsecFromParent,
        6,
        "NSEC from parent for non-DS rtype",
    ),
    (
        Cause::NsecMatches,
        6,
        "Found matching NSEC while trying to proof non-existance",
    ),
    (
        Cause::NsecShowsEmptyNonTerminal,
        6,
        "Found ENT NSEC while trying to proof non-existance",
    ),
    (
        Cause::NsecDnameOrDelegation,
        6,
        "Found NSEC with DNAME or delegation while trying to proof non-existance",
    ),
    (Cause::NsecFromWildcard, 6, "NSEC is expanded from wildcard"),
    (
        Cause::WildcardElsewhere,
        6,
        "wildcard does not match NSEC dereived closest encloser",
    ),
    (Cause::WildcardTooLong, 6, "cannot create wildcard record"),
    (
        Cause::Nsec3ProvesType,
        6,
        "NSEC3 for NODATA proves requested Rtype or CNAME",
    ),
    (Cause::Nsec3FromApexForDs, 6, "NSEC3 from apex for DS"),
    (
        Cause::Nsec3FromParent,
        6,
        "NSEC3 from parent for non-DS rtype",
    ),
    (
        Cause::Nsec3DnameOrDelegation,
        6,
        "Found NSEC3 with DNAME or delegation while trying to proof non-existance",
    ),
    (
        Cause::TooManyNsec3Hashes,
        6,
        "Too many NSEC3 hash calculations needed to find closest-encloser",
    ),
    (Cause::Nsec3OptOut, 0, "NSEC3 with Opt-Out"),
    (
        Cause::Nsec3IterationsInsecure,
        0,
        "NSEC3 with too high iteration count",
    ),
    (Cause::NoNsec3Proof, 0, "No NSEC3 proves non-existance"),
    (
        Cause::NoDenialProof,
        6,
        "No NEC/NSEC3 proof for non-existance",
    ),
];

/// Whether the cause has this code and this text, which is what it is shown as.
fn says(cause: Cause, code: u16, text: &str) -> bool {
    cause.code() == code && cause.text() == text && InlineText::<96>::of(cause).as_str() == text
}

#[test]
fn causes_have_their_codes_and_texts(rt: HostRuntime) {
    for (cause, code, text) in ROWS.iter() {
        assert!(rt; says(*cause, *code, text), "{text}");
    }
}
