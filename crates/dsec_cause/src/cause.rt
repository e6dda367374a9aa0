//! The causes of verdicts, each a code and a text (RFC 8914 4: 0 other error, 5 DNSSEC indeterminate, 6 DNSSEC bogus).

ghost use Rattle.std.specs.Prelude.{◌≡◌, Some};
ghost use Rattle.dsec_cause.specs.Causes.{code_of, text_of};

use std::fmt;

/// Why a verdict is as it is: an extended DNS error with a fixed text.
#[derive(Clone, Copy, Debug, PartialEq, Eq)]
pub enum Cause {
    /// A group holds signatures alone.
    RrsigWithoutRrset,
    /// No anchor stands at or above the name.
    NoTrustAnchor,
    /// No signature of the set matches a held key.
    NoSignature,
    /// Signatures match keys, and none is good.
    BadSignature,
    /// The first signatures and keys that match aren't good, as many as are tried.
    TooManyBadSignatures,
    /// The same of a DNSKEY set.
    TooManyBadSignaturesForDnskey,
    /// Signatures of a DNSKEY set match keys that a DS set admits, and none is good.
    BadSignatureForDnskey,
    /// More single CNAME records without a signature than aliases are followed.
    TooManyUnsignedCnames,
    /// The anchor's key set could not be had.
    NoDnskeyForAnchor,
    /// The upstream failed.
    RequestFailed,
    /// The upstream's reply can't be read.
    RequestUnreadable,
    /// A reply has no DNSKEY set.
    NoDnskey,
    /// More DS records than are tried.
    TooManyDsRecords,
    /// More keys of a DS record's algorithm and tag than are tried.
    TooManyDnskeysForDs,
    /// A signed DS set has no record with a known algorithm and digest.
    NoSupportedDs,
    /// The NSEC record at the name is expanded from a wildcard.
    NsecForDsFromWildcard,
    /// The NSEC record at the name has DS.
    NsecProvesDs,
    /// The NSEC record at the name has SOA.
    NsecForDsFromApex,
    /// The NSEC record above the name is expanded from a wildcard.
    PrefixNsecFromWildcard,
    /// The NSEC record above the name has DNAME.
    PrefixNsecIsDname,
    /// The NSEC record above the name has NS without SOA.
    PrefixNsecIsDelegation,
    /// The NSEC record that shows an empty non-terminal is expanded from a wildcard.
    EmptyNonTerminalNsecFromWildcard,
    /// A reply has NSEC records, and none proves that DS is missing.
    NsecNotUsable,
    /// An NSEC3 record has more iterations than are computed.
    Nsec3IterationsTooHigh,
    /// An NSEC3 record has another hash than SHA-1.
    Nsec3UnsupportedAlgorithm,
    /// The first label of an NSEC3 record isn't a hash.
    Nsec3BadOwnerHash,
    /// An NSEC3 record is of another zone.
    Nsec3FromWrongZone,
    /// The NSEC3 record at the name has DS.
    Nsec3ProvesDs,
    /// The NSEC3 record at the name has SOA.
    Nsec3ForDsFromApex,
    /// An NSEC3 record without opt-out covers the name.
    Nsec3ProvesNameMissingForDs,
    /// Nothing proves that DS is missing.
    NoProofForMissingDs,
    /// More aliases than are followed.
    TooManyAliases,
    /// A DNAME record is expanded from a wildcard.
    DnameFromWildcard,
    /// The name that a DNAME record makes passes 255 octets.
    DnameTooLong,
    /// The CNAME record at the name of a question for DS is the child's.
    CnameFromApexForDs,
    /// The SOA record is of another class.
    SoaWrongClass,
    /// The SOA record isn't at or above the name.
    SoaWrongName,
    /// A denial has no SOA record.
    MissingSoa,
    /// The NSEC record at the name has the type or CNAME.
    NsecProvesType,
    /// The NSEC record at the name is of the child's apex.
    NsecFromApexForDs,
    /// The NSEC record at the name is of the zone above a cut.
    NsecFromParent,
    /// An NSEC record stands at the name.
    NsecMatches,
    /// The next name of an NSEC record lies below the name.
    NsecShowsEmptyNonTerminal,
    /// An NSEC record above the name has DNAME, or NS without SOA.
    NsecDnameOrDelegation,
    /// An NSEC record is expanded from a wildcard.
    NsecFromWildcard,
    /// The wildcard isn't the closest encloser's by the NSEC record.
    WildcardElsewhere,
    /// The wildcard of the closest encloser passes 255 octets.
    WildcardTooLong,
    /// The NSEC3 record at the name has the type or CNAME.
    Nsec3ProvesType,
    /// The NSEC3 record at the name is of the child's apex.
    Nsec3FromApexForDs,
    /// The NSEC3 record at the name is of the zone above a cut.
    Nsec3FromParent,
    /// An NSEC3 record on the way has DNAME, or NS without SOA.
    Nsec3DnameOrDelegation,
    /// More hashes than are computed for a closest encloser.
    TooManyNsec3Hashes,
    /// The covering NSEC3 record has opt-out.
    Nsec3OptOut,
    /// An NSEC3 record has more iterations than count as secure.
    Nsec3IterationsInsecure,
    /// No closest encloser has a covered next name.
    NoNsec3Proof,
    /// Nothing proves the denial.
    NoDenialProof,
}

impl Cause {
    /// The code of the extended DNS error (RFC 8914 4).
    pub fn code(self) -> u16
        ensures { result ≡ code_of self }
    {
        match self {
            Cause::NoSupportedDs
            | Cause::NsecNotUsable
            | Cause::Nsec3FromWrongZone
            | Cause::Nsec3OptOut
            | Cause::Nsec3IterationsInsecure
            | Cause::NoNsec3Proof => 0,
            Cause::RrsigWithoutRrset | Cause::NoTrustAnchor => 5,
            _ => 6,
        }
    }

    /// The text of the extended DNS error.
    pub fn text(self) -> &'static str
        ensures { result.now ≡ text_of self }
    {
        match self {
            Cause::RrsigWithoutRrset => "RRSIG without RRset",
            Cause::NoTrustAnchor => "No trust anchor for root.",
            Cause::NoSignature => "No signature",
            Cause::BadSignature => "Bad signature",
            Cause::TooManyBadSignatures => "too many bad signatures",
            Cause::TooManyBadSignaturesForDnskey => "too many bad signatures for DNSKEY",
            Cause::BadSignatureForDnskey => "too many bad signature for DNSKEY",
            Cause::TooManyUnsignedCnames => "too many CNAMEs without RRSIGs",
            Cause::NoDnskeyForAnchor => "No DNSKEY RRset for trust anchor",
            Cause::RequestFailed => "request for DS or DNSKEY failed",
            Cause::RequestUnreadable => "request for DS or DNSKEY failed, parse error",
            Cause::NoDnskey => "No DNSKEY found",
            Cause::TooManyDsRecords => "too many DS records",
            Cause::TooManyDnskeysForDs => "Too many DNSKEYs that do not match DS record",
            Cause::NoSupportedDs => "No supported algorithm in DS RRset",
            Cause::NsecForDsFromWildcard => "NSEC for DS is wildcard",
            Cause::NsecProvesDs => "NSEC proves DS",
            Cause::NsecForDsFromApex => "NSEC for DS from apex",
            Cause::PrefixNsecFromWildcard => "prefix NSEC for DS is wildcard",
            Cause::PrefixNsecIsDname => "prefix NSEC for DS is DNAME",
            Cause::PrefixNsecIsDelegation => "prefix NSEC for DS is delegation",
            Cause::EmptyNonTerminalNsecFromWildcard => "ENT NSEC for DS is expanded wildcard",
            Cause::NsecNotUsable => "NSEC found but not usable",
            Cause::Nsec3IterationsTooHigh => "NSEC3 with too high iteration count",
            Cause::Nsec3UnsupportedAlgorithm => "NSEC3 with unsupported hash algorithm",
            Cause::Nsec3BadOwnerHash => "NSEC3 with bad owner hash",
            Cause::Nsec3FromWrongZone => "NSEC3 from wrong zone",
            Cause::Nsec3ProvesDs => "NSEC3 proves DS",
            Cause::Nsec3ForDsFromApex => "NSEC3 for DS from apex",
            Cause::Nsec3ProvesNameMissingForDs => "NSEC3 proves name does not exist for DS",
            Cause::NoProofForMissingDs => "No proof for missing DS",
            Cause::TooManyAliases => "too many DNAME/CNAME records in sequence",
            Cause::DnameFromWildcard => "DNAME from wildcard",
            Cause::DnameTooLong => "Failed to expand DNAME",
            Cause::CnameFromApexForDs => "CNAME from apex for DS",
            Cause::SoaWrongClass => "SOA with wrong class",
            Cause::SoaWrongName => "SOA with wrong name",
            Cause::MissingSoa => "Missing SOA record for NODATA or NXDOMAIN",
            Cause::NsecProvesType => "NSEC for NODATA proves requested Rtype or CNAME",
            Cause::NsecFromApexForDs => "NSEC from apex for DS",
            Cause::NsecFromParent => "NSEC from parent for non-DS rtype",
            Cause::NsecMatches => "Found matching NSEC while trying to proof non-existance",
            Cause::NsecShowsEmptyNonTerminal =>
                "Found ENT NSEC while trying to proof non-existance",
            Cause::NsecDnameOrDelegation =>
                "Found NSEC with DNAME or delegation while trying to proof non-existance",
            Cause::NsecFromWildcard => "NSEC is expanded from wildcard",
            Cause::WildcardElsewhere => "wildcard does not match NSEC dereived closest encloser",
            Cause::WildcardTooLong => "cannot create wildcard record",
            Cause::Nsec3ProvesType => "NSEC3 for NODATA proves requested Rtype or CNAME",
            Cause::Nsec3FromApexForDs => "NSEC3 from apex for DS",
            Cause::Nsec3FromParent => "NSEC3 from parent for non-DS rtype",
            Cause::Nsec3DnameOrDelegation =>
                "Found NSEC3 with DNAME or delegation while trying to proof non-existance",
            Cause::TooManyNsec3Hashes =>
                "Too many NSEC3 hash calculations needed to find closest-encloser",
            Cause::Nsec3OptOut => "NSEC3 with Opt-Out",
            Cause::Nsec3IterationsInsecure => "NSEC3 with too high iteration count",
            Cause::NoNsec3Proof => "No NSEC3 proves non-existance",
            Cause::NoDenialProof => "No NEC/NSEC3 proof for non-existance",
        }
    }
}

/// The text.
impl fmt::Display for Cause {
    ghost output = { λ cause. Some (text_of cause) };

    fn fmt<W: fmt::Write>(&self, f: &mut fmt::Formatter<W>) -> fmt::Result {
        f.write_str(self.text())
    }
}
