//! The numbers of what has a name here, as the clauses of functions.

ghost use Rattle.std.specs.Prelude.{◌≡◌, [], ◌∷◌};

use crate::algorithm::{DigestAlgorithm, Nsec3HashAlgorithm, SecurityAlgorithm};
use crate::class::Class;
use crate::rcode::Rcode;
use crate::rtype::Rtype;

/// The numbers of the types A, NS, CNAME, SOA, PTR, HINFO, MX, TXT, AAAA, SRV, DNAME and OPT (RFC 1035 3.2.2, RFC 3596,
/// RFC 2782, RFC 6672, RFC 6891).
pub fn law_of_type_numbers() -> [u16; 12]
    ensures { result ≡ 1 ∷ 2 ∷ 5 ∷ 6 ∷ 12 ∷ 13 ∷ 15 ∷ 16 ∷ 28 ∷ 33 ∷ 39 ∷ 41 ∷ [] }
{
    [
        Rtype::A.to_int(),
        Rtype::NS.to_int(),
        Rtype::CNAME.to_int(),
        Rtype::SOA.to_int(),
        Rtype::PTR.to_int(),
        Rtype::HINFO.to_int(),
        Rtype::MX.to_int(),
        Rtype::TXT.to_int(),
        Rtype::AAAA.to_int(),
        Rtype::SRV.to_int(),
        Rtype::DNAME.to_int(),
        Rtype::OPT.to_int(),
    ]
}

/// The numbers of the types DS, RRSIG, NSEC, DNSKEY, NSEC3, NSEC3PARAM, CDS, CDNSKEY and ANY (RFC 4034, RFC 5155,
/// RFC 7344, RFC 1035 3.2.3).
pub fn law_of_dnssec_type_numbers() -> [u16; 9]
    ensures { result ≡ 43 ∷ 46 ∷ 47 ∷ 48 ∷ 50 ∷ 51 ∷ 59 ∷ 60 ∷ 255 ∷ [] }
{
    [
        Rtype::DS.to_int(),
        Rtype::RRSIG.to_int(),
        Rtype::NSEC.to_int(),
        Rtype::DNSKEY.to_int(),
        Rtype::NSEC3.to_int(),
        Rtype::NSEC3PARAM.to_int(),
        Rtype::CDS.to_int(),
        Rtype::CDNSKEY.to_int(),
        Rtype::ANY.to_int(),
    ]
}

/// The numbers of the classes IN and CH (RFC 1035 3.2.4).
pub fn law_of_class_numbers() -> [u16; 2]
    ensures { result ≡ 1 ∷ 3 ∷ [] }
{
    [Class::IN.to_int(), Class::CH.to_int()]
}

/// The numbers of the rcodes NOERROR, FORMERR, SERVFAIL, NXDOMAIN and REFUSED (RFC 1035 4.1.1).
pub fn law_of_rcode_numbers() -> [u16; 5]
    ensures { result ≡ 0 ∷ 1 ∷ 2 ∷ 3 ∷ 5 ∷ [] }
{
    [
        Rcode::NOERROR.to_int(),
        Rcode::FORMERR.to_int(),
        Rcode::SERVFAIL.to_int(),
        Rcode::NXDOMAIN.to_int(),
        Rcode::REFUSED.to_int(),
    ]
}

/// The numbers of RSA/MD5, RSA/SHA-1 and its alias for NSEC3, RSA/SHA-256, RSA/SHA-512, ECDSA over P-256 and P-384,
/// Ed25519 and Ed448 (RFC 4034 A.1, RFC 5155 2, RFC 5702, RFC 6605, RFC 8080).
pub fn law_of_algorithm_numbers() -> [u8; 9]
    ensures { result ≡ 1 ∷ 5 ∷ 7 ∷ 8 ∷ 10 ∷ 13 ∷ 14 ∷ 15 ∷ 16 ∷ [] }
{
    [
        SecurityAlgorithm::RSAMD5.to_int(),
        SecurityAlgorithm::RSASHA1.to_int(),
        SecurityAlgorithm::RSASHA1_NSEC3_SHA1.to_int(),
        SecurityAlgorithm::RSASHA256.to_int(),
        SecurityAlgorithm::RSASHA512.to_int(),
        SecurityAlgorithm::ECDSAP256SHA256.to_int(),
        SecurityAlgorithm::ECDSAP384SHA384.to_int(),
        SecurityAlgorithm::ED25519.to_int(),
        SecurityAlgorithm::ED448.to_int(),
    ]
}

/// The numbers of the digests SHA-1, SHA-256, GOST and SHA-384 of DS records, and of SHA-1 of NSEC3 records (RFC 4034 A.2,
/// RFC 4509, RFC 5933, RFC 6605, RFC 5155 11).
pub fn law_of_digest_numbers() -> [u8; 5]
    ensures { result ≡ 1 ∷ 2 ∷ 3 ∷ 4 ∷ 1 ∷ [] }
{
    [
        DigestAlgorithm::SHA1.to_int(),
        DigestAlgorithm::SHA256.to_int(),
        DigestAlgorithm::GOST.to_int(),
        DigestAlgorithm::SHA384.to_int(),
        Nsec3HashAlgorithm::SHA1.to_int(),
    ]
}
