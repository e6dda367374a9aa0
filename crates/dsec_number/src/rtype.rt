//! Types of records (RFC 1035 3.2.2).

ghost use Rattle.std.specs.Prelude.{◌≡◌};
ghost use Rattle.dsec_number.specs.Rows.{words_in};
ghost use Rattle.dsec_number.specs.Words.{type_words};

use crate::error::UnknownWord;
use crate::word::{Row, number, word};
use std::fmt;
use std::marker::Model;
use std::str::FromStr;

/// The type of a record, or of the records that are asked for.
#[derive(Clone, Copy, Debug, PartialEq, Eq, PartialOrd, Ord, Hash)]
pub struct Rtype {
    number: u16,
}

impl Model for Rtype {
    ghost use Rattle.std.specs.Prelude.{ℕ};

    ghost Value = { ℕ };

    ghost view = { λ it. it.number };

    ghost inverse = { λ n. record { number = n } };
}

impl Rtype {
    /// An IPv4 address (RFC 1035 3.4.1).
    pub const A: Rtype = Rtype { number: 1 };

    /// A name server (RFC 1035 3.3.11).
    pub const NS: Rtype = Rtype { number: 2 };

    /// An alias (RFC 1035 3.3.1).
    pub const CNAME: Rtype = Rtype { number: 5 };

    /// The start of a zone (RFC 1035 3.3.13).
    pub const SOA: Rtype = Rtype { number: 6 };

    /// A name for an address (RFC 1035 3.3.12).
    pub const PTR: Rtype = Rtype { number: 12 };

    /// A host's processor and system (RFC 1035 3.3.2).
    pub const HINFO: Rtype = Rtype { number: 13 };

    /// A mail exchange (RFC 1035 3.3.9).
    pub const MX: Rtype = Rtype { number: 15 };

    /// Texts (RFC 1035 3.3.14).
    pub const TXT: Rtype = Rtype { number: 16 };

    /// An IPv6 address (RFC 3596 2.1).
    pub const AAAA: Rtype = Rtype { number: 28 };

    /// The place of a service (RFC 2782).
    pub const SRV: Rtype = Rtype { number: 33 };

    /// An alias of a subtree (RFC 6672).
    pub const DNAME: Rtype = Rtype { number: 39 };

    /// The extension record of EDNS (RFC 6891 6.1).
    pub const OPT: Rtype = Rtype { number: 41 };

    /// The digest of a child zone's key (RFC 4034 5).
    pub const DS: Rtype = Rtype { number: 43 };

    /// A signature (RFC 4034 3).
    pub const RRSIG: Rtype = Rtype { number: 46 };

    /// The next name of a zone (RFC 4034 4).
    pub const NSEC: Rtype = Rtype { number: 47 };

    /// A key of a zone (RFC 4034 2).
    pub const DNSKEY: Rtype = Rtype { number: 48 };

    /// The next hashed name of a zone (RFC 5155 3).
    pub const NSEC3: Rtype = Rtype { number: 50 };

    /// How a zone hashes its names (RFC 5155 4).
    pub const NSEC3PARAM: Rtype = Rtype { number: 51 };

    /// The DS record that a child asks for (RFC 7344 3.1).
    pub const CDS: Rtype = Rtype { number: 59 };

    /// The key that a child asks a DS record of (RFC 7344 3.2).
    pub const CDNSKEY: Rtype = Rtype { number: 60 };

    /// All types, in a question (RFC 1035 3.2.3).
    pub const ANY: Rtype = Rtype { number: 255 };

    /// The type of this number.
    pub const fn from_int(number: u16) -> Self
        ensures { result ≡ number }
    {
        Rtype { number }
    }

    /// The type's number.
    pub const fn to_int(self) -> u16
        ensures { result ≡ self }
    {
        self.number
    }
}

/// The words of types.
fn rows() -> [Row; 21]
    ensures { words_in result ≡ type_words }
{
    [
        Row {
            word: "A",
            number: Rtype::A.number,
        },
        Row {
            word: "NS",
            number: Rtype::NS.number,
        },
        Row {
            word: "CNAME",
            number: Rtype::CNAME.number,
        },
        Row {
            word: "SOA",
            number: Rtype::SOA.number,
        },
        Row {
            word: "PTR",
            number: Rtype::PTR.number,
        },
        Row {
            word: "HINFO",
            number: Rtype::HINFO.number,
        },
        Row {
            word: "MX",
            number: Rtype::MX.number,
        },
        Row {
            word: "TXT",
            number: Rtype::TXT.number,
        },
        Row {
            word: "AAAA",
            number: Rtype::AAAA.number,
        },
        Row {
            word: "SRV",
            number: Rtype::SRV.number,
        },
        Row {
            word: "DNAME",
            number: Rtype::DNAME.number,
        },
        Row {
            word: "OPT",
            number: Rtype::OPT.number,
        },
        Row {
            word: "DS",
            number: Rtype::DS.number,
        },
        Row {
            word: "RRSIG",
            number: Rtype::RRSIG.number,
        },
        Row {
            word: "NSEC",
            number: Rtype::NSEC.number,
        },
        Row {
            word: "DNSKEY",
            number: Rtype::DNSKEY.number,
        },
        Row {
            word: "NSEC3",
            number: Rtype::NSEC3.number,
        },
        Row {
            word: "NSEC3PARAM",
            number: Rtype::NSEC3PARAM.number,
        },
        Row {
            word: "CDS",
            number: Rtype::CDS.number,
        },
        Row {
            word: "CDNSKEY",
            number: Rtype::CDNSKEY.number,
        },
        Row {
            word: "ANY",
            number: Rtype::ANY.number,
        },
    ]
}

/// Reads a word in either case, and each number also as `TYPE` and decimal digits (RFC 3597 5).
impl FromStr for Rtype {
    type Err = UnknownWord;

    ghost use Rattle.std.specs.Prelude.{codes};
    ghost use Rattle.std.specs.Result.{result_ok};
    ghost use Rattle.dsec_number.specs.Words.{IsNumberOf, type_words};

    ghost from_str_gives = { λ text result. IsNumberOf type_words (codes "TYPE") text (result_ok result) };

    fn from_str(text: &str) -> Result<Self, UnknownWord> {
        match number(&rows(), b"TYPE", text.as_bytes()) {
            Some(number) => Ok(Rtype { number }),
            None => Err(UnknownWord),
        }
    }
}

/// The word, or `TYPE` and the number.
impl fmt::Display for Rtype {
    ghost use Rattle.std.specs.Prelude.{codes, Some};
    ghost use Rattle.dsec_number.specs.Words.{type_words, word_of};

    ghost output = { λ it. Some (word_of type_words (codes "TYPE") it) };

    fn fmt<W: fmt::Write>(&self, f: &mut fmt::Formatter<W>) -> fmt::Result {
        match word(&rows(), self.number) {
            Some(word) => f.write_str(word),
            None => write!(f, "TYPE{}", self.number),
        }
    }
}
