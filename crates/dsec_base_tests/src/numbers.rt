//! Numbers and words against the registries' values, and moments on their circle.

use dsec_number::{Class, Rtype, Timestamp, UnknownWord};
use std::fmt::InlineText;

/// The types with a word of their own (RFC 1035 3.2.2, 3.2.3, RFC 3596, RFC 2782, RFC 6672, RFC 6891,
/// RFC 4034, RFC 5155, RFC 7344), and some without one (RFC 3597 5).
const TYPES: [(u16, &str); 25] = [
    (1, "A"),
    (2, "NS"),
    (5, "CNAME"),
    (6, "SOA"),
    (12, "PTR"),
    (13, "HINFO"),
    (15, "MX"),
    (16, "TXT"),
    (28, "AAAA"),
    (33, "SRV"),
    (39, "DNAME"),
    (41, "OPT"),
    (43, "DS"),
    (46, "RRSIG"),
    (47, "NSEC"),
    (48, "DNSKEY"),
    (50, "NSEC3"),
    (51, "NSEC3PARAM"),
    (59, "CDS"),
    (60, "CDNSKEY"),
    (255, "ANY"),
    (0, "TYPE0"),
    (3, "TYPE3"),
    (65280, "TYPE65280"),
    (65535, "TYPE65535"),
];

fn is_type(number: u16, word: &str) -> bool {
    let rtype = Rtype::from_int(number);
    InlineText::<16>::of(rtype).as_str() == word && word.parse::<Rtype>() == Ok(rtype)
}

#[test]
fn types_have_their_words(rt: HostRuntime) {
    for (number, word) in TYPES.iter() {
        assert!(rt; is_type(*number, word), "{word}");
    }
}

/// Classes and their words (RFC 1035 3.2.4, RFC 3597 5).
const CLASSES: [(u16, &str); 6] = [
    (1, "IN"),
    (3, "CH"),
    (0, "CLASS0"),
    (2, "CLASS2"),
    (255, "CLASS255"),
    (65535, "CLASS65535"),
];

fn is_class(number: u16, word: &str) -> bool {
    let class = Class::from_int(number);
    InlineText::<16>::of(class).as_str() == word && word.parse::<Class>() == Ok(class)
}

#[test]
fn classes_have_their_words(rt: HostRuntime) {
    for (number, word) in CLASSES.iter() {
        assert!(rt; is_class(*number, word), "{word}");
    }
}

/// Words of types in other forms.
const OTHER_FORMS: [(u16, &str); 5] = [
    (28, "aaaa"),
    (48, "DnsKey"),
    (51, "nSEC3param"),
    (731, "TyPe731"),
    (15, "TYPE00015"),
];

/// Texts that are the word of no type, nor of a class.
const UNKNOWN: [&str; 8] = ["", " ", "A ", " IN", "TYPE 1", "CLASS 1", "TYPE1 ", "1"];

fn is_unknown(word: &str) -> bool {
    word.parse::<Rtype>() == Err(UnknownWord) && word.parse::<Class>() == Err(UnknownWord)
}

#[test]
fn words_in_other_forms(rt: HostRuntime) {
    for (number, word) in OTHER_FORMS.iter() {
        assert!(rt;
            word.parse::<Rtype>() == Ok(Rtype::from_int(*number)),
            "{word}"
        );
    }
    for word in UNKNOWN.iter() {
        assert!(rt; is_unknown(word), "{word}");
    }
}

/// Inceptions, expirations, moments, and whether these lie between those (RFC 4034 3.1.5, RFC 1982).
const MOMENTS: [(u32, u32, u32, bool); 13] = [
    (4_294_967_000, 1000, 4_294_967_000, true),
    (4_294_967_000, 1000, 4_294_967_295, true),
    (4_294_967_000, 1000, 0, true),
    (4_294_967_000, 1000, 1000, true),
    (4_294_967_000, 1000, 1001, false),
    (4_294_967_000, 1000, 4_294_966_999, false),
    (4_294_967_000, 1000, 2_147_483_648, false),
    (1_700_000_000, 1_700_000_000, 1_700_000_000, true),
    // The longest period, and one of 2^31 seconds.
    (3_000_000_000, 852_516_351, 852_516_351, true),
    (3_000_000_000, 852_516_351, 852_516_352, false),
    (3_000_000_000, 852_516_352, 3_000_000_000, false),
    (3_000_000_000, 852_516_352, 852_516_352, false),
    (3_000_000_000, 852_516_352, 0, false),
];

fn is_in(inception: u32, expiration: u32, moment: u32) -> bool {
    let inception = Timestamp::from_int(inception);
    Timestamp::from_int(moment).in_period(inception, Timestamp::from_int(expiration))
}

#[test]
fn moments_stand_on_a_circle(rt: HostRuntime) {
    for (inception, expiration, moment, want) in MOMENTS.iter() {
        assert!(rt;
            is_in(*inception, *expiration, *moment) == *want,
            "{moment}"
        );
    }
}
