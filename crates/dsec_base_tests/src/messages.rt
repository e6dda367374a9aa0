//! Messages item for item, their OPT records, and key tags, against other software's reading and the standards' examples.

use crate::zones::{is_hex, push_record};
use dsec_message::Message;
use dsec_name::Octets;
use dsec_number::{Rcode, Rtype};
use dsec_wire::{Data, Records};
use std::alloc::Global;
use std::test::Fail;

/// Messages, and their items without pointers, section for section (RFC 1035 4.1).
#[rattlefmt::skip]
const MESSAGES: [(&str, &str); 6] = [
    (
        "00008400000100020000000003777777076578616d706c65000001000103777777076578616d706c65000001000100000e100004c000020103777777076578616d706c6500002e000100000e10003b00010d0200000e10000003e8000000000510076578616d706c65005740ff5d596306bfe2c5c7bd74ece6c7082af619d51f42ffbb83f974b9ca9083",
        "03777777076578616d706c650000010001\
        03777777076578616d706c65000001000100000e100004c0000201\
        03777777076578616d706c6500002e000100000e10003b00010d0200000e10000003e8000000000510076578616d706c65005740ff5d596306bfe2c5c7bd74ece6c7082af619d51f42ffbb83f974b9ca9083",
    ),
    (
        "00078400000100040002000103777777076578616d706c6500000f0001c00c000f000100000e100009000a044d61696cc010c0100006000100000e100026024e53c00c0a486f73746d6173746572c010000102030405060708090a0b0c0d0e0f10111213c00c0021000100000e10000c000100021f900353524cc010c00c0023000100000e10000d0001000201550341424300c00cc010001a000100000e1000080005c00c0158c010c0100011000100000e100004c00cc010c010002b000100000e10002405100d02000102030405060708090a0b0c0d0e0f101112131415161718191a1b1c1d1e1f",
        "03777777076578616d706c6500000f0001\
        03777777076578616d706c6500000f000100000e100010000a044d61696c076578616d706c6500\
        076578616d706c65000006000100000e100038024e5303777777076578616d706c65000a486f73746d6173746572076578616d706c6500000102030405060708090a0b0c0d0e0f10111213\
        03777777076578616d706c65000021000100000e100013000100021f900353524c076578616d706c6500\
        03777777076578616d706c65000023000100000e100018000100020155034142430003777777076578616d706c6500\
        076578616d706c6500001a000100000e10001a000503777777076578616d706c65000158076578616d706c6500\
        076578616d706c65000011000100000e10001603777777076578616d706c6500076578616d706c6500\
        076578616d706c6500002b000100000e10002405100d02000102030405060708090a0b0c0d0e0f101112131415161718191a1b1c1d1e1f",
    ),
    (
        "00078400000100010002000203777777076578616d706c6500000f0001c010002f000100000e10000e03414243c0100006400000000003c0100032000100000e10001f0101000a02abcd14000102030405060708090a0b0c0d0e0f10111213000122c0100033000100000e1000050100000a00c010ff00000100000e100004c00c0102c00c0001000100000e100004c0000201dead",
        "03777777076578616d706c6500000f0001\
        076578616d706c6500002f000100000e10001503414243076578616d706c65000006400000000003\
        076578616d706c65000032000100000e10001f0101000a02abcd14000102030405060708090a0b0c0d0e0f10111213000122\
        076578616d706c65000033000100000e1000050100000a00\
        076578616d706c6500ff00000100000e100004c00c0102\
        03777777076578616d706c65000001000100000e100004c0000201",
    ),
    (
        "00078003000100000000000303777777076578616d706c6500000f0001c00c0001000100000e100004c000020100002904d0120080000004000300040000290001340000000000",
        "03777777076578616d706c6500000f0001\
        03777777076578616d706c65000001000100000e100004c0000201\
        00002904d012008000000400030004\
        0000290001340000000000",
    ),
    (
        "00078400000100010000000003777777076578616d706c6500000f0001c00c0001000100000e100004c0000201c00c000f000100000e100009000a044d61696cc010",
        "03777777076578616d706c6500000f0001\
        03777777076578616d706c65000001000100000e100004c0000201",
    ),
    (
        "000780030001000000010001014100000100010141000006000100000e10001b026e73c00cc00c000000000000000000000000000000000000000000002904d0000080000000",
        "01410000010001\
        0141000006000100000e10001d026e730141000141000000000000000000000000000000000000000000\
        00002904d0000080000000",
    ),
];

/// The message of these octets in hexadecimal.
fn message_of(alloc: Global, text: &str) -> Option<Message> {
    match hex::decode(alloc, text) {
        Ok(octets) => Message::from_octets(octets).ok(),
        Err(_) => None,
    }
}

fn push_questions(alloc: Global, out: &mut Vec<u8>, message: &Message) -> Result<(), Fail> {
    let questions = message.question(alloc)?;
    for question in questions.as_slice() {
        question.qname().compose(out)?;
        out.extend_from_slice(&question.qtype().to_int().to_be_bytes())?;
        out.extend_from_slice(&question.qclass().to_int().to_be_bytes())?;
    }
    Ok(())
}

fn push_records(out: &mut Vec<u8>, records: &Records) -> Result<(), Fail> {
    for record in records.as_slice() {
        push_record(out, record)?;
    }
    Ok(())
}

/// The message's items without pointers.
fn items_of(alloc: Global, message: &Message) -> Result<Vec<u8>, Fail> {
    let mut out = Vec::new(alloc);
    push_questions(alloc, &mut out, message)?;
    push_records(&mut out, &message.answer(alloc)?)?;
    push_records(&mut out, &message.authority(alloc)?)?;
    push_records(&mut out, &message.additional(alloc)?)?;
    Ok(out)
}

fn has_items(alloc: Global, text: &str, items: &str) -> Result<bool, Fail> {
    match message_of(alloc, text) {
        Some(message) => Ok(is_hex(alloc, &items_of(alloc, &message)?, items)),
        None => Ok(false),
    }
}

#[test]
fn messages_item_for_item(rt: HostRuntime) -> Result<(), Fail> {
    for (text, items) in MESSAGES.iter() {
        assert!(rt; has_items(rt.alloc(), text, items)?, "{text}");
    }
    Ok(())
}

/// Messages, the TTL of their OPT record, or 0 where there is none, and their rcode (RFC 6891 6.1.3): with two OPT records, with
/// an unreadable record before one and behind one, and with one in the answer section.
#[rattlefmt::skip]
const OPTIONS: [(&str, u32, u16); 5] = [
    ("00078003000100000000000303777777076578616d706c6500000f0001c00c0001000100000e100004c000020100002904d0120080000004000300040000290001340000000000", 302022656, 291),
    ("00078003000100000000000203777777076578616d706c6500000f0001c00c000f000100000e1000010000002904d012008000000400030004", 0, 3),
    ("00078003000100000000000203777777076578616d706c6500000f000100002904d012008000000400030004c00c000f000100000e10000100", 302022656, 291),
    ("000084000000000100000000074558414d504c45000029000100000e100006000f00020006", 0, 0),
    ("000781820000000100000000076578616d706c65000001000100000e100000", 0, 2),
];

/// The TTL of the message's OPT record, or 0 where there is none; nothing where there is no memory.
fn opt_ttl(alloc: Global, message: &Message) -> Option<u32> {
    match message.opt(alloc) {
        Ok(Some(opt)) => Some(opt.ttl().as_secs()),
        Ok(None) => Some(0),
        Err(_) => None,
    }
}

fn has_options(alloc: Global, text: &str, ttl: u32, rcode: u16) -> bool {
    match message_of(alloc, text) {
        Some(message) => {
            opt_ttl(alloc, &message) == Some(ttl)
                && message.opt_rcode(alloc) == Ok(Rcode::from_int(rcode))
        }
        None => false,
    }
}

#[test]
fn opt_records_and_rcodes(rt: HostRuntime) {
    for (text, ttl, rcode) in OPTIONS.iter() {
        assert!(rt; has_options(rt.alloc(), text, *ttl, *rcode), "{text}");
    }
}

/// Keys and their tags; the second is that of RFC 4034 5.4.
const KEYS: [(&str, u16); 8] = [
    ("0101030d0102", 1296),
    (
        "0100030501039e8a247418e318903b215a848acfd5f37f026bd4062db26c774c690968d5d56df8bfda91e6f36d9a279888f41333357c5e6029990d10fdf5663062a512763326980a615ddbf17a05ddfcce7e5fb3abcca05a31b0957452d4521e83870789063115bf97f6c308ccf57cdc9ce7fe10f6ed1bd0cc0660038c50dcdb0feb963c2f17",
        60485,
    ),
    ("01010301010203", 258),
    ("0101030101020304", 515),
    ("010103010102", 0),
    ("01010301", 0),
    ("0101030d010203", 2064),
    (
        "ffffffffffffffffffffffffffffffffffffffffffffffffffffffffffffffffffffffffffffffffffffffffffffffffffffffffffffffffffffffffffffffffffffffff",
        65535,
    ),
];

fn tag_of(rdata: &Data) -> Option<u16> {
    match rdata.dnskey() {
        Some(key) => Some(key.key_tag()),
        None => None,
    }
}

fn has_tag(alloc: Global, text: &str, tag: u16) -> bool {
    match hex::decode(alloc, text) {
        Ok(octets) if Data::is_readable(Rtype::DNSKEY, &octets) => {
            tag_of(&Data::new(Rtype::DNSKEY, Octets::new(octets))) == Some(tag)
        }
        _ => false,
    }
}

#[test]
fn keys_have_their_tags(rt: HostRuntime) {
    for (text, tag) in KEYS.iter() {
        assert!(rt; has_tag(rt.alloc(), text, *tag), "{text}");
    }
}
