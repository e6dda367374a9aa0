//! A built message against octets that were written out by hand.

use dsec_builder::MessageBuilder;
use dsec_message::Message;
use dsec_name::{Name, Octets};
use dsec_number::{Class, Rtype, Ttl};
use dsec_wire::{Data, Question, Record};
use std::alloc::Global;
use std::test::Fail;

/// Owners, types and data of class IN that are kept for an hour.
const RECORDS: [(&str, Rtype, &[u8]); 4] = [
    ("WwW.Example.", Rtype::MX, b"\0\x0a\x04mail\x07Example\0"),
    ("b.", Rtype::TXT, b""),
    ("example.", Rtype::NS, b"\x02ns\0"),
    (".", Rtype::OPT, b""),
];

fn record(alloc: Global, owner: &str, rtype: Rtype, rdata: &[u8]) -> Result<Record, Fail> {
    let owner = Name::parse(alloc, owner)?;
    if !Data::is_readable(rtype, rdata) {
        return Err(Fail::new("unreadable"));
    }
    let rdata = Data::new(rtype, Octets::new(rdata.to_vec(alloc)?));
    Ok(Record::new(owner, Class::IN, Ttl::from_secs(3600), rdata))
}

fn records(alloc: Global) -> Result<Vec<Record>, Fail> {
    let mut all = Vec::new(alloc);
    for (owner, rtype, rdata) in RECORDS.iter() {
        all.push(record(alloc, owner, *rtype, rdata)?)?;
    }
    Ok(all)
}

/// The question and the records, two as answers and one in each of the other sections; the identifier is set among the answers, and
/// the flags last. The message with whether all were added.
fn built(
    alloc: Global,
    question: &Question,
    records: (&Record, &Record, &Record, &Record),
) -> Result<(Message, bool), Fail> {
    let mut builder = MessageBuilder::new(alloc)?.question();
    let asked = builder.push(question).is_ok();
    let mut builder = builder.answer();
    let first = builder.push(records.0).is_ok();
    builder.set_id(0x1234);
    let second = builder.push(records.1).is_ok();
    let mut builder = builder.authority();
    let third = builder.push(records.2).is_ok();
    let mut builder = builder.additional();
    let fourth = builder.push(records.3).is_ok();
    builder.set_flags(0x8400);
    let all = asked && first && second && third && fourth;
    Ok((builder.finish(), all))
}

/// RFC 1035 4.1, item for item.
const BY_HAND: &[u8] = b"\x12\x34\x84\0\0\x01\0\x02\0\x01\0\x01\
    \x03WwW\x07Example\0\0\x0f\0\x01\
    \x03WwW\x07Example\0\0\x0f\0\x01\0\0\x0e\x10\0\x10\0\x0a\x04mail\x07Example\0\
    \x01b\0\0\x10\0\x01\0\0\x0e\x10\0\0\
    \x07example\0\0\x02\0\x01\0\0\x0e\x10\0\x04\x02ns\0\
    \0\0\x29\0\x01\0\0\x0e\x10\0\0";

/// Whether the message of these records is that one.
fn is_by_hand(alloc: Global, records: &[Record]) -> Result<bool, Fail> {
    let name = Name::parse(alloc, "WwW.Example.")?;
    let question = Question::new(name, Rtype::MX, Class::IN);
    match records {
        [mail, text, server, opt] => {
            let (message, all) = built(alloc, &question, (mail, text, server, opt))?;
            Ok(all && message.as_slice() == BY_HAND)
        }
        _ => Ok(false),
    }
}

#[test]
fn built_as_by_hand(rt: HostRuntime) -> Result<(), Fail> {
    let records = records(rt.alloc())?;
    assert!(rt; is_by_hand(rt.alloc(), &records)?);
    Ok(())
}
