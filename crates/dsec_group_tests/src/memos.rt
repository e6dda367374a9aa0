//! How often the verifier is asked: a memo that keeps the stand-in's last answer, or has no memory.

ghost use Rattle.std.specs.Prelude.{◌≡◌};
ghost use Rattle.dsec_crypto.specs.StandIn.{stand_in};

use crate::checks::{Want, check, says};
use crate::lines::{ADDRESS, GOOD, NO_ZONE_KEY};
use dsec_cause::Cause;
use dsec_crypto::{StandIn, Verifier};
use dsec_group::{Group, Memo, Seed, groups};
use dsec_lines::{KEY, name, record, records};
use dsec_name::{Name, NoMemory};
use dsec_number::Timestamp;
use dsec_wire::{Dnskey, Record, Records};
use std::alloc::Global;
use std::process::Abort;

/// The arguments of a check, and the verifier's answer.
#[derive(Drop)]
struct Answer {
    flags: u16,
    protocol: u8,
    algorithm: u8,
    key: Vec<u8>,
    message: Vec<u8>,
    signature: Vec<u8>,
    yes: bool,
    ghost is_true: { yes ≡ stand_in flags protocol algorithm key.items message.items signature.items },
}

/// The last answer, if answers are kept, and how often one was asked for, given again and put.
#[derive(Drop)]
struct Last {
    alloc: Global,
    keeps: bool,
    answer: Option<Answer>,
    asked: u32,
    given: u32,
    put: u32,
}

fn memo(alloc: Global, keeps: bool) -> Last {
    Last {
        alloc,
        keeps,
        answer: None,
        asked: 0,
        given: 0,
        put: 0,
    }
}

impl Memo<StandIn> for Last {
    fn get_check(
        &mut self,
        flags: u16,
        protocol: u8,
        algorithm: u8,
        key: &[u8],
        message: &[u8],
        signature: &[u8],
    ) -> Result<Option<bool>, NoMemory> {
        self.asked = self.asked.saturating_add(1);
        let Some(answer) = &self.answer else {
            return if self.keeps { Ok(None) } else { Err(NoMemory) };
        };
        if answer.flags == flags
            && answer.protocol == protocol
            && answer.algorithm == algorithm
            && answer.key.as_slice() == key
            && answer.message.as_slice() == message
            && answer.signature.as_slice() == signature
        {
            let yes = answer.yes;
            self.given = self.given.saturating_add(1);
            return Ok(Some(yes));
        }
        Ok(None)
    }

    fn put_check(
        &mut self,
        flags: u16,
        protocol: u8,
        algorithm: u8,
        key: &[u8],
        message: &[u8],
        signature: &[u8],
        yes: bool,
    ) -> Result<(), NoMemory> {
        self.put = self.put.saturating_add(1);
        if !self.keeps {
            return Err(NoMemory);
        }
        self.answer = Some(Answer {
            flags,
            protocol,
            algorithm,
            key: Vec::from_slice(self.alloc, key)?,
            message: Vec::from_slice(self.alloc, message)?,
            signature: Vec::from_slice(self.alloc, signature)?,
            yes,
        });
        Ok(())
    }

    fn get_hash(
        &mut self,
        _octets: &[u8],
        _salt: &[u8],
        _iterations: u16,
    ) -> Result<Option<[u8; 20]>, NoMemory> {
        Ok(None)
    }

    fn put_hash(
        &mut self,
        _octets: &[u8],
        _salt: &[u8],
        _iterations: u16,
        _hash: [u8; 20],
    ) -> Result<(), NoMemory> {
        Ok(())
    }
}

/// Whether the address comes to this under its signatures.
fn comes_to(memo: &mut Last, section: &[&str], max_bad: u8, seconds: u32, want: Want) -> bool {
    let alloc = memo.alloc;
    match check::<StandIn>(alloc, section, &[NO_ZONE_KEY, KEY], max_bad, seconds, memo) {
        Some(check) => says(alloc, &check, want),
        None => false,
    }
}

const FIRST: &str =
    "www.example. 60 IN RRSIG \\# 32 00010d0200000e10000003e8000000000510074578616d706c65006669727374";

const SECOND: &str =
    "www.example. 60 IN RRSIG \\# 33 00010d0200000e10000003e8000000000510074578616d706c65007365636f6e64";

const FOURTH: &str =
    "www.example. 60 IN RRSIG \\# 33 00010d0200000e10000003e8000000000510074578616d706c6500666f75727468";

/// Signatures and moments in turn, what comes of them, and how often an answer was given again until then. Another
/// signature isn't the one that was kept, and the period is tested each time.
const TURNS: [(&str, u32, Want, u32); 5] = [
    (GOOD, 500, Want::Good(0, 1), 0),
    (GOOD, 600, Want::Good(0, 1), 1),
    (FIRST, 600, Want::Bogus(Cause::BadSignature), 1),
    (GOOD, 600, Want::Good(0, 1), 1),
    (GOOD, 1001, Want::Bogus(Cause::BadSignature), 1),
];

fn assert_turns(rt: &impl Abort, memo: &mut Last, rows: &[(&str, u32, Want, u32)]) {
    for (signature, seconds, want, given) in rows {
        assert!(rt; comes_to(memo, &[ADDRESS, signature], 1, *seconds, *want));
        assert!(rt; memo.given == *given);
    }
}

#[test]
fn an_answer_is_given_again(rt: HostRuntime) {
    assert_turns(&rt, &mut memo(rt.alloc(), true), &TURNS);
}

/// Whether four signatures of one key, the first two of them bad, come to this under a memo that has no memory, where so many
/// may be bad, and the verifier is asked so often.
fn is_tried(alloc: Global, max_bad: u8, want: Want, tries: u32) -> bool {
    let mut memo = memo(alloc, false);
    let section = [ADDRESS, FIRST, SECOND, GOOD, FOURTH];
    comes_to(&mut memo, &section, max_bad, 500, want) && memo.asked == tries && memo.put == tries
}

#[test]
fn one_more_is_tried_than_may_be_bad(rt: HostRuntime) {
    assert!(rt; is_tried(rt.alloc(), 1, Want::Bogus(Cause::TooManyBadSignatures), 2));
    assert!(rt; is_tried(rt.alloc(), 2, Want::Good(2, 1), 3));
}

/// The good signature as the key's, for the one call that takes a record: the line of the address, the key's name and tag,
/// and whether it counts.
type Row = (&'static str, &'static str, u16, bool);

const ROWS: [Row; 6] = [
    (ADDRESS, "example.", 1296, true),
    (ADDRESS, "other.", 1296, false),
    (ADDRESS, "example.", 1297, false),
    ("www.example. 60 CH A 192.0.2.1", "example.", 1296, false),
    ("ww.example. 60 IN A 192.0.2.1", "example.", 1296, false),
    ("www.example. 60 IN A 192.0.2.2", "example.", 1296, false),
];

/// Whether the group is signed or isn't, as the row says, by the one call for a record.
fn is_signed<V: Verifier>(
    alloc: Global,
    memo: &mut impl Memo<V>,
    group: &Group,
    sig: &Record,
    key: &Dnskey<'_>,
    names: &[Name; 2],
    row: &Row,
) -> bool {
    let t = Timestamp::from_int(500);
    let [zone, key_name] = names;
    match group.check_sig_cached::<V>(alloc, sig, zone, key, key_name, row.2, memo, t) {
        Ok(yes) => yes == row.3,
        Err(NoMemory) => false,
    }
}

fn is_group_signed(alloc: Global, group: &Group, row: &Row) -> bool {
    let (Some(sig), Some(key)) = (record(alloc, GOOD), record(alloc, KEY)) else {
        return false;
    };
    let (Some(zone), Some(key_name)) = (name(alloc, "Example."), name(alloc, row.1)) else {
        return false;
    };
    let mut memo = memo(alloc, false);
    match key.rdata().dnskey() {
        Some(view) => is_signed::<StandIn>(
            alloc,
            &mut memo,
            group,
            &sig,
            &view,
            &[zone, key_name],
            row,
        ),
        None => false,
    }
}

fn row_holds(alloc: Global, row: &Row) -> bool {
    let Some(section) = records(alloc, &[row.0]) else {
        return false;
    };
    let Ok(found) = groups(alloc, Records::new(section), Seed::fixed()) else {
        return false;
    };
    match found.as_slice().first() {
        Some(group) => is_group_signed(alloc, group, row),
        None => false,
    }
}

fn assert_rows(rt: &impl Abort, alloc: Global, rows: &[Row]) {
    for row in rows {
        assert!(rt; row_holds(alloc, row));
    }
}

#[test]
fn one_record_by_one_key(rt: HostRuntime) {
    assert_rows(&rt, rt.alloc(), &ROWS);
}
