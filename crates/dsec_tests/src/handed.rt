//! Messages that are handed on: rewritten, or as they came.

use crate::judged::replies;
use crate::vectors::{
    BAD_TWICE, GOOD, GOOD_CUT, GOOD_ONCE, GOOD_TWICE, LARGE, LARGE_ONCE, LARGER, ONCE,
    ONCE_ASKED_TWICE, SINGLE, SINGLE_BROKEN, TOO_SHORT, TWICE, TWICE_ASKED_TWICE, TWICE_BROKEN,
};
use dsec_anchors::TrustAnchors;
use dsec_answer::{Error, ValidationContext};
use dsec_crypto::StandIn;
use dsec_group::ValidationState;
use dsec_lines::KEY;
use dsec_message::Message;
use dsec_outside::TableUpstream;
use std::alloc::Global;
use std::process::Abort;

/// A message: octets in hexadecimal digits, and so many zeros behind them.
type Octets = (&'static str, usize);

/// What is told of a message: its status, or why it has none.
type Told = Result<ValidationState, Error>;

/// A message, what is told of it at the moment 500, and the message that is left.
type Row = (Octets, Told, Octets);

const SECURE: Told = Ok(ValidationState::Secure);

const BOGUS: Told = Ok(ValidationState::Bogus);

const INDETERMINATE: Told = Ok(ValidationState::Indeterminate);

/// Messages in turn: one whose TTLs are cut, with a duplicate besides; one with a duplicate where no anchor is; nothing to rewrite; an
/// additional record that can't be read, where a rewriting is due and where none is; two questions; a section that can't be read; a bad
/// signature; 65535 octets written out, and one more.
#[rattlefmt::skip]
const ROWS: [Row; 11] = [
    ((GOOD, 0), SECURE, (GOOD_CUT, 0)),
    ((GOOD_TWICE, 0), SECURE, (GOOD_ONCE, 0)),
    ((TWICE, 0), INDETERMINATE, (ONCE, 0)),
    ((SINGLE, 0), INDETERMINATE, (SINGLE, 0)),
    ((TWICE_BROKEN, 0), Err(Error::ParseError), (TWICE_BROKEN, 0)),
    ((SINGLE_BROKEN, 0), INDETERMINATE, (SINGLE_BROKEN, 0)),
    ((TWICE_ASKED_TWICE, 0), Err(Error::FormError), (ONCE_ASKED_TWICE, 0)),
    ((TOO_SHORT, 0), Err(Error::ParseError), (TOO_SHORT, 0)),
    ((BAD_TWICE, 0), BOGUS, (BAD_TWICE, 0)),
    ((LARGE, 64730), INDETERMINATE, (LARGE_ONCE, 64730)),
    ((LARGER, 64731), Err(Error::PushError), (LARGER, 64731)),
];

fn octets(alloc: Global, message: Octets) -> Option<Vec<u8>> {
    let Ok(mut octets) = hex::decode(alloc, message.0) else {
        return None;
    };
    for _ in 0..message.1 {
        if octets.push(0).is_err() {
            return None;
        }
    }
    Some(octets)
}

/// Whether this is told of a message, whether it is left so, and no get or put found no memory.
fn row_holds(alloc: Global, row: &Row) -> Option<bool> {
    let (sent, told, left) = *row;
    let Ok(mut message) = Message::from_octets(octets(alloc, sent)?) else {
        return None;
    };
    let Ok(anchors) = TrustAnchors::from_u8(alloc, KEY.as_bytes()) else {
        return None;
    };
    let mut context = ValidationContext::<StandIn>::new(alloc, anchors);
    let mut upstream = TableUpstream::new(replies(alloc)?);
    let is_told = match context.validate_msg(alloc, &mut message, &mut upstream, 500) {
        Ok(verdict) => told == Ok(verdict.outcome().state()),
        Err(error) => told == Err(error),
    };
    let left = octets(alloc, left)?;
    Some(is_told && context.wants() == 0 && message.as_slice() == left.as_slice())
}

fn assert_rows(rt: &impl Abort, alloc: Global, rows: &[Row]) {
    for row in rows {
        assert!(rt; row_holds(alloc, row) == Some(true));
    }
}

#[test]
fn messages_are_handed_on(rt: HostRuntime) {
    assert_rows(&rt, rt.alloc(), &ROWS);
}
