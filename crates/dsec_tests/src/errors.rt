//! What the errors of judging are shown as, and which one each error of reading and building becomes.

use dsec_found::Error;
use dsec_message::ShortMessage;
use dsec_name::{NoMemory, PushNameError};
use dsec_wire::MessageError;
use dsec_zonefile::InplaceError;
use std::fmt::InlineText;
use std::process::Abort;

/// An error, and its text.
type Row = (Error, &'static str);

const TEXTS: [Row; 9] = [
    (Error::FormError, "FormError"),
    (
        Error::InplaceError(InplaceError { line: 2 }),
        "InplaceError",
    ),
    (Error::OctetsConversion, "OctetsConversion"),
    (Error::ParseError, "ParseError"),
    (Error::PushError, "PushError"),
    (Error::PushNameError, "PushNameError"),
    (Error::ReadError, "ReadError"),
    (Error::ShortMessage, "ShortMEssage"),
    (Error::NoMemory, "NoMemory"),
];

fn row_holds(row: &Row) -> bool {
    let (error, text) = *row;
    InlineText::<32>::of(error).as_str() == text
}

fn assert_rows(rt: &impl Abort, rows: &[Row]) {
    for row in rows {
        assert!(rt; row_holds(row));
    }
}

#[test]
fn of_judging(rt: HostRuntime) {
    assert_rows(&rt, &TEXTS);
}

#[test]
fn from_reading_and_building(rt: HostRuntime) {
    assert!(rt; Error::from(ShortMessage) == Error::ShortMessage);
    assert!(rt; Error::from(MessageError::ParseError) == Error::ParseError);
    assert!(rt; Error::from(PushNameError::PushNameError) == Error::PushNameError);
    assert!(rt;
        Error::from(InplaceError { line: 7 }) == Error::InplaceError(InplaceError { line: 7 })
    );
    assert!(rt; Error::from(NoMemory) == Error::NoMemory);
}
