//! What errors are shown as.

use dsec_anchors::AnchorError;
use dsec_builder::PushError;
use dsec_crypto::{AlgorithmError, FromDnskeyError};
use dsec_message::ShortMessage;
use dsec_name::{NameError, NoMemory};
use dsec_number::UnknownWord;
use dsec_outside::{AskError, Failed, Stop};
use dsec_wire::MessageError;
use dsec_zonefile::InplaceError;
use std::alloc::AllocError;
use std::fmt::{Display, InlineText};

fn shows<T: Display + Drop>(error: T, text: &str) -> bool {
    InlineText::<32>::of(error).as_str() == text
}

#[test]
fn of_names_and_messages(rt: HostRuntime) {
    assert!(rt; shows(NoMemory, "out of memory"));
    assert!(rt; shows(NameError::LongName, "LongName"));
    assert!(rt; shows(UnknownWord, "UnknownWord"));
    assert!(rt; shows(MessageError::ParseError, "ParseError"));
    assert!(rt; shows(ShortMessage, "ShortMessage"));
    assert!(rt; shows(PushError::PushError, "PushError"));
    assert!(rt; shows(InplaceError { line: 2 }, "InplaceError"));
}

#[test]
fn of_anchors_and_the_outside(rt: HostRuntime) {
    let inplace = AnchorError::InplaceError(InplaceError { line: 7 });
    assert!(rt; shows(inplace, "InplaceError"));
    assert!(rt; shows(AnchorError::ReadError, "ReadError"));
    assert!(rt; shows(AnchorError::from(AllocError), "out of memory"));
    assert!(rt; shows(Failed, "Failed"));
    assert!(rt; shows(AskError::Failed, "Failed"));
    assert!(rt; shows(AskError::from(AllocError), "out of memory"));
    assert!(rt; shows(Stop::Read, "Read"));
    assert!(rt; shows(Stop::from(AllocError), "out of memory"));
}

#[test]
fn of_verifiers(rt: HostRuntime) {
    assert!(rt; shows(AlgorithmError::Unsupported, "unsupported algorithm"));
    assert!(rt; shows(AlgorithmError::BadSig, "bad signature"));
    assert!(rt; shows(AlgorithmError::InvalidData, "invalid data"));
    assert!(rt;
        shows(
            FromDnskeyError::UnsupportedAlgorithm,
            "unsupported algorithm"
        )
    );
    assert!(rt; shows(FromDnskeyError::UnsupportedProtocol, "unsupported protocol"));
    assert!(rt; shows(FromDnskeyError::InvalidKey, "malformed key"));
}
