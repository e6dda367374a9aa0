//! Reading names from text (RFC 1035 5.1).

ghost use Rattle.std.specs.Prelude.{◌≡◌, ◌<◌, ◌≤◌, length, IfOk, IfSome, MatchOption, None};
ghost use Rattle.std.specs.Char.{IsAsciiDigit};
ghost use Rattle.std.specs.Option.{option_map};
ghost use Rattle.dsec_spec.specs.Names.{Labels};
ghost use Rattle.dsec_spec.specs.Reading.{Gives};
ghost use Rattle.dsec_name.specs.Errors.{Answers, wants_memory};
ghost use Rattle.dsec_name.specs.Keys.{IsWhole, labels_of};
ghost use Rattle.dsec_name.specs.NameText.{WritesName, WritesNameIn};
ghost use Rattle.dsec_name.specs.TextParts.{HasNoLabel, HasPushed, HasRead};
ghost use Rattle.dsec_name.specs.TextReading.{after_octets, name_of_text, name_of_text_in, read_escape, read_label, read_labels, read_number, read_octet};

use crate::error::{NameError, NoMemory};
use crate::name::{MAX_LABEL, MAX_NAME, Name};
use std::alloc::Global;

impl Name {
    /// The name that a text writes. A `.` stands between labels and may end the name, alone it is the root;
    /// `\` before an octet that is no digit stands for that octet, and before three digits for the
    /// octet of that value. The text is seen as its octets.
    pub fn parse(alloc: Global, text: &str) -> Result<Self, NameError>
        ensures exact { Gives {Y = Labels} wants_memory (λ name. name) result (name_of_text text.now) }
        ensures meaning { Answers (λ labels. WritesName labels text.now) result }
    {
        read_text(alloc, text.as_bytes(), &[])
    }

    /// The name that a text in a zone writes, by the same grammar. A text without a `.` at its end is relative: the
    /// origin's labels follow, and the limits are those of the whole name. An escaped dot ends no text.
    pub fn parse_in(alloc: Global, text: &[u8], origin: &Name) -> Result<Self, NameError>
        ensures exact { Gives {Y = Labels} wants_memory (λ name. name) result (name_of_text_in origin.now text.now) }
        ensures meaning { Answers (λ labels. WritesNameIn origin.now labels text.now) result }
    {
        read_text(alloc, text, origin.octets())
    }
}

/// The name that a text's octets write before an origin's labels, which are given as octets.
fn read_text(alloc: Global, text: &[u8], origin: &[u8]) -> Result<Name, NameError>
    requires { IsWhole origin.now }
    ensures { Gives {Y = Labels} wants_memory (λ name. name) result (name_of_text_in (labels_of origin.now) text.now) }
{
    if text == b".".as_slice() {
        return Ok(Name::root(alloc));
    }
    let Some((octets, long)) = labels_of_text(alloc, text, origin)? else {
        return Err(NameError::BadLabel);
    };
    if long {
        return Err(NameError::LongLabel);
    }
    if octets.len() >= MAX_NAME {
        return Err(NameError::LongName);
    }
    Ok(Name::keep(octets))
}

/// The labels that a text writes, and the origin's where no `.` ends it, each with its length before it; and whether
/// one of them is too long: then the octets are of no use. None where the text writes no labels.
fn labels_of_text(
    alloc: Global,
    text: &[u8],
    origin: &[u8],
) -> Result<Option<(Vec<u8>, bool)>, NoMemory>
    requires { IsWhole origin.now }
    ensures { IfOk result (λ found. MatchOption found (read_labels (labels_of origin.now) text.now ≡ None) (λ read. HasRead (labels_of origin.now) text.now read.0.items read.1)) }
{
    let mut octets = Vec::with_capacity(alloc, text.len() + 1)?;
    let mut long = false;
    let mut rest = text;
    loop {
        let Some((after, is_long)) = push_label(rest, &mut octets)? else {
            return Ok(None);
        };
        long |= is_long;
        let Some((_, others)) = after.split_first() else {
            octets.extend_from_slice(origin)?;
            return Ok(Some((octets, long)));
        };
        if others.is_empty() {
            return Ok(Some((octets, long)));
        }
        rest = others;
    }
}

/// Adds the length and octets of the label at the front of a text, unless it is too long. Some is the text
/// after it, and whether it is; none where there is no label.
fn push_label<'a>(
    text: &'a [u8],
    octets: &mut Vec<u8>,
) -> Result<Option<(&'a [u8], bool)>, NoMemory>
    ensures label { IfOk result (λ found. MatchOption found (HasNoLabel text.now) (λ pushed. HasPushed text.now octets.old.items octets.new.items pushed.0.now pushed.1)) }
    ensures within { IfOk result (λ found. IfSome found (λ pushed. length pushed.0.now ≤ length text.now)) }
{
    let start = octets.len();
    octets.push(0)?;
    let Some(rest) = push_octets(text, octets)? else {
        return Ok(None);
    };
    let length = octets.len() - start - 1;
    if length == 0 {
        return Ok(None);
    }
    if length > usize::from(MAX_LABEL) {
        return Ok(Some((rest, true)));
    }
    octets[start] = length as u8;
    Ok(Some((rest, false)))
}

/// Adds the octets that a text writes up to a `.` or its end. Some is the text from there on.
fn push_octets<'a>(text: &'a [u8], octets: &mut Vec<u8>) -> Result<Option<&'a [u8]>, NoMemory>
    ensures label { IfOk result (λ found. option_map (λ rest. (octets.new.items, rest.now)) found ≡ after_octets octets.old.items (read_label text.now)) }
    ensures within { IfOk result (λ found. IfSome found (λ rest. length rest.now ≤ length text.now)) }
{
    let mut rest = text;
    while !rest.is_empty() && rest[0] != b'.' {
        let Some((octet, after)) = octet_at(rest) else {
            return Ok(None);
        };
        octets.push(octet)?;
        rest = after;
    }
    Ok(Some(rest))
}

/// The octet that the front of a text writes, and the text after it.
fn octet_at(text: &[u8]) -> Option<(u8, &[u8])>
    ensures octet { option_map (λ read. (read.0, read.1.now)) result ≡ read_octet text.now }
    ensures shorter { IfSome result (λ read. length read.1.now < length text.now) }
{
    let (&first, rest) = text.split_first()?;
    match first {
        b'.' => None,
        b'\\' => escaped_at(rest),
        _ => Some((first, rest)),
    }
}

/// The octet that the front of a text after `\` writes, and the text after that.
fn escaped_at(text: &[u8]) -> Option<(u8, &[u8])>
    ensures octet { option_map (λ read. (read.0, read.1.now)) result ≡ read_escape text.now }
    ensures shorter { IfSome result (λ read. length read.1.now < length text.now) }
{
    let (&first, rest) = text.split_first()?;
    if !first.is_ascii_digit() {
        return Some((first, rest));
    }
    let (&second, rest) = rest.split_first()?;
    let (&third, rest) = rest.split_first()?;
    let octet = octet_of_digits(first, second, third)?;
    Some((octet, rest))
}

/// The octet of the value that three digits write, of which the first is known to be one.
pub fn octet_of_digits(first: u8, second: u8, third: u8) -> Option<u8>
    requires { IsAsciiDigit first }
    ensures { result ≡ read_number first second third }
{
    if !second.is_ascii_digit() || !third.is_ascii_digit() {
        return None;
    }
    let number = u16::from(first - b'0') * 100
        + u16::from(second - b'0') * 10
        + u16::from(third - b'0');
    if number > 255 {
        return None;
    }
    Some(number as u8)
}
