//! Numbers and the heads of names at a place of octets (RFC 1035 2.3.2, 3.1, 4.1.4).

ghost use Rattle.std.specs.Prelude.{◌≡◌, length, IfSome};
ghost use Rattle.std.specs.Option.{option_map};
ghost use Rattle.dsec_spec.specs.Reading.{u16_at as u16_of, u32_at as u32_of};
ghost use Rattle.dsec_spec.specs.WireNames.{head_at as head_of};
ghost use Rattle.dsec_wire.specs.Heads.{head_view, StandsWithin};

/// What a name begins with at a place.
#[derive(Clone, Copy, Debug, PartialEq, Eq)]
pub(crate) enum Head {
    Root,
    /// A label of so many octets.
    Label(usize),
    /// A pointer to a smaller place.
    Pointer(usize),
}

/// The head at a place, where there is one.
pub(crate) fn head_at(message: &[u8], at: usize) -> Option<Head>
    ensures head { option_map head_view result ≡ head_of message.now at }
    ensures within { IfSome result (StandsWithin at (length message.now)) }
{
    let rest = message.get(at..)?;
    match *rest {
        [0, ..] => Some(Head::Root),
        [size @ 1..=63, ..] => {
            let size = size as usize;
            if size < rest.len() {
                Some(Head::Label(size))
            } else {
                None
            }
        }
        [high @ 192..=255, low, ..] => {
            let target = (high as usize - 192) * 256 + low as usize;
            if target < at {
                Some(Head::Pointer(target))
            } else {
                None
            }
        }
        _ => None,
    }
}

/// A number of two octets, the high one first (RFC 1035 2.3.2). None where the octets end before both.
pub fn u16_at(message: &[u8], at: usize) -> Option<u16>
    ensures { result ≡ u16_of message.now at }
{
    match *message.get(at..)? {
        [a, b, ..] => Some(u16::from_be_bytes([a, b])),
        _ => None,
    }
}

/// A number of four octets, the high one first.
pub(crate) fn u32_at(message: &[u8], at: usize) -> Option<u32>
    ensures { result ≡ u32_of message.now at }
{
    match *message.get(at..)? {
        [a, b, c, d, ..] => Some(u32::from_be_bytes([a, b, c, d])),
        _ => None,
    }
}
