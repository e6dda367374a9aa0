//! Names, numbers and octets, written at the end of a text.

ghost use Rattle.std.specs.Prelude.{◌≡◌, ◌++◌, OnErr, OnOk, decimal};
ghost use Rattle.hex.specs.Hex.{encode_lower};
ghost use Rattle.dsec_name.specs.NameDisplay.{name_text};

use dsec_name::{Name, NoMemory};
use itoa::Buffer;
use std::string::ToString;

/// A name, as it is displayed.
pub fn push_name(out: &mut Vec<u8>, name: &Name) -> Result<(), NoMemory>
    ensures ok { OnOk result (out.new.items ≡ out.old.items ++ name_text name.now) }
    ensures err { OnErr result (out.new.items ≡ out.old.items) }
{
    // Written at the end of `out` itself, a part of the name could stay there.
    let text = name.to_string(*out.allocator())?;
    out.extend_from_slice(text.as_bytes())?;
    Ok(())
}

/// A number in decimal.
pub fn push_number(out: &mut Vec<u8>, n: u64) -> Result<(), NoMemory>
    ensures ok { OnOk result (out.new.items ≡ out.old.items ++ decimal n) }
    ensures err { OnErr result (out.new.items ≡ out.old.items) }
{
    let mut buffer = Buffer::new();
    out.extend_from_slice(buffer.format(n).as_bytes())?;
    Ok(())
}

/// Octets in lower-case hex.
pub fn push_hex(out: &mut Vec<u8>, octets: &[u8]) -> Result<(), NoMemory>
    ensures ok { OnOk result (out.new.items ≡ out.old.items ++ encode_lower octets.now) }
    ensures err { OnErr result (out.new.items ≡ out.old.items) }
{
    let at = out.len();
    let Some(end) = at.checked_add(2 * octets.len()) else {
        return Err(NoMemory);
    };
    out.resize(end, 0)?;
    match hex::encode_to_slice(octets, &mut out[at..]) {
        Ok(()) => Ok(()),
        Err(_) => {
            out.truncate(at);
            Err(NoMemory)
        }
    }
}
