//! The line of a record in zone text.

ghost use Rattle.std.specs.Prelude.{◌≡◌, ◌++◌, ℕ, List, OnErr, OnOk};
ghost use Rattle.dsec_name.specs.NameDisplay.{name_text};
ghost use Rattle.dsec_record_text.specs.RecordText.{line_data, line_head, record_line};

use dsec_name::NoMemory;
use dsec_wire::Record;
use dsec_word::{push_hex, push_name, push_number};

/// Adds the line of a record: its class and type by number, its data in the generic form (RFC 3597 5).
pub fn push_record_line(out: &mut Vec<u8>, it: &Record) -> Result<(), NoMemory>
    ensures ok { OnOk result (out.new.items ≡ out.old.items ++ record_line it.now) }
    ensures err { OnErr result (out.new.items ≡ out.old.items) }
{
    // A line that is begun and not ended isn't left in `out`.
    let mut line = Vec::new(*out.allocator());
    push_name(&mut line, it.owner())?;
    push_rest(&mut line, it)?;
    out.extend_from_slice(&line)?;
    Ok(())
}

/// The same, where the owner's text is at hand.
pub(crate) fn push_line_of(out: &mut Vec<u8>, owner: &[u8], it: &Record) -> Result<(), NoMemory>
    requires { owner.now ≡ name_text it.now.owner }
    ensures { OnOk result (out.new.items ≡ out.old.items ++ record_line it.now) }
{
    out.extend_from_slice(owner)?;
    push_rest(out, it)
}

/// Adds what stands behind the owner in the line of a record.
fn push_rest(out: &mut Vec<u8>, it: &Record) -> Result<(), NoMemory>
    ensures { (front : List ℕ) → out.old.items ≡ front ++ name_text it.now.owner → OnOk result (out.new.items ≡ front ++ record_line it.now) }
{
    push_head(out, it)?;
    push_data(out, it)?;
    out.push(b'\n')?;
    Ok(())
}

/// Adds TTL, class and type behind the owner.
#[tactic(auto, unfolding(crate::specs::RecordText::line_head))]
fn push_head(out: &mut Vec<u8>, it: &Record) -> Result<(), NoMemory>
    ensures { (front : List ℕ) → out.old.items ≡ front ++ name_text it.now.owner → OnOk result (out.new.items ≡ front ++ line_head it.now) }
{
    out.extend_from_slice(b" ")?;
    push_number(out, u64::from(it.ttl().as_secs()))?;
    out.extend_from_slice(b" CLASS")?;
    push_number(out, u64::from(it.class().to_int()))?;
    out.extend_from_slice(b" TYPE")?;
    push_number(out, u64::from(it.rtype().to_int()))
}

/// Adds the data, behind their length.
#[tactic(auto, unfolding(crate::specs::RecordText::line_data))]
fn push_data(out: &mut Vec<u8>, it: &Record) -> Result<(), NoMemory>
    ensures { OnOk result (out.new.items ≡ out.old.items ++ line_data it.now) }
{
    let octets = it.rdata().octets();
    out.extend_from_slice(b" \\# ")?;
    push_number(out, octets.len() as u64)?;
    out.extend_from_slice(b" ")?;
    push_hex(out, octets.as_slice())
}
