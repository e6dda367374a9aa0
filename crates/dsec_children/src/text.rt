//! Nodes as lines of text.

use crate::shown::push_shown;
use dsec_cause::Cause;
use dsec_crypto::StandIn;
use dsec_name::NoMemory;
use dsec_node::{Node, Standing};
use dsec_word::{push_name, push_number};

/// Adds a node: its name, what it is, its cause, for how many seconds it is kept, of a secure one how many links lead to it, and of one that is
/// no zone's and isn't bogus by which set that is known.
pub(crate) fn push_node(out: &mut Vec<u8>, node: &Node<StandIn>) -> Result<(), NoMemory> {
    push_name(out, node.name())?;
    out.extend_from_slice(kind_of(node.standing()))?;
    push_cause(out, node.extended_error())?;
    push_number(out, node.valid_for())?;
    push_links(out, node)?;
    push_shown(out, node.standing())?;
    out.push(b'\n')?;
    Ok(())
}

/// The word for what is known of a name.
fn kind_of(standing: &Standing) -> &'static [u8] {
    match standing {
        Standing::Apex(_) => b" apex ",
        Standing::Within(_) => b" within ",
        Standing::Insecure(_, _) => b" insecure ",
        Standing::Bogus(_) => b" bogus ",
    }
}

/// Adds a cause's code and text.
fn push_cause(out: &mut Vec<u8>, cause: Option<Cause>) -> Result<(), NoMemory> {
    match cause {
        Some(cause) => {
            push_number(out, u64::from(cause.code()))?;
            out.extend_from_slice(b" \"")?;
            out.extend_from_slice(cause.text().as_bytes())?;
        }
        None => out.extend_from_slice(b"- \"")?,
    }
    out.extend_from_slice(b"\" ")?;
    Ok(())
}

/// Adds how many links lead to a secure node.
fn push_links(out: &mut Vec<u8>, node: &Node<StandIn>) -> Result<(), NoMemory> {
    match node.standing() {
        Standing::Apex(_) | Standing::Within(_) => {
            out.extend_from_slice(b" links=")?;
            push_number(out, node.chain().len() as u64)
        }
        Standing::Insecure(_, _) | Standing::Bogus(_) => Ok(()),
    }
}
