//! What comes in: messages to be judged, and replies to their questions.

ghost use Rattle.std.specs.Prelude.{◌≡◌, ◌++◌, codes, Some, IfSome};
ghost use Rattle.dsec_uses_steps.specs.Events.{IsEventOf, SaysReply};
ghost use Rattle.dsec_word.specs.Words.{hex_in};

use dsec_message::Message;
use dsec_name::Octets;
use dsec_word::{number, read_hex};
use std::alloc::Global;

/// What comes in.
#[derive(Drop)]
pub enum Event {
    /// A message that is to be judged.
    Message(Message),
    /// A reply to the last question of the message with this index, or none where the question failed. Nothing shows that it is one: a late reply
    /// is taken for that to the next question.
    Reply(usize, Option<Octets>),
}

/// The event of a line: `message <hex>`, `reply <index> <hex>` or `reply <index> fail`. None where the line is no such event.
pub fn read_event(alloc: Global, line: &str) -> Option<Event>
    ensures { IfSome result (λ event. IsEventOf line.now event) }
{
    match line.as_bytes() {
        [b'm', b'e', b's', b's', b'a', b'g', b'e', b' ', hex @ ..] => {
            Some(Event::Message(read_message(alloc, hex)?))
        }
        [b'r', b'e', b'p', b'l', b'y', b' ', rest @ ..] => read_reply(alloc, rest),
        _ => None,
    }
}

/// The reply that an index and a word write, with a blank between them.
fn read_reply(alloc: Global, rest: &[u8]) -> Option<Event>
    ensures { IfSome result (λ event. IsEventOf (codes "reply " ++ rest.now) event) }
{
    let (index, word) = cut_at_blank(rest)?;
    let index = number(index, 1_000_000)?;
    Some(Event::Reply(index as usize, reply_in(alloc, word)?))
}

/// The octets before the first blank, and those behind it, if there is one.
fn cut_at_blank(text: &[u8]) -> Option<(&[u8], &[u8])>
    ensures { IfSome result (λ parts. text.now ≡ parts.0.now ++ codes " " ++ parts.1.now) }
{
    let mut at = 0;
    while at < text.len() {
        if text[at] == b' ' {
            return Some((&text[..at], &text[at + 1..]));
        }
        at += 1;
    }
    None
}

/// The reply that a word writes: hex, or the word for a failure. What is neither is no reply: it may not pass for a question that failed.
fn reply_in(alloc: Global, word: &[u8]) -> Option<Option<Octets>>
    ensures { IfSome result (λ reply. SaysReply word.now reply) }
{
    match word {
        [b'f', b'a', b'i', b'l'] => Some(None),
        hex => Some(Some(read_hex(alloc, hex).ok()?)),
    }
}

/// The message that hex writes, if it is long enough to be one.
fn read_message(alloc: Global, hex: &[u8]) -> Option<Message>
    ensures { IfSome result (λ message. hex_in hex.now ≡ Some message) }
{
    let octets = read_hex(alloc, hex).ok()?;
    Message::from_octets(octets.into_vec()).ok()
}
