//! The words of a line (RFC 1035 5.1).

ghost use Rattle.std.specs.Prelude.{◌≡◌, IfOk};
ghost use Rattle.std.specs.Option.{option_map};
ghost use Rattle.dsec_text.specs.Words.{inner as inner_of, is_generic_mark as is_mark, octets_of, plain_of, word_in as word_of, word_view};

use crate::escape::octet;
use crate::token::Kind;
use dsec_name::{NoMemory, Octets};
use std::alloc::Global;

/// A word of zone text. A clause sees it by `word_view`.
#[derive(Clone, Copy)]
pub struct Word<'a> {
    /// The octets as written, without the quotes and with the escapes.
    pub written: &'a [u8],
    /// Whether it stood in quotes.
    pub quoted: bool,
}

impl<'a> Word<'a> {
    /// The octets, if the word has neither quotes nor escapes.
    pub fn plain(&self) -> Option<&'a [u8]>
        ensures { option_map (λ octets. octets.now) result ≡ plain_of (word_view self.now) }
    {
        if self.quoted || self.written.contains(&b'\\') {
            return None;
        }
        Some(self.written)
    }

    /// Whether this is the mark of data in the generic form: `\#` outside quotes (RFC 3597 5).
    pub fn is_generic_mark(&self) -> bool
        ensures { result ≡ is_mark (word_view self.now) }
    {
        !self.quoted && self.written == b"\\#".as_slice()
    }

    /// The octets that the word stands for.
    pub fn octets(&self, alloc: Global) -> Result<Octets, NoMemory>
        ensures { IfOk result (λ octets. octets ≡ octets_of (word_view self.now)) }
    {
        let mut octets = Vec::with_capacity(alloc, self.written.len())?;
        let mut rest = self.written;
        while let Some((value, taken)) = octet(rest, self.quoted) {
            octets.push(value)?;
            let (_, after) = rest.split_at(taken);
            rest = after;
        }
        Ok(Octets::new(octets))
    }
}

/// The word that a token is, if it is one.
pub fn word_in(kind: Kind, octets: &[u8]) -> Option<Word<'_>>
    ensures { option_map word_view result ≡ word_of kind octets.now }
{
    match kind {
        Kind::Plain => Some(Word {
            written: octets,
            quoted: false,
        }),
        Kind::Quoted => Some(Word {
            written: inner(octets),
            quoted: true,
        }),
        Kind::Blank | Kind::Comment | Kind::LineEnd | Kind::Open | Kind::Close | Kind::Bad => None,
    }
}

/// The octets between the first and the last.
fn inner(octets: &[u8]) -> &[u8]
    ensures { result.now ≡ inner_of octets.now }
{
    if octets.len() < 2 {
        return &[];
    }
    let (_, rest) = octets.split_at(1);
    let (inner, _) = rest.split_at(octets.len() - 2);
    inner
}
