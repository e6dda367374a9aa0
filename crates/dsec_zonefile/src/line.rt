//! What a line of zone text says (RFC 1035 5.1).

ghost use Rattle.std.specs.Prelude.{◌≡◌, map};
ghost use Rattle.dsec_spec.specs.Reading.{Reads};
ghost use Rattle.dsec_text.specs.Words.{plain_of, word_view};
ghost use Rattle.dsec_zonefile.specs.Lines.{begins_with_dollar, said_by};
ghost use Rattle.dsec_word.specs.Words.{wants_memory};

use crate::control::read_control;
use crate::entry::Entry;
use crate::front::read_record;
use crate::setting::{Said, Setting};
use dsec_text::{Line, Word};
use dsec_word::ReadError;
use std::alloc::Global;

/// What a line says.
pub fn read_line(alloc: Global, setting: &Setting, line: &Line<'_>) -> Result<Said, ReadError>
    ensures { Reads wants_memory (λ said. said) result
        (said_by setting.now line.now.begins_with_blank (map word_view line.now.words.items)) }
{
    let words = line.words.as_slice();
    let Some((word, rest)) = words.split_first() else {
        return Err(ReadError::Bad);
    };
    if !line.begins_with_blank && is_control(word) {
        return read_control(alloc, setting, word.written, rest);
    }
    match read_record(alloc, setting, line.begins_with_blank, words) {
        Ok(record) => Ok(Said::Entry(Entry::Record(record))),
        Err(error) => Err(error),
    }
}

/// Whether a word, without quotes and escapes, begins with `$`.
fn is_control(word: &Word<'_>) -> bool
    ensures { result ≡ begins_with_dollar (plain_of (word_view word.now)) }
{
    match word.plain() {
        Some(octets) => octets.starts_with(b"$"),
        None => false,
    }
}
