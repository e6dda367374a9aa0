//! Words for numbers of 16 bits: a name of its own, or a prefix and the number (RFC 3597 5).

ghost use Rattle.std.specs.Prelude.{◌≡◌, drop, find, length, nat_eq};
ghost use Rattle.std.specs.Option.{SomeIff, option_map};
ghost use Rattle.std.specs.Str.{str_eq_ignore_ascii_case};
ghost use Rattle.std.specs.Str.Parse.{digits_value};
ghost use Rattle.dsec_number.specs.Rows.{words_in};
ghost use Rattle.dsec_number.specs.Words.{IsNumberOf, IsNumbered, IsShortNumeral, named_of};

/// A word and its number.
#[derive(Clone, Copy, Debug)]
pub struct Row {
    pub word: &'static str,
    pub number: u16,
}

/// The number of a word: that of the first row with it, in either case; else that after the prefix.
pub fn number(rows: &[Row], prefix: &[u8], word: &[u8]) -> Option<u16>
    ensures { IsNumberOf (words_in rows.now) prefix.now word.now result }
{
    named(rows, word).or_else(|| numbered(prefix, word))
}

/// The number of the first row with the word, in either case.
fn named(rows: &[Row], word: &[u8]) -> Option<u16>
    ensures { result ≡ named_of (words_in rows.now) word.now }
{
    number_in(rows, word)
}

/// The same, of the rows themselves.
fn number_in(rows: &[Row], word: &[u8]) -> Option<u16>
    ensures { result ≡ option_map (λ row. row.number) (find (λ row. str_eq_ignore_ascii_case row.word.now word.now) rows.now) }
{
    rows.iter()
        .find(|row| row.word.as_bytes().eq_ignore_ascii_case(word))
        .map(|row| row.number)
}

/// The word of the first row with the number.
pub fn word(rows: &[Row], number: u16) -> Option<&'static str>
    ensures { option_map (λ word. word.now) result
        ≡ option_map (λ row. row.0) (find (λ row. nat_eq row.1 number) (words_in rows.now)) }
{
    word_in(rows, number)
}

/// The same, of the rows themselves.
fn word_in(rows: &[Row], number: u16) -> Option<&'static str>
    ensures { option_map (λ word. word.now) result
        ≡ option_map (λ row. row.word.now) (find (λ row. nat_eq row.number number) rows.now) }
{
    rows.iter()
        .find(|row| row.number == number)
        .map(|row| row.word)
}

/// The number after the prefix, in either case.
fn numbered(prefix: &[u8], word: &[u8]) -> Option<u16>
    ensures { SomeIff result (IsNumbered prefix.now word.now) (digits_value 10 (drop (length prefix.now) word.now)) }
{
    if word.len() < prefix.len() {
        return None;
    }
    let (front, digits) = word.split_at(prefix.len());
    if !front.eq_ignore_ascii_case(prefix) {
        return None;
    }
    decimal(digits)
}

/// The number that decimal digits write, without a sign.
fn decimal(digits: &[u8]) -> Option<u16>
    ensures { SomeIff result (IsShortNumeral digits.now) (digits_value 10 digits.now) }
{
    if digits.starts_with(b"+") {
        return None;
    }
    let text = str::from_utf8(digits).ok()?;
    text.parse::<u16>().ok()
}
