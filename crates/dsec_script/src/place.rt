//! Where a line stands in a script, and what may stand there.

ghost use Rattle.std.specs.Prelude.{◌≡◌};
ghost use Rattle.dsec_spec.specs.Reading.{Gives};
ghost use Rattle.dsec_script.specs.Place.{after as place_after, at_keyword, at_line, fits as fits_at, moment as moment_at, opens as opens_at, wants_memory, word_for};

use crate::error::{Refused, ScriptError, Word};
use crate::line::{Keyword, Line, read_keyword, read_rest};
use crate::text::first_word;
use dsec_word::ReadError;
use std::alloc::Global;

/// A place in a script.
#[derive(Clone, Copy)]
pub enum Place {
    /// Before the first `now`.
    Start,
    /// After the first `now`, of this moment, where anchors and replies stand.
    Head(u64),
    /// After a later `now`, of this moment, and no message since.
    Turn(u64),
    /// After a message; the moment is that of the last `now`.
    Body(u64),
}

impl Place {
    /// Whether such a line may stand here.
    fn fits(self, keyword: Keyword) -> bool
        ensures { result ≡ fits_at keyword self }
    {
        match keyword {
            Keyword::Now => true,
            Keyword::Anchor | Keyword::Reply => match self {
                Place::Head(_) => true,
                Place::Start | Place::Turn(_) | Place::Body(_) => false,
            },
            Keyword::Message => match self {
                Place::Start => false,
                Place::Head(_) | Place::Turn(_) | Place::Body(_) => true,
            },
        }
    }

    /// The moment of a message here, in seconds since 1970.
    pub fn moment(self) -> u64
        ensures { result ≡ moment_at self }
    {
        match self {
            Place::Start => 0,
            Place::Head(seconds) | Place::Turn(seconds) | Place::Body(seconds) => seconds,
        }
    }

    /// Whether a message here is the first one after a `now`.
    pub fn opens(self) -> bool
        ensures { result ≡ opens_at self }
    {
        match self {
            Place::Head(_) | Place::Turn(_) => true,
            Place::Start | Place::Body(_) => false,
        }
    }

    /// The place after a line.
    pub fn after(self, said: &Line) -> Place
        ensures { result ≡ place_after self said.now }
    {
        match said {
            Line::Passed | Line::Anchors(_) | Line::Reply(_, _, _) => self,
            Line::Now(seconds) => match self {
                Place::Start => Place::Head(*seconds),
                Place::Head(_) | Place::Turn(_) | Place::Body(_) => Place::Turn(*seconds),
            },
            Line::Message(_) => match self {
                Place::Start => Place::Start,
                Place::Head(seconds) | Place::Turn(seconds) | Place::Body(seconds) => Place::Body(
                    seconds,
                ),
            },
        }
    }
}

/// The refusal of a line.
pub fn refused(line: usize, word: Word) -> ScriptError
    ensures { result ≡ ScriptError.Refused (record { line = line; word = word }) }
{
    ScriptError::Refused(Refused { line, word })
}

/// The word for a line that is outside the grammar.
fn word(keyword: Keyword) -> Word
    ensures { result ≡ word_for keyword }
{
    match keyword {
        Keyword::Now => Word::Now,
        Keyword::Anchor => Word::Anchor,
        Keyword::Reply => Word::Reply,
        Keyword::Message => Word::Message,
    }
}

/// What a line says at its place.
pub fn read_line(
    alloc: Global,
    number: usize,
    place: Place,
    line: &[u8],
) -> Result<Line, ScriptError>
    ensures { Gives wants_memory (λ said. said) result (at_line number place line.now) }
{
    if line.starts_with(b"#") {
        return Ok(Line::Passed);
    }
    let Some((first, rest)) = first_word(line) else {
        return Ok(Line::Passed);
    };
    match read_keyword(first) {
        None => Err(refused(number, Word::Other)),
        Some(keyword) => read_at(alloc, number, place, keyword, rest),
    }
}

/// What a line with a keyword says at its place.
fn read_at(
    alloc: Global,
    number: usize,
    place: Place,
    keyword: Keyword,
    rest: &[u8],
) -> Result<Line, ScriptError>
    ensures { Gives wants_memory (λ said. said) result (at_keyword number place keyword rest.now) }
{
    if !place.fits(keyword) {
        return Err(refused(number, Word::Order));
    }
    match read_rest(alloc, keyword, rest) {
        Ok(said) => Ok(said),
        Err(ReadError::NoMemory) => Err(ScriptError::NoMemory),
        Err(ReadError::Bad) => Err(refused(number, word(keyword))),
    }
}
