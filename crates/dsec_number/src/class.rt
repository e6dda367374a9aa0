//! Classes of records (RFC 1035 3.2.4).

ghost use Rattle.std.specs.Prelude.{◌≡◌};
ghost use Rattle.dsec_number.specs.Rows.{words_in};
ghost use Rattle.dsec_number.specs.Words.{class_words};

use crate::error::UnknownWord;
use crate::word::{Row, number, word};
use std::fmt;
use std::marker::Model;
use std::str::FromStr;

/// The class of a record, or of the records that are asked for.
#[derive(Clone, Copy, Debug, PartialEq, Eq, PartialOrd, Ord, Hash)]
pub struct Class {
    number: u16,
}

impl Model for Class {
    ghost use Rattle.std.specs.Prelude.{ℕ};

    ghost Value = { ℕ };

    ghost view = { λ it. it.number };

    ghost inverse = { λ n. record { number = n } };
}

impl Class {
    /// The Internet.
    pub const IN: Class = Class { number: 1 };

    /// Chaosnet.
    pub const CH: Class = Class { number: 3 };

    /// The class of this number.
    pub const fn from_int(number: u16) -> Self
        ensures { result ≡ number }
    {
        Class { number }
    }

    /// The class's number.
    pub const fn to_int(self) -> u16
        ensures { result ≡ self }
    {
        self.number
    }
}

/// The words of classes.
fn rows() -> [Row; 2]
    ensures { words_in result ≡ class_words }
{
    [
        Row {
            word: "IN",
            number: Class::IN.number,
        },
        Row {
            word: "CH",
            number: Class::CH.number,
        },
    ]
}

/// Reads a word in either case, and each number also as `CLASS` and decimal digits (RFC 3597 5).
impl FromStr for Class {
    type Err = UnknownWord;

    ghost use Rattle.std.specs.Prelude.{codes};
    ghost use Rattle.std.specs.Result.{result_ok};
    ghost use Rattle.dsec_number.specs.Words.{IsNumberOf, class_words};

    ghost from_str_gives = { λ text result. IsNumberOf class_words (codes "CLASS") text (result_ok result) };

    fn from_str(text: &str) -> Result<Self, UnknownWord> {
        match number(&rows(), b"CLASS", text.as_bytes()) {
            Some(number) => Ok(Class { number }),
            None => Err(UnknownWord),
        }
    }
}

/// The word, or `CLASS` and the number.
impl fmt::Display for Class {
    ghost use Rattle.std.specs.Prelude.{codes, Some};
    ghost use Rattle.dsec_number.specs.Words.{class_words, word_of};

    ghost output = { λ it. Some (word_of class_words (codes "CLASS") it) };

    fn fmt<W: fmt::Write>(&self, f: &mut fmt::Formatter<W>) -> fmt::Result {
        match word(&rows(), self.number) {
            Some(word) => f.write_str(word),
            None => write!(f, "CLASS{}", self.number),
        }
    }
}
