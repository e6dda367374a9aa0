//! Laws of the definitions that the contracts cite.

ghost use Rattle.std.specs.Prelude.{◌≡◌, ◌↔◌, ◌<◌, ◌∷◌, ℕ, List, length, slice_range, Bool, Option, Some, Ok};
ghost use Rattle.dsec_text.specs.Escapes.{WritesOctets};
ghost use Rattle.dsec_text.specs.Lines.{BeginsWith, first_line_of, lines_of};
ghost use Rattle.dsec_text.specs.Tokens.{IsMadeOf, Token, tokens_of};
ghost use Rattle.dsec_text.specs.Words.{octets_of, words_of};
ghost use Rattle.dsec_text.specs.declared.line.Span.{Span};

/// A text is made of its tokens, and of no others.
#[tactic(auto, using(crate::proofs::TokenReading::text_made, crate::proofs::TokenReading::made_is))]
pub fn law_of_tokens()
    ensures { (text : List ℕ) (tokens : List Token) → (tokens_of text ≡ tokens) ↔ IsMadeOf tokens text }
{}

/// A line has the tokens, and so the words, that it has in its text.
#[tactic(auto, using(crate::proofs::LineText::line_begins))]
pub fn law_of_lines()
    ensures { (text line : List ℕ) (others : List (Option (List ℕ))) → lines_of text ≡ Some line ∷ others → BeginsWith line text others }
{}

/// The first line with a word has one.
#[tactic(auto, using(crate::proofs::SpanText::line_has_word))]
pub fn law_of_first_lines()
    ensures { (text : List ℕ) (span : Span) → first_line_of text ≡ Ok (Some span) → 0 < length (words_of (slice_range text span.start span.end)) }
{}

/// A word stands for the octets that its text writes.
#[tactic(auto, using(crate::proofs::FrontText::octets_written))]
pub fn law_of_words()
    ensures { (quoted : Bool) (octets text : List ℕ) → WritesOctets quoted octets text → octets_of (record { written = text; quoted = quoted }) ≡ octets }
{}
