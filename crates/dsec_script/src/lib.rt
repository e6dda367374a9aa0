//! Validation scripts: their grammar, read exactly.
#![tactic(auto)]

mod compared;
mod error;
mod items;
mod line;
mod place;
mod script;
mod text;

pub use compared::{
    law_of_equal_refused_lines, law_of_equal_refused_words, law_of_equal_script_errors,
};
pub use error::{Refused, ScriptError, Word};
pub use items::{Item, Items};
pub use script::{Script, read_script};
