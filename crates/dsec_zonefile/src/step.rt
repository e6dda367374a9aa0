//! The first line of a text that says something.

ghost use Rattle.std.specs.Prelude.{◌≡◌, ◌+◌, ◌<◌, ◌^◌, None, length, IfOk};
ghost use Rattle.dsec_zonefile.specs.Places.{IsSized, Steps};

use crate::error::{InplaceError, ZonefileError};
use crate::line::read_line;
use crate::setting::{Said, Setting};
use dsec_text::{Found, LineError, first_line};
use dsec_word::ReadError;
use std::alloc::Global;

/// What a line says, and where it ends.
#[derive(Drop)]
pub struct Step {
    /// What it says.
    pub said: Said,
    /// How many octets it and those before it take.
    pub octets: usize,
    /// How many line ends are in these.
    pub lines: usize,
    /// The line where it begins. The first line has the number 1.
    pub begins: usize,
}

/// What stands ahead in a text.
#[derive(Drop)]
pub enum Ahead {
    /// A line that says something.
    Step(Step),
    /// The end of the text.
    End {
        /// How many line ends the text has.
        lines: usize,
    },
}

/// What the first line of a text with a word says under a setting, where so many line ends were passed before; or the end.
pub fn read_step(
    alloc: Global,
    passed: usize,
    setting: &Setting,
    text: &[u8],
) -> Result<Ahead, ZonefileError>
    requires { passed + length text.now < 2 ^ 63 }
    ensures exact { Steps (record { text = text.now; passed = passed; setting = setting.now; refused = None; begun = 0 }) result }
    ensures sized { IfOk result (λ ahead. IsSized (length text.now) ahead) }
{
    let line = match first_line(alloc, text) {
        Ok(Found::Line(line)) => line,
        Ok(Found::End { line_ends }) => return Ok(Ahead::End { lines: line_ends }),
        Err(LineError::Bad(bad)) => return Err(refused(passed + bad.before)),
        Err(LineError::NoMemory) => return Err(ZonefileError::NoMemory),
    };
    match read_line(alloc, setting, &line) {
        Ok(said) => Ok(Ahead::Step(Step {
            said,
            octets: line.span.end,
            lines: line.span.before + line.line_ends,
            begins: passed + line.span.before + 1,
        })),
        Err(ReadError::Bad) => Err(refused(passed + line.span.before)),
        Err(ReadError::NoMemory) => Err(ZonefileError::NoMemory),
    }
}

/// The refusal of the line behind so many line ends.
fn refused(lines: usize) -> ZonefileError
    requires { lines < 2 ^ 63 }
    ensures { result ≡ ZonefileError.Inplace (record { line = lines + 1 }) }
{
    ZonefileError::Inplace(InplaceError { line: lines + 1 })
}
