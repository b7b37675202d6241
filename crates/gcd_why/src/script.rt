// Why a script is refused.
ghost use Rattle.std.specs.Prelude.{◌≡◌, IfOk};

use crate::sentence::Sentence;
use gcd_cause::cause_of_script;
use gcd_script::Cause;
use std::alloc::{AllocError, Global};

/// Says why a script, of this name and text, is refused at that line with that cause. Line 0 is the script as a whole. An `Err` comes
/// only where memory runs out.
pub fn why_script<'a>(
    alloc: Global,
    file: &'a str,
    text: &[u8],
    line: u32,
    cause: Cause,
) -> Result<Sentence<'a>, AllocError>
    ensures file { IfOk result (λ s. s.file.now ≡ file.now) }
    ensures line { IfOk result (λ s. s.line ≡ line) }
{
    Sentence::of(alloc, file, line, cause_of_script(text, line, cause))
}
