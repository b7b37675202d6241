// Why a text is no journal.
ghost use Rattle.std.specs.Prelude.{◌≡◌, IfOk};

use crate::sentence::Sentence;
use gcd_cause::cause_of_journal;
use gcd_journal::JournalCause;
use std::alloc::{AllocError, Global};

/// Says why a text, under this name, is no journal, of at most `most` events, at that line with that cause. Line 0 is the text as a
/// whole. An `Err` comes only where memory runs out.
pub fn why_journal<'a>(
    alloc: Global,
    most: u32,
    file: &'a str,
    text: &[u8],
    line: u32,
    cause: JournalCause,
) -> Result<Sentence<'a>, AllocError>
    ensures file { IfOk result (λ s. s.file.now ≡ file.now) }
    ensures line { IfOk result (λ s. s.line ≡ line) }
{
    Sentence::of(alloc, file, line, cause_of_journal(text, most, line, cause))
}
