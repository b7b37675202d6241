// The plan of a script.
ghost use Rattle.std.specs.Prelude.{◌≡◌, ◌<◌, ◌+◌, Ok, IfOk, IfErr, OnOk, length, option_map};
ghost use Rattle.std.specs.Option.{option_map_or};
ghost use Rattle.gcd_plan.specs.Validity.{IsPlan};
ghost use Rattle.gcd_builder.specs.Agreement.{Agrees};
ghost use Rattle.gcd_script.specs.Causes.{HasItsCause, coded};
ghost use Rattle.gcd_script.specs.Faults.{is_mark, line_meant, after_line, IsScriptOf};
ghost use Rattle.gcd_script.specs.Meant.{meant};
ghost use Rattle.gcd_script.specs.Refusals.{IsRefusal, IsLineRefusal};
ghost use Rattle.gcd_script.specs.Sound.{IsDraft};
ghost use Rattle.gcd_script.specs.Views.{draft_view, line_view};

use crate::cause::Cause;
use crate::draft::Draft;
use crate::fault::ParseFault;
use crate::line::Line;
use crate::meant::Meant;
use gcd_plan::Plan;
use gcd_text::{first_word, next_line, printable, words};
use std::alloc::Global;

// In long scripts there is a name for about so many bytes: a line declares it, and another uses it.
const BYTES_OF_NAME: usize = 48;

// Whether the word begins with `#`.
fn is_mark(word: &str) -> bool
    ensures { result ≡ is_mark word.now }
{
    match word.as_bytes().first() {
        Some(c) => *c == b'#',
        None => false,
    }
}

// What a line means; None where it is skipped.
#[inline(always)]
fn line_meant<'a>(draft: &Draft<'a>, line: &'a [u8]) -> Meant<Option<Line<&'a str>>>
    requires { Agrees draft.now.plan }
    ensures { meant (option_map line_view) (coded result) ≡ line_meant (draft_view draft.now) line.now }
{
    let Some(text) = printable(line) else {
        return Err(Cause::BadByte);
    };
    let Some((first, rest)) = first_word(text) else {
        return Ok(None);
    };
    if is_mark(first) {
        return Ok(None);
    }
    let Some(words) = words(rest) else {
        return Err(Cause::WordCount);
    };
    let line = draft.line_of(first, words.as_slice())?;
    Ok(Some(line))
}

// Takes one line more. After an error the draft is of no use.
fn take_line<'a>(draft: &mut Draft<'a>, alloc: Global, line: &'a [u8]) -> Result<(), ParseFault>
    requires agrees { Agrees draft.old.plan }
    requires sound { IsDraft (draft_view draft.old) }
    requires room { draft.old.lines < u32.MAX }
    ensures view { OnOk result (after_line (draft_view draft.old) line.now ≡ Ok (draft_view draft.new)) }
    ensures agrees { OnOk result (Agrees draft.new.plan) }
    ensures sound { OnOk result (IsDraft (draft_view draft.new)) }
    ensures counted { OnOk result (draft.new.lines ≡ draft.old.lines + 1) }
    ensures refused { IfErr result (IsLineRefusal (draft_view draft.old) line.now) }
    ensures cause { IfErr result HasItsCause }
{
    match line_meant(draft, line) {
        Ok(Some(line)) => {
            draft.add(alloc, &line)?;
            Ok(())
        }
        Ok(None) => {
            draft.lines += 1;
            Ok(())
        }
        Err(cause) => Err(ParseFault::refused(draft.lines + 1, cause)),
    }
}

/// The plan that a script declares.
///
/// A text that is no script is `Refused`, with its first line at fault, counted from 1, and the lowest code that applies
/// to it: the page of this crate has the codes. Its cause is one of that code ([`Cause::code`]). Where all lines are right and
/// none is `main`, the line after the last is named. `Memory` says that memory ran out, and nothing of the text.
///
/// The text has fewer than 2^32 - 1 bytes, so that the number of each line, and of the line after the last, fits.
pub fn parse(alloc: Global, bytes: &[u8]) -> Result<Plan, ParseFault>
    requires { length bytes.now < u32.MAX }
    ensures script { IfOk result (IsScriptOf bytes.now) }
    ensures valid { IfOk result IsPlan }
    ensures refused { IfErr result (IsRefusal bytes.now) }
    ensures cause { IfErr result HasItsCause }
{
    let mut draft = Draft::new(alloc, bytes.len() / BYTES_OF_NAME)?;
    let mut rest = bytes;
    while let Some((line, more)) = next_line(rest) {
        take_line(&mut draft, alloc, line)?;
        rest = more;
    }
    if !draft.has_main {
        return Err(ParseFault::refused(draft.lines + 1, Cause::NoMain));
    }
    Ok(Plan::of_valid_parts(draft.plan.into_parts()).share(alloc)?)
}
