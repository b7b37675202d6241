// What a form asks of one word, where nothing that is declared counts.
ghost use Rattle.std.specs.Prelude.{◌≡◌, ◌≤◌, Ok, IfOk, IfSome};
ghost use Rattle.gcd_script.specs.Amounts.{least, most};
ghost use Rattle.gcd_script.specs.Causes.{coded};
ghost use Rattle.gcd_script.specs.Declarations.{one_of, range, counting, work};
ghost use Rattle.gcd_script.specs.Keywords.{queue_kinds, merge_kinds, counts};
ghost use Rattle.gcd_script.specs.Words.{path, number};

use crate::amount::Amount;
use crate::cause::{Cause, Choice};
use crate::meant::{Meant, both, must};
use gcd_plan::{How, Kind, Work, is_path};

/// Returns whether the word at that place is a path.
pub fn path(place: u8, word: &str) -> Meant<()>
    ensures { coded result ≡ path word.now }
{
    must(is_path(word.as_bytes()), Cause::LongPath { place })
}

/// Returns the number that the word at that place writes.
pub fn number(place: u8, amount: Amount, word: &str) -> Meant<u32>
    ensures value { coded result ≡ number (least amount) (most amount) word.now }
    ensures within { IfOk result (λ n. n ≤ most amount) }
{
    within(place, amount, amount.least(), amount.most(), word)
}

// Returns the number that the word writes, from `low` to `high`.
fn within(place: u8, amount: Amount, low: u32, high: u32, word: &str) -> Meant<u32>
    ensures value { coded result ≡ number low high word.now }
    ensures within { IfOk result (λ n. n ≤ high) }
{
    match gcd_text::number(word.as_bytes()) {
        Some(n) => {
            if n < u64::from(low) {
                return Err(Cause::BadNumber { place, amount });
            }
            if u64::from(high) < n {
                return Err(Cause::BadNumber { place, amount });
            }
            Ok(n as u32)
        }
        None => Err(Cause::BadNumber { place, amount }),
    }
}

/// Returns the range of a work: where it starts, and how many bytes it has at most. The two words are at these places.
pub fn range(places: (u8, u8), from: &str, len: &str) -> Meant<(u32, u32)>
    ensures { coded result ≡ range from.now len.now }
{
    both(
        number(places.0, Amount::Extent, from),
        number(places.1, Amount::Extent, len),
    )
}

/// Returns the kind of a queue, the third word of its line.
pub fn queue_kind(word: &str) -> Meant<Kind>
    ensures { coded result ≡ one_of queue_kinds word.now }
{
    if word == "serial" {
        Ok(Kind::Serial)
    } else if word == "concurrent" {
        Ok(Kind::Concurrent)
    } else {
        Err(Cause::Misplaced {
            place: 3,
            expected: Choice::QueueKind,
        })
    }
}

/// Returns the kind of a source of merged values, the third word of its line.
pub fn merge_kind(word: &str) -> Meant<Kind>
    ensures { coded result ≡ one_of merge_kinds word.now }
{
    if word == "add" {
        Ok(Kind::Add)
    } else if word == "or" {
        Ok(Kind::Or)
    } else if word == "replace" {
        Ok(Kind::Replace)
    } else {
        Err(Cause::Misplaced {
            place: 3,
            expected: Choice::MergeKind,
        })
    }
}

// Finds what the word counts, by its bytes. It returns None for each other word.
fn known_count(word: &str) -> Option<How>
    ensures { IfSome result (λ how. one_of counts word.now ≡ Ok how) }
{
    match word.as_bytes() {
        [b'b', b'y', b't', b'e', b's'] => Some(How::Bytes),
        [b'l', b'i', b'n', b'e', b's'] => Some(How::Lines),
        [b'w', b'o', b'r', b'd', b's'] => Some(How::Words),
        [b's', b'u', b'm'] => Some(How::Sum),
        _ => None,
    }
}

/// Returns what a work counts, the third word of its line. `count` is read by [`counting`].
pub fn count(word: &str) -> Meant<How>
    ensures { coded result ≡ one_of counts word.now }
{
    if let Some(how) = known_count(word) {
        return Ok(how);
    }
    if word == "bytes" {
        Ok(How::Bytes)
    } else if word == "lines" {
        Ok(How::Lines)
    } else if word == "words" {
        Ok(How::Words)
    } else if word == "sum" {
        Ok(How::Sum)
    } else {
        Err(Cause::Misplaced {
            place: 3,
            expected: Choice::Work,
        })
    }
}

/// Returns the work that counts the bytes of a value, the fourth word of its line.
pub fn counting(word: &str) -> Meant<How>
    ensures { coded result ≡ counting word.now }
{
    let value = number(4, Amount::Byte, word)?;
    Ok(How::Count(value as u8))
}

/// A work: what it counts, and over which part of a file.
pub fn work(how: Meant<How>, file: Meant<u32>, part: Meant<(u32, u32)>) -> Meant<Work>
    ensures { coded result ≡ work (coded how) (coded file) (coded part) }
{
    let (how, (file, (start, len))) = both(how, both(file, part))?;
    Ok(Work {
        how,
        file,
        start,
        len,
    })
}
