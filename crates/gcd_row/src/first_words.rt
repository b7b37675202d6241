// The first words of a ring that begins with a history.
ghost use Rattle.std.specs.Prelude.{◌≡◌, ◌<◌, ◌≤◌, ◌-◌, ℕ, length, map, IfOk};
ghost use Rattle.gcd_event.specs.Words.{word_of};
ghost use Rattle.gcd_row.specs.Ring.{AreBlank, AreFirstWords, HasLap, blank_word, ring, ring_words};

use crate::steps::{GONE, PASSED_WORDS, RING, RING_WORDS, cell_of, lapped};
use gcd_event::{Entry, to_word};
use std::alloc::{AllocError, Global};

// Returns the word at a place of a ring without events. Each worker has passed this many events.
fn word_at(i: u32, workers: u8, passed: u64) -> u64
    requires { workers ≤ 64 }
    ensures { result ≡ blank_word workers passed i }
{
    if i < PASSED_WORDS {
        return 0;
    }
    if i < PASSED_WORDS + u32::from(workers) {
        return passed;
    }
    GONE
}

// Makes the words of such a ring.
fn blank_words(alloc: Global, workers: u8, passed: u64) -> Result<Vec<u64>, AllocError>
    requires { workers ≤ 64 }
    ensures { IfOk result (λ w. AreBlank workers passed w.items) }
{
    let mut words = Vec::with_capacity(alloc, RING_WORDS as usize)?;
    let mut i = 0;
    while i < RING_WORDS {
        words.push_reserved(word_at(i, workers, passed));
        i += 1;
    }
    Ok(words)
}

// Writes the last lap of a history into the cells of a blank ring.
fn write_lap(words: &mut Vec<u64>, history: &Vec<Entry>)
    requires few { length history.now.items < 4294967296 }
    requires size { length words.old.items ≡ ring_words }
    ensures { (workers passed : ℕ) → AreBlank workers passed words.old.items
        → HasLap workers passed words.new.items (map word_of history.now.items) (length history.now.items - ring) (length history.now.items) }
{
    let first = history.len().saturating_sub(RING as usize);
    for n in first..history.len() {
        let word = to_word(history[n].event());
        words[cell_of(n as u32)] = lapped(word, n as u32);
    }
}

// Makes the words of a ring that begins with this history, which each worker has passed.
pub fn first_words(alloc: Global, workers: u8, history: &Vec<Entry>) -> Result<Vec<u64>, AllocError>
    requires workers { workers ≤ 64 }
    requires few { length history.now.items < 4294967296 }
    ensures { IfOk result (λ w. (most : ℕ) → length history.now.items ≤ most → AreFirstWords most workers w.items (map word_of history.now.items)) }
{
    let passed = history.len() as u64;
    let mut words = blank_words(alloc, workers, passed)?;
    write_lap(&mut words, history);
    Ok(words)
}
