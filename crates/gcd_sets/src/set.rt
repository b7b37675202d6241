// The set.
ghost use Rattle.std.specs.Prelude.{◌≡◌, ◌+◌, ◌-◌, ◌*◌, ◌<◌, ◌≤◌, ◌==◌, ◌&&◌, not, true, false, None, Some, IfOk, length, replicate, slice_index_or, slice_set};
ghost use Rattle.std.specs.List.{count_by, find, range_with_len};

use crate::word::{has_bit, lowest_from};
use std::alloc::{AllocError, Global};
use std::marker::Model;

/// A set of numbers below a length. Contracts see it as a list of truth values, one for each number.
#[derive(Drop)]
pub struct BitSet {
    words: Vec<u64>,
    len: u32,
    // How many numbers are in the set.
    count: u32,
}

impl Model for BitSet {
    ghost use Rattle.std.specs.Prelude.{Bool, List};
    ghost use Rattle.gcd_sets.specs.Words.{bits_of, AreCounted};

    ghost Value = { List Bool };

    ghost view = { λ s. bits_of s.words.items s.len };

    ghost invariant = { λ s. AreCounted s.words.items s.len s.count };
}

// The number of a bit of a word, where it is below the length.
fn number_below(len: u32, at: usize, bit: u32) -> Option<u32>
    requires word { 64 * at < len }
    requires bit { bit < 64 }
    ensures within { 64 * at + bit < len → result ≡ Some (64 * at + bit) }
    ensures past { len ≤ 64 * at + bit → result ≡ None }
{
    let i = 64 * at + bit as usize;
    if i < len as usize {
        Some(i as u32)
    } else {
        None
    }
}

impl BitSet {
    /// An empty set for the numbers below `len`. It takes all the memory that the set ever needs: an `Err` comes only of want
    /// of it.
    pub fn new(alloc: Global, len: u32) -> Result<BitSet, AllocError>
        ensures { IfOk result (λ s. s ≡ replicate len false) }
    {
        Ok(BitSet {
            words: vec![in alloc; 0; (len as usize).div_ceil(64)]?,
            len,
            count: 0,
        })
    }

    /// Copies the set. The copy takes all its memory at once, so an `Err` comes only if memory runs out.
    pub fn copied(&self, alloc: Global) -> Result<BitSet, AllocError>
        ensures { IfOk result (λ s. s ≡ self.now) }
    {
        Ok(BitSet {
            words: Vec::from_slice(alloc, &self.words)?,
            len: self.len,
            count: self.count,
        })
    }

    /// The length that the set was made with: its numbers are below it.
    pub fn len(&self) -> u32
        ensures { result ≡ length self.now }
    {
        self.len
    }

    /// How many numbers are in the set.
    pub fn count(&self) -> u32
        ensures { result ≡ count_by (λ b. b) self.now }
    {
        self.count
    }

    /// Whether no number is in the set.
    pub fn is_empty(&self) -> bool
        ensures { result ≡ (count_by (λ b. b) self.now == 0) }
    {
        self.count == 0
    }

    /// Whether the number is in the set.
    pub fn has(&self, i: u32) -> bool
        requires { i < length self.now }
        ensures { result ≡ slice_index_or self.now i false }
    {
        has_bit(self.words[i as usize / 64], i % 64)
    }

    /// The least number in the set from the given one on; None exactly where there is none. It takes a step for each word of
    /// 64 numbers that it passes, and none where the set is empty.
    pub fn next(&self, from: u32) -> Option<u32>
        ensures { result ≡ find (λ i. slice_index_or self.now i false) (range_with_len from (length self.now - from)) }
    {
        if self.count == 0 {
            return None;
        }
        let mut start = from % 64;
        for at in from as usize / 64..self.words.len() {
            if let Some(bit) = lowest_from(self.words[at], start) {
                return number_below(self.len, at, bit);
            }
            start = 0;
        }
        None
    }

    /// The least number from the given one on that is in this set and not in the other, which has the same length. It returns
    /// None exactly if there is none. It takes a step for each word of 64 numbers that it passes, and none if this set is empty.
    /// (This project's own rule.)
    pub fn next_without(&self, other: &BitSet, from: u32) -> Option<u32>
        requires { length other.now ≡ length self.now }
        ensures { result ≡ find (λ i. slice_index_or self.now i false && not (slice_index_or other.now i false))
            (range_with_len from (length self.now - from)) }
    {
        if self.count == 0 {
            return None;
        }
        let mut start = from % 64;
        for at in from as usize / 64..self.words.len() {
            if let Some(bit) = lowest_from(self.words[at] & !other.words[at], start) {
                return number_below(self.len, at, bit);
            }
            start = 0;
        }
        None
    }

    /// The number is in the set from now on; nothing changes where it was before.
    pub fn set(&mut self, i: u32)
        requires { i < length self.old }
        ensures { self.new ≡ slice_set self.old i true }
    {
        if !self.has(i) {
            self.words[i as usize / 64] |= 1 << (i % 64);
            self.count += 1;
        }
    }

    /// The number is not in the set from now on; nothing changes where it was not before.
    pub fn clear(&mut self, i: u32)
        requires { i < length self.old }
        ensures { self.new ≡ slice_set self.old i false }
    {
        if self.has(i) {
            self.words[i as usize / 64] &= !(1 << (i % 64));
            self.count -= 1;
        }
    }

    /// The number is in the set from now on exactly where `present` says so.
    #[inline(always)]
    pub fn put(&mut self, i: u32, present: bool)
        requires { i < length self.old }
        ensures { self.new ≡ slice_set self.old i present }
    {
        if present {
            self.set(i);
        } else {
            self.clear(i);
        }
    }
}
