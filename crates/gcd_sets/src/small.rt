// A set of few numbers, which takes no memory.
ghost use Rattle.std.specs.Prelude.{◌≡◌, ◌≢◌, ◌<◌, ℕ, true, false};
ghost use Rattle.gcd_sets.specs.Words.{is_in_words};

use crate::word::has_bit;
use std::marker::Model;

/// A set of numbers below 1,024 in sixteen words: it takes no memory, and may be made for the length of one call. Contracts
/// see its words, and ask by `is_in_words` which numbers are in them.
#[derive(Drop)]
pub struct SmallSet {
    words: [u64; 16],
}

impl Model for SmallSet {
    ghost use Rattle.std.specs.Prelude.{List, ℕ};

    ghost Value = { List ℕ };

    ghost view = { λ s. s.words };
}

impl SmallSet {
    /// The empty set.
    pub fn new() -> SmallSet
        ensures { (i : ℕ) → is_in_words result i ≡ false }
    {
        SmallSet { words: [0; 16] }
    }

    /// Whether the number is in the set.
    pub fn has(&self, i: u32) -> bool
        requires { i < 1024 }
        ensures { result ≡ is_in_words self.now i }
    {
        has_bit(self.words[i as usize / 64], i % 64)
    }

    /// The number is in the set from now on; nothing changes where it was before.
    pub fn set(&mut self, i: u32)
        requires { i < 1024 }
        ensures there { is_in_words self.new i ≡ true }
        ensures others { (k : ℕ) → k ≢ i → is_in_words self.new k ≡ is_in_words self.old k }
    {
        self.words[i as usize / 64] |= 1 << (i % 64);
    }

    /// The number is not in the set from now on; nothing changes where it was not before.
    pub fn clear(&mut self, i: u32)
        requires { i < 1024 }
        ensures gone { is_in_words self.new i ≡ false }
        ensures others { (k : ℕ) → k ≢ i → is_in_words self.new k ≡ is_in_words self.old k }
    {
        self.words[i as usize / 64] &= !(1 << (i % 64));
    }
}
