// One word of 64 bits.
ghost use Rattle.std.specs.Prelude.{◌≡◌, ◌-◌, ◌<◌};
ghost use Rattle.std.specs.List.{find, range_with_len};
ghost use Rattle.gcd_sets.specs.Words.{is_set};

/// The lowest bit of the word that is set, from the given one on.
pub fn lowest_from(word: u64, from: u32) -> Option<u32>
    requires { from < 64 }
    ensures { result ≡ find (is_set word) (range_with_len from (64 - from)) }
{
    let rest = word & (u64::MAX << from);
    if rest == 0 {
        return None;
    }
    Some(rest.trailing_zeros())
}

/// Whether the bit of the word is set.
pub fn has_bit(word: u64, i: u32) -> bool
    requires { i < 64 }
    ensures { result ≡ is_set word i }
{
    (word >> i) & 1 == 1
}
